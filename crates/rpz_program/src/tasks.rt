//! Tasks of workers.

ghost use Rattle.std.specs.Prelude.{◌≡◌, ◌≢◌, ◌+◌, Err, OnErr, OnOk};
ghost use Rattle.rpz_program.specs.Starting.{UsesSpawner};

use crate::serve_error::ServeError;
use edge_io::{Spawner, StartError, Task};
use rpz_workers::Report;
use std::thread::Threads;

/// Starts a task.
pub(crate) fn start_task<J: Task<Report> + Send + Drop + 'static, P: Spawner<Report>, R: Threads>(
    rt: &R,
    spawner: &mut P,
    job: J,
) -> Result<(), ServeError>
    ensures ok { OnOk result (P.waiting spawner.new ≡ P.waiting spawner.old + 1) }
    ensures err { OnErr result (P.waiting spawner.new ≡ P.waiting spawner.old) }
    ensures uses_spawner { UsesSpawner (result ≡ Err ServeError.StartFault)
        (P.gathered spawner.old) (P.faults spawner.old)
        (P.gathered spawner.new) (P.faults spawner.new) }
    ensures not_socket { result ≢ Err ServeError.SocketFault }
    ensures not_write { result ≢ Err ServeError.WriteFault }
{
    match spawner.start(rt, job) {
        Ok(()) => Ok(()),
        Err(StartError::Failed) => Err(ServeError::StartFault),
        Err(StartError::OutOfMemory) => Err(ServeError::OutOfMemory),
    }
}
