//! A whole run.

ghost use Rattle.std.specs.Prelude.{◌≡◌, ◌≢◌, ◌+◌, ◌-◌, ◌≤◌, ◌^◌, ℕ, Ok, Err, IfSome, IsOk};
ghost use Rattle.edge_io.specs.Edge.{Rose, WritesPrefix, appended};
ghost use Rattle.script_loop.specs.Replay.{Moves, ReadsNoFurther};
ghost use Rattle.rpz_program.specs.Loading.{EndsLoad, load_line};
ghost use Rattle.rpz_program.specs.Run.{AnswersWholeLines, AreRefused, AreTaken, BeginsTranscript, EndsPage, IsFirstBadLine, IsVerdict, IsWholeScript, StopsBy};
ghost use Rattle.rpz_program.specs.Script.{script_verdict};
ghost use Rattle.rpz_program.specs.Serving.{ServesWhole, server_start, worker_count};
ghost use Rattle.rpz_program.specs.Status.{IsUsage};
ghost use Rattle.rpz_words.specs.Pages.{page_text};
ghost use Rattle.rpz_words.specs.Words.{command_in};
ghost use Rattle.rpz_words.specs.declared.pages.Page.{Page};
ghost use Rattle.rpz_words.specs.declared.command.Command.TheVariants.{Load, Replay, Serve, Show};
ghost use Rattle.rpz_words.specs.declared.settings.LoadSettings.{LoadSettings};
ghost use Rattle.rpz_words.specs.declared.settings.Settings.{Settings};
ghost use Rattle.rpz_words.specs.declared.usage_cause.UsageCause.{UsageCause};

use crate::loading::load;
use crate::replaying::replay_script;
use crate::server::serve;
use crate::status::Status;
use edge_io::{Clock, Ids, Sink, Source, Spawner, write_all};
use rpz_words::{Command, WordsError, read_words};
use rpz_workers::Report;
use server_io::Wires;
use std::alloc::Global;
use std::hash::RandomState;
use std::sync::Wait;
use std::thread::Threads;
use std::time;

/// Runs the command that the words ask for, which stand without the program's name.
///
/// `replay` reads a script from the source and writes its transcript to the sink: line by line, what the policy after the transfers
/// accepted so far answers. `serve` answers clients over the wires, with workers that the spawner runs, and writes the lines of its
/// polls and of its end to the sink. `load` makes a zone and queries from a seed, answers them in threads, and writes one line to the
/// sink, which is the same for every number of threads. `help`, `--help`, `--version` and the like write a page to the sink.
///
/// `hashers` makes the hash of the cache that workers share: where strangers pick the questions, one with a random seed.
pub fn run<
    R: Threads + Wait + time::Clock + Copy + Drop + Send + Sync + 'static,
    S: Source,
    K: Sink,
    W: Wires,
    P: Spawner<Report>,
    C: Clock + Drop + Send + 'static,
    I: Ids + Drop + Send + 'static,
>(
    rt: &R,
    alloc: Global,
    words: &[String],
    script: &mut S,
    out: &mut K,
    wires: &mut W,
    spawner: &mut P,
    clock: &mut C,
    ids: &mut I,
    hashers: RandomState,
) -> Status
    // The words are refused only where they ask for nothing, and for that cause; then nothing is touched.
    ensures usage { (cause : UsageCause) → result ≡ Status.Usage cause → AreTaken words.now →
        command_in words.now ≡ Err cause }
    ensures refused { (cause : UsageCause) → result ≡ Status.Usage cause → AreRefused words.now →
        cause ≡ UsageCause.Words }
    ensures command { (IsUsage result → ⊥) → result ≢ Status.OutOfMemory →
        IsOk (command_in words.now) }
    ensures untouched { IsUsage result →
        (script.new ≡ script.old) × (out.new ≡ out.old) × (wires.new ≡ wires.old)
        × (spawner.new ≡ spawner.old) × (clock.new ≡ clock.old) × (ids.new ≡ ids.old) }

    // The whole script was read, and its transcript written.
    ensures done { result ≡ Status.Done → command_in words.now ≡ Ok Replay →
        IfSome (S.left script.old) (λ bytes.
        IsWholeScript bytes (S.left script.new) (K.held out.old) (K.held out.new)) }

    // The line is the first that is refused, and the transcript up to it was written.
    ensures bad_line { (line : ℕ) (why : _) → result ≡ Status.BadLine line why →
        IfSome (S.left script.old) (λ bytes.
        IsFirstBadLine bytes line why (K.held out.old) (K.held out.new)) }

    // No more was read than the chunk of 8,192 bytes in which that line ends.
    ensures no_further { (line : ℕ) (why : _) → result ≡ Status.BadLine line why →
        ReadsNoFurther line (S.left script.old) (S.left script.new) }

    // After a fault of the source, each line whose line feed was read is answered.
    ensures read_fault { result ≡ Status.ReadFault →
        Moves (S.left script.old) (S.left script.new) (K.held out.old) (K.held out.new)
        AnswersWholeLines }

    // Whatever happens, what was written begins the transcript of what was read; nothing is polled or served.
    ensures prefix { command_in words.now ≡ Ok Replay →
        Moves (S.left script.old) (S.left script.new) (K.held out.old) (K.held out.new)
        BeginsTranscript }
    ensures alone { command_in words.now ≡ Ok Replay →
        (wires.new ≡ wires.old) × (spawner.new ≡ spawner.old) × (clock.new ≡ clock.old)
        × (ids.new ≡ ids.old) }

    // With no fault and with memory, a script of the grammar is done, and another is refused at its first bad line.
    ensures complete { command_in words.now ≡ Ok Replay → AreTaken words.now →
        (Rose (S.faults script.old) (S.faults script.new) → ⊥) →
        (Rose (K.faults out.old) (K.faults out.new) → ⊥) →
        result ≢ Status.OutOfMemory →
        IfSome (S.left script.old) (λ bytes. IsVerdict (script_verdict bytes) result) }

    // What was due was ordered at the start and after each wake, each zone of its own primary; what came was read and published, and each
    // NOTIFY answered. The workers were started once, all inlets ended, and the reports of all workers were gathered. The lines of the
    // polls were written, and then that of the sums. The endpoint that was bound, the links and the orders are what the wires tell.
    ensures served { result ≡ Status.Done → (settings : Settings) →
        command_in words.now ≡ Ok (Serve settings) →
        ServesWhole
        (server_start settings (W.told wires.old) (W.order_faults wires.old) (I.ids ids.old)
        (C.moments clock.old))
        settings.turns
        (record {
          waiting = P.waiting spawner.old + worker_count settings;
          before = P.gathered spawner.old;
          after = P.gathered spawner.new;
        })
        (K.held out.old) (K.held out.new) (W.told wires.new) }

    // However a server ends, what was written begins such lines, and no worker that it started is left.
    ensures stopped { result ≢ Status.Done → (IsUsage result → ⊥) → (settings : Settings) →
        command_in words.now ≡ Ok (Serve settings) →
        StopsBy result
        (server_start settings (W.told wires.old) (W.order_faults wires.old) (I.ids ids.old)
        (C.moments clock.old))
        settings.turns
        (record {
          waiting = P.waiting spawner.old + worker_count settings;
          before = P.gathered spawner.old;
          after = P.gathered spawner.new;
        })
        (K.held out.old) (K.held out.new) }
    ensures gathered { P.waiting spawner.new ≤ P.waiting spawner.old }

    // It blames the source, the sink, a socket or a thread only where a call on it failed.
    ensures source_failed { result ≡ Status.ReadFault →
        Rose (S.faults script.old) (S.faults script.new) }
    ensures sink_failed { result ≡ Status.WriteFault → Rose (K.faults out.old) (K.faults out.new) }
    ensures socket_failed { result ≡ Status.SocketFault →
        Rose (W.faults wires.old) (W.faults wires.new) }
    ensures start_failed { result ≡ Status.StartFault →
        Rose (P.faults spawner.old) (P.faults spawner.new) }

    // With no fault but of orders, and with memory, a server is done.
    ensures complete_server { (settings : Settings) → command_in words.now ≡ Ok (Serve settings) →
        AreTaken words.now →
        (Rose (K.faults out.old) (K.faults out.new) → ⊥) →
        (Rose (W.faults wires.old) (W.faults wires.new) → ⊥) →
        (Rose (P.faults spawner.old) (P.faults spawner.new) → ⊥) → result ≢ Status.OutOfMemory →
        result ≡ Status.Done }

    // The line of a load run was written, which knows nothing of the number of workers.
    ensures loaded { result ≡ Status.Done → (settings : LoadSettings) →
        command_in words.now ≡ Ok (Load settings) →
        K.held out.new ≡ appended (K.held out.old) (load_line settings) }

    // However a load run ends, what was written begins that line; nothing is read, opened or started.
    ensures begins_line { (settings : LoadSettings) → command_in words.now ≡ Ok (Load settings) →
        WritesPrefix (load_line settings) (K.held out.old) (K.held out.new) }
    ensures load_alone { (settings : LoadSettings) → command_in words.now ≡ Ok (Load settings) →
        (script.new ≡ script.old) × (wires.new ≡ wires.old) × (spawner.new ≡ spawner.old)
        × (clock.new ≡ clock.old) × (ids.new ≡ ids.old) }
    ensures ends_load { (settings : LoadSettings) → command_in words.now ≡ Ok (Load settings) →
        EndsLoad result }

    // The page that is asked for was written, and nothing else is touched.
    ensures shown { result ≡ Status.Done → (page : Page) → command_in words.now ≡ Ok (Show page) →
        K.held out.new ≡ appended (K.held out.old) (page_text page) }
    ensures begins_page { (page : Page) → command_in words.now ≡ Ok (Show page) →
        WritesPrefix (page_text page) (K.held out.old) (K.held out.new) }
    ensures show_alone { (page : Page) → command_in words.now ≡ Ok (Show page) →
        (script.new ≡ script.old) × (wires.new ≡ wires.old) × (spawner.new ≡ spawner.old)
        × (clock.new ≡ clock.old) × (ids.new ≡ ids.old) }
    ensures ends_page { (page : Page) → command_in words.now ≡ Ok (Show page) → EndsPage result }

    // With no fault and with memory, a page is shown.
    ensures complete_page { (page : Page) → command_in words.now ≡ Ok (Show page) →
        (Rose (K.faults out.old) (K.faults out.new) → ⊥) → result ≢ Status.OutOfMemory →
        result ≡ Status.Done }

    // With no fault and with memory, a load run is done.
    ensures complete_load { (settings : LoadSettings) →
        command_in words.now ≡ Ok (Load settings) → AreTaken words.now →
        (Rose (K.faults out.old) (K.faults out.new) → ⊥) → result ≢ Status.OutOfMemory →
        result ≡ Status.Done }
{
    match read_words(alloc, words) {
        Ok(Command::Replay) => Status::of_replay(replay_script(alloc, script, out)),
        Ok(Command::Serve(settings)) => Status::of_server(serve(
            rt, alloc, &settings, wires, spawner, clock, ids, out, hashers,
        )),
        Ok(Command::Load(settings)) => Status::of_written(load(rt, alloc, settings, out)),
        Ok(Command::Show(page)) => Status::of_written(write_all(out, page.text().as_bytes())),
        Err(WordsError::Usage(cause)) => Status::Usage { cause },
        Err(WordsError::OutOfMemory) => Status::OutOfMemory,
    }
}
