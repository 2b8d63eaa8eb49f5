//! How far a script is: its zones are opened, or the core runs.

ghost use Rattle.std.specs.Prelude.{◌≡◌, []};
ghost use Rattle.script_codec.specs.State.{state_of as state_seen};
ghost use Rattle.script_codec.specs.Within.{IsWithin, IsZone, MayOpen};
ghost use Rattle.script_loop.specs.Replay.{Steps};
ghost use Rattle.rpz_core.specs.declared.event.Event.TheVariants as event_form;
ghost use Rattle.rpz_program.specs.Stage.{new_stage, stage_event, stage_line, stage_network, stage_primary, stage_zone, state_in};

use crate::answering::answer_event;
use crate::opened::Opened;
use dns_name::Octets;
use ip_prefix::{Addr, Transport};
use networks::Network;
use policy_override::ZoneSet;
use rpz_core::{Core, Event};
use script_codec::{Line, LineFault, ScriptState, UnnumberedError, read_unnumbered};
use script_loop::{AnswerError, Machine};
use std::alloc::Global;

/// How far a script is.
#[derive(Drop)]
pub(crate) enum Stage {
    /// Its zones are opened: all lines so far were zone lines, primary lines and allow lines.
    Opening(Opened),
    /// The core runs, with the zones that were opened.
    Running(Core),
}

impl Machine for Stage {
    type Cause = LineFault;

    ghost use Rattle.script_codec.specs.declared.line_fault.LineFault.TheVariants.{Lines, TooLong};
    ghost use Rattle.rpz_program.specs.Stage.{stage_step};

    ghost step = { stage_step };

    ghost too_many = { Lines };

    ghost too_long = { TooLong };

    fn too_many() -> LineFault {
        LineFault::Lines
    }

    fn too_long() -> LineFault {
        LineFault::TooLong
    }

    fn answer(
        &mut self,
        alloc: Global,
        line: &[u8],
        reply: &mut Vec<u8>,
    ) -> Result<(), AnswerError<LineFault>> {
        match read_unnumbered(alloc, line, &self.state()) {
            Ok(None) => Ok(()),
            Ok(Some(line)) => self.take_line(alloc, line, reply),
            Err(UnnumberedError::Refused(why)) => Err(AnswerError::Refused(why)),
            Err(UnnumberedError::OutOfMemory) => Err(AnswerError::OutOfMemory),
        }
    }
}

impl Stage {
    /// No zone is opened. It takes no memory.
    pub(crate) fn new(alloc: Global) -> Self
        ensures { result ≡ new_stage }
    {
        Stage::Opening(Opened::new(alloc))
    }

    // What lines are read by.
    fn state(&self) -> ScriptState<'_>
        ensures { state_seen result ≡ state_in self.now }
    {
        match self {
            Stage::Opening(opened) => ScriptState::Opening {
                zones: opened.zones(),
                primaries: opened.primaries(),
                allowed: opened.allowed(),
            },
            Stage::Running(core) => ScriptState::Running {
                zones: core.zone_count(),
                pending: core.pending(),
            },
        }
    }

    // What a line does, and what it writes.
    #[tactic(auto, unfolding(crate::specs::Stage::stage_line))]
    fn take_line(
        &mut self,
        alloc: Global,
        line: Line,
        reply: &mut Vec<u8>,
    ) -> Result<(), AnswerError<LineFault>>
        requires reply { reply.old.items ≡ [] }
        requires within { IsWithin (state_in self.old) line }
        ensures { Steps (stage_line self.old line) result self.new reply.new.items }
    {
        match line {
            Line::Zone { origin, over } => self.open(ZoneSet { origin, over }),
            Line::Primary { zone, address } => self.give_primary(zone, address),
            Line::Allow(network) => self.allow(network),
            Line::Transfer { zone, stream } => {
                self.take(alloc, Event::Transfer { zone, stream }, reply)
            }
            Line::Full { zone } => self.take(alloc, Event::Full { zone }, reply),
            Line::Query {
                worker,
                transport,
                client,
                message,
            } => self.take(
                alloc,
                query_event(worker, transport, client, message),
                reply,
            ),
            Line::Give { worker, message } => {
                self.take(alloc, Event::Give { worker, message }, reply)
            }
            Line::Fail { worker } => self.take(alloc, Event::Fail { worker }, reply),
            Line::Notify { client, message } => {
                self.take(alloc, Event::Notify { client, message }, reply)
            }
            Line::Due => self.take(alloc, Event::Due, reply),
            Line::Clock { seconds } => self.take(alloc, Event::Clock { seconds }, reply),
        }
    }

    // Opens a zone, which writes nothing.
    fn open(&mut self, zone: ZoneSet) -> Result<(), AnswerError<LineFault>>
        requires { MayOpen (state_in self.old) zone.origin }
        ensures { Steps (stage_zone self.old zone) result self.new [] }
    {
        match self {
            Stage::Opening(opened) => {
                opened.push(zone)?;
                Ok(())
            }
            Stage::Running(_) => Err(AnswerError::Refused(LineFault::Late)),
        }
    }

    // Gives a zone its primary, which writes nothing.
    fn give_primary(&mut self, zone: u32, address: Addr) -> Result<(), AnswerError<LineFault>>
        requires { IsZone (state_in self.old) zone }
        ensures { Steps (stage_primary self.old zone address) result self.new [] }
    {
        match self {
            Stage::Opening(opened) => {
                opened.set_primary(zone, address);
                Ok(())
            }
            Stage::Running(_) => Err(AnswerError::Refused(LineFault::Late)),
        }
    }

    // Lets the clients of a network ask, which writes nothing.
    fn allow(&mut self, network: Network) -> Result<(), AnswerError<LineFault>>
        ensures { Steps (stage_network self.old network) result self.new [] }
    {
        match self {
            Stage::Opening(opened) => {
                opened.allow(network)?;
                Ok(())
            }
            Stage::Running(_) => Err(AnswerError::Refused(LineFault::Late)),
        }
    }

    // Takes an event; the first begins the core.
    fn take(
        &mut self,
        alloc: Global,
        event: Event,
        reply: &mut Vec<u8>,
    ) -> Result<(), AnswerError<LineFault>>
        requires { reply.old.items ≡ [] }
        ensures { Steps (stage_event self.old event) result self.new reply.new.items }
    {
        match self {
            Stage::Running(core) => answer_event(alloc, core, event, reply),
            Stage::Opening(opened) => {
                let allowed = opened.allowed().again(alloc)?;
                let mut core = Core::start(
                    alloc,
                    opened.zones().as_slice(),
                    opened.primaries(),
                    allowed,
                )?;
                answer_event(alloc, &mut core, event, reply)?;
                *self = Stage::Running(core);
                Ok(())
            }
        }
    }
}

// The event of a query line.
fn query_event(worker: u32, transport: Transport, client: Addr, message: Octets) -> Event
    ensures { result ≡ event_form.Query worker transport client message }
{
    Event::Query {
        worker,
        transport,
        client,
        message,
    }
}
