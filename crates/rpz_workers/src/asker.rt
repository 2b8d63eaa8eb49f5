//! Who asks over a link, and who asks nobody.

use crate::asks::{Asked, Asks};
use crate::gate::{GATE_TURNS, Gate};
use dns_message::Question;
use edge_io::{Ids, Link};
use std::alloc::{AllocError, Global};
use upstream_link::{AskOutcome, ask};

/// Asks over a link, with the IDs of its messages and what is passed before each.
#[derive(Drop)]
pub struct Asker<L: Link + Drop, I: Ids + Drop, G: Gate + Drop> {
    pub(crate) link: L,
    pub(crate) ids: I,
    pub(crate) gate: G,
}

impl<L: Link + Drop, I: Ids + Drop, G: Gate + Drop> Asks<L> for Asker<L, I, G> {
    ghost use Rattle.std.specs.Prelude.{false};

    ghost passes_on = { false };

    ghost ids = { λ asker. I.ids asker.ids };

    ghost faults = { λ asker. L.faults asker.link };

    fn ask(
        &mut self,
        alloc: Global,
        question: &Question,
        now: u32,
    ) -> Result<Asked<L>, AllocError> {
        self.gate.pass(GATE_TURNS);
        let id = self.ids.next_id();
        let asked = ask(alloc, &mut self.link, id, question, now)?;
        match asked {
            AskOutcome::Learned(learned) => Ok(Asked::Learned(learned)),
            AskOutcome::Failed => Ok(Asked::Failed),
        }
    }
}

/// Asks nobody.
#[derive(Clone, Copy, Debug, PartialEq, Eq)]
pub struct AsksNobody;

impl<L: Link> Asks<L> for AsksNobody {
    ghost use Rattle.std.specs.Prelude.{true, [], Some};

    ghost passes_on = { true };

    ghost ids = { λ _. Some [] };

    ghost faults = { λ _. 0 };

    fn ask(
        &mut self,
        _alloc: Global,
        _question: &Question,
        _now: u32,
    ) -> Result<Asked<L>, AllocError> {
        Ok(Asked::PassedOn)
    }
}
