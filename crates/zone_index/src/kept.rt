//! What a trie keeps beside a number.

ghost use Rattle.std.specs.Prelude.{◌≡◌};
ghost use Rattle.zone_index.specs.Does.{does_seen};
ghost use Rattle.zone_index.specs.Kept.{lone_does, mark_of};

use crate::does::{Does, DoesRef};
use trie_keys::Mark;

/// What the number at a key is, and what the rows of the key do. It takes one octet.
#[derive(Clone, Copy, Drop)]
pub(crate) enum Kept {
    /// There is no number.
    Absent,
    /// That of a row that does nothing.
    Nothing,
    NxDomain,
    NoData,
    PassThru,
    Drop,
    TcpOnly,
    /// That of a row that is the answer.
    Row,
    /// That of a group that does something.
    Group,
    /// That of a group that does nothing.
    IdleGroup,
}

// so that a node of names takes 24 octets, as octet_trie has it
const _: () = prove!(size_of::<Kept>() == 1);

impl Mark for Kept {
    ghost use Rattle.zone_index.specs.Kept.{is_kept, kept_acts};

    ghost present = { is_kept };

    ghost acts = { kept_acts };

    fn absent() -> Self {
        Kept::Absent
    }

    fn is_present(&self) -> bool {
        match self {
            Kept::Absent => false,
            _ => true,
        }
    }

    fn does_act(&self) -> bool {
        match self {
            Kept::Absent | Kept::Nothing | Kept::IdleGroup => false,
            _ => true,
        }
    }
}

impl Kept {
    // What the row does whose number has this mark.
    pub(crate) fn lone<'a>(self) -> DoesRef<'a>
        ensures { does_seen result ≡ lone_does self }
    {
        match self {
            Kept::NxDomain => DoesRef::NxDomain,
            Kept::NoData => DoesRef::NoData,
            Kept::PassThru => DoesRef::PassThru,
            Kept::Drop => DoesRef::Drop,
            Kept::TcpOnly => DoesRef::TcpOnly,
            Kept::Row => DoesRef::Row,
            _ => DoesRef::Nothing,
        }
    }

    // The mark of the number of a row that does so, or `None` where a group has to say it.
    pub(crate) fn of(does: &Does) -> Option<Kept>
        ensures { result ≡ mark_of does.now }
    {
        match does {
            Does::Nothing => Some(Kept::Nothing),
            Does::NxDomain => Some(Kept::NxDomain),
            Does::NoData => Some(Kept::NoData),
            Does::PassThru => Some(Kept::PassThru),
            Does::Drop => Some(Kept::Drop),
            Does::TcpOnly => Some(Kept::TcpOnly),
            Does::Row => Some(Kept::Row),
            Does::Rows(_) => None,
        }
    }
}
