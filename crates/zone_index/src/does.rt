//! What rows do.

ghost use Rattle.std.specs.Prelude.{◌≡◌};
ghost use Rattle.zone_index.specs.Does.{acts, does_seen};

use action_codec::{LocalRef, LocalRows};

/// What the rows of a place do (draft-vixie-dnsop-dns-rpz, section 3).
#[derive(Debug, Drop)]
pub enum Does {
    /// Nothing.
    Nothing,
    /// The name does not exist (section 3.1).
    NxDomain,
    /// The name has no records of the type (section 3.2).
    NoData,
    /// The answer passes as it is (section 3.3).
    PassThru,
    /// No reply (section 3.4).
    Drop,
    /// Over UDP a truncated reply, so that the client asks again over TCP (section 3.5).
    TcpOnly,
    /// The one row is the answer (section 3.6).
    Row,
    /// These rows are the answer (section 3.6).
    Rows(LocalRows),
}

/// What the rows of a place do, lent.
#[derive(Debug, Drop)]
pub enum DoesRef<'a> {
    /// Nothing.
    Nothing,
    /// The name does not exist.
    NxDomain,
    /// The name has no records of the type.
    NoData,
    /// The answer passes as it is.
    PassThru,
    /// No reply.
    Drop,
    /// Over UDP a truncated reply.
    TcpOnly,
    /// The one row is the answer.
    Row,
    /// These rows are the answer.
    Rows(LocalRef<'a>),
}

impl Does {
    /// What they do, lent.
    pub fn lend(&self) -> DoesRef<'_>
        ensures { does_seen result ≡ self.now }
    {
        match self {
            Does::Nothing => DoesRef::Nothing,
            Does::NxDomain => DoesRef::NxDomain,
            Does::NoData => DoesRef::NoData,
            Does::PassThru => DoesRef::PassThru,
            Does::Drop => DoesRef::Drop,
            Does::TcpOnly => DoesRef::TcpOnly,
            Does::Row => DoesRef::Row,
            Does::Rows(rows) => DoesRef::Rows(rows.lend()),
        }
    }

    /// Whether they do something.
    pub fn acts(&self) -> bool
        ensures { result ≡ acts self.now }
    {
        match self {
            Does::Nothing => false,
            _ => true,
        }
    }
}
