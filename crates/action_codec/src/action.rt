//! The action of a rule.

ghost use Rattle.std.specs.Prelude.{◌≡◌};
ghost use Rattle.action_codec.specs.Seen.{action_seen};

use crate::local::LocalRows;
use crate::local_ref::LocalRef;

/// What a rule of a response policy zone does (draft-vixie-dnsop-dns-rpz, section 3).
#[derive(Debug, Drop)]
pub enum Action {
    /// The name does not exist (section 3.1).
    NxDomain,
    /// The name has no records of the type (section 3.2).
    NoData,
    /// The answer passes as it is (section 3.3).
    PassThru,
    /// No reply (section 3.4).
    Drop,
    /// Over UDP a truncated reply, so that the client asks again over TCP (section 3.5).
    TcpOnly,
    /// These rows are the answer (section 3.6). There is at least one.
    Local(LocalRows),
}

/// An action as an index lends it, so that whoever has it needn't know how the index keeps it.
#[derive(Debug, Drop)]
pub enum ActionRef<'a> {
    /// The name does not exist.
    NxDomain,
    /// The name has no records of the type.
    NoData,
    /// The answer passes as it is.
    PassThru,
    /// No reply.
    Drop,
    /// Over UDP a truncated reply.
    TcpOnly,
    /// These rows are the answer.
    Local(LocalRef<'a>),
}

impl Action {
    /// The action, lent.
    pub fn lend(&self) -> ActionRef<'_>
        ensures { action_seen result ≡ self.now }
    {
        match self {
            Action::NxDomain => ActionRef::NxDomain,
            Action::NoData => ActionRef::NoData,
            Action::PassThru => ActionRef::PassThru,
            Action::Drop => ActionRef::Drop,
            Action::TcpOnly => ActionRef::TcpOnly,
            Action::Local(rows) => ActionRef::Local(rows.lend()),
        }
    }
}
