//! Names made of the labels of others.

ghost use Rattle.std.specs.Prelude.{◌≡◌, take, drop, IfOk, IfSome};
ghost use Rattle.dns_name.specs.Labels.{IsName};
ghost use Rattle.dns_name.specs.Join.{parent_of, join_outcome, JoinGives};

use crate::fault::{JoinError, TooLong};
use crate::limits::NAME_LIMIT;
use crate::name::Name;
use std::alloc::{AllocError, Global};

impl Name {
    /// The name without its first label. The root has no parent.
    pub fn parent(&self, alloc: Global) -> Result<Option<Name>, AllocError>
        ensures parent { IfOk result (λ parent. parent ≡ parent_of self.now) }
        ensures name { IfOk result (λ parent. IfSome parent IsName) }
    {
        let mut labels = self.labels();
        match labels.next_label() {
            None => Ok(None),
            Some(_label) => {
                let wire = Vec::from_slice(alloc, labels.octets())?;
                Ok(Some(Name::from_wire(wire)))
            }
        }
    }

    /// The labels of the first name and then those of the second, in one allocation. It is `TooLong`,
    /// before any memory is taken, if they are written in more than 255 bytes, their length bytes and the
    /// zero at the end counted (RFC 1035, section 2.3.4).
    pub fn join(alloc: Global, front: &Name, back: &Name) -> Result<Name, JoinError>
        ensures exact { JoinGives result (join_outcome front.now back.now) }
        ensures name { IfOk result IsName }
    {
        let front = front.octets();
        let back = back.octets();
        // all but the zero at the end
        let labels = &front[..front.len() - 1];
        let len = labels.len() + back.len();
        if len > NAME_LIMIT {
            return Err(JoinError::Fault(TooLong));
        }
        let mut wire = Vec::with_capacity(alloc, len)?;
        wire.extend_from_slice(labels)?;
        wire.extend_from_slice(back)?;
        Ok(Name::from_wire(wire))
    }

    /// The name of so many of the labels, from the label at `from` on, which are counted from the first on
    /// and from 0. Both numbers may be beyond the last label: there are no more labels than are left, and
    /// without any it is the root. In one allocation.
    pub fn section(&self, alloc: Global, from: usize, count: usize) -> Result<Name, AllocError>
        ensures labels { IfOk result (λ name. name ≡ take count (drop from self.now)) }
        ensures name { IfOk result IsName }
    {
        let mut labels = self.labels();
        labels.skip(from);
        let rest = labels.octets();
        labels.skip(count);
        let after = labels.octets();
        let len = rest.len() - after.len();
        let mut wire = Vec::with_capacity(alloc, len + 1)?;
        wire.extend_from_slice(&rest[..len])?;
        wire.push(0)?;
        Ok(Name::from_wire(wire))
    }
}
