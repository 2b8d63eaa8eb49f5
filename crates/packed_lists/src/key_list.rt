//! A list of keys with numbers.

ghost use Rattle.std.specs.Prelude.{◌≡◌, ℕ, ◌≤◌, [], ◌∷◌, ◌++◌, List, length, map, IfOk, OnErr};
ghost use Rattle.std.specs.List.{sum_by};
ghost use Rattle.packed_lists.specs.Cut.{keys_cut};
ghost use Rattle.packed_lists.specs.Keyed.{AreInOrder, numbers_with};
ghost use Rattle.packed_lists.specs.KeysSeen.{keyed_seen};

use crate::keyed::Keyed;
use crate::mark::Mark;
use std::alloc::{AllocError, Global};
use std::marker::Model;

/// Keys of up to 65,535 octets with numbers, packed: a key takes its octets and eight more, and no allocation of its own. Contracts
/// see the list of them.
#[derive(Drop)]
pub struct KeyList {
    octets: Vec<u8>,
    marks: Vec<Mark>,
}

impl Model for KeyList {
    ghost use Rattle.std.specs.Prelude.{List, ◌≡◌, length};
    ghost use Rattle.std.specs.List.{sum_by};
    ghost use Rattle.packed_lists.specs.Cut.{keys_cut};
    ghost use Rattle.packed_lists.specs.Keyed.{PlainKeyed};

    ghost Value = { List PlainKeyed };

    ghost view = { λ l. keys_cut l.marks.items l.octets.items };

    ghost invariant = { λ l. sum_by (λ m. m.len) l.marks.items ≡ length l.octets.items };
}

impl KeyList {
    /// No keys. It takes no memory.
    pub fn new(alloc: Global) -> Self
        ensures { result ≡ [] }
    {
        KeyList {
            octets: Vec::new(alloc),
            marks: Vec::new(alloc),
        }
    }

    /// Puts a key of at most 65,535 octets with its number at the end. An `Err` leaves the list as it was; it comes where allocation
    /// fails.
    pub fn push(&mut self, key: &[u8], number: u32) -> Result<(), AllocError>
        requires { length key.now ≤ 65535 }
        ensures ok { IfOk result (λ _. self.new ≡ self.old ++ record { key = key.now; number = number } ∷ []) }
        ensures err { OnErr result (self.new ≡ self.old) }
    {
        self.marks.reserve(1)?;
        self.octets.extend_from_slice(key)?;
        self.marks.push_reserved(Mark {
            number,
            len: key.len() as u16,
        });
        Ok(())
    }

    /// The keys in the order of their octets, lent; those of one key in the order in which they were put. It takes 24 octets a key, and
    /// while it sorts up to as many again. An `Err` comes where allocation fails.
    pub fn sorted(&self, alloc: Global) -> Result<Vec<Keyed<'_>>, AllocError>
        ensures order { IfOk result (λ keys. AreInOrder (map keyed_seen keys.items)) }
        ensures numbers { IfOk result (λ keys. (key : List ℕ)
            → numbers_with key (map keyed_seen keys.items) ≡ numbers_with key self.now) }
    {
        let mut keys = cut(alloc, &self.octets, &self.marks)?;
        keys.sort_by(|a, b| a.key.cmp(b.key))?;
        Ok(keys)
    }
}

// The keys of the marks, which stand one behind the other in the octets.
fn cut<'a>(alloc: Global, octets: &'a [u8], marks: &[Mark]) -> Result<Vec<Keyed<'a>>, AllocError>
    requires { sum_by (λ m. m.len) marks.now ≤ length octets.now }
    ensures { IfOk result (λ keys. map keyed_seen keys.items ≡ keys_cut marks.now octets.now) }
{
    let mut keys = Vec::with_capacity(alloc, marks.len())?;
    let mut rest = octets;
    for mark in marks {
        let (key, behind) = rest.split_at(usize::from(mark.len));
        keys.push(Keyed {
            key,
            number: mark.number,
        })?;
        rest = behind;
    }
    Ok(keys)
}
