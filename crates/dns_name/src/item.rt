//! One label or pointer of a name in a message.

ghost use Rattle.std.specs.Prelude.{◌≡◌, ◌≤◌, ◌<◌, length, MatchResult, IfOk, drop, Ok, Err};
ghost use Rattle.dns_name.specs.Reading.{piece_at};
ghost use Rattle.dns_name.specs.Item.{piece_of, IsWithin};

use crate::fault::NameFault;
use crate::limits::NAME_LIMIT;

/// What a name goes on with.
#[derive(Clone, Copy, Debug)]
pub enum Item<'a> {
    /// The zero at the end of a name.
    End,
    /// The bytes of a label.
    Label(&'a [u8]),
    /// The place where the name goes on.
    Pointer(usize),
}

/// The item at a place of a message, in a name of which `used` bytes are read, and whose labels stand one
/// after another from the place `run` on.
pub fn item_at(message: &[u8], run: usize, place: usize, used: usize) -> Result<Item<'_>, NameFault>
    requires { used ≤ 254 }
    ensures item { MatchResult result (λ item. piece_at run used (drop place message.now)
        ≡ Ok (piece_of item)) (λ fault. piece_at run used (drop place message.now) ≡ Err fault) }
    ensures within { IfOk result (IsWithin run used) }
    ensures inside { IfOk result (λ item. place < length message.now) }
{
    if place >= message.len() {
        return Err(NameFault::Short);
    }
    match &message[place..] {
        [] => Err(NameFault::Short),
        [0, ..] => Ok(Item::End),
        [64..=191, ..] => Err(NameFault::LabelType),
        [192..=255] => Err(NameFault::Short),
        [high @ 192..=255, low, ..] => {
            let target = usize::from(*high - 192) * 256 + usize::from(*low);
            if target < run {
                Ok(Item::Pointer(target))
            } else {
                Err(NameFault::Pointer)
            }
        }
        [len, rest @ ..] => {
            let len = *len as usize;
            if rest.len() < len {
                return Err(NameFault::Short);
            }
            if used + len + 2 > NAME_LIMIT {
                return Err(NameFault::TooLong);
            }
            Ok(Item::Label(&rest[..len]))
        }
    }
}
