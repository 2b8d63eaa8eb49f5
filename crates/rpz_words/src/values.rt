//! Numbers as the values of arguments.

ghost use Rattle.std.specs.Prelude.{◌≡◌, ◌≤◌, IfSome};
ghost use Rattle.rpz_words.specs.Values as values_form;
ghost use Rattle.rpz_words.specs.Values.{turns_of};

use crate::settings::TURN_LIMIT;
use script_codec::read_number;

/// The number between two bounds, both included, that 1 to 10 decimal digits write.
#[tactic(auto, unfolding(crate::specs::Values::number_between))]
pub(crate) fn number_between(digits: &[u8], least: u32, most: u32) -> Option<u32>
    ensures value { result ≡ values_form.number_between least most digits.now }
    ensures within { IfSome result (λ number. number ≤ most) }
{
    let number = read_number(digits).ok()?;
    if number < least || number > most {
        return None;
    }
    Some(number)
}

/// The number from 1 to the limit that 1 to 10 decimal digits write.
pub(crate) fn number_to(digits: &[u8], most: u32) -> Option<u32>
    ensures value { result ≡ values_form.number_to most digits.now }
    ensures within { IfSome result (λ number. number ≤ most) }
{
    number_between(digits, 1, most)
}

/// The number of at most the limit that 1 to 10 decimal digits write.
#[tactic(auto, unfolding(crate::specs::Values::count_to))]
pub(crate) fn count_to(digits: &[u8], most: u32) -> Option<u32>
    ensures { result ≡ values_form.count_to most digits.now }
{
    let number = read_number(digits).ok()?;
    if number > most {
        return None;
    }
    Some(number)
}

/// How many arrivals a text says: 1 to 4,294,967,295; or `forever`, which is `None`.
pub(crate) fn read_turns(text: &str) -> Option<Option<u32>>
    ensures { result ≡ turns_of text.now }
{
    if text == "forever" {
        return Some(None);
    }
    match number_to(text.as_bytes(), TURN_LIMIT) {
        Some(turns) => Some(Some(turns)),
        None => None,
    }
}
