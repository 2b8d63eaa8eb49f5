//! The address of IP version 6 that a text writes.

ghost use Rattle.std.specs.Prelude.{◌≡◌, ◌<◌, ◌+◌, ◌&&◌, ℕ, List, length, slice_index, Option, None, IfSome, MatchOption};
ghost use Rattle.std.specs.Option.{option_and_then, option_map};
ghost use Rattle.networks.specs.Groups.{AreFew, no_groups, with_groups};
ghost use Rattle.networks.specs.V6.{at_elision, elided_of, is_colon, one_group, one_or_two_groups, side_groups, text_groups, v6_number, whole_of};

use crate::dotted::read_tail;
use crate::groups::Groups;
use crate::hexadecimal::read_group;
use crate::split::{has_byte, split_first};

/// The address of IP version 6 that a text writes (RFC 4291, section 2.2): eight groups of 1 to 4 hexadecimal digits in either
/// case, joined by colons, or fewer and one `::`, which stands for one group of zeros or more. The last two groups may be written
/// as four decimals without leading zeros. No zone index (RFC 4007, section 11) is read.
#[tactic(auto, unfolding(crate::specs::V6::v6_number))]
pub fn read_v6(text: &[u8]) -> Option<u128>
    ensures { result ≡ v6_number text.now }
{
    match split_elision(text) {
        None => read_whole(text),
        Some((head, tail)) => read_sides(head, tail),
    }
}

// The address that eight groups write.
fn read_whole(text: &[u8]) -> Option<u128>
    ensures { result ≡ whole_of text.now }
{
    let groups = read_groups(text)?;
    groups.whole()
}

// The address that the groups before `::` and those behind it write.
fn read_sides(head: &[u8], tail: &[u8]) -> Option<u128>
    ensures { result ≡ elided_of head.now tail.now }
{
    let before = read_before(head)?;
    let after = read_behind(tail)?;
    before.fill(after)
}

// What stands before the first `::`, and behind it.
fn split_elision(text: &[u8]) -> Option<(&[u8], &[u8])>
    ensures { option_map (λ sides. (sides.0.now, sides.1.now)) result ≡ at_elision text.now }
{
    let mut at = 0;
    while at + 1 < text.len() {
        if is_elision(text, at) {
            return Some((&text[..at], &text[at + 2..]));
        }
        at += 1;
    }
    None
}

// Whether `::` stands at this place.
fn is_elision(text: &[u8], at: usize) -> bool
    requires { at + 1 < length text.now }
    ensures { result ≡ (is_colon (slice_index text.now at) && is_colon (slice_index text.now (at + 1))) }
{
    text[at] == b':' && text[at + 1] == b':'
}

// The groups before `::`, or none.
fn read_before(text: &[u8]) -> Option<Groups>
    ensures value { result ≡ option_and_then (with_groups no_groups) (side_groups one_group text.now) }
    ensures few { IfSome result AreFew }
{
    if text.is_empty() {
        return Some(Groups::none());
    }
    read_plain(text)
}

// The groups behind `::`, or none.
fn read_behind(text: &[u8]) -> Option<Groups>
    ensures value { result ≡ option_and_then (with_groups no_groups) (side_groups one_or_two_groups text.now) }
    ensures few { IfSome result AreFew }
{
    if text.is_empty() {
        return Some(Groups::none());
    }
    read_groups(text)
}

// The groups of a text, none of which is written in decimal.
fn read_plain(text: &[u8]) -> Option<Groups>
    ensures value { result ≡ option_and_then (with_groups no_groups) (text_groups one_group text.now) }
    ensures few { IfSome result AreFew }
{
    let (groups, last) = read_fields(text)?;
    let group = read_group(last)?;
    groups.push(group)
}

// The groups of a text, of which the last two may be written as four decimals.
fn read_groups(text: &[u8]) -> Option<Groups>
    ensures value { result ≡ option_and_then (with_groups no_groups) (text_groups one_or_two_groups text.now) }
    ensures few { IfSome result AreFew }
{
    let (groups, last) = read_fields(text)?;
    if has_byte(last, b'.') {
        let number = read_tail(last)?;
        return groups.push_halves(number);
    }
    let group = read_group(last)?;
    groups.push(group)
}

// The groups that stand before colons, and the field behind the last colon.
fn read_fields(text: &[u8]) -> Option<(Groups, &[u8])>
    ensures fields { (last_groups : List ℕ → Option (List ℕ)) → MatchOption result
        (option_and_then (with_groups no_groups) (text_groups last_groups text.now) ≡ None)
        (λ read. option_and_then (with_groups no_groups) (text_groups last_groups text.now)
        ≡ option_and_then (with_groups read.0) (last_groups read.1.now)) }
    ensures few { IfSome result (λ read. AreFew read.0) }
{
    let mut groups = Groups::none();
    let mut rest = text;
    while let Some((field, behind)) = split_first(rest, b':') {
        let group = read_group(field)?;
        groups = groups.push(group)?;
        rest = behind;
    }
    Some((groups, rest))
}
