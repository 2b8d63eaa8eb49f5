//! Texts, cut at a byte.

ghost use Rattle.std.specs.Prelude.{◌≡◌, ◌==◌, ◌<◌, length, map, position, IfOk, IfSome};
ghost use Rattle.std.specs.List.{after_first, before_first, list_any};
ghost use Rattle.rpz_words.specs.Lists.{comma_parts};

use std::alloc::{AllocError, Global};

/// What stands before the first of these bytes, and behind it; where there is none, the whole and nothing.
pub(crate) fn cut(text: &[u8], byte: u8) -> (&[u8], &[u8])
    ensures before { result.0.now ≡ before_first (λ b. b == byte) text.now }
    ensures behind { result.1.now ≡ after_first (λ b. b == byte) text.now }
{
    match first_place(text, byte) {
        Some(at) => (&text[..at], &text[at + 1..]),
        None => (text, &[]),
    }
}

// Where the first of these bytes stands.
fn first_place(text: &[u8], byte: u8) -> Option<usize>
    ensures value { result ≡ position (λ b. b == byte) text.now }
    ensures bound { IfSome result (λ at. at < length text.now) }
{
    text.iter().position(|b| *b == byte)
}

/// Whether there is such a byte.
pub(crate) fn has_byte(text: &[u8], byte: u8) -> bool
    ensures { result ≡ list_any (λ b. b == byte) text.now }
{
    text.iter().any(|b| *b == byte)
}

/// The parts of a list, between which commas stand.
pub(crate) fn comma_parts<'a>(alloc: Global, text: &'a [u8]) -> Result<Vec<&'a [u8]>, AllocError>
    ensures { IfOk result (λ parts. map (λ part. part.now) parts.items ≡ comma_parts text.entry.now) }
{
    let mut parts = Vec::new(alloc);
    let mut rest = text;
    while has_byte(rest, b',') {
        let (part, behind) = cut(rest, b',');
        parts.push(part)?;
        rest = behind;
    }
    parts.push(rest)?;
    Ok(parts)
}
