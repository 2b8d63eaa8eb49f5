//! Texts, cut at a byte.

ghost use Rattle.std.specs.Prelude.{◌≡◌, ◌==◌, ◌<◌, length, position, IfSome, MatchOption};
ghost use Rattle.std.specs.List.{list_any};
ghost use Rattle.networks.specs.Split.{IsCut, IsUncut};

/// What stands before the first of these bytes, and behind it, if there is one.
pub(crate) fn split_first(text: &[u8], byte: u8) -> Option<(&[u8], &[u8])>
    ensures { MatchOption result (IsUncut byte text.now)
        (λ parts. IsCut byte text.now parts.0.now parts.1.now) }
{
    match first_place(text, byte) {
        Some(at) => Some((&text[..at], &text[at + 1..])),
        None => None,
    }
}

// Where the first of these bytes stands.
fn first_place(text: &[u8], byte: u8) -> Option<usize>
    ensures value { result ≡ position (λ b. b == byte) text.now }
    ensures bound { IfSome result (λ at. at < length text.now) }
{
    text.iter().position(|b| *b == byte)
}

/// Whether there is such a byte.
pub(crate) fn has_byte(text: &[u8], byte: u8) -> bool
    ensures { result ≡ list_any (λ b. b == byte) text.now }
{
    text.iter().any(|b| *b == byte)
}
