//! The numbers that labels write.

ghost use Rattle.std.specs.Prelude.{◌≡◌, ◌≤◌, ◌<◌, length, IfSome};
ghost use Rattle.std.specs.Char.{digit_value, is_ascii_digit, is_ascii_hexdigit};
ghost use Rattle.std.specs.List.{list_all};
ghost use Rattle.std.specs.Str.Parse.{digits_value};
ghost use Rattle.trigger_codec.specs.Address.{length_read, byte_read, word_read, is_zz as zz_label};

/// The length in bits that 1 to 3 decimal digits write.
pub(crate) fn length_of(label: &[u8]) -> Option<u32>
    ensures { result ≡ length_read label.now }
{
    if label.is_empty() || label.len() > 3 || !are_decimal(label) {
        return None;
    }
    Some(value(label, 10))
}

/// The byte of an address that 1 to 3 decimal digits write.
pub(crate) fn byte_of(label: &[u8]) -> Option<u32>
    ensures value { result ≡ byte_read label.now }
    ensures fits { IfSome result (λ byte. byte ≤ 255) }
{
    match length_of(label) {
        Some(value) if value <= 255 => Some(value),
        _ => None,
    }
}

/// The word of an address that 1 to 4 hexadecimal digits write.
#[tactic(auto, using(crate::proofs::DigitLemmas::word_below))]
pub(crate) fn word_of(label: &[u8]) -> Option<u16>
    ensures { result ≡ word_read label.now }
{
    if label.is_empty() || label.len() > 4 || !are_hexadecimal(label) {
        return None;
    }
    Some(value(label, 16) as u16)
}

/// Whether the label is `zz`, in either case.
pub(crate) fn is_zz(label: &[u8]) -> bool
    ensures { result ≡ zz_label label.now }
{
    label.eq_ignore_ascii_case(b"zz")
}

fn are_decimal(label: &[u8]) -> bool
    ensures { result ≡ list_all is_ascii_digit label.now }
{
    label.iter().all(|b| b.is_ascii_digit())
}

fn are_hexadecimal(label: &[u8]) -> bool
    ensures { result ≡ list_all is_ascii_hexdigit label.now }
{
    label.iter().all(|b| b.is_ascii_hexdigit())
}

// The number that at most 4 digits write.
fn value(digits: &[u8], base: u32) -> u32
    requires few { length digits.now ≤ 4 }
    requires low { base ≤ 16 }
    ensures { result ≡ digits_value base digits.now }
{
    let mut value = 0;
    for digit in digits {
        value = value * base + digit_of(*digit);
    }
    value
}

fn digit_of(byte: u8) -> u32
    ensures value { result ≡ digit_value byte }
    ensures below { result ≤ 36 }
{
    match byte {
        b'0'..=b'9' => u32::from(byte - b'0'),
        b'A'..=b'Z' => u32::from(byte - b'A') + 10,
        b'a'..=b'z' => u32::from(byte - b'a') + 10,
        _ => 36,
    }
}
