//! Groups of 16 bits in hexadecimal digits.

ghost use Rattle.std.specs.Prelude.{◌≡◌, ◌≤◌, length};
ghost use Rattle.std.specs.Char.{digit_value, is_ascii_hexdigit};
ghost use Rattle.std.specs.List.{list_all};
ghost use Rattle.std.specs.Str.Parse.{digits_value};
ghost use Rattle.networks.specs.V6.{group_of};

/// The group that 1 to 4 hexadecimal digits write.
#[tactic(auto, using(crate::proofs::HexLemmas::group_below))]
pub(crate) fn read_group(text: &[u8]) -> Option<u16>
    ensures { result ≡ group_of text.now }
{
    if text.is_empty() || text.len() > 4 || !are_hexadecimal(text) {
        return None;
    }
    Some(value(text) as u16)
}

fn are_hexadecimal(text: &[u8]) -> bool
    ensures { result ≡ list_all is_ascii_hexdigit text.now }
{
    text.iter().all(|b| b.is_ascii_hexdigit())
}

// The number that at most 4 hexadecimal digits write.
fn value(digits: &[u8]) -> u32
    requires { length digits.now ≤ 4 }
    ensures { result ≡ digits_value 16 digits.now }
{
    let mut value = 0;
    for digit in digits {
        value = value * 16 + digit_of(*digit);
    }
    value
}

fn digit_of(byte: u8) -> u32
    ensures value { result ≡ digit_value byte }
    ensures below { result ≤ 36 }
{
    match byte {
        b'0'..=b'9' => u32::from(byte - b'0'),
        b'A'..=b'Z' => u32::from(byte - b'A') + 10,
        b'a'..=b'z' => u32::from(byte - b'a') + 10,
        _ => 36,
    }
}
