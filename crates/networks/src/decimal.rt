//! Numbers in decimal.

ghost use Rattle.std.specs.Prelude.{◌≡◌, ◌≤◌, ◌<◌, ◌^◌, true, length, IfSome};
ghost use Rattle.std.specs.Char.{is_ascii_digit};
ghost use Rattle.std.specs.List.{list_all};
ghost use Rattle.networks.specs.Decimal.{decimal_of, value_of};

/// The number that 1 to `most` decimal digits write, where it is below the bound; leading zeros are allowed, and a sign is not.
/// No more than 10 digits are read, and no bound is above 4,294,967,296.
pub fn read_decimal(digits: &[u8], most: usize, bound: u64) -> Option<u32>
    requires most { most ≤ 10 }
    requires bound { bound ≤ 2 ^ 32 }
    ensures value { result ≡ decimal_of most bound digits.now }
    ensures below { IfSome result (λ value. value < bound) }
{
    if digits.is_empty() || digits.len() > most || !are_digits(digits) {
        return None;
    }
    let value = value(digits);
    if value < bound {
        Some(value as u32)
    } else {
        None
    }
}

fn are_digits(bytes: &[u8]) -> bool
    ensures { result ≡ list_all is_ascii_digit bytes.now }
{
    bytes.iter().all(|b| b.is_ascii_digit())
}

// The value of at most 10 digits.
fn value(digits: &[u8]) -> u64
    requires few { length digits.now ≤ 10 }
    requires digits { list_all is_ascii_digit digits.now ≡ true }
    ensures { result ≡ value_of digits.now }
{
    let mut value = 0;
    for digit in digits {
        value = value * 10 + u64::from(*digit - b'0');
    }
    value
}
