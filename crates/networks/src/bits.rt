//! The high and the low bits of an address's number.

ghost use Rattle.std.specs.Prelude.{◌≡◌, ◌≤◌, ◌/◌, ◌%◌, ◌^◌};

/// The number without its lowest bits, so many.
#[tactic(auto, using(std::proofs::lemmas::Nat::one_shl))]
pub(crate) fn high_u32(number: u32, count: u32) -> u32
    requires { count ≤ 32 }
    ensures { result ≡ number / 2 ^ count }
{
    if count < 32 { number >> count } else { 0 }
}

/// The number without its lowest bits, so many.
#[tactic(auto, using(std::proofs::lemmas::Nat::one_shl))]
pub(crate) fn high_u128(number: u128, count: u32) -> u128
    requires { count ≤ 128 }
    ensures { result ≡ number / 2 ^ count }
{
    if count < 128 { number >> count } else { 0 }
}

/// The lowest bits of the number, so many.
#[tactic(auto, using(std::proofs::lemmas::Nat::one_shl))]
pub(crate) fn low_u32(number: u32, count: u32) -> u32
    requires { count ≤ 32 }
    ensures { result ≡ number % 2 ^ count }
{
    if count < 32 {
        number % (1 << count)
    } else {
        number
    }
}

/// The lowest bits of the number, so many.
#[tactic(auto, using(std::proofs::lemmas::Nat::one_shl))]
pub(crate) fn low_u128(number: u128, count: u32) -> u128
    requires { count ≤ 128 }
    ensures { result ≡ number % 2 ^ count }
{
    if count < 128 {
        number % (1 << count)
    } else {
        number
    }
}
