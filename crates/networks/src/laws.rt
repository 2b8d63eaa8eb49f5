//! Laws of networks, and of who may ask. Each function is its clauses.

ghost use Rattle.std.specs.Prelude.{◌≡◌, ◌≢◌, ℕ, List, [], ◌∷◌, Ok, true, false, IsTrue, ◌↔◌, Contains};
ghost use Rattle.std.specs.List.{AllByRecursion, Any};
ghost use Rattle.ip_prefix.specs.declared.Addr.{Addr};
ghost use Rattle.ip_prefix.specs.Bits.{IsAddr, BeginAlike};
ghost use Rattle.ip_prefix.specs.Prefix.{PlainPrefix, family, contains};
ghost use Rattle.networks.specs.Network.{IsNetworkOf, IsNetworkOfAddresses, network_of};
ghost use Rattle.networks.specs.Allowed.{has_network, is_allowed};

use ip_prefix::laws::{a_prefix_contains_what_begins_alike, host_bits_are_bits_behind_the_length};

/// Everyone may ask where there is no network. Where there are some, exactly those may whose address is of the version of one of
/// them, and begins with the same bits, as many as its length.
pub fn who_may_ask()
    ensures everyone { (addr : Addr) → is_allowed [] addr ≡ true }
    ensures listed { (first : PlainPrefix) (others : List PlainPrefix) (addr : Addr) →
        AllByRecursion IsNetworkOfAddresses (first ∷ others) → IsAddr addr →
        IsTrue (is_allowed (first ∷ others) addr)
        ↔ Any (λ network. BeginAlike network.length network.addr addr) (first ∷ others) }
{
    a_prefix_contains_what_begins_alike();
    a_network_has_no_bit_behind_its_length();
}

/// An address of the other version is in no network, mapped or not (RFC 4291, section 2.5.5.2).
pub fn another_version_is_never_in()
    ensures { (network : PlainPrefix) (addr : Addr) → family addr ≢ family network.addr →
        contains network addr ≡ false }
{}

/// An address and a length make a network, which is the two, exactly where the length is in its bounds and each bit from the
/// length on is 0.
pub fn a_network_has_no_bit_behind_its_length()
    ensures { (addr : Addr) (length : ℕ) (network : PlainPrefix) →
        (network_of addr length ≡ Ok network) ↔ IsNetworkOf addr length network }
{
    host_bits_are_bits_behind_the_length();
}

/// A list has exactly the networks that it contains.
pub fn a_network_is_found_by_its_value()
    ensures { (networks : List PlainPrefix) (network : PlainPrefix) →
        IsTrue (has_network networks network) ↔ Contains networks network }
{}
