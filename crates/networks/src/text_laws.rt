//! Laws of texts of addresses. Each function is its clauses, and does nothing.

ghost use Rattle.std.specs.Prelude.{◌≡◌, ℕ, List, Some};
ghost use Rattle.ip_prefix.specs.declared.Addr.{Addr};
ghost use Rattle.ip_prefix.specs.Bits.{IsAddr};
ghost use Rattle.networks.specs.Grammar.{IsV6Text};
ghost use Rattle.networks.specs.NetworkText.{text_address};
ghost use Rattle.networks.specs.V6.{number_of_groups, v6_number};
ghost use Rattle.networks.specs.Written.{addr_text};

/// A text is read as the address of its groups exactly where it is one of the grammar's cases (RFC 4291, section 2.2). So no text
/// writes two addresses.
pub fn a_text_is_read_by_its_cases()
    ensures read { (text groups : List ℕ) → IsV6Text text groups →
        v6_number text ≡ Some (number_of_groups groups) }
    ensures only { (text : List ℕ) (number : ℕ) → v6_number text ≡ Some number →
        (groups : List ℕ) × IsV6Text text groups × (number ≡ number_of_groups groups) }
{}

/// An address is read back from what is written of it.
pub fn what_is_written_is_read_back()
    ensures { (addr : Addr) → IsAddr addr → text_address (addr_text addr) ≡ Some addr }
{}
