//! Laws of names. Each function is its clauses, and does nothing.

ghost use Rattle.std.specs.Prelude.{◌≡◌, ◌≢◌, ◌↔◌, ℕ, ◌+◌, List, [], ◌++◌, length, Ok, IsTrue};
ghost use Rattle.dns_name.specs.Labels.{IsName, name_octets, lowered, EndsWith, Name};
ghost use Rattle.dns_name.specs.Alike.{PlainPattern, same_name, ends_with, matches};
ghost use Rattle.dns_name.specs.Grammar.{NameAt};
ghost use Rattle.dns_name.specs.Reading.{NameOutcome, name_at};
ghost use Rattle.dns_name.specs.Standing.{Stands};
ghost use Rattle.dns_name.specs.Text.{has_label_bytes, text_of, text_name};

/// By the rules of the grammar exactly what reading gives stands at a place of a message.
pub fn reading_is_the_grammar()
    ensures stands { (message : List ℕ) (at : ℕ) → NameAt message at (name_at message at) }
    ensures only { (message : List ℕ) (at : ℕ) (outcome : NameOutcome) → NameAt message at outcome →
        name_at message at ≡ outcome }
{}

/// What is written as a name is read as that name, wherever it stands in a message, and what is read is a
/// name. One that is read at the start of a message stands there in full, since no pointer leads before it.
pub fn a_name_is_read_where_it_stands()
    ensures written { (name : Name) (message : List ℕ) (at after : ℕ) → IsName name →
        Stands (name_octets name) message at after → name_at message at ≡ Ok (name, after) }
    ensures name { (name : Name) (message : List ℕ) (at after : ℕ) →
        name_at message at ≡ Ok (name, after) → IsName name }
    ensures in_full { (name : Name) (message : List ℕ) (after : ℕ) →
        name_at message 0 ≡ Ok (name, after) → Stands (name_octets name) message 0 after }
{}

/// Two names that are written alike are one name.
pub fn names_of_equal_octets_are_equal()
    ensures { (name other : Name) → IsName name → IsName other →
        name_octets name ≡ name_octets other → name ≡ other }
{}

/// Octets stand at a place exactly if their two parts stand there one after the other.
pub fn what_stands_in_two_parts()
    ensures both { (first second message : List ℕ) (at middle after : ℕ) →
        Stands first message at middle → Stands second message middle after →
        Stands (first ++ second) message at after }
    ensures first { (first second message : List ℕ) (at after : ℕ) →
        Stands (first ++ second) message at after → Stands first message at (at + length first) }
    ensures second { (first second message : List ℕ) (at after : ℕ) →
        Stands (first ++ second) message at after →
        Stands second message (at + length first) after }
{}

/// A name other than the root, of letters, digits, `-`, `_` and `*` only, is read back from the text of its
/// labels with dots between them.
pub fn a_name_is_read_from_its_text()
    ensures { (name : Name) → IsName name → name ≢ [] → IsTrue (has_label_bytes name) →
        text_name (text_of name) ≡ Ok name }
{}

/// Two names are alike exactly if they are one in lower case, and one ends with another exactly if it is the
/// other with labels before it or none, in lower case.
pub fn names_that_are_alike()
    ensures same { (name other : Name) →
        IsTrue (same_name name other) ↔ (lowered name ≡ lowered other) }
    ensures within { (name zone : Name) →
        IsTrue (ends_with name zone) ↔ EndsWith name zone }
{}

/// A name in lower case has no upper case left, and a pattern matches a name exactly if it matches the name in lower
/// case.
pub fn case_does_not_matter()
    ensures lower { (name : Name) → lowered (lowered name) ≡ lowered name }
    ensures pattern { (pattern : PlainPattern) (name : Name) →
        matches pattern (lowered name) ≡ matches pattern name }
{}
