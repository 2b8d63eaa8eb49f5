//! Laws of compressed names. Each function is its clauses, and does nothing.

ghost use Rattle.std.specs.Prelude.{◌≡◌, ◌≢◌, ℕ, ◌+◌, ◌≤◌, List, [], ◌∷◌, ◌++◌, length, Ok, Some, None};
ghost use Rattle.std.specs.List.{flat_map, AllByRecursion};
ghost use Rattle.dns_name.specs.Labels.{IsName, label_octets, name_octets, Name};
ghost use Rattle.dns_name.specs.Reading.{name_at};
ghost use Rattle.packed_names.specs.Places.{Place, first_offset, compressed_octets, new_places, new_places_in_full, pointer_octets};
ghost use Rattle.packed_names.specs.MessageParts.{MessagePart, IsValidPart, AreReadFrom, compressed_parts};
ghost use Rattle.packed_names.specs.Occurrence.{AreOccurrences, HaveOtherNames, HasNoLongerMatch};

/// A compressed name is read as the name, whatever is written behind it, and ends where the next octets begin, if the places
/// that it was compressed by are occurrences of their names.
pub fn a_compressed_name_is_read()
    ensures { (places : List Place) (message more : List ℕ) (name : Name) → AreOccurrences message places →
        IsName name → name_at ((message ++ compressed_octets places name) ++ more) (length message)
        ≡ Ok (name, length message + length (compressed_octets places name)) }
{}

/// Places that are occurrences of their names stay so when more is written behind them.
pub fn places_stay_occurrences()
    ensures { (places : List Place) (message more : List ℕ) → AreOccurrences message places →
        AreOccurrences (message ++ more) places }
{}

/// The places that a compressed name adds are occurrences of their names, too.
pub fn new_places_are_occurrences()
    ensures { (places : List Place) (message : List ℕ) (name : Name) → AreOccurrences message places → IsName name →
        AreOccurrences (message ++ compressed_octets places name)
        (places ++ new_places places (length message) name) }
{}

/// So are the places that a name in full adds.
pub fn new_places_in_full_are_occurrences()
    ensures { (places : List Place) (message : List ℕ) (name : Name) → AreOccurrences message places → IsName name →
        AreOccurrences (message ++ name_octets name)
        (places ++ new_places_in_full places (length message) name) }
{}

/// A pointer stands in place of the longest suffix that has a place, and leads to the first place of that suffix; the labels
/// before it are written. A name of which no suffix has a place is written in full.
pub fn the_longest_suffix_is_replaced()
    ensures pointer { (places : List Place) (front suffix : Name) (offset : ℕ) → suffix ≢ [] →
        first_offset places suffix ≡ Some offset → HasNoLongerMatch places front suffix →
        compressed_octets places (front ++ suffix) ≡ flat_map label_octets front ++ pointer_octets offset }
    ensures full { (places : List Place) (name : Name) → HasNoLongerMatch places name [] →
        compressed_octets places name ≡ name_octets name }
{}

/// A compressed name is no longer than the name in full.
pub fn a_compressed_name_is_no_longer()
    ensures { (places : List Place) (name : Name) → length (compressed_octets places name) ≤ length (name_octets name) }
{}

/// A look-up finds the first place that has the name, and none if no place has it.
pub fn the_first_place_is_found()
    ensures some { (before behind : List Place) (place : Place) → IsName place.labels →
        HaveOtherNames before place.labels →
        first_offset (before ++ place ∷ behind) place.labels ≡ Some place.offset }
    ensures none { (places : List Place) (name : Name) → IsName name → HaveOtherNames places name →
        first_offset places name ≡ None }
{}

/// Each name of a message that is written in such parts is read where it stands, and ends where the next part begins, whether
/// it stands in full or compressed.
pub fn each_name_of_a_message_is_read()
    ensures { (start : List ℕ) (parts : List MessagePart) → AllByRecursion IsValidPart parts →
        AreReadFrom (start ++ compressed_parts [] (length start) parts) [] (length start) parts }
{}
