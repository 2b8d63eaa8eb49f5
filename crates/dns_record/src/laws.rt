//! Laws of numbers and records in messages, and of rows. Each function is its clauses, and does nothing.

ghost use Rattle.std.specs.Prelude.{◌≡◌, ◌↔◌, ℕ, ◌+◌, ◌<◌, ◌≤◌, ◌^◌, List, length, Ok, Err};
ghost use Rattle.dns_name.specs.Standing.{Stands};
ghost use Rattle.dns_record.specs.declared.fault.RecordFault.{RecordFault};
ghost use Rattle.dns_record.specs.Faults.{RecordShows};
ghost use Rattle.dns_record.specs.Grammar.{RecordAt};
ghost use Rattle.dns_record.specs.Number.{number_at, number_octets, AreOctets};
ghost use Rattle.dns_record.specs.Reading.{record_at};
ghost use Rattle.dns_record.specs.Record.{PlainRecord, IsRecord, IsData, record_octets};
ghost use Rattle.dns_record.specs.Row.{PlainRow, IsRow, IsLoweredData, AreAlike, identity, lowered_data};

/// What is written as a number is read as that number, and what is read as a number of 16 or 32 bits
/// stands there.
pub fn a_number_is_read_where_it_stands()
    ensures written { (count number : ℕ) (message : List ℕ) (at after : ℕ) → number < 256 ^ count →
        Stands (number_octets count number) message at after → number_at count message at ≡ number }
    ensures short { (message : List ℕ) (at : ℕ) → AreOctets message → at + 2 ≤ length message →
        Stands (number_octets 2 (number_at 2 message at)) message at (at + 2) }
    ensures long { (message : List ℕ) (at : ℕ) → AreOctets message → at + 4 ≤ length message →
        Stands (number_octets 4 (number_at 4 message at)) message at (at + 4) }
    ensures short_fits { (message : List ℕ) (at : ℕ) → AreOctets message →
        number_at 2 message at < 2 ^ 16 }
    ensures long_fits { (message : List ℕ) (at : ℕ) → AreOctets message →
        number_at 4 message at < 2 ^ 32 }
    ensures count { (count number : ℕ) → length (number_octets count number) ≡ count }
{}

/// What is written as a record is read as that record, wherever it stands in a message, and what is read is
/// a record.
pub fn a_record_is_read_where_it_stands()
    ensures written { (r : PlainRecord) (message : List ℕ) (at after : ℕ) → IsRecord r →
        Stands (record_octets r) message at after → record_at message at ≡ Ok (r, after) }
    ensures is_record { (r : PlainRecord) (message : List ℕ) (at after : ℕ) → AreOctets message →
        record_at message at ≡ Ok (r, after) → IsRecord r }
{}

/// Exactly the records that stand in a message by the rules of the grammar are read, and exactly the faults are
/// given that it shows by them.
pub fn a_record_is_read_by_its_grammar()
    ensures stands { (r : PlainRecord) (message : List ℕ) (at after : ℕ) → AreOctets message →
        record_at message at ≡ Ok (r, after) → RecordAt message at r after }
    ensures only { (r : PlainRecord) (message : List ℕ) (at after : ℕ) →
        RecordAt message at r after → record_at message at ≡ Ok (r, after) }
    ensures shows { (message : List ℕ) (at : ℕ) (fault : RecordFault) → AreOctets message →
        record_at message at ≡ Err fault → RecordShows message at fault }
    ensures only_fault { (message : List ℕ) (at : ℕ) (fault : RecordFault) →
        RecordShows message at fault → record_at message at ≡ Err fault }
{}

/// Two rows have one identity exactly if they differ in the TTL at most.
pub fn rows_of_one_identity_differ_in_the_ttl_alone()
    ensures { (row other : PlainRow) → IsRow row → IsRow other →
        (identity row ≡ identity other) ↔ AreAlike row other }
{}

/// The data of a row are those of its record with their names in lower case, the same part for part, and no other data
/// are.
pub fn data_in_lower_case_have_the_same_parts()
    ensures lowered { (rtype : ℕ) (rdata : List ℕ) → IsData rtype 1 rdata →
        IsLoweredData rtype rdata (lowered_data rtype rdata) }
    ensures only { (rtype : ℕ) (rdata low : List ℕ) → IsLoweredData rtype rdata low →
        low ≡ lowered_data rtype rdata }
{}
