//! A list of records.

ghost use Rattle.std.specs.Prelude.{◌≡◌, List, [], ◌∷◌, ◌++◌, length, filter, ◌==◌, OnOk, OnErr};

use crate::record::Record;
use std::alloc::{AllocError, Global};
use std::marker::Model;

/// A list of records. Contracts see the list.
#[derive(Debug, Drop)]
pub struct Records {
    records: Vec<Record>,
}

impl Model for Records {
    ghost use Rattle.std.specs.Prelude.{List};
    ghost use Rattle.dns_record.specs.Record.{PlainRecord};

    ghost Value = { List PlainRecord };

    ghost view = { λ r. r.records.items };
}

impl Records {
    /// No records. It takes no memory.
    pub fn new(alloc: Global) -> Self
        ensures { result ≡ [] }
    {
        Records {
            records: Vec::new(alloc),
        }
    }

    /// How many records there are.
    pub fn len(&self) -> usize
        ensures { result ≡ length self.now }
    {
        self.records.len()
    }

    /// The records.
    pub fn as_slice(&self) -> &[Record]
        ensures { result.now ≡ self.now }
    {
        self.records.as_slice()
    }

    /// Puts a record at the end. An `Err` leaves the list as it was.
    pub fn push(&mut self, rr: Record) -> Result<(), AllocError>
        ensures ok { OnOk result (self.new ≡ self.old ++ rr ∷ []) }
        ensures err { OnErr result (self.new ≡ self.old) }
    {
        self.records.push(rr)?;
        Ok(())
    }

    /// The records of a vector, which is not copied.
    pub fn from_vec(records: Vec<Record>) -> Self
        ensures { result ≡ records.items }
    {
        Records { records }
    }

    /// The records as a vector, which is not copied.
    pub fn into_vec(self) -> Vec<Record>
        ensures { result.items ≡ self }
    {
        self.records
    }

    /// Keeps the records of a class, in their order, and drops the others.
    pub fn retain_class(&mut self, class: u16)
        ensures { self.new ≡ filter (λ r. r.class == class) self.old }
    {
        keep_class(&mut self.records, class);
    }
}

// Keeps the records of a class.
fn keep_class(records: &mut Vec<Record>, class: u16)
    ensures { records.new.items ≡ filter (λ r. r.class == class) records.old.items }
{
    records.retain(|rr| rr.class() == class);
}
