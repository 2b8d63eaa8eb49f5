//! Where a rule decides, and the aliases that led there.

ghost use Rattle.std.specs.Prelude.{◌≡◌, ◌^◌, ◌<◌, length, map, filter, OnOk};
ghost use Rattle.std.specs.Option.{option_to_list};
ghost use Rattle.dns_message.specs.Aged.{aged};
ghost use Rattle.dns_message.specs.Progress.{writing_after};
ghost use Rattle.upstream_link.specs.Chain as chains;
ghost use Rattle.upstream_link.specs.Chain.{chain_aliases};
ghost use Rattle.reply_build.specs.Seen.{has_alias as has_alias_of};

use dns_message::{MessageWriter, RecordRefs};
use dns_name::Name;
use dns_record::Record;
use std::alloc::AllocError;
use upstream_link::alias_of;

/// Where a rule decides.
#[derive(Debug, Clone, Copy)]
pub struct HitPlaceRef<'a> {
    /// The records that aliases are looked up in: those of the answer to the query.
    pub records: &'a RecordRefs<'a>,
    /// How many seconds have passed since these came.
    pub age: u32,
    /// The names of the chain before the rule's; a reply begins with their aliases.
    pub before: &'a [Name],
    /// The name at which the rule is hit.
    pub name: &'a Name,
    /// The SOA record of the rule's zone.
    pub soa: &'a Record,
}

// Whether the records have an alias of this name.
fn has_alias(records: &RecordRefs<'_>, name: &Name) -> bool
    ensures { result ≡ has_alias_of records.now name.now }
{
    alias_of(records, name).is_some()
}

/// How many of these names have an alias among the records.
pub fn count_kept(records: &RecordRefs<'_>, before: &[Name]) -> usize
    ensures count { result ≡ length (filter (has_alias_of records.now) before.now) }
    ensures few { result < 2 ^ 62 }
{
    before
        .iter()
        .filter(|name| has_alias(records, name))
        .count()
}

// Writes the alias of the name, if the records have one, which came so many seconds ago.
fn write_alias_of<'n>(
    writer: &mut MessageWriter<'n>,
    records: &RecordRefs<'n>,
    age: u32,
    name: &Name,
) -> Result<(), AllocError>
    ensures { OnOk result (writer.new
        ≡ writing_after writer.old
        (map (aged age) (option_to_list (chains.alias_of records.now name.now)))) }
{
    match alias_of(records, name) {
        None => Ok(()),
        Some(alias) => writer.write_aged(&alias, age),
    }
}

/// Writes the aliases of these names that the records have, which came so many seconds ago.
pub fn write_kept<'n>(
    writer: &mut MessageWriter<'n>,
    records: &RecordRefs<'n>,
    age: u32,
    before: &[Name],
) -> Result<(), AllocError>
    ensures { OnOk result (writer.new
        ≡ writing_after writer.old (map (aged age) (chain_aliases records.now before.now))) }
{
    for name in before {
        write_alias_of(writer, records, age, name)?;
    }
    Ok(())
}
