//! The local data that are asked for.

ghost use Rattle.std.specs.Prelude.{◌≡◌, ◌^◌, ◌<◌, ◌∷◌, [], length, filter, option_copied, OnOk};
ghost use Rattle.action_codec.specs.Seen.{part_seen};
ghost use Rattle.dns_name.specs.Labels.{Name};
ghost use Rattle.dns_record.specs.Record.{IsData};
ghost use Rattle.dns_message.specs.Progress.{writing_after};
ghost use Rattle.reply_build.specs.Parts.{asked_of, asked_records};
ghost use Rattle.reply_build.specs.Reply as form;
ghost use Rattle.reply_build.specs.Reply.{local_record};

use action_codec::{LocalPart, LocalRef};
use dns_message::MessageWriter;
use dns_name::Name;
use dns_record::{RecordRef, class, rtype};
use std::alloc::AllocError;

// Whether the row has the type that is asked for.
fn is_asked(qtype: u16, row: LocalPart<'_>) -> bool
    ensures { result ≡ form.is_asked qtype (part_seen row.entry) }
{
    qtype == rtype::ANY || row.rtype == qtype
}

/// How many of these rows have the type that is asked for.
pub fn count_asked(qtype: u16, rows: Option<&LocalRef<'_>>) -> usize
    ensures count { (owner : Name) →
        result ≡ length (asked_of owner qtype (option_copied rows.entry)) }
    ensures few { result < 2 ^ 62 }
{
    match rows {
        None => 0,
        Some(rows) => count_rows(qtype, rows),
    }
}

// How many rows have the type that is asked for.
fn count_rows(qtype: u16, rows: &LocalRef<'_>) -> usize
    ensures count { result ≡ length (filter (form.is_asked qtype) rows.now) }
    ensures few { result < 2 ^ 62 }
{
    let mut count = 0;
    for place in 0..rows.len() {
        count += usize::from(is_asked(qtype, rows.at(place)));
    }
    count
}

/// Writes those of these rows that have the type that is asked for, with the name as their owner.
pub fn write_asked<'n>(
    writer: &mut MessageWriter<'n>,
    owner: &'n Name,
    qtype: u16,
    rows: Option<&LocalRef<'n>>,
) -> Result<(), AllocError>
    ensures { OnOk result (writer.new
        ≡ writing_after writer.old (asked_of owner.now qtype (option_copied rows.entry))) }
{
    match rows {
        None => Ok(()),
        Some(rows) => write_rows(writer, owner, qtype, rows),
    }
}

// Writes the rows that have the type that is asked for, with the name as their owner.
fn write_rows<'n>(
    writer: &mut MessageWriter<'n>,
    owner: &'n Name,
    qtype: u16,
    rows: &LocalRef<'n>,
) -> Result<(), AllocError>
    ensures { OnOk result (writer.new
        ≡ writing_after writer.old (asked_records owner.now qtype rows.now)) }
{
    for place in 0..rows.len() {
        write_if_asked(writer, owner, qtype, rows.at(place))?;
    }
    Ok(())
}

// Writes a row, if it has the type that is asked for.
fn write_if_asked<'n>(
    writer: &mut MessageWriter<'n>,
    owner: &'n Name,
    qtype: u16,
    row: LocalPart<'n>,
) -> Result<(), AllocError>
    requires { IsData row.rtype 1 row.rdata.now }
    ensures { OnOk result (writer.new
        ≡ writing_after writer.old (asked_records owner.now qtype (part_seen row.entry ∷ []))) }
{
    if is_asked(qtype, row) {
        writer.write(row_ref(owner, row))
    } else {
        Ok(())
    }
}

// A row as a record of this owner, where it lies.
fn row_ref<'n>(owner: &'n Name, row: LocalPart<'n>) -> RecordRef<'n>
    requires { IsData row.rtype 1 row.rdata.now }
    ensures { result ≡ local_record owner.now (part_seen row.entry) }
{
    RecordRef::new(owner.octets(), row.rtype, class::IN, row.ttl, row.rdata)
}
