//! Reads a line of a script.

ghost use Rattle.std.specs.Prelude.{◌≡◌, IfOk};
ghost use Rattle.std.specs.List.{list_all};
ghost use Rattle.script_codec.specs.Outcome.{Gives, LineGives};
ghost use Rattle.script_codec.specs.Fields.{fields_of, fields_left};
ghost use Rattle.script_codec.specs.Line as line_form;
ghost use Rattle.script_codec.specs.Line.{zone_line, primary_line, allow_line, transfer_line, full_line, query_line, give_line, fail_line, notify_line, due_line, clock_line, worded_line, unnumbered_line, line_of, is_text_byte};
ghost use Rattle.script_codec.specs.State.{PlainState, state_of};
ghost use Rattle.script_codec.specs.Within.{IsWithin, SaysWithin};

use crate::field::{address, bytes, message, name, network, number, transport, worker, zone};
use crate::fields::{
    Left, first_field, four_fields, no_fields, one_field, split_field, two_fields,
};
use crate::line::Line;
use crate::line_fault::{BadLine, LineError, LineFault, UnnumberedError};
use crate::overriding::{override_text, set_over};
use crate::state::ScriptState;
use script_loop::{LINE_BYTES, LINES};
use std::alloc::Global;

/// What the line of this number says, which comes without its line feed; `None` exactly where it is
/// empty or begins with `#`. Line 1 is the first. It is refused for the first reason that applies.
pub fn read_line(
    alloc: Global,
    bytes: &[u8],
    number: u64,
    state: &ScriptState<'_>,
) -> Result<Option<Line>, LineError>
    ensures exact { LineGives number result (line_of number bytes.now (state_of state.now)) }
    ensures within { IfOk result (SaysWithin (state_of state.now)) }
{
    match read_numbered(alloc, bytes, number, state) {
        Ok(line) => Ok(line),
        Err(UnnumberedError::OutOfMemory) => Err(LineError::OutOfMemory),
        Err(UnnumberedError::Refused(why)) => Err(LineError::BadLine(BadLine {
            line: number,
            why,
        })),
    }
}

#[tactic(auto, unfolding(crate::specs::Line::line_of))]
fn read_numbered(
    alloc: Global,
    text: &[u8],
    number: u64,
    state: &ScriptState<'_>,
) -> Result<Option<Line>, UnnumberedError>
    ensures exact { Gives result (line_of number text.now (state_of state.now)) }
    ensures within { IfOk result (SaysWithin (state_of state.now)) }
{
    if number > LINES {
        return Err(UnnumberedError::Refused(LineFault::Lines));
    }
    if text.len() > LINE_BYTES {
        return Err(UnnumberedError::Refused(LineFault::TooLong));
    }
    read_unnumbered(alloc, text, state)
}

/// The same for a reader that has looked at the number and the length of the line itself.
#[tactic(auto, unfolding(crate::specs::Line::unnumbered_line))]
pub fn read_unnumbered(
    alloc: Global,
    text: &[u8],
    state: &ScriptState<'_>,
) -> Result<Option<Line>, UnnumberedError>
    ensures exact { Gives result (unnumbered_line text.now (state_of state.now)) }
    ensures within { IfOk result (SaysWithin (state_of state.now)) }
{
    if !is_text(text) {
        return Err(UnnumberedError::Refused(LineFault::Char));
    }
    if is_skipped(text) {
        return Ok(None);
    }
    Ok(Some(read_worded(alloc, text, state)?))
}

// Whether all bytes are printable ASCII.
fn is_text(text: &[u8]) -> bool
    ensures { result ≡ list_all is_text_byte text.now }
{
    text.iter().all(|b| matches!(*b, 32..=126))
}

// Whether the line is empty, or a comment.
fn is_skipped(text: &[u8]) -> bool
    ensures { result ≡ line_form.is_skipped text.now }
{
    match text {
        [] => true,
        [first, ..] => *first == b'#',
    }
}

// A line that begins with its first word.
#[tactic(auto, unfolding(crate::specs::Line::kind_line))]
fn read_worded(alloc: Global, text: &[u8], state: &ScriptState<'_>) -> Result<Line, UnnumberedError>
    ensures exact { Gives result (worded_line (state_of state.now) (fields_of text.now)) }
    ensures within { IfOk result (IsWithin (state_of state.now)) }
{
    let (word, fields) = split_field(text);
    if word == b"zone".as_slice() {
        return read_zone(alloc, fields, state);
    }
    if word == b"primary".as_slice() {
        return read_primary(fields, state);
    }
    if word == b"allow".as_slice() {
        return read_allow(fields, state);
    }
    if word == b"xfer".as_slice() {
        return read_transfer(alloc, fields, state);
    }
    if word == b"full".as_slice() {
        return read_full(fields, state);
    }
    if word == b"query".as_slice() {
        return read_query(alloc, fields, state);
    }
    if word == b"give".as_slice() {
        return read_give(alloc, fields, state);
    }
    if word == b"fail".as_slice() {
        return read_fail(fields, state);
    }
    if word == b"notify".as_slice() {
        return read_notify(alloc, fields);
    }
    if word == b"due".as_slice() {
        return read_due(fields);
    }
    if word == b"clock".as_slice() {
        return read_clock(fields);
    }
    Err(UnnumberedError::Refused(LineFault::Word))
}

// The fields of `zone NAME`, `zone NAME WORD` or `zone NAME cname TARGET`.
#[tactic(auto, unfolding(crate::specs::Line::zone_line))]
fn read_zone(
    alloc: Global,
    fields: Left<'_>,
    state: &ScriptState<'_>,
) -> Result<Line, UnnumberedError>
    ensures exact { Gives result (zone_line (state_of state.now) (fields_left fields.entry)) }
    ensures within { IfOk result (IsWithin (state_of state.now)) }
{
    let (text, others) = first_field(fields)?;
    let behind = override_text(others)?;
    let origin = name(alloc, text)?;
    let over = set_over(alloc, behind)?;
    state.opens(&origin)?;
    Ok(Line::Zone { origin, over })
}

// The fields of `primary Z ADDR`.
#[tactic(auto, unfolding(crate::specs::Line::primary_line))]
fn read_primary(fields: Left<'_>, state: &ScriptState<'_>) -> Result<Line, UnnumberedError>
    ensures exact { Gives result (primary_line (state_of state.now) (fields_left fields.entry)) }
    ensures within { IfOk result (IsWithin (state_of state.now)) }
{
    let (digits, source) = two_fields(fields)?;
    let zone = zone(digits, state.zone_count())?;
    let address = address(source)?;
    state.takes_primary(zone)?;
    Ok(Line::Primary { zone, address })
}

// The field of `allow PREFIX`.
#[tactic(auto, unfolding(crate::specs::Line::allow_line))]
fn read_allow(fields: Left<'_>, state: &ScriptState<'_>) -> Result<Line, UnnumberedError>
    ensures exact { Gives result (allow_line (state_of state.now) (fields_left fields.entry)) }
    ensures within { IfOk result (IsWithin (state_of state.now)) }
{
    let text = one_field(fields)?;
    let network = network(text)?;
    state.takes_network(&network)?;
    Ok(Line::Allow(network))
}

// The fields of `xfer Z HEX`.
#[tactic(auto, unfolding(crate::specs::Line::transfer_line))]
fn read_transfer(
    alloc: Global,
    fields: Left<'_>,
    state: &ScriptState<'_>,
) -> Result<Line, UnnumberedError>
    ensures exact { Gives result (transfer_line (state_of state.now) (fields_left fields.entry)) }
    ensures within { IfOk result (IsWithin (state_of state.now)) }
{
    let (digits, text) = two_fields(fields)?;
    let zone = zone(digits, state.zone_count())?;
    let stream = bytes(alloc, text)?;
    Ok(Line::Transfer { zone, stream })
}

// The field of `full Z`.
#[tactic(auto, unfolding(crate::specs::Line::full_line))]
fn read_full(fields: Left<'_>, state: &ScriptState<'_>) -> Result<Line, UnnumberedError>
    ensures exact { Gives result (full_line (state_of state.now) (fields_left fields.entry)) }
    ensures within { IfOk result (IsWithin (state_of state.now)) }
{
    let digits = one_field(fields)?;
    let zone = zone(digits, state.zone_count())?;
    Ok(Line::Full { zone })
}

// The fields of `query W udp|tcp ADDR HEX`.
#[tactic(auto, unfolding(crate::specs::Line::query_line))]
fn read_query(
    alloc: Global,
    fields: Left<'_>,
    state: &ScriptState<'_>,
) -> Result<Line, UnnumberedError>
    ensures exact { Gives result (query_line (state_of state.now) (fields_left fields.entry)) }
    ensures within { IfOk result (IsWithin (state_of state.now)) }
{
    let (digits, carrier, source, text) = four_fields(fields)?;
    let worker = worker(digits)?;
    let transport = transport(carrier)?;
    let client = address(source)?;
    let message = message(alloc, text)?;
    if state.is_pending(worker) {
        return Err(UnnumberedError::Refused(LineFault::Busy));
    }
    Ok(Line::Query {
        worker,
        transport,
        client,
        message,
    })
}

// The fields of `give W HEX`.
#[tactic(auto, unfolding(crate::specs::Line::give_line))]
fn read_give(
    alloc: Global,
    fields: Left<'_>,
    state: &ScriptState<'_>,
) -> Result<Line, UnnumberedError>
    ensures exact { Gives result (give_line (state_of state.now) (fields_left fields.entry)) }
    ensures within { IfOk result (IsWithin (state_of state.now)) }
{
    let (digits, text) = two_fields(fields)?;
    let worker = worker(digits)?;
    let message = message(alloc, text)?;
    if !state.is_pending(worker) {
        return Err(UnnumberedError::Refused(LineFault::Idle));
    }
    Ok(Line::Give { worker, message })
}

// The field of `fail W`.
#[tactic(auto, unfolding(crate::specs::Line::fail_line))]
fn read_fail(fields: Left<'_>, state: &ScriptState<'_>) -> Result<Line, UnnumberedError>
    ensures exact { Gives result (fail_line (state_of state.now) (fields_left fields.entry)) }
    ensures within { IfOk result (IsWithin (state_of state.now)) }
{
    let digits = one_field(fields)?;
    let worker = worker(digits)?;
    if !state.is_pending(worker) {
        return Err(UnnumberedError::Refused(LineFault::Idle));
    }
    Ok(Line::Fail { worker })
}

// The fields of `notify ADDR HEX`.
#[tactic(auto, unfolding(crate::specs::Line::notify_line))]
fn read_notify(alloc: Global, fields: Left<'_>) -> Result<Line, UnnumberedError>
    ensures exact { Gives result (notify_line (fields_left fields.entry)) }
    ensures within { (state : PlainState) → IfOk result (IsWithin state) }
{
    let (source, text) = two_fields(fields)?;
    let client = address(source)?;
    let message = bytes(alloc, text)?;
    Ok(Line::Notify { client, message })
}

// `due`, which has no field.
#[tactic(auto, unfolding(crate::specs::Line::due_line))]
fn read_due(fields: Left<'_>) -> Result<Line, UnnumberedError>
    ensures exact { Gives result (due_line (fields_left fields.entry)) }
    ensures within { (state : PlainState) → IfOk result (IsWithin state) }
{
    no_fields(fields)?;
    Ok(Line::Due)
}

// The field of `clock SECONDS`.
#[tactic(auto, unfolding(crate::specs::Line::clock_line))]
fn read_clock(fields: Left<'_>) -> Result<Line, UnnumberedError>
    ensures exact { Gives result (clock_line (fields_left fields.entry)) }
    ensures within { (state : PlainState) → IfOk result (IsWithin state) }
{
    let digits = one_field(fields)?;
    let seconds = number(digits)?;
    Ok(Line::Clock { seconds })
}
