//! The lines of the transcript.

ghost use Rattle.std.specs.Prelude.{◌≡◌, ◌++◌, IfOk, OnOk, string_bytes};
ghost use Rattle.hex.specs.Hex.{encode_lower};
ghost use Rattle.script_codec.specs.ZoneFault as fault_form;
ghost use Rattle.script_codec.specs.Shown as shown_form;
ghost use Rattle.script_codec.specs.Shown.{shown_line};

use crate::shown::Shown;
use crate::zone_fault::Numbers;
use dns_name::Octets;
use std::alloc::{AllocError, Global};
use std::fmt::Write;

/// Room for the word of a line, a number of 10 digits, two spaces and the line feed.
const HEAD_BYTES: usize = 20;

/// The line that shows this, with its line feed.
pub fn write_shown(alloc: Global, shown: &Shown) -> Result<Octets, AllocError>
    ensures { IfOk result (λ text. text ≡ shown_line shown.now) }
{
    let line = match shown {
        Shown::Taken { zone, serial, rows } => {
            format!(in alloc; "taken {zone} {serial} {rows}\n")?
        }
        Shown::Current { zone, serial } => format!(in alloc; "current {zone} {serial}\n")?,
        Shown::Refused { zone, why } => { refused_line(alloc, *zone, why.word(), why.numbers())? }
        Shown::Ask { worker, message } => {
            return message_line(alloc, "ask", *worker, message.as_slice());
        }
        Shown::Reply { worker, message } => {
            return message_line(alloc, "reply", *worker, message.as_slice());
        }
        Shown::Silent { worker } => format!(in alloc; "silent {worker}\n")?,
        Shown::Notified { message } => return notified_line(alloc, message.as_slice()),
        Shown::Hush => format!(in alloc; "hush\n")?,
        Shown::Due { zone } => format!(in alloc; "due {zone}\n")?,
    };
    Ok(Octets::from_vec(line.into_bytes()))
}

// The line of a fault of this word and these numbers.
fn refused_line(
    alloc: Global,
    zone: u32,
    word: &str,
    numbers: Numbers,
) -> Result<String, AllocError>
    ensures { IfOk result (λ text. string_bytes text
        ≡ fault_form.refused_line zone word.now numbers) }
{
    match numbers {
        Numbers::Without => format!(in alloc; "refused {zone} {word}\n"),
        Numbers::One(number) => format!(in alloc; "refused {zone} {word} {number}\n"),
        Numbers::Two(first, second) => {
            format!(in alloc; "refused {zone} {word} {first} {second}\n")
        }
    }
}

// A word, the number of a worker, and a message in lower-case digits, in one allocation.
fn message_line(
    alloc: Global,
    word: &str,
    worker: u32,
    message: &[u8],
) -> Result<Octets, AllocError>
    ensures { IfOk result (λ text. text ≡ shown_form.message_line word.now worker message.now) }
{
    let capacity = message.len().saturating_mul(2).saturating_add(HEAD_BYTES);
    let mut head = String::with_capacity(alloc, capacity)?;
    write!(head, "{word} {worker} ")?;
    let mut line = head.into_bytes();
    push_digits(&mut line, message)?;
    line.push(b'\n')?;
    Ok(Octets::from_vec(line))
}

// The reply to a NOTIFY in lower-case digits, in one allocation.
fn notified_line(alloc: Global, message: &[u8]) -> Result<Octets, AllocError>
    ensures { IfOk result (λ text. text ≡ shown_form.notified_line message.now) }
{
    let capacity = message.len().saturating_mul(2).saturating_add(HEAD_BYTES);
    let mut head = String::with_capacity(alloc, capacity)?;
    write!(head, "notified ")?;
    let mut line = head.into_bytes();
    push_digits(&mut line, message)?;
    line.push(b'\n')?;
    Ok(Octets::from_vec(line))
}

// Puts bytes at the end, as lower-case digits.
fn push_digits(line: &mut Vec<u8>, bytes: &[u8]) -> Result<(), AllocError>
    ensures { OnOk result (line.new.items ≡ line.old.items ++ encode_lower bytes.now) }
{
    let start = line.len();
    let digits = bytes.len().checked_mul(2).ok_or(AllocError)?;
    let end = start.checked_add(digits).ok_or(AllocError)?;
    line.resize(end, 0)?;
    hex::encode_to_slice(bytes, &mut line[start..]).map_err(|_| AllocError)
}
