//! Names as text.

ghost use Rattle.std.specs.Prelude.{◌≡◌, MatchResult, IfOk};
ghost use Rattle.dns_name.specs.Labels.{IsName, name_octets};
ghost use Rattle.dns_name.specs.Text as text_form;
ghost use Rattle.dns_name.specs.Text.{split_at_dots, text_name, TextGives};

use crate::fault::{TextError, TextFault};
use crate::limits::{LABEL_LIMIT, NAME_LIMIT};
use crate::name::Name;
use std::alloc::{AllocError, Global};

fn is_label_byte(byte: u8) -> bool
    ensures { result ≡ text_form.is_label_byte byte }
{
    byte.is_ascii_alphanumeric() || matches!(byte, b'-' | b'_' | b'*')
}

fn has_text_bytes(text: &[u8]) -> bool
    ensures { result ≡ text_form.has_text_bytes text.now }
{
    text.iter()
        .all(|byte| is_label_byte(*byte) || *byte == b'.')
}

fn without_last_dot(text: &[u8]) -> &[u8]
    ensures { result.now ≡ text_form.without_last_dot text.now }
{
    if text.ends_with(b".") {
        &text[..text.len() - 1]
    } else {
        text
    }
}

fn has_label_lengths(labels: &[u8]) -> bool
    ensures { result ≡ text_form.has_label_lengths (split_at_dots labels.now) }
{
    labels
        .split(|byte| *byte == b'.')
        .all(|label| matches!(label.len(), 1..=LABEL_LIMIT))
}

/// The labels of a text with the dots between them, or the first fault.
fn labels_of(text: &[u8]) -> Result<&[u8], TextFault>
    ensures exact { MatchResult result (λ labels. text_name text.now
        ≡ Ok (split_at_dots labels.now)) (λ fault. text_name text.now ≡ Err fault) }
    ensures name { IfOk result (λ labels. IsName (split_at_dots labels.now)) }
{
    let labels = without_last_dot(text);
    if labels.is_empty() {
        return Err(TextFault::Empty);
    }
    if !has_text_bytes(text) {
        return Err(TextFault::Char);
    }
    if !has_label_lengths(labels) {
        return Err(TextFault::Label);
    }
    // A length byte before each label takes the place of a dot, but for the first, and a zero ends the name.
    if labels.len() + 2 > NAME_LIMIT {
        return Err(TextFault::TooLong);
    }
    Ok(labels)
}

/// The name as it is written in a message.
fn wire_of(alloc: Global, labels: &[u8]) -> Result<Vec<u8>, AllocError>
    requires { IsName (split_at_dots labels.now) }
    ensures { IfOk result (λ wire. wire.items ≡ name_octets (split_at_dots labels.now)) }
{
    let mut wire = Vec::with_capacity(alloc, labels.len() + 2)?;
    for label in labels.split(|byte| *byte == b'.') {
        wire.push(label.len() as u8)?;
        wire.extend_from_slice(label)?;
    }
    wire.push(0)?;
    Ok(wire)
}

impl Name {
    /// The name that a text gives: labels of ASCII letters, digits, `-`, `_` and `*`, joined by dots, of
    /// 1 to 63 bytes each. A dot at the end is allowed. Letters keep their case.
    pub fn from_text(alloc: Global, text: &[u8]) -> Result<Name, TextError>
        ensures exact { TextGives result (text_name text.now) }
        ensures name { IfOk result (λ name. IsName name) }
    {
        let labels = labels_of(text)?;
        let wire = wire_of(alloc, labels)?;
        Ok(Name::from_wire(wire))
    }
}
