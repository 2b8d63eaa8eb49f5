//! The fields of a line.

ghost use Rattle.std.specs.Prelude.{◌≡◌, ◌<◌, ◌∷◌, length, position, IfSome};
ghost use Rattle.script_codec.specs.Outcome.{Reads};
ghost use Rattle.script_codec.specs.Fields as fields_form;
ghost use Rattle.script_codec.specs.Fields.{is_space, fields_of, fields_left, no_more_fields};

use crate::line_fault::LineFault;

/// What is left of a line behind a space; nothing behind its last field.
pub type Left<'a> = Option<&'a [u8]>;

/// The first field, and what is left behind it.
pub fn split_field(text: &[u8]) -> (&[u8], Left<'_>)
    ensures { fields_of text.now ≡ result.0.now ∷ fields_left result.1 }
{
    match space_at(text) {
        Some(at) => (&text[..at], Some(&text[at + 1..])),
        None => (text, None),
    }
}

// Where the first space stands.
fn space_at(text: &[u8]) -> Option<usize>
    ensures value { result ≡ position is_space text.now }
    ensures bound { IfSome result (λ at. at < length text.now) }
{
    text.iter().position(|b| *b == b' ')
}

/// The first field, which may not be empty, and what is left behind it.
pub fn first_field<'a>(left: Left<'a>) -> Result<(&'a [u8], Left<'a>), LineFault>
    ensures { Reads (λ x. (x.0.now, fields_left x.1)) result
        (fields_form.first_field (fields_left left.entry)) }
{
    let Some(text) = left else {
        return Err(LineFault::Fields);
    };
    let (field, others) = split_field(text);
    if field.is_empty() {
        return Err(LineFault::Fields);
    }
    Ok((field, others))
}

/// A line without fields.
#[tactic(auto, using(crate::proofs::Cuts::never_ended))]
pub fn no_fields(left: Left<'_>) -> Result<(), LineFault>
    ensures { result ≡ no_more_fields (fields_left left.entry) }
{
    match left {
        None => Ok(()),
        Some(_) => Err(LineFault::Fields),
    }
}

/// The field of a line that has one.
#[tactic(auto, using(crate::proofs::Cuts::never_ended), unfolding(crate::specs::Fields::one_field))]
pub fn one_field<'a>(left: Left<'a>) -> Result<&'a [u8], LineFault>
    ensures { Reads (λ x. x.now) result (fields_form.one_field (fields_left left.entry)) }
{
    let (first, others) = first_field(left)?;
    match others {
        None => Ok(first),
        Some(_) => Err(LineFault::Fields),
    }
}

/// The fields of a line that has two.
#[tactic(auto, unfolding(crate::specs::Fields::two_fields))]
pub fn two_fields<'a>(left: Left<'a>) -> Result<(&'a [u8], &'a [u8]), LineFault>
    ensures { Reads (λ x. (x.0.now, x.1.now)) result
        (fields_form.two_fields (fields_left left.entry)) }
{
    let (first, others) = first_field(left)?;
    let second = one_field(others)?;
    Ok((first, second))
}

/// The fields of a line that has four.
#[tactic(auto, unfolding(crate::specs::Fields::four_fields))]
pub fn four_fields<'a>(
    left: Left<'a>,
) -> Result<(&'a [u8], &'a [u8], &'a [u8], &'a [u8]), LineFault>
    ensures { Reads (λ x. (x.0.now, x.1.now, x.2.now, x.3.now)) result
        (fields_form.four_fields (fields_left left.entry)) }
{
    let (first, others) = first_field(left)?;
    let (second, others) = first_field(others)?;
    let (third, fourth) = two_fields(others)?;
    Ok((first, second, third, fourth))
}
