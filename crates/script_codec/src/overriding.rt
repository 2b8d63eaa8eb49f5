//! What stands behind the name of a zone.

ghost use Rattle.std.specs.Prelude.{◌≡◌};
ghost use Rattle.script_codec.specs.Fields.{fields_left};
ghost use Rattle.script_codec.specs.Outcome.{Gives, Reads};
ghost use Rattle.script_codec.specs.Overriding as form;
ghost use Rattle.script_codec.specs.Overriding.{override_field, text_seen};

use crate::field::name;
use crate::fields::{Left, first_field, no_fields, one_field};
use crate::line_fault::{LineFault, UnnumberedError};
use policy_override::Override;
use std::alloc::Global;

/// What stands behind the name of a zone, before it is looked at.
#[derive(Clone, Copy, Debug)]
pub enum OverrideText<'a> {
    /// Nothing.
    Nothing,
    /// A word other than `cname`.
    Word(&'a [u8]),
    /// What stands behind `cname`.
    Target(&'a [u8]),
}

/// What is left of a line behind the name of a zone: nothing, a word, or `cname` and one field more.
#[tactic(auto, using(crate::proofs::Cuts::stands_there))]
pub(crate) fn override_text<'a>(left: Left<'a>) -> Result<OverrideText<'a>, LineFault>
    ensures { Reads text_seen result (form.override_text (fields_left left.entry)) }
{
    match left {
        None => Ok(OverrideText::Nothing),
        Some(_) => worded_override(left),
    }
}

// The same where something is left.
#[tactic(auto, unfolding(crate::specs::Overriding::worded_override))]
fn worded_override<'a>(left: Left<'a>) -> Result<OverrideText<'a>, LineFault>
    ensures { Reads text_seen result (form.worded_override (fields_left left.entry)) }
{
    let (first, others) = first_field(left)?;
    if first == b"cname".as_slice() {
        return Ok(OverrideText::Target(one_field(others)?));
    }
    no_fields(others)?;
    Ok(OverrideText::Word(first))
}

/// What this sets over the rules of a zone. A word that names no override is `LineFault::Override`, and a target that is no name
/// `LineFault::Name`.
pub(crate) fn set_over(alloc: Global, text: OverrideText<'_>) -> Result<Override, UnnumberedError>
    ensures { Gives result (override_field (text_seen text.entry)) }
{
    match text {
        OverrideText::Nothing => Ok(Override::Given),
        OverrideText::Word(word) => match Override::named(word) {
            Some(over) => Ok(over),
            None => Err(UnnumberedError::Refused(LineFault::Override)),
        },
        OverrideText::Target(target) => Ok(Override::Cname(name(alloc, target)?)),
    }
}
