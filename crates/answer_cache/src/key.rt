//! The keys of a cache.

ghost use Rattle.std.specs.Prelude.{◌≡◌, IfOk};
ghost use Rattle.answer_cache.specs.Key.{key_of};

use dns_message::Question;
use dns_name::Octets;
use dns_record::number::push_u16;
use std::alloc::{AllocError, Global};

/// The key of a question: its name in lower case, its type and its class, as a message has them.
#[tactic(auto, unfolding(crate::specs::Key::key_of))]
pub(crate) fn key_octets(alloc: Global, question: &Question) -> Result<Octets, AllocError>
    ensures { IfOk result (λ octets. octets ≡ key_of question.now) }
{
    let name = question.name.octets();
    let mut key = Vec::with_capacity(alloc, name.len() + 4)?;
    key.extend_from_slice(name)?;
    // no length byte is a letter
    key.make_ascii_lowercase();
    let mut octets = Octets::from_vec(key);
    push_u16(&mut octets, question.qtype)?;
    push_u16(&mut octets, question.qclass)?;
    Ok(octets)
}
