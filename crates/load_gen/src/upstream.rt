//! The upstream in memory.

ghost use Rattle.std.specs.Prelude.{◌≡◌, fold, IfOk};
ghost use Rattle.dns_message.specs.Spelling.{IsQuestion, spelling};
ghost use Rattle.load_gen.specs.Upstream as form;

use dns_message::laws::a_message_is_read_as_it_is_spelled;
use dns_message::{Header, Question, write_start};
use dns_name::{Name, Octets};
use dns_record::{class, rtype, write_record};
use std::alloc::{AllocError, Global};
use upstream_link::{Fact, fact_of};

// A byte more of a name.
fn next_sum(sum: u16, byte: u8) -> u16
    ensures { result ≡ form.next_sum sum byte }
{
    ((31 * u32::from(sum) + u32::from(byte)) % 0x1_0000) as u16
}

// What bytes come to.
fn sum_of(octets: &[u8]) -> u16
    ensures { result ≡ fold form.next_sum 0 octets.now }
{
    let mut sum = 0;
    for byte in octets {
        sum = next_sum(sum, *byte);
    }
    sum
}

// What the bytes of a name in lower case come to.
fn name_sum(alloc: Global, name: &Name) -> Result<u16, AllocError>
    ensures { IfOk result (λ sum. sum ≡ form.name_sum name.now) }
{
    let lower = name.lower(alloc)?;
    Ok(sum_of(lower.octets()))
}

// The address of this sum.
fn address_octets(sum: u16) -> [u8; 4]
    ensures { result ≡ form.address_octets sum }
{
    [10, 0, (sum / 256) as u8, (sum % 256) as u8]
}

// The bytes of the response to a question.
#[tactic(auto, using(crate::proofs::Responses::pieces))]
fn response_octets(alloc: Global, question: &Question) -> Result<Octets, AllocError>
    ensures { IfOk result (λ octets. octets ≡ spelling (form.response_to question.now)) }
{
    let mut octets = Octets::with_capacity(alloc, 512)?;
    let address = address_octets(name_sum(alloc, &question.name)?);
    let header = Header {
        id: 0,
        qr: true,
        opcode: 0,
        aa: false,
        tc: false,
        rd: true,
        ra: true,
        rcode: 0,
    };
    write_start(&mut octets, &header, Some(question), 1, 0, 0)?;
    write_record(
        &mut octets,
        &question.name,
        rtype::A,
        class::IN,
        60,
        &address,
    )?;
    Ok(octets)
}

// A question of a message is one that can be written.
fn note_question(question: &Question)
    ensures { IsQuestion question.now }
{
    let _labels = question.name.labels();
    let _qtype = question.qtype;
    let _qclass = question.qclass;
}

/// What the upstream answers to a question.
pub(crate) fn fact_for(alloc: Global, question: &Question) -> Result<Fact, AllocError>
    ensures { IfOk result (λ fact. fact ≡ form.fact_for question.now) }
{
    a_message_is_read_as_it_is_spelled();
    note_question(question);
    let octets = response_octets(alloc, question)?;
    fact_of(alloc, octets.as_slice(), 0, question)
}
