//! Requests for a zone.

ghost use Rattle.std.specs.Prelude.{◌≡◌, ◌≤◌, length, IfOk};
ghost use Rattle.edge_io.specs.declared.frame.TheConstants.{FRAME_MAX};
ghost use Rattle.dns_message.specs.Spelling.{spelling};
ghost use Rattle.ixfr_apply.specs.Request.{newer_request, request_message, whole_request};

use dns_message::{Header, Question, write_parts};
use dns_name::{Name, Octets};
use dns_record::{Record, Soa, class, rtype};
use std::alloc::{AllocError, Global};

/// The bytes of a request of this ID for all of a zone (AXFR, RFC 5936, section 2.1): its question alone. They fit a frame.
#[tactic(auto, using(crate::proofs::Short::whole_is_short))]
pub fn request(alloc: Global, id: u16, origin: &Name) -> Result<Octets, AllocError>
    ensures request { IfOk result (λ octets. octets ≡ spelling (whole_request id origin.now)) }
    ensures short { IfOk result (λ octets. length octets ≤ FRAME_MAX) }
{
    let _name = origin.octets();
    written(alloc, id, origin, rtype::AXFR, &[])
}

/// The bytes of a request of this ID for what is newer of a zone than our version, whose SOA this is (IXFR, RFC 1995, section
/// 3): its question, and the SOA record of our version as authority. They fit a frame.
pub fn request_newer(alloc: Global, id: u16, origin: &Name, soa: &Soa) -> Result<Octets, AllocError>
    ensures request { IfOk result
        (λ octets. octets ≡ spelling (newer_request id origin.now soa.now)) }
    ensures short { IfOk result (λ octets. length octets ≤ FRAME_MAX) }
{
    // called for their clauses: names are short
    let _origin = origin.octets();
    let _mname = soa.mname.octets();
    let _rname = soa.rname.octets();
    let ours = [soa.record(alloc, copied(origin)?)?];
    written(alloc, id, origin, rtype::IXFR, &ours)
}

// The same name once more.
fn copied(name: &Name) -> Result<Name, AllocError>
    ensures { IfOk result (λ copy. copy ≡ name.now) }
{
    Ok(name.clone()?)
}

// The bytes of a request with a question of this type and these records as authority.
fn written(
    alloc: Global,
    id: u16,
    origin: &Name,
    qtype: u16,
    authority: &[Record],
) -> Result<Octets, AllocError>
    ensures { IfOk result
        (λ octets. octets ≡ spelling (request_message id origin.now qtype authority.now)) }
{
    let header = Header::request(id, false);
    let question = Question {
        name: origin.clone()?,
        qtype,
        qclass: class::IN,
    };
    let mut out = Octets::with_capacity(alloc, 12 + origin.octets().len() + 4)?;
    write_parts(
        &mut out,
        &header,
        Some(&question),
        &[],
        authority,
        &[],
        None,
    )?;
    Ok(out)
}
