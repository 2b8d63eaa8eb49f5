//! The queries of a load.

ghost use Rattle.std.specs.Prelude.{◌≡◌, ◌<◌, ◌-◌, ◌^◌, length, string_bytes, IfOk, OnOk};
ghost use Rattle.dns_message.specs.Spelling.{spelling};
ghost use Rattle.load_gen.specs.Queries as form;
ghost use Rattle.load_gen.specs.Draws.{after_four};
ghost use Rattle.load_gen.specs.Queries.{query_from};

use crate::draws::Draws;
use crate::load::LoadQuery;
use crate::names::written_name;
use dns_message::{Header, Question, write_parts};
use dns_name::{Name, Octets};
use dns_record::{class, rtype};
use ip_prefix::Addr;
use std::alloc::{AllocError, Global};

// The text of a query's name.
fn query_text(alloc: Global, a: u32, b: u32, c: u32) -> Result<String, AllocError>
    ensures { IfOk result (λ text. string_bytes text ≡ form.query_text a b c) }
{
    let host = b % 4096;
    let group = c % 64;
    if a % 2 == 1 {
        format!(in alloc; "w.h{host}.g{group}.example")
    } else {
        format!(in alloc; "h{host}.g{group}.example")
    }
}

// The address of a client.
fn client_of(d: u32) -> Addr
    ensures { result ≡ form.client_of d }
{
    Addr::V4(0x0a00_0001 + d % 256 * 0x1_0000 + d / 256 % 256 * 0x100)
}

// The request of this ID for the addresses of a name.
fn request_for(alloc: Global, id: u16, name: Name) -> Result<Octets, AllocError>
    ensures { IfOk result (λ octets. octets ≡ spelling (form.load_request id name)) }
{
    let mut octets = Octets::with_capacity(alloc, name.octets().len() + 16)?;
    let question = Question {
        name,
        qtype: rtype::A,
        qclass: class::IN,
    };
    let header = Header::request(id, true);
    write_parts(&mut octets, &header, Some(&question), &[], &[], &[], None)?;
    Ok(octets)
}

// The next query, which has this ID.
fn query(alloc: Global, draws: &mut Draws, id: u16) -> Result<LoadQuery, AllocError>
    ensures query { IfOk result (λ q. q ≡ query_from id draws.old.state) }
    ensures state { OnOk result (draws.new.state ≡ after_four draws.old.state) }
{
    let a = draws.next();
    let b = draws.next();
    let c = draws.next();
    let d = draws.next();
    let text = query_text(alloc, a, b, c)?;
    let name = written_name(alloc, text.as_bytes())?;
    Ok(LoadQuery {
        client: client_of(d),
        message: request_for(alloc, id, name)?,
    })
}

/// The first queries of the draws, so many.
pub(crate) fn first_queries(
    alloc: Global,
    draws: &mut Draws,
    count: u32,
) -> Result<Vec<LoadQuery>, AllocError>
    requires { count < 2 ^ 32 - 1 }
    ensures queries { IfOk result (λ all. all.items ≡ form.first_queries draws.old.state count) }
    ensures count { IfOk result (λ all. length all.items ≡ count) }
{
    let mut queries = Vec::with_capacity(alloc, count as usize)?;
    for place in 0..count {
        queries.push(query(alloc, draws, ((place + 1) % 65_536) as u16)?)?;
    }
    Ok(queries)
}
