//! How long an answer may be kept (RFC 2308, section 5).

ghost use Rattle.std.specs.Prelude.{◌≡◌, option_copied, IfOk, IfSome};
ghost use Rattle.upstream_link.specs.AnswerLife as form;
ghost use Rattle.upstream_link.specs.Kept.{IsSoa};

use dns_record::{Record, soa_of};
use std::alloc::{AllocError, Global};

/// How many seconds an answer is kept at most: a day.
pub const LIFE_LIMIT: u32 = 86_400;

/// For how many seconds an answer of these parts may be kept. Its time is linear in the number of records.
pub(crate) fn life_by(
    alloc: Global,
    rcode: u8,
    answers: &[Record],
    soa: Option<&Record>,
) -> Result<u32, AllocError>
    requires { IfSome (option_copied soa) IsSoa }
    ensures { IfOk result
        (λ life. life ≡ form.life_by rcode answers.now (option_copied soa.entry)) }
{
    match soa {
        Some(rr) => Ok(least_ttl(soa_limit(alloc, rr)?, answers)),
        None if rcode == 3 || answers.len() == 0 => Ok(0),
        None => Ok(least_ttl(LIFE_LIMIT, answers)),
    }
}

// What a SOA record allows.
fn soa_limit(alloc: Global, rr: &Record) -> Result<u32, AllocError>
    requires { IsSoa rr.now }
    ensures { IfOk result (λ limit. limit ≡ form.soa_limit rr.now) }
{
    match soa_of(alloc, rr)? {
        Some(soa) => Ok(rr.ttl().min(soa.minimum).min(LIFE_LIMIT)),
        None => unreachable!(),
    }
}

// The least of so many seconds and of the TTLs of the records.
fn least_ttl(seconds: u32, records: &[Record]) -> u32
    ensures { result ≡ form.least_ttl seconds records.now }
{
    records
        .iter()
        .fold(seconds, |least: u32, rr: &Record| rr.ttl().min(least))
}
