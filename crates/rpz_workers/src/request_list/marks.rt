//! What the request list knows a query by.

use dns_message::Question;
use ip_prefix::Addr;
use std::hash::{BuildHasher, DefaultHasher, Hasher, RandomState};

// Behind how many bits of an address of version 6 clients of one site differ: behind the /56 that providers give to a site.
const SITE_BITS: u32 = 72;

// How many labels the name of a domain has that somebody has registered, mostly.
const DOMAIN_LABELS: usize = 2;

/// The hashes that the request list knows a query by. They are made with a seed that is drawn at random, since strangers pick what is
/// hashed.
#[derive(Clone, Copy)]
pub(crate) struct Marks {
    /// Of the question: its name in lower case, its type and its class.
    pub(crate) question: u64,
    /// Of the client: its address, and of version 6 the first 56 bits alone.
    pub(crate) client: u64,
    /// Of the domain: the last two labels of the question's name, in lower case.
    pub(crate) domain: u64,
}

// Adds octets in lower case. No length byte of a name is a letter.
fn write_lower(hasher: &mut DefaultHasher, octets: &[u8]) {
    for octet in octets {
        hasher.write_u8(octet.to_ascii_lowercase());
    }
}

fn hash_of_question(hashers: &RandomState, question: &Question) -> u64 {
    let mut hasher = hashers.build_hasher();
    write_lower(&mut hasher, question.name.octets());
    hasher.write_u16(question.qtype);
    hasher.write_u16(question.qclass);
    hasher.finish()
}

fn hash_of_client(hashers: &RandomState, client: Addr) -> u64 {
    let mut hasher = hashers.build_hasher();
    match client {
        Addr::V4(number) => hasher.write_u32(number),
        Addr::V6(number) => hasher.write_u128(number >> SITE_BITS),
    }
    hasher.finish()
}

fn hash_of_domain(hashers: &RandomState, question: &Question) -> u64 {
    let mut labels = question.name.labels();
    labels.skip(question.name.label_count().saturating_sub(DOMAIN_LABELS));
    let mut hasher = hashers.build_hasher();
    write_lower(&mut hasher, labels.octets());
    hasher.finish()
}

/// The marks of a query for this question, of this client.
pub(crate) fn marks_of(hashers: &RandomState, question: &Question, client: Addr) -> Marks {
    Marks {
        question: hash_of_question(hashers, question),
        client: hash_of_client(hashers, client),
        domain: hash_of_domain(hashers, question),
    }
}
