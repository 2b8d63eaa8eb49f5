//! The endpoints at which a server answers.

ghost use Rattle.std.specs.Prelude.{◌≡◌, [], ◌∷◌, ◌++◌, length, map, IfOk, OnOk, OnErr};
ghost use Rattle.std.specs.List.{list_any};
ghost use Rattle.rpz_words.specs.Endpoint.{endpoint_of};
ghost use Rattle.rpz_words.specs.Lists.{each_of, has_twice, is_same_endpoint, listen_fault, listen_of};
ghost use Rattle.rpz_words.specs.Outcome.{Gives, or_said};

use crate::cutting::comma_parts;
use crate::endpoint_text::read_endpoint;
use crate::usage_cause::{ListFault, UsageCause};
use crate::words_error::WordsError;
use edge_io::{Endpoint, LISTEN_LIMIT};
use std::alloc::{AllocError, Global};
use std::marker::Model;

/// The endpoints at which a server answers, in order. Contracts see the list.
#[derive(Debug, Drop)]
pub struct Endpoints {
    endpoints: Vec<Endpoint>,
}

impl Model for Endpoints {
    ghost use Rattle.std.specs.Prelude.{List};
    ghost use Rattle.edge_io.specs.declared.endpoint.Endpoint.{Endpoint};

    ghost Value = { List Endpoint };

    ghost view = { λ e. e.endpoints.items };
}

impl Endpoints {
    /// No endpoints. It takes no memory.
    pub(crate) fn new(alloc: Global) -> Self
        ensures { result ≡ [] }
    {
        Endpoints {
            endpoints: Vec::new(alloc),
        }
    }

    // Puts an endpoint behind the others. An `Err` leaves them as they were.
    pub(crate) fn push(&mut self, endpoint: Endpoint) -> Result<(), AllocError>
        ensures ok { OnOk result (self.new ≡ self.old ++ endpoint ∷ []) }
        ensures err { OnErr result (self.new ≡ self.old) }
    {
        self.endpoints.push(endpoint)?;
        Ok(())
    }

    /// How many endpoints there are.
    pub fn len(&self) -> usize
        ensures { result ≡ length self.now }
    {
        self.endpoints.len()
    }

    /// The endpoints in order.
    pub fn as_slice(&self) -> &[Endpoint]
        ensures { result.now ≡ self.now }
    {
        self.endpoints.as_slice()
    }

    /// A copy of the list.
    pub fn again(&self, alloc: Global) -> Result<Self, AllocError>
        ensures { IfOk result (λ list. list ≡ self.now) }
    {
        Ok(Endpoints {
            endpoints: Vec::from_slice(alloc, self.endpoints.as_slice())?,
        })
    }
}

/// The endpoints that LISTEN writes: 1 to 16 with commas between them, none twice.
#[tactic(auto, unfolding(crate::specs::Lists::listen_of))]
pub(crate) fn read_listen(alloc: Global, text: &[u8]) -> Result<Endpoints, WordsError>
    ensures { Gives result (listen_of text.now) }
{
    let parts = comma_parts(alloc, text)?;
    if parts.len() > LISTEN_LIMIT {
        return Err(WordsError::Usage(UsageCause::Listen(ListFault::Many)));
    }
    let endpoints = read_each(alloc, parts.as_slice())?;
    if has_repeated(endpoints.as_slice()) {
        return Err(WordsError::Usage(UsageCause::Listen(ListFault::Repeated)));
    }
    Ok(endpoints)
}

// The endpoint of each text.
fn read_each(alloc: Global, texts: &[&[u8]]) -> Result<Endpoints, WordsError>
    ensures { Gives result
        (each_of endpoint_of listen_fault 1 (map (λ text. text.now) texts.now)) }
{
    let mut endpoints = Endpoints::new(alloc);
    let mut number = 0;
    for text in texts {
        number += 1;
        let endpoint = read_at(number, text)?;
        endpoints.push(endpoint)?;
    }
    Ok(endpoints)
}

// The endpoint of this number.
fn read_at(number: usize, text: &[u8]) -> Result<Endpoint, UsageCause>
    ensures { result ≡ or_said (listen_fault number) (endpoint_of text.now) }
{
    match read_endpoint(text) {
        Ok(endpoint) => Ok(endpoint),
        Err(why) => Err(UsageCause::Listen(ListFault::At { number, why })),
    }
}

// Whether two of the endpoints are equal.
fn has_repeated(endpoints: &[Endpoint]) -> bool
    ensures { result ≡ has_twice is_same_endpoint endpoints.now }
{
    let mut left = endpoints;
    while let [endpoint, others @ ..] = left {
        if is_among(endpoint, others) {
            return true;
        }
        left = others;
    }
    false
}

// Whether this endpoint is one of them.
fn is_among(endpoint: &Endpoint, others: &[Endpoint]) -> bool
    ensures { result ≡ list_any (λ other. is_same_endpoint other endpoint.now) others.now }
{
    others.iter().any(|other| other == endpoint)
}
