//! Endpoints as text.

ghost use Rattle.std.specs.Prelude.{◌≡◌, Some, Ok, Err, MatchResult};
ghost use Rattle.rpz_words.specs.Endpoint.{behind_colon, endpoint_octets, endpoint_of, v4_endpoint, v6_endpoint};
ghost use Rattle.rpz_words.specs.Values.{port_of};

use crate::cutting::cut;
use crate::usage_cause::EndpointFault;
use crate::values::number_to;
use edge_io::Endpoint;
use ip_prefix::Addr;
use networks::{AddressText, is_mapped, read_v4, read_v6};
use std::fmt::{self, Display};

/// The most digits of a port.
const PORT_DIGITS: usize = 5;

/// The greatest port.
const PORT_LIMIT: u32 = 65_535;

/// An endpoint as it is written: `A.B.C.D:PORT`, or `[V6]:PORT` with an address in the form of RFC 5952.
#[derive(Clone, Copy, Debug)]
pub struct EndpointText(pub Endpoint);

impl Display for EndpointText {
    ghost output = { λ t. Some (endpoint_octets t.0) };

    fn fmt<W: fmt::Write>(&self, f: &mut fmt::Formatter<W>) -> fmt::Result {
        let addr = AddressText(self.0.addr);
        let port = self.0.port;
        match self.0.addr {
            Addr::V4(_) => write!(f, "{addr}:{port}"),
            Addr::V6(_) => write!(f, "[{addr}]:{port}"),
        }
    }
}

/// The endpoint that a text writes: `A.B.C.D:PORT`, or `[V6]:PORT` (RFC 3986, section 3.2.2).
pub(crate) fn read_endpoint(text: &[u8]) -> Result<Endpoint, EndpointFault>
    ensures { result ≡ endpoint_of text.now }
{
    match text {
        [b'[', rest @ ..] => read_v6_endpoint(rest),
        _ => read_v4_endpoint(text),
    }
}

// The endpoint that `A.B.C.D:PORT` writes.
#[tactic(auto, unfolding(crate::specs::Endpoint::v4_endpoint))]
fn read_v4_endpoint(text: &[u8]) -> Result<Endpoint, EndpointFault>
    ensures { result ≡ v4_endpoint text.now }
{
    let (addr, port) = cut(text, b':');
    let addr = read_v4(addr).ok_or(EndpointFault::Address)?;
    let port = read_port(port).ok_or(EndpointFault::Port)?;
    Ok(Endpoint {
        addr: Addr::V4(addr),
        port,
    })
}

// The endpoint that `V6]:PORT` writes, behind its first bracket.
#[tactic(auto, unfolding(crate::specs::Endpoint::v6_endpoint))]
fn read_v6_endpoint(text: &[u8]) -> Result<Endpoint, EndpointFault>
    ensures { result ≡ v6_endpoint text.now }
{
    let (addr, rest) = cut(text, b']');
    let addr = read_v6(addr).ok_or(EndpointFault::Address)?;
    if is_mapped(addr) {
        return Err(EndpointFault::Mapped);
    }
    let digits = digits_behind_colon(rest)?;
    let port = read_port(digits).ok_or(EndpointFault::Port)?;
    Ok(Endpoint {
        addr: Addr::V6(addr),
        port,
    })
}

// What stands behind the colon that the text begins with.
fn digits_behind_colon(text: &[u8]) -> Result<&[u8], EndpointFault>
    ensures { MatchResult result (λ digits. behind_colon text.now ≡ Ok digits.now) (λ why. behind_colon text.now ≡ Err why) }
{
    match text {
        [b':', digits @ ..] => Ok(digits),
        _ => Err(EndpointFault::Form),
    }
}

// The port that 1 to 5 decimal digits write.
#[tactic(auto, unfolding(crate::specs::Values::port_of))]
fn read_port(digits: &[u8]) -> Option<u16>
    ensures { result ≡ port_of digits.now }
{
    if digits.len() > PORT_DIGITS {
        return None;
    }
    let port = number_to(digits, PORT_LIMIT)?;
    Some(port as u16)
}
