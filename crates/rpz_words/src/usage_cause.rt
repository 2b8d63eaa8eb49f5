//! Why words ask for nothing.

ghost use Rattle.std.specs.Prelude.{◌≡◌, Some};
ghost use Rattle.rpz_words.specs.Cause.{allow_text, argument_text, cause_text, endpoint_word, list_text, network_word, zone_word, zones_word};

use networks::NetworkTextFault;
use std::fmt::{self, Display};

/// An argument or an option whose value is a number or a word.
#[derive(Clone, Copy, Debug, PartialEq, Eq)]
pub enum Argument {
    /// TURNS of a server.
    Turns,
    /// WORKERS of a server or of a load run.
    Workers,
    /// The value of `--askers`.
    Askers,
    /// The value of `--cache`.
    Cache,
    /// The value of `--hold`.
    Hold,
    /// The value of `--tcp-clients`.
    TcpClients,
    /// The value of `--tcp-per-client`.
    TcpPerClient,
    /// SEED of a load run.
    Seed,
    /// RULES of a load run.
    Rules,
    /// QUERIES of a load run.
    Queries,
}

/// Why a text writes no endpoint. Where several things are wrong, the fault is the one that stands first in the text.
#[derive(Clone, Copy, Debug, PartialEq, Eq)]
pub enum EndpointFault {
    /// No `:` stands right behind the `]`, or there is no `]`.
    Form,
    /// What stands before the first `:` is no address of IP version 4, or what stands between the brackets none of version 6.
    Address,
    /// The address between the brackets is one of version 4, mapped into version 6 (RFC 4291, section 2.5.5.2).
    Mapped,
    /// The port isn't 1 to 5 decimal digits, or not from 1 to 65,535.
    Port,
}

/// Why a text writes no list of endpoints: first [`ListFault::Many`], then the first endpoint that is none, then
/// [`ListFault::Repeated`].
#[derive(Clone, Copy, Debug, PartialEq, Eq)]
pub enum ListFault {
    /// There are more than 16 endpoints.
    Many,
    /// The endpoint of this number is none. Endpoint 1 is the first.
    At { number: usize, why: EndpointFault },
    /// Two endpoints are equal.
    Repeated,
}

/// Why a text writes no list of networks: first [`AllowFault::Many`], then the first network that is none, then
/// [`AllowFault::Repeated`].
#[derive(Clone, Copy, Debug, PartialEq, Eq)]
pub enum AllowFault {
    /// There are more than 64 networks.
    Many,
    /// The network of this number is none. Network 1 is the first.
    At {
        number: usize,
        why: NetworkTextFault,
    },
    /// Two networks are equal.
    Repeated,
}

/// Why a text writes no zone with its primary and its override. Where several things are wrong, the fault is the first of this list.
#[derive(Clone, Copy, Debug, PartialEq, Eq)]
pub enum ZoneWordFault {
    /// There is no `@`.
    Form,
    /// What stands before the first `@` is no name.
    Name,
    /// What stands behind it, before the first `=` or alone, is no endpoint.
    Primary(EndpointFault),
    /// What stands behind that `=` is no override.
    Override,
}

/// Why zones, of which each is well written, can't stand together.
#[derive(Clone, Copy, Debug, PartialEq, Eq)]
pub enum ZonesFault {
    /// There are more than 64 zones. It comes before a fault of one of them.
    Many,
    /// Two zones have one name. It comes behind a fault of one of them.
    Repeated,
}

/// Why words ask for nothing. Where several arguments are wrong, the cause is the first of: LISTEN, UPSTREAM, TURNS, WORKERS,
/// `--askers`, `--cache`, `--hold`, `--tcp-clients`, `--tcp-per-client`, `--allow`, the zones; and of a load run SEED, RULES, QUERIES,
/// WORKERS.
#[derive(Clone, Copy, Debug, PartialEq, Eq)]
pub enum UsageCause {
    /// The words are those of no command: an argument is missing, there is one too many, or an option is unknown, given twice, or
    /// without a value.
    Words,
    /// The value of this argument hasn't its form, or is out of its bounds.
    Value(Argument),
    /// LISTEN is no list of endpoints.
    Listen(ListFault),
    /// UPSTREAM is no endpoint.
    Upstream(EndpointFault),
    /// The value of `--allow` is no list of networks.
    Allow(AllowFault),
    /// The zone of this number is none. Zone 1 is the first.
    Zone { number: usize, why: ZoneWordFault },
    /// The zones can't stand together.
    Zones(ZonesFault),
}

impl Display for Argument {
    ghost output = { λ argument. Some (argument_text argument) };

    fn fmt<W: fmt::Write>(&self, f: &mut fmt::Formatter<W>) -> fmt::Result {
        let name = match self {
            Argument::Turns => "TURNS",
            Argument::Workers => "WORKERS",
            Argument::Askers => "--askers",
            Argument::Cache => "--cache",
            Argument::Hold => "--hold",
            Argument::TcpClients => "--tcp-clients",
            Argument::TcpPerClient => "--tcp-per-client",
            Argument::Seed => "SEED",
            Argument::Rules => "RULES",
            Argument::Queries => "QUERIES",
        };
        f.write_str(name)
    }
}

impl Display for EndpointFault {
    ghost output = { λ why. Some (endpoint_word why) };

    fn fmt<W: fmt::Write>(&self, f: &mut fmt::Formatter<W>) -> fmt::Result {
        let word = match self {
            EndpointFault::Form => "Form",
            EndpointFault::Address => "Address",
            EndpointFault::Mapped => "Mapped",
            EndpointFault::Port => "Port",
        };
        f.write_str(word)
    }
}

impl Display for ListFault {
    ghost output = { λ why. Some (list_text why) };

    fn fmt<W: fmt::Write>(&self, f: &mut fmt::Formatter<W>) -> fmt::Result {
        match *self {
            ListFault::Many => f.write_str("LISTEN: Many"),
            ListFault::At { number, why } => write!(f, "LISTEN {number}: {why}"),
            ListFault::Repeated => f.write_str("LISTEN: Repeated"),
        }
    }
}

impl Display for AllowFault {
    ghost output = { λ why. Some (allow_text why) };

    fn fmt<W: fmt::Write>(&self, f: &mut fmt::Formatter<W>) -> fmt::Result {
        match *self {
            AllowFault::Many => f.write_str("--allow: Many"),
            AllowFault::At { number, why } => {
                let word = word_of_network(why);
                write!(f, "--allow {number}: {word}")
            }
            AllowFault::Repeated => f.write_str("--allow: Repeated"),
        }
    }
}

impl Display for ZoneWordFault {
    ghost output = { λ why. Some (zone_word why) };

    fn fmt<W: fmt::Write>(&self, f: &mut fmt::Formatter<W>) -> fmt::Result {
        match *self {
            ZoneWordFault::Form => f.write_str("Form"),
            ZoneWordFault::Name => f.write_str("Name"),
            ZoneWordFault::Primary(why) => Display::fmt(&why, f),
            ZoneWordFault::Override => f.write_str("Override"),
        }
    }
}

impl Display for ZonesFault {
    ghost output = { λ why. Some (zones_word why) };

    fn fmt<W: fmt::Write>(&self, f: &mut fmt::Formatter<W>) -> fmt::Result {
        match self {
            ZonesFault::Many => f.write_str("Many"),
            ZonesFault::Repeated => f.write_str("Repeated"),
        }
    }
}

/// As standard error says it: `usage`, or with what is wrong behind it, as in `usage: LISTEN 2: Address`.
impl Display for UsageCause {
    ghost output = { λ cause. Some (cause_text cause) };

    fn fmt<W: fmt::Write>(&self, f: &mut fmt::Formatter<W>) -> fmt::Result {
        match *self {
            UsageCause::Words => f.write_str("usage"),
            UsageCause::Value(argument) => write!(f, "usage: {argument}"),
            UsageCause::Listen(why) => write!(f, "usage: {why}"),
            UsageCause::Upstream(why) => write!(f, "usage: UPSTREAM: {why}"),
            UsageCause::Allow(why) => write!(f, "usage: {why}"),
            UsageCause::Zone { number, why } => write!(f, "usage: ZONE@PRIMARY {number}: {why}"),
            UsageCause::Zones(why) => write!(f, "usage: ZONE@PRIMARY: {why}"),
        }
    }
}

// The word of a fault of a network.
fn word_of_network(why: NetworkTextFault) -> &'static str
    ensures { result.now ≡ network_word why }
{
    match why {
        NetworkTextFault::Form => "Form",
        NetworkTextFault::Address => "Address",
        NetworkTextFault::Length => "Length",
        NetworkTextFault::HostBits => "HostBits",
    }
}
