//! Laws of what words ask for. Each function is its clauses.

ghost use Rattle.std.specs.Prelude.{◌≡◌, ◌≤◌, ◌∷◌, ℕ, List, Option, None, Ok};
ghost use Rattle.clap.specs.Words.{Row, Text};
ghost use Rattle.edge_io.specs.declared.endpoint.Endpoint.{Endpoint};
ghost use Rattle.rpz_words.specs.Endpoint.{IsWritable, endpoint_octets, endpoint_of};
ghost use Rattle.rpz_words.specs.Values.{number_between};
ghost use Rattle.rpz_words.specs.Limits.{IsWithinLimits};
ghost use Rattle.rpz_words.specs.Words.{command_of};
ghost use Rattle.rpz_words.specs.declared.command.Command.{Command};

use networks::text_laws::{a_text_is_read_by_its_cases, what_is_written_is_read_back};

/// What words ask for is within its limits: a server takes an arrival or more, has 1 to 16 endpoints of which no two are equal, 1 to 16
/// workers that answer datagrams at each and 1 to 512 that ask the upstream, a cache of 16 to 1,048,576 answers, at most 64 networks
/// whose clients may ask, of which no two are equal, and 1 to 64 zones of distinct names; a load run has at most 1,000,000 rules and as
/// many queries, and 1 to 16 workers.
pub fn what_is_asked_for_is_within_limits()
    ensures { (found : Option (Text × List Row)) (command : Command) →
        command_of found ≡ Ok command → IsWithinLimits command }
{}

/// The port of an endpoint is never 0.
pub fn the_port_of_an_endpoint_is_not_0()
    ensures { (text : Text) (endpoint : Endpoint) → endpoint_of text ≡ Ok endpoint →
        1 ≤ endpoint.port }
{}

/// An endpoint is read back from what is written of it.
pub fn an_endpoint_is_read_back()
    ensures { (endpoint : Endpoint) → IsWritable endpoint →
        endpoint_of (endpoint_octets endpoint) ≡ Ok endpoint }
{
    what_is_written_is_read_back();
    a_text_is_read_by_its_cases();
}

/// A number has no sign: neither `+` nor `-` may stand before its digits.
pub fn a_number_has_no_sign()
    ensures plus { (least most : ℕ) (digits : Text) →
        number_between least most (43 ∷ digits) ≡ None }
    ensures minus { (least most : ℕ) (digits : Text) →
        number_between least most (45 ∷ digits) ≡ None }
{}
