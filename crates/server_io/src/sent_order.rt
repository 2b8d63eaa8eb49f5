// An order as wires in memory keep it.
ghost use Rattle.std.specs.Prelude.{◌≡◌};
ghost use Rattle.server_io.specs.Wired.{PlainOrder};

use crate::Order;
use dns_name::Octets;
use edge_io::Endpoint;
use std::marker::Model;

/// A transfer that was ordered, and its order. `None` stands for one that could not be begun.
#[derive(Drop)]
pub struct SentOrder {
    pub primary: Endpoint,
    pub request: Octets,
    pub given: Option<Order>,
}

impl Model for SentOrder {
    ghost Value = { PlainOrder };

    ghost view = { λ o. record { primary = o.primary; request = o.request; given = o.given } };
}

impl SentOrder {
    pub(crate) fn new(primary: Endpoint, request: Octets, given: Option<Order>) -> Self
        ensures primary { result.primary ≡ primary }
        ensures request { result.request ≡ request }
        ensures given { result.given ≡ given }
    {
        SentOrder {
            primary,
            request,
            given,
        }
    }
}
