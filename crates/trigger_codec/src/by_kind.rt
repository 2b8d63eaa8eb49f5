//! One value for each kind of trigger.

/// What there is for each kind of trigger, in order of precedence: a `P` for each kind whose triggers are prefixes, an `N` for each
/// whose triggers are patterns of names.
#[derive(Drop)]
pub struct ByKind<P, N> {
    /// For [`Kind::ClientIp`](crate::Kind::ClientIp).
    pub client_ip: P,
    /// For [`Kind::Qname`](crate::Kind::Qname).
    pub qname: N,
    /// For [`Kind::ResponseIp`](crate::Kind::ResponseIp).
    pub response_ip: P,
    /// For [`Kind::NsDname`](crate::Kind::NsDname).
    pub nsdname: N,
    /// For [`Kind::NsIp`](crate::Kind::NsIp).
    pub nsip: P,
}
