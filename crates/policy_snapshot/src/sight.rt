//! What look-ups of rules take at a position of the chain of aliases.

use dns_message::RecordRefs;
use dns_name::Name;
use ip_prefix::Addr;
use qname_index::LookupName;
use upstream_link::Names;

/// What rules are looked up by at a position of the chain of aliases.
#[derive(Drop)]
pub(crate) struct Sight<'a> {
    pub(crate) position: u32,
    pub(crate) client: Addr,
    /// The name at the position.
    pub(crate) name: &'a Name,
    /// That name in lower case, as rules are looked up by it.
    pub(crate) lower: &'a LookupName,
    /// The records of the answer to the query.
    pub(crate) records: RecordRefs<'a>,
    /// The servers of the name.
    pub(crate) servers: &'a [&'a Names],
    /// The addresses of the servers.
    pub(crate) addresses: &'a [Addr],
}
