//! What was obtained for a question of a query.

use dns_message::Question;
use edge_io::Link;
use upstream_link::Learned;

/// What was obtained for a question of a query.
#[derive(Drop)]
pub enum Obtained<L: Link> {
    /// What a link of the kind gave for it, now or earlier: its question, the ID that asked it, the bytes and the second.
    Learned(Learned<L>),
    /// Nothing: the link failed.
    Failed(Question),
}
