//! The request list: queries that rules and the cache don't answer, between the workers that pass them on and the askers.
//!
//! No contract speaks of what stands here, but by the traits `Onward` and `Items` that it implements: which query an asker gets, and when,
//! only tests show (worker_tests: requests, request_limits, request_threads; tools/attack). `limits` has the numbers.

mod idle;
mod in_hand;
mod limits;
mod list;
mod list_state;
mod marks;
mod request_items;
mod request_onward;
mod tally;
mod waiting;
mod wake_count;

pub use limits::{
    IDLE_SECONDS, JOSTLE_MILLISECONDS, QUERY_SECONDS, WAITING_OCTETS, WAITING_QUERIES,
};
pub use list::RequestList;
pub use request_items::RequestItems;
pub use request_onward::RequestOnward;
