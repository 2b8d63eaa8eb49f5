//! Limits of the request list.

/// How many queries wait for an asker at most. 256 askers whose upstream takes 50 ms get through so many in less than a second. Each
/// takes some 300 octets beside its message, so that all together take about a megabyte.
pub const WAITING_QUERIES: usize = 4_096;

/// How many octets the messages of the queries that wait have at most: 1,024 on average, twice what a query has without TCP, so that
/// long messages can't take more memory than short ones do.
pub const WAITING_OCTETS: usize = 4 * 1_024 * 1_024;

/// For how many seconds a query may take from when it was passed on, waiting counted: clients have given up by then.
pub const QUERY_SECONDS: u64 = 5;

/// For how many milliseconds a query may take that is taken while more than half of the askers are busy, so that slow ones give way.
/// What the upstream finds later it has in its cache when the client asks again.
pub const JOSTLE_MILLISECONDS: u64 = 500;

/// For how many seconds an asker waits for a query before it looks at what was published meanwhile, so that one that has nothing to do
/// holds no old version of the policy for longer.
pub const IDLE_SECONDS: u64 = 5;
