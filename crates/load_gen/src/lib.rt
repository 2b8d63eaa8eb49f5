//! A load run: a policy zone and queries are made from a seed, the queries are answered by workers over one version of the policy, without
//! a cache, and one line sums up the replies. The line is the same for every number of workers.
//!
//! Everything is drawn from one sequence: x begins as the seed; a draw sets x to (x * 6364136223846793005 + 1442695040888963407) modulo
//! 2^64, and gives x div 2^33. The zone is `rpz.example`, with the serial 1. Each rule takes three draws a, b and c, and is a CNAME row. By
//! (a div 4) modulo 3 it points to `.`, `*.` or `rpz-passthru.`; by a modulo 4 its owner is, with H = b modulo 4096 and G = c modulo 64:
//!
//! | a modulo 4 | Owner, before the zone's name |
//! |---|---|
//! | 0 | `hH.gG.example` |
//! | 1 | `*.hH.gG.example` |
//! | 2 | `32.(c mod 256).(b mod 256).0.10.rpz-ip` |
//! | 3 | `24.0.(c mod 256).(b mod 256).10.rpz-client-ip` |
//!
//! Equal rows count once. Then each query, numbered k from 1, takes four draws a, b, c and d: it asks over UDP for the type A of
//! `hH.gG.example`, with `w.` in front if a is odd, with the ID k modulo 65,536, RD 1 and no OPT record, from the client
//! 10.(d mod 256).((d div 256) mod 256).1. An upstream in memory answers each question with one A record of TTL 60 and the address
//! 10.0.y.z, where 256 * y + z is made of the bytes of the name in lower case, as written, in the way of the mark, modulo 65,536.
//!
//! The line is `rows R nxdomain A nodata B other C mark M`: R is the number of rows of the zone, A replies are NXDOMAIN, B have NOERROR and
//! no answer record, and C are the others. M is made of the bytes of all replies in order: it begins as 0, and each byte makes it 31 times
//! as much plus the byte, modulo 2^64.
#![tactic(auto)]

mod answering;
mod draws;
mod load;
mod making;
mod names;
mod policy;
mod queries;
mod rules;
mod running;
mod summary;
mod tally;
mod upstream;

pub use load::{Load, LoadQuery, MOST_QUERIES, MOST_RULES};
pub use making::make;
pub use running::{MOST_WORKERS, answer_all};
pub use summary::{Summary, write_summary};
