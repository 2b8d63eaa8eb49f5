//! Lists that are packed, and whose copies share what is in them: lists that grow at their end (`SharedList`, `SharedTable`,
//! `SharedOctets`), keys of octets with numbers, sorted (`KeyList`), and rows with numbers that rise (`RowList`).
//!
//! No edit of a list is seen in a copy of it. What is refused changes nothing.
#![tactic(auto)]

mod block;
mod block_numbers;
mod blocks;
mod entry;
mod held;
mod key_list;
mod keyed;
mod mark;
mod octets;
mod row_list;
mod run;
mod share;
mod shared_list;
mod stored_row;
mod table;

pub use held::Held;
pub use key_list::KeyList;
pub use keyed::Keyed;
pub use octets::SharedOctets;
pub use row_list::RowList;
pub use run::{first_run, numbers_of};
pub use share::Share;
pub use shared_list::SharedList;
pub use stored_row::StoredRow;
pub use table::SharedTable;
