//! Networks of clients, who of them may ask, and the texts of addresses and networks: four decimals of IP version 4, or groups of
//! hexadecimal digits of IP version 6 (RFC 4291, section 2.2; written as RFC 5952 has it).
#![tactic(auto)]

mod allow_list;
mod bits;
mod decimal;
mod dotted;
mod groups;
mod hexadecimal;
pub mod laws;
mod mapped;
mod network;
mod network_text;
mod split;
pub mod text_laws;
mod v6;
mod written;

pub use allow_list::{AllowList, NETWORK_LIMIT};
pub use decimal::read_decimal;
pub use dotted::read_v4;
pub use mapped::is_mapped;
pub use network::{Network, NetworkFault};
pub use network_text::{NetworkTextFault, read_address, read_network};
pub use v6::read_v6;
pub use written::AddressText;
