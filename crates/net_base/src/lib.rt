//! What the crates of sockets share: both sides of a TCP connection to a server, the options of sockets, limits of time, the clock and
//! random IDs of `edge_io` over the system's, NOTIFYs on their way to the thread that has the wires, and what starts threads.
//!
//! Every wait has a limit (`limits`, `TimeLimit`). What may be touched: each file by itself, and `limits`. No contract says what a socket
//! gives or takes: a clause here counts faults or bounds an index. If something broke, tools/loopback.py and tools/attack tell.
#![tactic(auto)]

mod address;
mod frame_gauge;
pub mod limits;
mod notices;
mod notifiers;
mod random_ids;
mod read_buffer;
mod shortage;
mod socket_option;
mod standard_streams;
mod system_clock;
mod tcp_sink;
mod tcp_source;
mod thread_starter;
mod time_limit;
mod wake_signal;
mod wire_state;

pub use address::{address_of, peer_of};
pub use frame_gauge::FrameGauge;
pub use notices::{Notice, NoticeReceiver, NoticeSender, Noticed, notice_queues};
pub use random_ids::RandomIds;
pub use read_buffer::ReadBuffer;
pub use shortage::is_shortage;
pub use socket_option::{
    ask_receive_buffer, ask_send_buffer, ask_stream_send_buffer, end_receiving, prepare_listener,
    status, take_again, take_only_version_6,
};
pub use standard_streams::take_free_numbers;
pub use system_clock::SystemClock;
pub use tcp_sink::TcpSink;
pub use tcp_source::TcpSource;
pub use thread_starter::{Job, JobSender, KeptJob, ThreadStarter, start_starter};
pub use time_limit::{TimeLimit, moment_after, time_until};
pub use wake_signal::WakeSignal;
pub use wire_state::WireState;
