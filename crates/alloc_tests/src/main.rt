//! `alloc_tests`: one public call, on a small input, twice on the same value, for `tools/sweep.py`, which refuses one allocation after
//! another. Here are the calls that no script of `tools/sweep_scripts.py` reaches: of lists and tries at the ends of their blocks, of the
//! published policy, of workers, and a whole run of a server.
//!
//! Its word is the name of the call; without a word it prints all names. A line for each of the two calls says what came of it, or
//! `out of memory`; a third, `changes`, follows if the call may change the value that it is called on, so that the second call needn't
//! give what the first gave. It promises nothing.
#![tactic(auto)]

mod calls;
mod packed_calls;
mod pin_calls;
mod prefix_calls;
mod publish_calls;
mod samples;
mod serve_calls;
mod shared_calls;
mod sheet;
mod stream_calls;
mod trie_calls;
mod tried;
mod try_error;
mod worker_calls;

use std::process::ExitCode;
use std::{env, io};

fn main(rt: HostRuntime) -> io::Result<ExitCode> {
    let alloc = rt.alloc();
    let words: Vec<String> = env::args(&rt)?.skip(1).collect(alloc)?;
    match calls::run(&rt, alloc, words.first()) {
        Ok(()) => Ok(ExitCode::SUCCESS),
        Err(error) => {
            eprintln!(rt; "{error:?}")?;
            Ok(ExitCode::from(1))
        }
    }
}
