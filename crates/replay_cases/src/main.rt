//! `replay_cases`: runs the scripts of scenarios/, which it reads from standard input, and writes what they give to
//! standard output. It promises nothing; its output is compared with what the scenarios expect.
//!
//! A script stands behind a line `case NAME PIECE LENGTH WORDS..`: it has LENGTH bytes and a line feed behind them, is
//! read and its transcript written in pieces of at most PIECE bytes (0: of any size), and `rpz` is called with the WORDS.
//! For each comes the line `case NAME`, the transcript, and the line `status CODE TEXT`.
#![tactic(auto)]

mod case;

use crate::case::Case;
use std::hash::RandomState;
use std::io;
use std::io::{BufRead, BufReader, BufWriter, Read, Write};
use std::process::ExitCode;

fn main(rt: HostRuntime) -> io::Result<ExitCode> {
    let alloc = rt.alloc();
    let mut input = BufReader::new(alloc, rt.reader())?;
    let mut out = BufWriter::new(alloc, io::writer(&rt))?;
    let hashers = RandomState::new(&rt)?;
    let mut header = String::new(alloc);
    for _turn in 0..u64::MAX {
        header.clear();
        if input.read_line(&mut header)? == 0 {
            break;
        }
        let Some(case) = Case::read(alloc, header.as_str())? else {
            eprintln!(rt; "no case: {header}")?;
            return Ok(ExitCode::from(1));
        };
        let mut script = vec![in alloc; 0; case.length]?;
        input.read_exact(&mut script)?;
        header.clear();
        input.read_line(&mut header)?;
        out.write_all(case.run(rt, alloc, script, hashers)?.as_slice())?;
    }
    out.flush()?;
    Ok(ExitCode::SUCCESS)
}
