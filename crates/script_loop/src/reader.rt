//! Lines out of a source, whatever pieces it gives.

ghost use Rattle.std.specs.Prelude.{◌≡◌, ◌+◌, ◌-◌, ◌≤◌, ◌<◌, ℕ, List, [], ◌∷◌, ◌++◌, length, take, drop, Ok, Err, OnErr, IfOk, IfErr, MatchOption, MatchBool, true, IsTrue, ◌↔◌};
ghost use Rattle.edge_io.specs.Edge.{prepended, IsAtEnd, Rose};
ghost use Rattle.script_loop.specs.declared.limits.TheConstants.{CHUNK};
ghost use Rattle.script_loop.specs.declared.reader.SourceError.TheVariants.{ReadFault, OutOfMemory};
ghost use Rattle.script_loop.specs.Lines.{NoFeed};
ghost use Rattle.script_loop.specs.Reader.{TakesLine, TakesAll, Reads, BlamesSource};

use crate::limits::{CHUNK, LINE_BYTES};
use edge_io::{Failed, Source};
use std::alloc::AllocError;
use std::marker::Model;

/// How a line was read.
#[derive(Clone, Copy, Debug, PartialEq, Eq)]
pub enum Next {
    /// With its line feed, which isn't kept.
    Whole,
    /// Up to the end of the source, with no line feed. It is empty where no line is left.
    Last,
    /// Its first bytes, more than a line may have. The rest isn't read.
    Cut,
}

/// Why no line was read.
#[derive(Clone, Copy, Debug, PartialEq, Eq)]
pub enum SourceError {
    /// A read has failed.
    ReadFault,
    /// There is no memory for the line.
    OutOfMemory,
}

impl From<Failed> for SourceError {
    ghost from_gives = { λ _ e. e ≡ ReadFault };

    fn from(_: Failed) -> Self {
        SourceError::ReadFault
    }
}

impl From<AllocError> for SourceError {
    ghost from_gives = { λ _ e. e ≡ OutOfMemory };

    fn from(_: AllocError) -> Self {
        SourceError::OutOfMemory
    }
}

/// Takes the lines out of a source. Contracts see the bytes that were read and belong to no line
/// yet, at most 8,192.
#[derive(Drop)]
pub struct LineReader {
    chunk: [u8; CHUNK],
    start: usize,
    end: usize,
}

impl Model for LineReader {
    ghost Value = { List ℕ };

    ghost view = { λ r. take (r.end - r.start) (drop r.start r.chunk) };

    ghost invariant = { λ r. (r.start ≤ r.end) × (r.end ≤ 8192) };
}

// Where the first line feed stands.
fn feed_at(bytes: &[u8]) -> Option<usize>
    ensures { MatchOption result (NoFeed bytes.now) (λ at.
        (at < length bytes.now) × NoFeed (take at bytes.now)
        × (bytes.now ≡ take at bytes.now ++ 10 ∷ drop (at + 1) bytes.now)) }
{
    bytes.iter().position(|b| *b == b'\n')
}

impl LineReader {
    /// Nothing was read yet.
    pub fn new() -> Self
        ensures { result ≡ [] }
    {
        LineReader {
            chunk: [0; CHUNK],
            start: 0,
            end: 0,
        }
    }

    fn is_empty(&self) -> bool
        ensures { IsTrue result ↔ (self.now ≡ []) }
    {
        self.start == self.end
    }

    // Reads once, and says whether there was anything.
    fn refill<S: Source>(&mut self, source: &mut S) -> Result<bool, Failed>
        requires { self.old ≡ [] }
        ensures bytes { S.left source.old ≡ prepended self.new (S.left source.new) }
        ensures ok { IfOk result (λ some. MatchBool some (0 < length self.new)
            ((self.new ≡ []) × IsAtEnd (S.left source.new))) }
        ensures count { S.faults source.old ≤ S.faults source.new }
        ensures failed { OnErr result ((self.new ≡ [])
            × Rose (S.faults source.old) (S.faults source.new)) }
    {
        self.start = 0;
        self.end = 0;
        self.end = source.read(&mut self.chunk)?;
        Ok(self.end > 0)
    }

    // Moves the bytes before the first line feed to the line, and says whether there was one.
    fn take_line(&mut self, line: &mut Vec<u8>) -> Result<bool, AllocError>
        ensures ok { IfOk result (λ whole. MatchBool whole
            (TakesLine self.old line.old.items self.new line.new.items)
            (TakesAll self.old line.old.items self.new line.new.items)) }
        ensures chunk { length self.new ≤ CHUNK }
        ensures feed { result ≡ Ok true → length self.new < CHUNK }
        ensures err { OnErr result ((self.new ≡ self.old) × (line.new.items ≡ line.old.items)) }
    {
        let bytes = &self.chunk[self.start..self.end];
        match feed_at(bytes) {
            Some(at) => {
                line.extend_from_slice(&bytes[..at])?;
                self.start += at + 1;
                Ok(true)
            }
            None => {
                line.extend_from_slice(bytes)?;
                self.start = self.end;
                Ok(false)
            }
        }
    }

    /// Reads the next line. Once more than 200,000 of its bytes were read it is `Cut`, and `line`
    /// has those, at most 208,192. After an error `line` has the first bytes of the line.
    pub fn next<S: Source>(
        &mut self,
        source: &mut S,
        line: &mut Vec<u8>,
    ) -> Result<Next, SourceError>
        ensures reads { Reads result (prepended self.old (S.left source.old)) line.new.items
            self.new (S.left source.new) }
        ensures fault { IfErr result (λ stop. BlamesSource stop
            (Rose (S.faults source.old) (S.faults source.new))) }
        ensures no_feed { NoFeed line.new.items }
        ensures chunk { length self.new ≤ CHUNK }
        ensures feed { result ≡ Ok Next.Whole → length self.new < CHUNK }
        ensures count { S.faults source.old ≤ S.faults source.new }
    {
        line.clear();
        while line.len() <= LINE_BYTES {
            if self.is_empty() && !self.refill(source)? {
                return Ok(Next::Last);
            }
            if self.take_line(line)? {
                return Ok(Next::Whole);
            }
        }
        Ok(Next::Cut)
    }
}
