// Sources and sinks in memory.
ghost use Rattle.std.specs.Prelude.{◌≡◌, ◌≤◌, ◌<◌, ◌++◌, ℕ, List, [], Some, None, length, drop, take, vec_len};

use crate::{Failed, Schedule, Sink, SinkError, Source};
use std::marker::Model;

// Copies the first of the bytes, as many as there is room for, and at most `most`.
fn copy_front(from: &[u8], most: usize, into: &mut [u8]) -> usize
    requires room { 0 < length into.old }
    requires some { 0 < most }
    ensures within { result ≤ length into.new }
    ensures there { result ≤ length from.now }
    ensures bytes { take result into.new ≡ take result from.now }
    ensures none { result ≡ 0 → from.now ≡ [] }
{
    let n = from.len().min(into.len()).min(most);
    into[..n].copy_from_slice(&from[..n]);
    n
}

/// A list of bytes that never fails: its count of faults is 0 always. Contracts see the bytes that
/// are left.
#[derive(Drop)]
pub struct Bytes {
    bytes: Vec<u8>,
    at: usize,
}

impl Model for Bytes {
    ghost Value = { List ℕ };

    ghost view = { λ b. drop b.at b.bytes.items };

    ghost invariant = { λ b. b.at ≤ vec_len b.bytes };
}

impl Bytes {
    /// All the bytes are left.
    pub fn new(bytes: Vec<u8>) -> Self
        ensures { result ≡ bytes.items }
    {
        Bytes { bytes, at: 0 }
    }

    // Gives the next bytes, as many as there is room for, and at most `most`.
    fn give(&mut self, most: usize, into: &mut [u8]) -> usize
        requires room { 0 < length into.old }
        requires some { 0 < most }
        ensures within { result ≤ length into.new }
        ensures bytes { self.old ≡ take result into.new ++ self.new }
        ensures none { result ≡ 0 → self.new ≡ [] }
    {
        let n = copy_front(&self.bytes[self.at..], most, into);
        self.at += n;
        n
    }
}

impl Source for Bytes {
    ghost left = { λ s. Some s };

    ghost faults = { λ _. 0 };

    ghost steady = { λ _. Unit {0} };

    fn read(&mut self, into: &mut [u8]) -> Result<usize, Failed> {
        Ok(self.give(into.len(), into))
    }
}

/// A list of bytes that fails where it is told to.
#[derive(Drop)]
pub struct ListSource {
    bytes: Bytes,
    most: usize,
    schedule: Schedule,
    ghost some: { 0 < most },
}

impl ListSource {
    /// Gives at most `most` bytes a call. The calls of the numbers in `failing` fail, and the first
    /// call is call 0.
    pub fn new(bytes: Vec<u8>, most: usize, failing: Vec<u64>) -> Self
        requires { 0 < most }
        ensures bytes { ⟦<ListSource as Source>⟧.left result ≡ Some bytes.items }
        ensures no_fault { ⟦<ListSource as Source>⟧.faults result ≡ 0 }
        ensures steady { failing.items ≡ [] → ⟦<ListSource as Source>⟧.steady result }
    {
        ListSource {
            bytes: Bytes::new(bytes),
            most,
            schedule: Schedule::new(failing),
        }
    }
}

impl Source for ListSource {
    ghost left = { λ s. Some s.bytes };

    ghost faults = { λ s. s.schedule.faults };

    ghost steady = { λ s. s.schedule.failing.items ≡ [] };

    fn read(&mut self, into: &mut [u8]) -> Result<usize, Failed> {
        if self.schedule.fails_now() {
            return Err(Failed);
        }
        Ok(self.bytes.give(self.most, into))
    }
}

/// Keeps what it is given, and fails where it is told to. A write that finds no memory is no fault.
#[derive(Drop)]
pub struct ListSink {
    /// What it was given.
    pub bytes: Vec<u8>,
    most: usize,
    schedule: Schedule,
    ghost some: { 0 < most },
}

impl ListSink {
    /// Takes at most `most` bytes a call, and puts them after `bytes`. The calls of the numbers in
    /// `failing` fail, and the first call is call 0.
    pub fn new(bytes: Vec<u8>, most: usize, failing: Vec<u64>) -> Self
        requires { 0 < most }
        ensures bytes { result.bytes.items ≡ bytes.items }
        ensures no_fault { ⟦<ListSink as Sink>⟧.faults result ≡ 0 }
        ensures steady { failing.items ≡ [] → ⟦<ListSink as Sink>⟧.steady result }
    {
        ListSink {
            bytes,
            most,
            schedule: Schedule::new(failing),
        }
    }
}

impl Sink for ListSink {
    ghost held = { λ s. Some s.bytes.items };

    ghost faults = { λ s. s.schedule.faults };

    ghost steady = { λ s. s.schedule.failing.items ≡ [] };

    fn write(&mut self, piece: &[u8]) -> Result<usize, SinkError> {
        if self.schedule.fails_now() {
            return Err(SinkError::WriteFault);
        }
        let n = piece.len().min(self.most);
        if self.bytes.extend_from_slice(&piece[..n]).is_err() {
            return Err(SinkError::OutOfMemory);
        }
        Ok(n)
    }
}

/// Takes everything and keeps nothing. It never fails: its count of faults is 0 always. It doesn't
/// tell its bytes.
#[derive(Drop)]
pub struct Discard;

impl Sink for Discard {
    ghost held = { λ _. None };

    ghost faults = { λ _. 0 };

    ghost steady = { λ _. Unit {0} };

    fn write(&mut self, piece: &[u8]) -> Result<usize, SinkError> {
        Ok(piece.len())
    }
}
