//! What comes of two calls, as text.

use crate::try_error::TryError;
use std::alloc::{AllocError, Global};
use std::fmt::Debug;

// So many octets of text there is room for, so that none is asked for while text is written.
const ROOM: usize = 131_072;

/// Lines of text, one for what came of each call, and the line that is being written.
#[derive(Drop)]
pub struct Sheet {
    pub lines: String,
    pub line: String,
    // whether there was no memory for a part of the line, so that what shows a value needn't ask at each part
    is_cut: bool,
}

impl Sheet {
    /// No lines, and room for all that are to come.
    pub fn new(alloc: Global) -> Result<Self, AllocError> {
        let lines = String::with_capacity(alloc, ROOM)?;
        let line = String::with_capacity(alloc, ROOM)?;
        Ok(Sheet {
            lines,
            line,
            is_cut: false,
        })
    }

    /// Writes this into the line.
    pub fn show<T: Debug>(&mut self, value: &T) {
        if write!(self.line, "{value:?} ").is_err() {
            self.is_cut = true;
        }
    }

    /// Writes what a call gave into the line.
    pub fn show_result<T: Debug + Drop, E: Drop>(
        &mut self,
        given: Result<T, E>,
    ) -> Result<(), TryError>
    where
        TryError: From<E>,
    {
        let value = given?;
        self.show(&value);
        Ok(())
    }

    /// Writes into the line which octets were written.
    pub fn show_written(&mut self, octets: &[u8]) {
        self.say("wrote ");
        self.show(&octets);
    }

    /// Writes these words into the line.
    pub fn say(&mut self, words: &str) {
        if self.line.push_str(words).is_err() {
            self.is_cut = true;
        }
    }

    // Puts the line at the end.
    fn keep(&mut self) -> Result<(), TryError> {
        if self.is_cut {
            return Err(TryError::OutOfMemory);
        }
        self.lines.push_str(self.line.as_str())?;
        self.lines.push('\n')?;
        self.line.clear();
        Ok(())
    }

    // The line says no more than that.
    fn say_out_of_memory(&mut self) {
        self.is_cut = false;
        self.line.clear();
        self.say("out of memory");
    }

    /// Ends the line of a call, which says no more than that where the call got no memory. Any other error ends the program.
    pub fn settle(&mut self, done: Result<(), TryError>) -> Result<(), TryError> {
        match done {
            Err(error) if !error.is_out_of_memory() => return Err(error),
            Err(_) => self.say_out_of_memory(),
            Ok(()) if self.is_cut => self.say_out_of_memory(),
            Ok(()) => {}
        }
        self.keep()
    }

    /// Says in a line of its own that the call may change the value that it is called on.
    pub fn changes(&mut self) -> Result<(), TryError> {
        self.say("changes");
        self.keep()
    }
}
