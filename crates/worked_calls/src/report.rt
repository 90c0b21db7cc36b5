// Lines that are gathered, and printed together.

use std::alloc::{AllocError, Global};
use std::fmt::{Debug, Display, Write};
use std::io;

/// Lines of text, a line a call. They are printed only if memory ran out for none.
#[derive(Drop)]
pub struct Report {
    alloc: Global,
    text: String,
    is_whole: bool,
}

impl Report {
    /// No line yet.
    pub fn new(alloc: Global) -> Report {
        Report {
            alloc,
            text: String::new(alloc),
            is_whole: true,
        }
    }

    /// Adds a line.
    pub fn add(&mut self, line: &impl Display) {
        if writeln!(self.text, "{line}").is_err() {
            self.is_whole = false;
        }
    }

    /// Adds a call, and what it gave.
    pub fn line(&mut self, call: &str, value: &impl Debug) {
        if writeln!(self.text, "{call} -> {value:?}").is_err() {
            self.is_whole = false;
        }
    }

    /// Adds a call, and the bytes that it gave, in hex.
    pub fn hex(&mut self, call: &str, bytes: &[u8]) {
        match hex::encode(self.alloc, bytes) {
            Ok(digits) => self.add(&format_args!("{call} -> {digits}")),
            Err(_) => self.is_whole = false,
        }
    }

    /// Prints the lines, and begins again with none.
    pub fn print(&mut self, rt: &impl Print) -> io::Result<()> {
        if !self.is_whole {
            return Err(io::Error::from(AllocError));
        }
        rt.print(self.text.as_str())?;
        self.text.clear();
        Ok(())
    }
}
