//! Identifiers as text.

use std::fmt;
use tee_types::ObjectId;

/// An identifier as text of one line. What a terminal does not show is written as an escape.
#[derive(Clone, Copy)]
pub struct Name {
    /// The identifier.
    pub id: ObjectId,
}

impl fmt::Display for Name {
    fn fmt<W: fmt::Write>(&self, f: &mut fmt::Formatter<W>) -> fmt::Result {
        let bytes = self.id.bytes();
        match str::from_utf8(bytes) {
            Ok(text) => {
                let escaped = text.escape_debug();
                write!(f, "{escaped}")
            }
            Err(_) => {
                let escaped = bytes.escape_ascii();
                write!(f, "{escaped}")
            }
        }
    }
}
