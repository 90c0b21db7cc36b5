//! Amounts of bytes as text.

use std::fmt;

/// So many bytes.
#[derive(Clone, Copy)]
pub struct Amount {
    /// How many.
    pub bytes: u64,
}

impl fmt::Display for Amount {
    fn fmt<W: fmt::Write>(&self, f: &mut fmt::Formatter<W>) -> fmt::Result {
        let bytes = self.bytes;
        match bytes {
            1 => f.write_str("1 byte"),
            _ => write!(f, "{bytes} bytes"),
        }
    }
}
