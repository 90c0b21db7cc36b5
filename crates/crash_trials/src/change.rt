// Changes of bytes, and what they leave.

ghost use Rattle.std.specs.Prelude.{◌≡◌, length, IfOk};

use std::alloc::{AllocError, Global};

/// A change of bytes.
#[derive(Clone, Copy)]
pub enum Change {
    /// So many new bytes are written from a place on.
    Write { at: u16, count: u16 },
    /// There are so many bytes then.
    Truncate { size: u16 },
}

/// Bytes below 251, which differ from place to place and from block to block.
pub fn old_bytes(alloc: Global, count: usize) -> Result<Vec<u8>, AllocError> {
    let mut bytes = vec![in alloc; 0; count]?;
    for (place, byte) in bytes.iter_mut().enumerate() {
        *byte = (place % 251) as u8;
    }
    Ok(bytes)
}

/// The byte of this number of a write, from 251 on.
pub fn new_byte(number: usize) -> u8 {
    (251 + number % 5) as u8
}

/// The bytes of a write.
pub fn new_bytes(alloc: Global, count: u16) -> Result<Vec<u8>, AllocError>
    ensures { IfOk result (λ bytes. length bytes.items ≡ count) }
{
    let mut bytes = vec![in alloc; 0; usize::from(count)]?;
    for (number, byte) in bytes.iter_mut().enumerate() {
        *byte = new_byte(number);
    }
    Ok(bytes)
}

impl Change {
    /// What the change leaves of these bytes.
    pub fn apply(self, alloc: Global, old: &[u8]) -> Result<Vec<u8>, AllocError> {
        let mut bytes = old.to_vec(alloc)?;
        match self {
            Change::Write { at, count } => {
                let (from, upto) = (usize::from(at), usize::from(at) + usize::from(count));
                if bytes.len() < upto {
                    bytes.resize(upto, 0)?;
                }
                bytes[from..upto].copy_from_slice(&new_bytes(alloc, count)?);
            }
            Change::Truncate { size } => bytes.resize(usize::from(size), 0)?,
        }
        Ok(bytes)
    }
}
