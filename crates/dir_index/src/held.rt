//! An entry of the directory with its place.

use dir_records::DirEntry;

/// An entry of the directory, with its index.
#[derive(Clone, Copy, PartialEq, Eq, Debug)]
pub struct Held {
    /// The entry's index, below 256.
    pub index: u16,
    /// The entry.
    pub entry: DirEntry,
}
