//! A change of one entry of the directory, and a commit of one that is in doubt.

use dir_records::DirEntry;

/// A change of one entry of the directory.
#[derive(Clone, Copy, PartialEq, Eq, Debug)]
pub enum EntryChange {
    /// An entry is put at an index, in place of the one there.
    Put {
        /// The entry's index, below 256.
        index: u16,
        /// The entry.
        entry: DirEntry,
    },
    /// The entry at an index goes.
    Clear {
        /// The entry's index, below 256.
        index: u16,
    },
}

/// A commit that is in doubt.
#[derive(Clone, Copy, PartialEq, Eq, Debug)]
pub struct DoubtedChange {
    /// Its number: the card's counter, if it landed.
    pub number: u32,
    /// The change that it makes.
    pub change: EntryChange,
}
