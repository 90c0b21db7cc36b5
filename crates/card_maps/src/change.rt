//! A change of the live entries.

use crate::CardEntry;

/// A change of the live entries of a card, made by one write of the map block.
#[derive(Clone, Copy, Drop)]
pub enum TableChange {
    /// A new entry, and no longer the old one of its name, where there is one.
    Put {
        /// The block of the new entry.
        at: u8,
        /// The new entry.
        entry: CardEntry,
        /// The block of the old one.
        old: Option<u8>,
    },
    /// No longer the entry of this block.
    Remove {
        /// The block of the entry.
        at: u8,
    },
}
