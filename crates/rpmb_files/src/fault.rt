//! Why a call of a card store is refused.

use tee_types::Cause;

/// Why a call of a card store is refused, or why there is none.
#[derive(Clone, Copy, Debug, PartialEq, Eq)]
pub enum CardFault {
    /// The object has more than 16,384 bytes: so many.
    TooLarge {
        /// How many.
        size: u64,
    },
    /// The card has no object of that name.
    NotFound,
    /// The object needs more blocks than are free.
    Full {
        /// The blocks that it needs: one, and those of its data.
        need: u16,
        /// The blocks 2 to 255 that no object has.
        free: u16,
    },
    /// The card's write counter leaves no room for the writes of the call.
    Spent,
    /// A device failed, or the card's answer is refused.
    Device(Cause),
    /// The card's blocks have not the form of objects.
    Bad {
        /// The first block outside the form, block 1 first.
        block: u8,
        /// Its first byte outside the form.
        offset: u8,
    },
    /// Memory ran out.
    NoMemory,
}
