//! How a commit of a change of the directory ends.

use tee_types::Cause;

/// How a commit ended.
#[derive(Clone, Copy, PartialEq, Eq, Debug)]
pub enum CommitEnd {
    /// It was made; the card's counter after it.
    Made(u32),
    /// It was not made: a device failed, or the card refused.
    Dropped(Cause),
    /// Whether it was made is not known: its number, which is the card's counter if it was.
    Doubtful(u32, Cause),
    /// The card's counter is at its end, so nothing was tried.
    Spent,
}

/// How the write of the card's block 0 ended.
#[derive(Clone, Copy, PartialEq, Eq, Debug)]
pub enum CardEnd {
    /// The block stands.
    Landed,
    /// The block was not written.
    Lost(Cause),
    /// Which of both is not known.
    Unknown(Cause),
}
