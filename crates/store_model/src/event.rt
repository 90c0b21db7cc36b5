//! Events: the calls that the store served, with their replies.

use tee_types::{Call, Reply};

/// What an event did to the store's commits.
#[derive(Clone, Copy, Debug, PartialEq, Eq)]
pub enum Mark {
    /// No commit.
    Unchanged,
    /// The commit of this number, the card's write counter after it.
    Made(u32),
    /// The commit of this number is in doubt.
    Doubtful(u32),
}

/// One entry of a history.
#[derive(Debug, Drop)]
pub enum Event {
    /// A call that was served.
    Call {
        /// The session that made it, by its place.
        session: u32,
        /// How many entries the session had before it.
        number: u64,
        /// The call.
        call: Call,
        /// Its reply.
        reply: Reply,
        /// What it did to the commits.
        mark: Mark,
    },
    /// A commit that was in doubt turned out to have landed.
    Landed {
        /// The commit's number.
        commit: u32,
    },
}
