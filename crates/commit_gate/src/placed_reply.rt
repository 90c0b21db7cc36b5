//! A reply with its place in the history.

use tee_types::Reply;

/// What a call was answered, and the place of its event in the history.
#[derive(Debug, Drop)]
pub struct PlacedReply {
    /// The place.
    pub place: u64,
    /// The reply.
    pub reply: Reply,
}
