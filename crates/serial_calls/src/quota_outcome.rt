//! What a call under a quota came to.

use call_steps::PlacedReply;

/// What a call under a quota came to.
#[derive(Debug, Drop)]
pub enum QuotaOutcome {
    /// It was answered.
    Answered(PlacedReply),
    /// It would have left its application more than that may have, where so many events stood. It has no event.
    Refused(u64),
}
