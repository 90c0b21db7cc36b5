//! What a validation of a call at the gate gave.

use serial_calls::PlacedReply;

/// What a validation of a call at the gate gave.
#[derive(Debug, Drop)]
pub enum Validation<T> {
    /// The call is answered.
    Answered(PlacedReply),
    /// What the call needs of an object.
    Found(T),
    /// What was found before is there no more: the call has to begin again.
    Retry,
}
