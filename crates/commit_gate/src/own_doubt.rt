//! A session's own commit in doubt.

ghost use Rattle.std.specs.Prelude.{◌≡◌};
ghost use Rattle.commit_gate.specs.CallerSessions.{landing_of_call};

use tee_types::{Call, ObjectId};

/// What the landing of a commit does to the session that made it.
#[derive(Clone, Copy, Debug)]
pub enum Landing {
    /// Nothing.
    Nothing,
    /// The handle of that number is closed: its object was deleted.
    Closes(u32),
    /// The handle of that number follows its object, which has that identifier.
    Renames(u32, ObjectId),
}

/// A session's own commit in doubt.
#[derive(Clone, Copy, Debug)]
pub struct OwnDoubt {
    /// The place of its event.
    pub place: u64,
    /// What its landing does to the session.
    pub landing: Landing,
}

/// What the landing of this call's commit does to its session.
pub(crate) fn landing_of(call: &Call) -> Landing
    ensures { result ≡ landing_of_call call.now }
{
    match call {
        Call::Delete { handle } => Landing::Closes(*handle),
        Call::Rename { handle, id } => Landing::Renames(*handle, *id),
        _ => Landing::Nothing,
    }
}
