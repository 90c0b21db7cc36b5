//! What a commit that is made does to its session.

ghost use Rattle.std.specs.Prelude.{◌≡◌, ◌+◌, false};
ghost use Rattle.commit_gate.specs.SessionMoves.{MayMove, moved_by};

use crate::Session;
use store_model::{Handle, ObjectName};
use tee_ports::Entropy;
use tee_types::Flags;

/// What a commit that is made does to the handles of its session.
#[derive(Clone, Copy, Debug)]
pub enum SessionMove {
    /// Nothing.
    Stays,
    /// A handle is given on that object, with those flags.
    Opens(ObjectName, Flags),
    /// The live handle of that number becomes this one.
    Replaces(u32, Handle),
    /// The live handle of that number goes.
    Closes(u32),
}

/// Moves a session so.
pub(crate) fn apply<E: Entropy>(session: &mut Session<E>, step: SessionMove)
    requires { MayMove session.old.state step }
    ensures { session.new ≡ record session.old { state = moved_by session.old.state step } }
{
    match step {
        SessionMove::Stays => {}
        SessionMove::Opens(name, flags) => {
            let _number = session.open(name, flags);
        }
        SessionMove::Replaces(number, handle) => session.replace(number, handle),
        SessionMove::Closes(number) => session.close(number),
    }
}
