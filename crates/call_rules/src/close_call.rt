//! TEE_CloseObject.

ghost use Rattle.std.specs.Prelude.{◌≡◌, ℕ, true, Some};
ghost use Rattle.store_model.specs.Machine.{MachineState, session_at};
ghost use Rattle.store_model.specs.ReplayState.{is_undone};
ghost use Rattle.call_rules.specs.Plain.{IsPlain};
ghost use Rattle.call_rules.specs.Told.{IsTold};

use store_model::Session;
use tee_types::{Call, Reason, Reply};

/// TEE_CloseObject: what it is answered. Where it is done, the handle is gone.
pub fn close(session: &mut Session, number: u32) -> Reply
    ensures told { (s : MachineState) (i : ℕ) → session_at s i ≡ session.old → IsTold s i (Call.Close number) result session.new }
    // A call that was not done leaves the session as it was.
    ensures undone { is_undone result ≡ true → session.new ≡ session.old }
    ensures application { session.new.application ≡ session.old.application }
    ensures plain { IsPlain result }
{
    let Some(_live) = session.handle(number) else {
        return Reply::Misuse(Reason::BadHandle);
    };
    session.close(number);
    Reply::Done
}
