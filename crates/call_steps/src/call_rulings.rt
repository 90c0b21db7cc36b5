//! What the rules make of a call before anything is done.

ghost use Rattle.std.specs.Prelude.{◌≡◌, ℕ, true, false, IfSome, IsNone};
ghost use Rattle.std.specs.Option.{option_and_then};
ghost use Rattle.enumerators.specs.Enumeration.{cursor_at, has_all};
ghost use Rattle.store_model.specs.Calls.{reply_of};
ghost use Rattle.store_model.specs.Files.{is_misuse};
ghost use Rattle.store_model.specs.Machine.{MachineState, handle_at};
ghost use Rattle.call_rules.specs.Decided.{answer_in};
ghost use Rattle.call_rules.specs.Matches.{Matches};
ghost use Rattle.call_rules.specs.Plain.{IsPlain};
ghost use Rattle.call_rules.specs.Told.{IsTold};
ghost use Rattle.commit_gate.specs.Answering.{LeavesHandles};
ghost use Rattle.call_steps.specs.Rulings.{IsMisuse, is_on_object, reason_of, reason_unless, reason_where};

use call_rules::{Catalog, Decision};
use store_model::Session;
use tee_types::{Call, Reason, Reply};

// The reply, where the rules answer the call.
fn answered<T: Drop>(decision: Decision<T>) -> Option<Reply>
    ensures { result ≡ answer_in decision }
{
    match decision {
        Decision::Answered(reply) => Some(reply),
        Decision::Needs(_) => None,
    }
}

/// What a call on an object is answered without the object's file: a refusal, a misuse, or a write of no bytes. Nothing is told of other
/// calls.
pub(crate) fn ruling<C: Catalog>(catalog: &C, session: &Session, call: &Call) -> Option<Reply>
    ensures told { (s : MachineState) (i : ℕ) → Matches (C.entries catalog.now) (C.handles catalog.now) session.now s i
        → IfSome result (λ reply. IsTold s i call.now reply session.now) }
    ensures proper { is_on_object call.now ≡ true → (s : MachineState) (i : ℕ) → Matches (C.entries catalog.now) (C.handles catalog.now) session.now s i
        → IsNone result → is_misuse (reply_of s i call.now) ≡ false }
    ensures plain { IfSome result IsPlain }
    ensures handles { IfSome result (LeavesHandles call.now) }
{
    match call {
        Call::Create {
            id,
            flags,
            attributes,
            bytes,
        } => answered(call_rules::create(catalog, session, *id, *flags, attributes, bytes)),
        Call::Open { id, flags } => answered(call_rules::open(catalog, session, *id, *flags)),
        Call::Read { handle, size: _ } => answered(call_rules::read(catalog, session, *handle)),
        Call::Write { handle, bytes } => {
            answered(call_rules::write(catalog, session, *handle, bytes))
        }
        Call::Truncate { handle, size: _ } => {
            answered(call_rules::truncate(catalog, session, *handle))
        }
        Call::Rename { handle, id } => {
            answered(call_rules::rename(catalog, session, *handle, *id))
        }
        Call::Delete { handle } => answered(call_rules::delete(catalog, session, *handle)),
        Call::Info { handle } => answered(call_rules::info(catalog, session, *handle)),
        _ => None,
    }
}

// The reason, where the reply is a misuse.
fn reason_in(reply: Option<Reply>) -> Option<Reason>
    ensures { result ≡ option_and_then reason_of reply }
{
    match reply {
        Some(Reply::Misuse(reason)) => Some(reason),
        _ => None,
    }
}

// A misuse, where the session has no live handle of that number.
fn unless_handle(session: &Session, number: u32) -> Option<Reason>
    ensures { result ≡ reason_unless (handle_at session.now number) Reason.BadHandle }
{
    match session.handle(number) {
        Some(_) => None,
        None => Some(Reason::BadHandle),
    }
}

// The same of an enumerator.
fn unless_enumerator(session: &Session, number: u32) -> Option<Reason>
    ensures { result ≡ reason_unless (cursor_at session.now.enumerators number) Reason.BadEnumerator }
{
    match session.cursor(number) {
        Some(_) => None,
        None => Some(Reason::BadEnumerator),
    }
}

// A misuse, where the session may have no further enumerator.
fn where_full(session: &Session) -> Option<Reason>
    ensures { result ≡ reason_where (has_all session.now.enumerators) Reason.TooMany }
{
    if session.has_all_enumerators() {
        Some(Reason::TooMany)
    } else {
        None
    }
}

/// Why the call is a misuse, if it is one.
pub(crate) fn misuse<C: Catalog>(catalog: &C, session: &Session, call: &Call) -> Option<Reason>
    ensures { (s : MachineState) (i : ℕ) → Matches (C.entries catalog.now) (C.handles catalog.now) session.now s i
        → IsMisuse s i session.now call.now result }
{
    match call {
        Call::Close { handle } => unless_handle(session, *handle),
        Call::Seek {
            handle,
            offset: _,
            whence: _,
        } => unless_handle(session, *handle),
        Call::EnumStart { number } => unless_enumerator(session, *number),
        Call::EnumNext { number } => unless_enumerator(session, *number),
        Call::EnumReset { number } => unless_enumerator(session, *number),
        Call::EnumFree { number } => unless_enumerator(session, *number),
        Call::EnumNew => where_full(session),
        Call::Create {
            id: _,
            flags: _,
            attributes: _,
            bytes: _,
        }
        | Call::Open { id: _, flags: _ }
        | Call::Read { handle: _, size: _ }
        | Call::Write {
            handle: _,
            bytes: _,
        }
        | Call::Truncate { handle: _, size: _ }
        | Call::Rename { handle: _, id: _ }
        | Call::Delete { handle: _ }
        | Call::Info { handle: _ } => reason_in(ruling(catalog, session, call)),
    }
}
