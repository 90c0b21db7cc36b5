//! TEE_CreatePersistentObject, as far as the rules tell.

ghost use Rattle.std.specs.Prelude.{◌≡◌, ◌≤◌, ℕ, true, false, Some, length, IfSome, IsNone};
ghost use Rattle.dir_index.specs.Index.{named};
ghost use Rattle.store_model.specs.Machine.{MachineState, name_in, first_refusal, has_all_handles};
ghost use Rattle.store_model.specs.Handles.{create_refusals};
ghost use Rattle.store_model.specs.Refusal.{is_refusal};
ghost use Rattle.store_model.specs.Calls.{reply_of};
ghost use Rattle.call_rules.specs.Matches.{Matches};
ghost use Rattle.call_rules.specs.Plain.{IsRefused};
ghost use Rattle.call_rules.specs.Told.{IsTold};
ghost use Rattle.call_rules.specs.Decided.{IfAnswered, IfNeeds, answer_in};
ghost use Rattle.call_rules.specs.Places.{IsNewPlace};
ghost use Rattle.call_rules.specs.Rows.{IsPlaceAfter, create_rows, is_busy};

use crate::catalog::Catalog;
use crate::decision::{Decision, NewPlace};
use dir_index::Held;
use store_model::Session;
use tee_types::{
    Bytes, Call, Code, Flags, MAX_ATTRIBUTES, MAX_DATA, OVERWRITE, ObjectId, Reason, Reply,
};

// Whether a handle is open on the object of that entry.
pub(crate) fn is_busy<C: Catalog>(catalog: &C, found: &Option<Held>) -> bool
    ensures { result ≡ is_busy (C.handles catalog.now) found.now }
{
    match found {
        Some(held) => catalog.any_open(held.entry.file),
        None => false,
    }
}

// The entry that a new object takes, where that one has its name.
fn new_place<C: Catalog>(catalog: &C, found: Option<Held>) -> Option<NewPlace>
    ensures { IsPlaceAfter (C.entries catalog.now) found result }
{
    match found {
        Some(held) => Some(NewPlace::Replaces(held)),
        None => match catalog.free_index() {
            Some(index) => Some(NewPlace::Adds(index)),
            None => None,
        },
    }
}

// Why a create is refused, but for want of room.
pub(crate) fn create_refusal(
    session: &Session,
    flags: Flags,
    attributes: usize,
    held: bool,
    busy: bool,
) -> Option<Reply>
    ensures rows { result ≡ first_refusal (create_rows flags (has_all_handles session.now) attributes held busy) }
    ensures refused { IfSome result (λ reply. is_refusal reply ≡ true) }
    ensures refusal { IfSome result IsRefused }
    ensures short { IsNone result → attributes ≤ 2048 }
{
    if !flags.known() {
        return Some(Reply::Misuse(Reason::BadFlags));
    }
    if session.is_full() {
        return Some(Reply::Misuse(Reason::TooMany));
    }
    if MAX_ATTRIBUTES < attributes {
        return Some(Reply::Refused(Code::BadParameters));
    }
    if held && !flags.has(OVERWRITE) {
        return Some(Reply::Refused(Code::AccessConflict));
    }
    if busy {
        return Some(Reply::Refused(Code::AccessConflict));
    }
    None
}

/// TEE_CreatePersistentObject: why it is refused, or the entry that the new object takes.
pub fn create<C: Catalog>(
    catalog: &C,
    session: &Session,
    id: ObjectId,
    flags: Flags,
    attributes: &Bytes,
    bytes: &Bytes,
) -> Decision<NewPlace>
    // It is refused as the machine refuses it.
    ensures rows { (s : MachineState) (i : ℕ) → Matches (C.entries catalog.now) (C.handles catalog.now) session.now s i
        → first_refusal (create_refusals s i (name_in s i id) flags attributes.now bytes.now) ≡ answer_in result }
    ensures told { (s : MachineState) (i : ℕ) → Matches (C.entries catalog.now) (C.handles catalog.now) session.now s i
        → IfAnswered result (λ reply. IsTold s i (Call.Create id flags attributes.now bytes.now) reply session.now) }
    // Where it is not refused, the machine gives the session's next handle.
    ensures makes { (s : MachineState) (i : ℕ) → Matches (C.entries catalog.now) (C.handles catalog.now) session.now s i
        → IfNeeds result (λ _. reply_of s i (Call.Create id flags attributes.now bytes.now) ≡ Reply.Handle session.now.next_handle) }
    ensures place { IfNeeds result (IsNewPlace (C.entries catalog.now) (named session.now.application id)) }
    ensures few { IfNeeds result (λ _. has_all_handles session.now ≡ false) }
    ensures fits { IfNeeds result (λ _. (length attributes.now ≤ 2048) × (length bytes.now ≤ 1044480)) }
    ensures refused { IfAnswered result IsRefused }
{
    let found = catalog.look(session.app(), id);
    let held = found.is_some();
    let busy = is_busy(catalog, &found);
    if let Some(reply) = create_refusal(session, flags, attributes.len(), held, busy) {
        return Decision::Answered(reply);
    }
    if MAX_DATA < bytes.len() {
        return Decision::Answered(Reply::Refused(Code::NoSpace));
    }
    match new_place(catalog, found) {
        Some(place) => Decision::Needs(place),
        None => Decision::Answered(Reply::Refused(Code::NoSpace)),
    }
}
