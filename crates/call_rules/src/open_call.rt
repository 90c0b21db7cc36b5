//! TEE_OpenPersistentObject, as far as the rules tell.

ghost use Rattle.std.specs.Prelude.{◌≡◌, ℕ, true, false, Some, IfSome};
ghost use Rattle.dir_index.specs.Index.{named};
ghost use Rattle.store_model.specs.Machine.{MachineState, first_refusal, has_all_handles};
ghost use Rattle.store_model.specs.Files.{is_misuse};
ghost use Rattle.dir_index.specs.EntryNames.{IsEntryNamed};
ghost use Rattle.call_rules.specs.Matches.{Matches};
ghost use Rattle.call_rules.specs.Plain.{IsRefused};
ghost use Rattle.call_rules.specs.Told.{IsTold};
ghost use Rattle.call_rules.specs.Decided.{IfAnswered, IfNeeds};
ghost use Rattle.call_rules.specs.Objects.{IsOpened};
ghost use Rattle.call_rules.specs.Rows.{open_rows};

use crate::catalog::Catalog;
use crate::decision::Decision;
use dir_index::Held;
use store_model::Session;
use tee_types::{Call, Code, Flags, OVERWRITE, ObjectId, Reason, Reply};

// Why an open is refused, whatever the directory tells.
fn open_refusal(session: &Session, flags: Flags) -> Option<Reply>
    ensures rows { result ≡ first_refusal (open_rows flags (has_all_handles session.now)) }
    ensures refused { IfSome result (λ reply. is_misuse reply ≡ true) }
    ensures refusal { IfSome result IsRefused }
{
    if !flags.known() || flags.has(OVERWRITE) {
        return Some(Reply::Misuse(Reason::BadFlags));
    }
    if session.is_full() {
        return Some(Reply::Misuse(Reason::TooMany));
    }
    None
}

/// TEE_OpenPersistentObject: why it is refused, or the entry of the object.
pub fn open<C: Catalog>(
    catalog: &C,
    session: &Session,
    id: ObjectId,
    flags: Flags,
) -> Decision<Held>
    ensures told { (s : MachineState) (i : ℕ) → Matches (C.entries catalog.now) (C.handles catalog.now) session.now s i
        → IfAnswered result (λ reply. IsTold s i (Call.Open id flags) reply session.now) }
    ensures opens { (s : MachineState) (i : ℕ) → Matches (C.entries catalog.now) (C.handles catalog.now) session.now s i
        → IfNeeds result (λ held. IsOpened s i id flags held.entry.size) }
    ensures named { IfNeeds result (λ held. IsEntryNamed (C.entries catalog.now) (named session.now.application id) (Some held)) }
    ensures few { IfNeeds result (λ _. has_all_handles session.now ≡ false) }
    ensures refused { IfAnswered result IsRefused }
{
    if let Some(reply) = open_refusal(session, flags) {
        return Decision::Answered(reply);
    }
    let Some(held) = catalog.look(session.app(), id) else {
        return Decision::Answered(Reply::Refused(Code::ItemNotFound));
    };
    if !catalog.allows(held.entry.file, flags) {
        return Decision::Answered(Reply::Refused(Code::AccessConflict));
    }
    Decision::Needs(held)
}
