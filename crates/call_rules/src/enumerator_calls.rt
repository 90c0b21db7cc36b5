//! Calls on the enumerators of a session.

ghost use Rattle.std.specs.Prelude.{◌≡◌, ℕ, false, true, IfOk, OnErr};
ghost use Rattle.enumerators.specs.Enumeration.{has_all};
ghost use Rattle.store_model.specs.Machine.{MachineState, session_at};
ghost use Rattle.store_model.specs.ReplayState.{is_undone};
ghost use Rattle.call_rules.specs.Matches.{Matches};
ghost use Rattle.call_rules.specs.Plain.{IsPlain};
ghost use Rattle.call_rules.specs.Told.{IsTold};
ghost use Rattle.call_rules.specs.Nexts.{IsNextBy};

use crate::catalog::Catalog;
use dir_records::DirEntry;
use enumerators::Cursor;
use store_model::Session;
use tee_types::{AppId, Call, Code, NoMemory, Reason, Reply};

/// TEE_AllocatePersistentObjectEnumerator: what it is answered. Want of memory changes nothing.
pub fn enum_new(session: &mut Session) -> Result<Reply, NoMemory>
    ensures ok { (s : MachineState) (i : ℕ) → session_at s i ≡ session.old → IfOk result (λ reply. IsTold s i Call.EnumNew reply session.new) }
    // A call that was not done leaves the session as it was.
    ensures undone { IfOk result (λ reply. is_undone reply ≡ true → session.new ≡ session.old) }
    ensures application { session.new.application ≡ session.old.application }
    ensures plain { IfOk result IsPlain }
    ensures err { OnErr result (session.new ≡ session.old) }
    // Where the session has all its enumerators nothing is taken, and no memory is asked for.
    ensures room { OnErr result (has_all session.old.enumerators ≡ false) }
{
    if session.has_all_enumerators() {
        return Ok(Reply::Misuse(Reason::TooMany));
    }
    match session.add_enumerator() {
        Ok(number) => Ok(Reply::Handle(number)),
        Err(_) => Err(NoMemory {}),
    }
}

/// TEE_StartPersistentObjectEnumerator: what it is answered. Where the application has no object, the enumerator is then not started.
pub fn enum_start<C: Catalog>(catalog: &C, session: &mut Session, number: u32) -> Reply
    ensures told { (s : MachineState) (i : ℕ) → Matches (C.entries catalog.now) (C.handles catalog.now) session.old s i
        → IsTold s i (Call.EnumStart number) result session.new }
    // A call that was not done leaves the session as it was.
    ensures undone { is_undone result ≡ true → session.new ≡ session.old }
    ensures application { session.new.application ≡ session.old.application }
    ensures plain { IsPlain result }
{
    let Some(_live) = session.cursor(number) else {
        return Reply::Misuse(Reason::BadEnumerator);
    };
    let Some(_first) = catalog.next_above(session.app(), None) else {
        session.reset(number);
        return Reply::Refused(Code::ItemNotFound);
    };
    session.start(number);
    Reply::Done
}

// The entry that an enumerator of the application gives next.
fn next_entry<C: Catalog>(catalog: &C, app: AppId, cursor: Cursor) -> Option<DirEntry>
    ensures { IsNextBy (C.entries catalog.now) app cursor result }
{
    match cursor {
        Cursor::Idle => None,
        Cursor::First => catalog.next_above(app, None),
        Cursor::After(id) => catalog.next_above(app, Some(id)),
    }
}

/// TEE_GetNextPersistentObject: what it is answered.
pub fn enum_next<C: Catalog>(catalog: &C, session: &mut Session, number: u32) -> Reply
    ensures told { (s : MachineState) (i : ℕ) → Matches (C.entries catalog.now) (C.handles catalog.now) session.old s i
        → IsTold s i (Call.EnumNext number) result session.new }
    // A call that was not done leaves the session as it was.
    ensures undone { is_undone result ≡ true → session.new ≡ session.old }
    ensures application { session.new.application ≡ session.old.application }
    ensures plain { IsPlain result }
{
    let Some(cursor) = session.cursor(number) else {
        return Reply::Misuse(Reason::BadEnumerator);
    };
    let Some(entry) = next_entry(catalog, session.app(), cursor) else {
        return Reply::Refused(Code::ItemNotFound);
    };
    session.given(number, entry.id);
    Reply::Found {
        id: entry.id,
        size: entry.size,
    }
}

/// TEE_ResetPersistentObjectEnumerator: what it is answered.
pub fn enum_reset(session: &mut Session, number: u32) -> Reply
    ensures told { (s : MachineState) (i : ℕ) → session_at s i ≡ session.old → IsTold s i (Call.EnumReset number) result session.new }
    // A call that was not done leaves the session as it was.
    ensures undone { is_undone result ≡ true → session.new ≡ session.old }
    ensures application { session.new.application ≡ session.old.application }
    ensures plain { IsPlain result }
{
    let Some(_live) = session.cursor(number) else {
        return Reply::Misuse(Reason::BadEnumerator);
    };
    session.reset(number);
    Reply::Done
}

/// TEE_FreePersistentObjectEnumerator: what it is answered.
pub fn enum_free(session: &mut Session, number: u32) -> Reply
    ensures told { (s : MachineState) (i : ℕ) → session_at s i ≡ session.old → IsTold s i (Call.EnumFree number) result session.new }
    // A call that was not done leaves the session as it was.
    ensures undone { is_undone result ≡ true → session.new ≡ session.old }
    ensures application { session.new.application ≡ session.old.application }
    ensures plain { IsPlain result }
{
    let Some(_live) = session.cursor(number) else {
        return Reply::Misuse(Reason::BadEnumerator);
    };
    session.free(number);
    Reply::Done
}
