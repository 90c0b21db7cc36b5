//! TEE_RenamePersistentObject: another identifier for an open object.

ghost use Rattle.std.specs.Prelude.{◌≡◌, ◌≤◌, None, IfOk, OnErr, OnOk};
ghost use Rattle.tee_types.specs.Rights.{write_meta_bit};
ghost use Rattle.tee_types.specs.declared.call.Call.TheVariants.{Rename};
ghost use Rattle.tee_types.specs.declared.reply.Reply.TheVariants.{Done};
ghost use Rattle.call_steps.specs.Index.{named};
ghost use Rattle.call_steps.specs.EntryNames.{IsEntryNamed};
ghost use Rattle.core_laws.specs.TamperScenarios.{TamperScenario};
ghost use Rattle.core_laws.specs.Answered.{AreAnswered};
ghost use Rattle.call_rules.specs.Objects.{IsRightful};
ghost use Rattle.call_steps.specs.Commits.{IsCalm};
ghost use Rattle.call_steps.specs.Devices.{DrawsOn};
ghost use Rattle.call_steps.specs.Fits.{FitsGate, SeesWhole};
ghost use Rattle.call_steps.specs.ObjectCommits.{IsCommitted};
ghost use Rattle.call_steps.specs.NameLaws.{IsDoneByRule};
ghost use Rattle.serial_calls.specs.NameChanges.{rename_change, rename_step};

use call_rules::OpenObject;
use call_steps::{
    EntryChange, GuardedGate, GuardedSlot, PlacedReply, Session, SessionMove, catch_up_entry,
    commit_change,
};
use core_laws::StoreName;
use dir_records::DirEntry;
use rpmb_card::RpmbPort;
use store_model::{Handle, ObjectName};
use tee_ports::{Entropy, StoreFile};
use tee_types::{Call, NoMemory, ObjectId, Reply};

// The change of the directory.
fn change_for(found: &OpenObject, id: ObjectId) -> EntryChange
    ensures { result ≡ rename_change found.now id }
{
    let index = found.held.index;
    let entry = found.held.entry;
    EntryChange::Put {
        index,
        entry: DirEntry { id, ..entry },
    }
}

// What the session's handle becomes.
fn step_for(found: &OpenObject, handle: u32, name: ObjectName) -> SessionMove
    ensures { result ≡ rename_step found.now handle name }
{
    let object = found.handle;
    SessionMove::Replaces(handle, Handle { name, ..object })
}

/// Gives the object of an open handle another identifier. `found` is what the rules found of the handle, whose session was shown the
/// history. The handle stays open on the object.
///
/// # Errors
///
/// The object is another application's. No tamper scenario answers the history then, and nothing was done.
pub fn rename<F: StoreFile + Drop, R: RpmbPort + Drop, L: StoreName, E: Entropy>(
    gate: &mut GuardedGate<F, R, L>,
    slot: &mut GuardedSlot<F, L>,
    session: &mut Session<E>,
    found: &OpenObject,
    handle: u32,
    id: ObjectId,
) -> Result<PlacedReply, NoMemory>
    requires names { 1 ≤ gate.old.gate.room }
    requires handles { 1 ≤ gate.old.gate.open_handles.spare }
    requires events { 1 ≤ gate.old.journal.spare }
    requires idle { gate.old.gate.doubt ≡ None }
    requires calm { IsCalm L.store gate.old.journal.knows session.old }
    requires found { IsRightful gate.old.gate.dir.dir.entries session.old.state handle write_meta_bit found.now }
    requires renames { IsDoneByRule gate.old.gate session.old found.now (Rename handle id) }
    requires unnamed { IsEntryNamed gate.old.gate.dir.dir.entries (named session.old.state.application id) None }
    requires file { slot.old.number ≡ found.now.held.entry.file }
    ensures committed { IfOk result (IsCommitted F.state R.state L.store gate.old gate.new slot.old.number session.old session.new (Rename handle id) Done (rename_change found.now id)
        (E.is_reliable session.old.entropy) (E.faults session.old.entropy) (E.faults session.new.entropy)) }
    // What the slot's seat knew agreed with the gate.
    ensures agreed { OnOk result (FitsGate gate.old.journal.knows slot.old) }
    ensures whole { OnOk result (SeesWhole gate.new.journal.knows slot.new) }
    ensures draws { DrawsOn E.is_reliable E.faults session.old.entropy session.new.entropy }
    ensures number { slot.new.number ≡ slot.old.number }
    ensures file { slot.new.file ≡ slot.old.file }
    ensures unanswered { OnErr result ((scenario : TamperScenario) → AreAnswered L.store scenario gate.old.journal.knows.all → ⊥) }
    ensures err { OnErr result ((gate.new ≡ gate.old) × (session.new ≡ session.old) × (slot.new ≡ slot.old)) }
{
    let entry = found.held.entry;
    let app = session.app();
    // Wherever the history is answered, a handle is on an object of its session's application.
    if entry.app != app {
        return Err(NoMemory {});
    }
    gate.reveal_invariant();
    catch_up_entry(gate, &mut slot.slot, session, &entry);
    Ok(commit_change(
        gate,
        &mut slot.slot,
        session,
        change_for(found, id),
        Call::Rename { handle, id },
        Reply::Done,
        Reply::Done,
        step_for(found, handle, ObjectName { app, id }),
    ))
}
