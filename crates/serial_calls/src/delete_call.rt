//! TEE_CloseAndDeletePersistentObject1: an open object and its handle go.

ghost use Rattle.std.specs.Prelude.{◌≡◌, ◌≤◌, None};
ghost use Rattle.tee_types.specs.Rights.{write_meta_bit};
ghost use Rattle.tee_types.specs.declared.call.Call.TheVariants.{Delete};
ghost use Rattle.tee_types.specs.declared.reply.Reply.TheVariants.{Done};
ghost use Rattle.call_rules.specs.Objects.{IsRightful};
ghost use Rattle.call_steps.specs.Commits.{IsCalm};
ghost use Rattle.call_steps.specs.Devices.{DrawsOn};
ghost use Rattle.call_steps.specs.Fits.{FitsGate, SeesWhole};
ghost use Rattle.call_steps.specs.ObjectCommits.{IsCommitted};
ghost use Rattle.call_steps.specs.NameLaws.{IsDoneByRule};
ghost use Rattle.serial_calls.specs.NameChanges.{delete_change};

use call_rules::OpenObject;
use call_steps::{
    EntryChange, GuardedGate, GuardedSlot, PlacedReply, Session, SessionMove, catch_up_entry,
    commit_change,
};
use core_laws::StoreName;
use rpmb_card::RpmbPort;
use tee_ports::{Entropy, StoreFile};
use tee_types::{Call, Reply};

/// Deletes the object of an open handle, and closes the handle. `found` is what the rules found of the handle, whose session was shown the
/// history.
pub fn delete<F: StoreFile + Drop, R: RpmbPort + Drop, L: StoreName, E: Entropy>(
    gate: &mut GuardedGate<F, R, L>,
    slot: &mut GuardedSlot<F, L>,
    session: &mut Session<E>,
    found: &OpenObject,
    handle: u32,
) -> PlacedReply
    requires names { 1 ≤ gate.old.gate.room }
    requires handles { 1 ≤ gate.old.gate.open_handles.spare }
    requires events { 1 ≤ gate.old.journal.spare }
    requires idle { gate.old.gate.doubt ≡ None }
    requires calm { IsCalm L.store gate.old.journal.knows session.old }
    requires found { IsRightful gate.old.gate.dir.dir.entries session.old.state handle write_meta_bit found.now }
    requires deletes { IsDoneByRule gate.old.gate session.old found.now (Delete handle) }
    requires file { slot.old.number ≡ found.now.held.entry.file }
    ensures committed { IsCommitted F.state R.state L.store gate.old gate.new slot.old.number session.old session.new (Delete handle) Done (delete_change found.now)
        (E.is_reliable session.old.entropy) (E.faults session.old.entropy) (E.faults session.new.entropy) result }
    // What the slot's seat knew agreed with the gate.
    ensures agreed { FitsGate gate.old.journal.knows slot.old }
    ensures whole { SeesWhole gate.new.journal.knows slot.new }
    ensures draws { DrawsOn E.is_reliable E.faults session.old.entropy session.new.entropy }
    ensures number { slot.new.number ≡ slot.old.number }
    ensures file { slot.new.file ≡ slot.old.file }
{
    let held = found.held;
    let entry = held.entry;
    gate.reveal_invariant();
    catch_up_entry(gate, &mut slot.slot, session, &entry);
    // Nothing of a deleted object stays loaded.
    slot.slot.free();
    commit_change(
        gate,
        &mut slot.slot,
        session,
        EntryChange::Clear { index: held.index },
        Call::Delete { handle },
        Reply::Done,
        Reply::Done,
        SessionMove::Closes(handle),
    )
}
