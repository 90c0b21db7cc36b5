//! Calls on an open object that are answered whatever its bytes are.

ghost use Rattle.std.specs.Prelude.{◌≡◌, ◌≤◌, ℕ, None, Some};
ghost use Rattle.serial_calls.specs.Meant.{IsMeantAnyhow};
ghost use Rattle.serial_calls.specs.ChangeReplies.{IsDoneOrRefused};
ghost use Rattle.crash_core.specs.EntryLists.{entry_at};
ghost use Rattle.call_steps.specs.Commits.{IsCalm};
ghost use Rattle.call_steps.specs.Fits.{FitsGate, SeesWhole};
ghost use Rattle.call_steps.specs.GuardedSlots.{SlotInvariant};
ghost use Rattle.call_steps.specs.AnswerServed.{IsServed};

use crate::reply_appending::append;
use call_steps::{GuardedGate, PlacedReply, Session, Slot, catch_up_entry};
use core_laws::StoreName;
use dir_records::DirEntry;
use rpmb_card::RpmbPort;
use tee_ports::{Entropy, StoreFile};
use tee_types::{Call, Reply};

/// Answers a call on the object of an entry as the machine does, whatever the object's bytes are, for a session that was shown the history.
/// The slot of the entry's file is shown the history first. Its file is let be.
pub fn answer_meant<F: StoreFile + Drop, R: RpmbPort + Drop, L: StoreName, E: Entropy>(
    gate: &mut GuardedGate<F, R, L>,
    slot: &mut Slot<F>,
    session: &mut Session<E>,
    entry: &DirEntry,
    call: Call,
    reply: Reply,
) -> PlacedReply
    requires room { 1 ≤ gate.old.journal.spare }
    requires handle { 1 ≤ gate.old.gate.open_handles.spare }
    requires idle { gate.old.gate.doubt ≡ None }
    requires guarded { SlotInvariant L.store slot.old }
    requires calm { IsCalm L.store gate.old.journal.knows session.old }
    requires entry { (index : ℕ) × (entry_at gate.old.gate.dir.dir.entries index ≡ Some entry.now) }
    requires file { slot.old.number ≡ entry.now.file }
    requires kind { IsDoneOrRefused reply }
    requires meant { IsMeantAnyhow gate.old.gate session.old entry.now call reply }
    ensures served { IsServed L.store gate.old gate.new session.old session.new slot.old.number call result }
    ensures reply { result.reply ≡ reply }
    // What the slot's seat knew agreed with the gate.
    ensures agreed { FitsGate gate.old.journal.knows slot.old }
    ensures number { slot.new.number ≡ slot.old.number }
    ensures file { slot.new.file ≡ slot.old.file }
    ensures guarded { SlotInvariant L.store slot.new }
    ensures whole { SeesWhole gate.new.journal.knows slot.new }
    ensures entropy { session.new.entropy ≡ session.old.entropy }
{
    catch_up_entry(gate, slot, session, entry);
    gate.reveal_invariant();
    append(gate, slot, session, call, reply)
}
