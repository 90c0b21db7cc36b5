//! What a Write and a Truncate have in common: the answer that needs no bytes of the object, and the end of a stage that is not brought.

ghost use Rattle.std.specs.Prelude.{◌≡◌, IfSome, IsNone, Some, []};
ghost use Rattle.serial_calls.specs.Meant.{IsMeantAnyhow};
ghost use Rattle.serial_calls.specs.ChangeReplies.{IsDoneOrRefused};
ghost use Rattle.serial_calls.specs.ChangeStaging.{DataCall};
ghost use Rattle.crash_core.specs.EntryLists.{entry_at};
ghost use Rattle.serial_calls.specs.GuardedSlots.{SlotInvariant};
ghost use Rattle.shared_calls.specs.SharedChange.{HasStaged, told_staged};
ghost use Rattle.shared_calls.specs.SharedReady.{IsReady};
ghost use Rattle.shared_calls.specs.Attempts.{IsAnswered};
ghost use Rattle.shared_calls.specs.Kept.{KeepsSlot};

use crate::{DevicesName, SharedGate};
use dir_index::Held;
use rpmb_card::RpmbPort;
use serial_calls::{GuardedSlot, PlacedReply, Session, Slot, Staged, StoreName, answer_meant};
use tee_ports::{Entropy, StoreFile};
use tee_types::{Call, Reply};

/// Answers a call on the object of an entry as the machine does, whatever the object's bytes are. None where the slot is another file's: then
/// nothing is answered.
pub(crate) fn answer_held<
    F: StoreFile + Drop,
    R: RpmbPort + Drop,
    L: StoreName + DevicesName,
    E: Entropy,
>(
    gate: &mut SharedGate<F, R, L>,
    slot: &mut GuardedSlot<F, L>,
    session: &mut Session<E>,
    held: &Held,
    call: Call,
    reply: Reply,
) -> Option<PlacedReply>
    requires ready { IsReady L.store gate.old session.old }
    requires held { entry_at gate.old.gate.dir.dir.entries held.now.index ≡ Some held.now.entry }
    requires kind { IsDoneOrRefused reply }
    requires meant { IsMeantAnyhow gate.old.gate session.old held.now.entry call reply }
    requires kept { KeepsSlot L.devices slot.old [] }
    ensures answered { IfSome result (IsAnswered L.store session.old session.new call) }
    ensures waits { IsNone result → session.new ≡ session.old }
    ensures entropy { session.new.entropy ≡ session.old.entropy }
    ensures file { slot.new.file ≡ slot.old.file }
    ensures kept { KeepsSlot L.devices slot.new [] }
    ensures undrawn { IfSome result (λ answer. IsDoneOrRefused answer.reply) }
{
    let entry = held.entry;
    if entry.file != slot.number() {
        return None;
    }
    Some(answer_meant(&mut gate.gate, &mut slot.slot, session, &entry, call, reply))
}

/// Gives up what was staged and is not brought to the gate, if anything was. The slot may stand behind its lock then.
pub(crate) fn give_up<F: StoreFile + Drop, L: StoreName + DevicesName>(
    slot: &mut Slot<F>,
    staged: &Staged,
)
    requires staged { (asked : DataCall) × HasStaged L.store slot.old asked staged.now }
    requires kept { KeepsSlot L.devices slot.old (told_staged slot.old.number staged.now) }
    ensures guarded { SlotInvariant L.store slot.new }
    ensures kept { KeepsSlot L.devices slot.new [] }
{
    match staged {
        Staged::Root(_) => slot.drop_stage(),
        Staged::Unstaged(_) => {}
    }
}
