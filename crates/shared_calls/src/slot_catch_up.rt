//! How the slot of the object's file is shown the history, at a validation of a call at the gate.

ghost use Rattle.std.specs.Prelude.{◌≡◌, ℕ, true, List, None, Some};
ghost use Rattle.crash_core.specs.EntryLists.{entry_at};
ghost use Rattle.history_seats.specs.Records.{Version};
ghost use Rattle.serial_calls.specs.GuardedReads.{GivesVersion};
ghost use Rattle.serial_calls.specs.SlotCatchUp.{StillGives};
ghost use Rattle.serial_calls.specs.SlotValues.{IsLive};
ghost use Rattle.shared_calls.specs.SharedCatchUp.{IsMet};
ghost use Rattle.shared_calls.specs.SharedReady.{IsReady};
ghost use Rattle.shared_calls.specs.Kept.{KeepsSlot};

use crate::{DevicesName, SharedGate};
use dir_index::Held;
use rpmb_card::RpmbPort;
use serial_calls::{GuardedSlot, Session, StoreName, catch_up_entry};
use tee_ports::{Entropy, StoreFile};

/// Whether the slot's object is loaded, and no commit of it is in doubt.
pub(crate) fn is_loaded<F: StoreFile + Drop, L: StoreName>(slot: &GuardedSlot<F, L>) -> bool
    ensures { result ≡ true → IsLive slot.now.holds × (slot.now.doubt ≡ None) }
{
    slot.slot.is_live() && slot.slot.doubt_place().is_none()
}

/// Shows the slot of an entry's file the whole history, so that it stands at the entry. False where the slot is another file's, which
/// stays as it is. What the slot gave before it gives still.
pub(crate) fn catch_up_held<
    F: StoreFile + Drop,
    R: RpmbPort + Drop,
    L: StoreName + DevicesName,
    E: Entropy,
>(
    gate: &mut SharedGate<F, R, L>,
    slot: &mut GuardedSlot<F, L>,
    session: &mut Session<E>,
    held: &Held,
) -> bool
    requires ready { IsReady L.store gate.old session.old }
    requires held { entry_at gate.old.gate.dir.dir.entries held.now.index ≡ Some held.now.entry }
    ensures gate { gate.new ≡ gate.old }
    ensures session { session.new ≡ session.old }
    ensures met { result ≡ true → IsMet gate.old.journal.knows slot.new held.now.entry }
    ensures still { (v : Version) → GivesVersion slot.old v → StillGives slot.old slot.new v }
    ensures kept { (then : List ℕ) → KeepsSlot L.devices slot.old then → KeepsSlot L.devices slot.new then }
{
    let entry = held.entry;
    if entry.file != slot.number() {
        return false;
    }
    catch_up_entry(&mut gate.gate, &mut slot.slot, session, &entry);
    true
}
