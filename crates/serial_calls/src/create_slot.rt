//! How the slot of a file that no entry names is cleared for a new object.

ghost use Rattle.std.specs.Prelude.{◌≡◌, None};
ghost use Rattle.crash_core.specs.EntryLists.{IsUnnamed};
ghost use Rattle.history_seats.specs.Changes.{seat_renewed};
ghost use Rattle.call_steps.specs.SlotValues.{free};
ghost use Rattle.call_steps.specs.Fits.{FitsGate};
ghost use Rattle.call_steps.specs.GuardedSlots.{SlotInvariant};
ghost use Rattle.call_steps.specs.CallerSessions.{IsCallerOf};
ghost use Rattle.call_steps.specs.SessionViews.{BeginsAll, SeesAll, shown};
ghost use Rattle.serial_calls.specs.Clearing.{IsClearSlot, undoubted};

use call_steps::{GuardedGate, Session, Slot};
use core_laws::StoreName;
use rpmb_card::RpmbPort;
use tee_ports::{Entropy, StoreFile};

// Ends a slot's doubt, whatever became of the commit.
fn end_doubt<F: StoreFile + Drop>(slot: &mut Slot<F>)
    ensures { slot.new ≡ record slot.old { holds = undoubted slot.old.doubt slot.old.holds; doubt = None } }
{
    if slot.doubt_place().is_some() {
        slot.drop_stage();
    }
}

// Lets go of what a slot still holds of an object that no entry names any more.
fn let_go<F: StoreFile + Drop, L: StoreName>(slot: &mut Slot<F>)
    requires { SlotInvariant L.store slot.old }
    ensures { slot.new ≡ record slot.old { holds = free; doubt = None } }
{
    end_doubt(slot);
    slot.free();
}

/// Clears the slot of a file that no entry names: what it still holds of an older object of its file goes, its doubt ends, and it is shown the
/// history, as the session is, so that its seat knows no version of the file. The seat stays, and so does the gate. Behind it `make` needs
/// the slot alone.
pub fn clear<F: StoreFile + Drop, R: RpmbPort + Drop, L: StoreName, E: Entropy>(
    gate: &mut GuardedGate<F, R, L>,
    slot: &mut Slot<F>,
    session: &mut Session<E>,
)
    requires guarded { SlotInvariant L.store slot.old }
    requires idle { gate.old.gate.doubt ≡ None }
    requires unnamed { IsUnnamed gate.old.gate.dir.dir.entries slot.old.number }
    requires caller { IsCallerOf L.store session.old }
    ensures same { gate.new ≡ gate.old }
    // What the slot's seat knew agreed with the gate.
    ensures agreed { FitsGate gate.old.journal.knows slot.old }
    ensures slot { slot.new ≡ record slot.old { seat = seat_renewed gate.old.journal.knows slot.old.seat; holds = free; doubt = None } }
    ensures clear { IsClearSlot L.store slot.new }
    ensures session { session.new ≡ shown gate.old.journal.knows session.old }
    ensures begins { BeginsAll gate.old.journal.knows session.old.pass }
    ensures sees { SeesAll gate.new.journal.knows session.new.pass }
    ensures whole { IsCallerOf L.store session.new }
{
    gate.reveal_invariant();
    let_go::<F, L>(slot);
    let seat = slot.lend_seat();
    let Some(seat) = gate.catch_up(Some(seat), session) else {
        unreachable!()
    };
    slot.give_seat(seat);
}
