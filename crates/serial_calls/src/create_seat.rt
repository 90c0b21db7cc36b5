//! How a slot gets the seat of a new object.

ghost use Rattle.std.specs.Prelude.{◌≡◌, ◌<◌, ◌+◌, None};
ghost use Rattle.crash_core.specs.EntryLists.{IsUnnamed};
ghost use Rattle.call_steps.specs.Fits.{FitsGate};
ghost use Rattle.rpmb_card.specs.Protocol.{last_counter};
ghost use Rattle.serial_calls.specs.Seating.{IsFreshSlot, IsVacant, reseated};

use call_steps::{GuardedGate, Slot};
use core_laws::StoreName;
use rpmb_card::RpmbPort;
use tee_ports::StoreFile;

// The generation of an object that the next commit makes. A spent counter has no next commit.
fn next_generation(counter: u32) -> u32
    ensures { counter < last_counter → result ≡ counter + 1 }
{
    if counter < u32::MAX {
        counter + 1
    } else {
        counter
    }
}

/// Changes the seat of the slot of a file that no entry names for a new one, of the generation that the next commit makes. What the slot holds
/// stays.
pub(crate) fn reseat<F: StoreFile + Drop, R: RpmbPort + Drop, L: StoreName>(
    gate: &mut GuardedGate<F, R, L>,
    slot: &mut Slot<F>,
)
    requires empty { IsVacant L.store slot.old }
    requires idle { gate.old.gate.doubt ≡ None }
    requires unnamed { IsUnnamed gate.old.gate.dir.dir.entries slot.old.number }
    ensures gate { gate.new ≡ reseated L.store slot.old.number gate.old }
    ensures same { slot.new ≡ record slot.old { seat = slot.new.seat } }
    // What the slot's seat knew agreed with the gate.
    ensures agreed { FitsGate gate.old.journal.knows slot.old }
    ensures fresh { IsFreshSlot L.store gate.new.journal.knows gate.new.gate.counter slot.new }
{
    gate.reveal_invariant();
    let generation = next_generation(gate.counter());
    let seat = slot.lend_seat();
    let seat = gate.reseat(seat, generation);
    slot.give_seat(seat);
}
