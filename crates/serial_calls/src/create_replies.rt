//! How a create is told why its object was not made.

ghost use Rattle.std.specs.Prelude.{◌≡◌, ◌≤◌, None};
ghost use Rattle.crash_core.specs.EntryLists.{IsUnnamed};
ghost use Rattle.call_steps.specs.Commits.{IsCalm};
ghost use Rattle.call_steps.specs.SlotValues.{IsFree};
ghost use Rattle.call_steps.specs.Fits.{FitsGate, SeesWhole};
ghost use Rattle.call_steps.specs.GuardedSlots.{SlotInvariant};
ghost use Rattle.serial_calls.specs.Rules.{IsCreate, MakesByRule};
ghost use Rattle.serial_calls.specs.Seating.{IsFreshSlot, reseated};
ghost use Rattle.serial_calls.specs.CreateFailure.{IsToldUnmade, MayTell, reply_unmade};

use crate::create_failure::CreateFailure;
use crate::create_seat::reseat;
use call_steps::{GuardedGate, PlacedReply, Session, Slot};
use core_laws::StoreName;
use rpmb_card::RpmbPort;
use tee_ports::{Entropy, StoreFile};
use tee_types::Call;

// Appends a create whose object is not made, with why. The slot's seat is fresh.
fn tell_fresh<F: StoreFile + Drop, R: RpmbPort + Drop, L: StoreName, E: Entropy>(
    gate: &mut GuardedGate<F, R, L>,
    slot: &mut Slot<F>,
    session: &mut Session<E>,
    call: Call,
    why: CreateFailure,
) -> PlacedReply
    requires room { 1 ≤ gate.old.journal.spare }
    requires handle { 1 ≤ gate.old.gate.open_handles.spare }
    requires idle { gate.old.gate.doubt ≡ None }
    requires calm { IsCalm L.store gate.old.journal.knows session.old }
    requires create { IsCreate call }
    requires makes { MakesByRule gate.old.gate.dir.dir.entries gate.old.gate.open_handles session.old.state call }
    requires unnamed { IsUnnamed gate.old.gate.dir.dir.entries slot.old.number }
    requires fresh { IsFreshSlot L.store gate.old.journal.knows gate.old.gate.counter slot.old }
    requires vacant { IsFree slot.old.holds }
    requires may { MayTell gate.old.gate.counter slot.old.number why }
    ensures told { IsToldUnmade L.store gate.old gate.new slot.old.number session.old session.new call result }
    ensures reply { result.reply ≡ reply_unmade why }
    ensures entropy { session.new.entropy ≡ session.old.entropy }
    ensures guarded { SlotInvariant L.store slot.new }
    ensures whole { SeesWhole gate.new.journal.knows slot.new }
    ensures number { slot.new.number ≡ slot.old.number }
    ensures file { slot.new.file ≡ slot.old.file }
{
    gate.reveal_invariant();
    let seat = slot.lend_seat();
    let (place, seat) = gate.answer_with(seat, session, call, why.reply());
    slot.give_seat(seat);
    PlacedReply {
        place,
        reply: why.reply(),
    }
}

/// Gives the slot, which holds nothing, a new seat, and appends a create whose object is not made, with why. The machine would make it, in the
/// file of the slot.
pub(crate) fn tell<F: StoreFile + Drop, R: RpmbPort + Drop, L: StoreName, E: Entropy>(
    gate: &mut GuardedGate<F, R, L>,
    slot: &mut Slot<F>,
    session: &mut Session<E>,
    call: Call,
    why: CreateFailure,
) -> PlacedReply
    requires room { 1 ≤ gate.old.journal.spare }
    requires handle { 1 ≤ gate.old.gate.open_handles.spare }
    requires idle { gate.old.gate.doubt ≡ None }
    requires calm { IsCalm L.store gate.old.journal.knows session.old }
    requires create { IsCreate call }
    requires makes { MakesByRule gate.old.gate.dir.dir.entries gate.old.gate.open_handles session.old.state call }
    requires unnamed { IsUnnamed gate.old.gate.dir.dir.entries slot.old.number }
    requires guarded { SlotInvariant L.store slot.old }
    requires vacant { IsFree slot.old.holds }
    requires settled { slot.old.doubt ≡ None }
    requires may { MayTell gate.old.gate.counter slot.old.number why }
    ensures told { IsToldUnmade L.store (reseated L.store slot.old.number gate.old) gate.new slot.old.number session.old session.new call result }
    ensures reply { result.reply ≡ reply_unmade why }
    ensures entropy { session.new.entropy ≡ session.old.entropy }
    ensures guarded { SlotInvariant L.store slot.new }
    // What the slot's seat knew agreed with the gate.
    ensures agreed { FitsGate gate.old.journal.knows slot.old }
    ensures whole { SeesWhole gate.new.journal.knows slot.new }
    ensures number { slot.new.number ≡ slot.old.number }
    ensures file { slot.new.file ≡ slot.old.file }
{
    reseat(gate, slot);
    tell_fresh(gate, slot, session, call, why)
}
