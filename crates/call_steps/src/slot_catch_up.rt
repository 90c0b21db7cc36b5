//! How a session and the slot of an object's file are shown the history.

ghost use Rattle.std.specs.Prelude.{◌≡◌, ◌<◌, ℕ, length, None, Some};
ghost use Rattle.crash_core.specs.EntryLists.{entry_at};
ghost use Rattle.node_image.specs.References.{current_format};
ghost use Rattle.dir_records.specs.Form.{HasForm};
ghost use Rattle.history_seats.specs.Records.{Version};
ghost use Rattle.history_seats.specs.Rule.{IsSound};
ghost use Rattle.core_laws.specs.TamperScenarios.{TamperScenario};
ghost use Rattle.core_laws.specs.Stores.{replay_at};
ghost use Rattle.core_laws.specs.Answered.{AreAnswered};
ghost use Rattle.commit_gate.specs.CallerSessions.{IsCallerOf};
ghost use Rattle.commit_gate.specs.SessionViews.{BeginsAll, SeesAll, shown};
ghost use Rattle.object_slots.specs.Fills.{GivesEntry};
ghost use Rattle.object_slots.specs.Fits.{FitsGate, SeesWhole};
ghost use Rattle.object_slots.specs.Learning.{learned};
ghost use Rattle.object_slots.specs.GuardedSlots.{SlotInvariant};
ghost use Rattle.object_slots.specs.GuardedReads.{GivesVersion};
ghost use Rattle.commit_gate.specs.Commits.{IsCalm};
ghost use Rattle.commit_gate.specs.KnownMachine.{IsSessionAt};
ghost use Rattle.call_steps.specs.SlotCatchUp.{IsAtEntry, StillGives, met, settled_slot};

use commit_gate::{GuardedGate, Session, Settled};
use core_laws::StoreName;
use dir_records::DirEntry;
use object_slots::Slot;
use rpmb_card::RpmbPort;
use tee_ports::{Entropy, StoreFile};

// Ends the slot's doubt, as it was settled.
fn settle<F: StoreFile + Drop>(slot: &mut Slot<F>, place: u64, settled: Settled)
    requires { slot.old.doubt ≡ Some place }
    ensures { slot.new ≡ settled_slot settled slot.old }
{
    match settled {
        Settled::Open => {}
        Settled::Landed => slot.adopt(),
        Settled::Dropped => slot.drop_stage(),
    }
}

// Tells a slot that sees the whole history what became of its doubt.
fn learn_outcome<F: StoreFile + Drop, R: RpmbPort + Drop, L: StoreName>(
    gate: &GuardedGate<F, R, L>,
    slot: &mut Slot<F>,
)
    requires { (place : ℕ) → slot.old.doubt ≡ Some place → place < length gate.now.journal.knows.all }
    ensures { slot.new ≡ learned gate.now.journal.knows slot.old.doubt slot.old }
{
    let Some(place) = slot.doubt_place() else {
        return
    };
    settle(slot, place, gate.settled_behind(place));
}

/// Shows a session and a slot the whole history. Both learn what became of their own commits in doubt. A version that the slot gave it gives
/// still.
pub fn catch_up_slot<F: StoreFile + Drop, R: RpmbPort + Drop, L: StoreName, E: Entropy>(
    gate: &mut GuardedGate<F, R, L>,
    slot: &mut Slot<F>,
    session: &mut Session<E>,
)
    requires guarded { SlotInvariant L.store slot.old }
    requires session { IsCallerOf L.store session.old }
    ensures same { gate.new ≡ gate.old }
    ensures slot { slot.new ≡ met gate.old.journal.knows slot.old }
    // What the slot's seat knew agreed with the gate.
    ensures agreed { FitsGate gate.old.journal.knows slot.old }
    ensures guarded { SlotInvariant L.store slot.new }
    ensures whole_slot { SeesWhole gate.old.journal.knows slot.new }
    ensures still { (v : Version) → GivesVersion slot.old v → StillGives slot.old slot.new v }
    ensures sound { IsSound gate.old.journal.knows }
    ensures session { session.new ≡ shown gate.old.journal.knows session.old }
    ensures begins { BeginsAll gate.old.journal.knows session.old.pass }
    ensures sees { SeesAll gate.old.journal.knows session.new.pass }
    ensures whole { IsCallerOf L.store session.new }
    ensures stands { (scenario : TamperScenario) → AreAnswered L.store scenario gate.old.journal.knows.all → IsSessionAt (replay_at L.store scenario gate.old.journal.knows.all).state session.new }
{
    let seat = slot.lend_seat();
    let Some(seat) = gate.catch_up(Some(seat), session) else {
        unreachable!()
    };
    slot.give_seat(seat);
    learn_outcome(gate, slot);
}

/// Shows a session, and the slot of an entry's file, the whole history. The slot stands at the entry then: no commit of its object is in
/// doubt, and it gives the entry's version, of which `load_or_reply` loads the object. A session that saw the whole history stays as it was.
pub fn catch_up_entry<F: StoreFile + Drop, R: RpmbPort + Drop, L: StoreName, E: Entropy>(
    gate: &mut GuardedGate<F, R, L>,
    slot: &mut Slot<F>,
    session: &mut Session<E>,
    entry: &DirEntry,
)
    requires idle { gate.old.gate.doubt ≡ None }
    requires guarded { SlotInvariant L.store slot.old }
    requires session { IsCallerOf L.store session.old }
    requires entry { (index : ℕ) × (entry_at gate.old.gate.dir.dir.entries index ≡ Some entry.now) }
    requires file { slot.old.number ≡ entry.now.file }
    ensures gate { gate.new ≡ gate.old }
    ensures agreed { FitsGate gate.old.journal.knows slot.old }
    ensures number { slot.new.number ≡ slot.old.number }
    ensures file { slot.new.file ≡ slot.old.file }
    ensures guarded { SlotInvariant L.store slot.new }
    ensures at { (version : Version) × IsAtEntry gate.old.journal.knows slot.new entry.now version }
    // So its object may be loaded.
    ensures given { GivesEntry slot.new entry.now }
    ensures form { HasForm entry.now }
    ensures current { entry.now.format ≡ current_format }
    ensures still { (v : Version) → GivesVersion slot.old v → StillGives slot.old slot.new v }
    ensures session { session.new ≡ shown gate.old.journal.knows session.old }
    ensures calm { IsCalm L.store gate.old.journal.knows session.old → session.new ≡ session.old }
    ensures begins { BeginsAll gate.old.journal.knows session.old.pass }
    ensures sees { SeesAll gate.old.journal.knows session.new.pass }
    ensures whole { IsCallerOf L.store session.new }
    ensures stands { (scenario : TamperScenario) → AreAnswered L.store scenario gate.old.journal.knows.all → IsSessionAt (replay_at L.store scenario gate.old.journal.knows.all).state session.new }
{
    gate.reveal_invariant();
    catch_up_slot(gate, slot, session);
}
