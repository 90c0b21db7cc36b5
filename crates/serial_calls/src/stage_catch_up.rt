//! How a session and a slot in whose file a change was staged are shown the history again.

ghost use Rattle.std.specs.Prelude.{◌≡◌, ℕ, None, Some};
ghost use Rattle.call_steps.specs.CallerSessions.{IsCallerOf};
ghost use Rattle.call_steps.specs.SessionViews.{BeginsAll, SeesAll, shown};
ghost use Rattle.serial_calls.specs.ChangeStaging.{DataCall, StagesChange, StagesEntry};
ghost use Rattle.serial_calls.specs.declared.stage_result.Staged.{Staged as StagedValue};
ghost use Rattle.crash_core.specs.EntryLists.{entry_at};
ghost use Rattle.history_seats.specs.Records.{Version};
ghost use Rattle.call_steps.specs.Commits.{IsCalm};
ghost use Rattle.call_steps.specs.KnownMachine.{IsSessionAt};
ghost use Rattle.call_steps.specs.Fits.{FitsGate};
ghost use Rattle.call_steps.specs.GuardedSlots.{SlotInvariant};
ghost use Rattle.call_steps.specs.GuardedReads.{GivesVersion};
ghost use Rattle.call_steps.specs.SlotCatchUp.{IsAtEntry, StillGives};
ghost use Rattle.call_steps.specs.SlotValues.{without_stage};
ghost use Rattle.core_laws.specs.Answered.{AreAnswered};
ghost use Rattle.core_laws.specs.TamperScenarios.{TamperScenario};
ghost use Rattle.core_laws.specs.Stores.{replay_at};

use call_steps::{GuardedGate, Session, Slot};
use core_laws::StoreName;
use dir_records::DirEntry;
use rpmb_card::RpmbPort;
use tee_ports::{Entropy, StoreFile};

/// Shows a session, and the slot of an entry's file, the whole history, where the slot is in no doubt and may have the stage of a change.
/// The slot keeps its stage, and stands at the entry: so what was staged for the version that the slot gave may be brought, and why nothing
/// was staged may be told. A session that saw the whole history stays as it was.
pub fn catch_up_staged<F: StoreFile + Drop, R: RpmbPort + Drop, L: StoreName, E: Entropy>(
    gate: &mut GuardedGate<F, R, L>,
    slot: &mut Slot<F>,
    session: &mut Session<E>,
    entry: &DirEntry,
)
    requires idle { gate.old.gate.doubt ≡ None }
    requires base { SlotInvariant L.store (record slot.old { holds = without_stage slot.old.holds }) }
    requires settled { slot.old.doubt ≡ None }
    requires session { IsCallerOf L.store session.old }
    requires entry { (index : ℕ) × (entry_at gate.old.gate.dir.dir.entries index ≡ Some entry.now) }
    requires file { slot.old.number ≡ entry.now.file }
    ensures gate { gate.new ≡ gate.old }
    // What the slot's seat knew agreed with the gate.
    ensures agreed { FitsGate gate.old.journal.knows slot.old }
    ensures same { slot.new ≡ record slot.old { seat = slot.new.seat } }
    ensures base { SlotInvariant L.store (record slot.new { holds = without_stage slot.new.holds }) }
    ensures at { (version : Version) × IsAtEntry gate.old.journal.knows slot.new entry.now version }
    ensures still { (v : Version) → GivesVersion slot.old v → StillGives slot.old slot.new v }
    ensures stages { (v : Version) → GivesVersion slot.old v → (asked : DataCall) (staged : StagedValue) → StagesChange L.store slot.old v asked staged
        → StagesEntry L.store gate.old.journal.knows slot.new entry.now asked staged }
    ensures session { session.new ≡ shown gate.old.journal.knows session.old }
    ensures calm { IsCalm L.store gate.old.journal.knows session.old → session.new ≡ session.old }
    ensures begins { BeginsAll gate.old.journal.knows session.old.pass }
    ensures sees { SeesAll gate.old.journal.knows session.new.pass }
    ensures whole { IsCallerOf L.store session.new }
    ensures stands { (scenario : TamperScenario) → AreAnswered L.store scenario gate.old.journal.knows.all → IsSessionAt (replay_at L.store scenario gate.old.journal.knows.all).state session.new }
{
    gate.reveal_invariant();
    let seat = slot.lend_seat();
    let Some(seat) = gate.catch_up(Some(seat), session) else {
        unreachable!()
    };
    slot.give_seat(seat);
}
