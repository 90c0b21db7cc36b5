// Three calls, by two passes and one slot.

ghost use Rattle.std.specs.Prelude.{◌≡◌, ◌≤◌, [], ◌∷◌, ◌++◌, length, Some};
ghost use Rattle.store_model.specs.Record.{events_of};
ghost use Rattle.history_seats.specs.Views.{Sight, SlotView, new_gate};

use anyhow::Context;
use history_seats::{GateSeat, HistoryTable, PassSeat, SlotSeat};
use std::alloc::Global;
use store_model::{Event, History, Mark};
use tee_types::{Call, Reply};

/// A call that no file is needed for.
fn call_of(session: u32, number: u64) -> Event
    ensures { result ≡ Event.Call session number Call.EnumNew Reply.Done Mark.Unchanged }
{
    Event::Call {
        session,
        number,
        call: Call::EnumNew,
        reply: Reply::Done,
        mark: Mark::Unchanged,
    }
}

/// What three calls gave.
#[derive(Drop)]
struct Served {
    places: (u64, u64, u64),
    slot: Option<SlotSeat>,
    first: PassSeat,
    second: PassSeat,
}

/// A call of session 0 with the slot of file 1, a call of session 1 without it, and one of session 1 with it.
fn serve_three(table: &HistoryTable, gate: &mut GateSeat, history: &mut History) -> Served
    requires gate { (gate.old.table ≡ table.now) × (gate.old.knows ≡ new_gate) }
    requires history { (history.old.events ≡ []) × (3 ≤ history.old.spare) }
    ensures places { result.places ≡ (0, 1, 2) }
    ensures events { events_of gate.new.knows.all ≡ history.new.events }
    ensures count { length history.new.events ≡ 3 }
    // The slot's seat that comes back last holds all three.
    ensures slot { (slot : Sight SlotView) × (result.slot ≡ Some slot) × (slot.knows.seen ≡ gate.new.knows.all) × (slot.table ≡ table.now) }
    ensures passes { (gate.new.table ≡ table.now) × (result.first.table ≡ table.now) × (result.second.table ≡ table.now) }
{
    let first = gate.split_pass(table, 0);
    let second = gate.split_pass(table, 1);
    let slot = gate.split_slot(table, 1, 0);
    let one = gate.append(table, Some(slot), first, history, call_of(0, 0));
    let two = gate.append(table, None, second, history, call_of(1, 0));
    let three = gate.append(table, one.slot, two.pass, history, call_of(1, 1));
    Served {
        places: (one.place, two.place, three.place),
        slot: three.slot,
        first: one.pass,
        second: three.pass,
    }
}

/// Prints where two passes and one slot append, what comes back, and how long the history is at its close.
pub fn print(rt: &impl Print, alloc: Global) -> anyhow::Result<()> {
    let (table, mut gate) = HistoryTable::make(alloc)?;
    let mut history = History::new(alloc);
    history.reserve(3, None)?;
    let served = serve_three(&table, &mut gate, &mut history);
    println!(rt;
        "history_seats: places of three calls -> {:?}",
        served.places
    )?;
    println!(rt; "history_seats: events -> {}", history.len())?;
    let slot = served.slot.context("no slot came back")?;
    println!(rt;
        "history_seats: file and generation of the slot -> {}, {}",
        slot.file(),
        slot.generation()
    )?;
    println!(rt;
        "history_seats: sessions of the passes -> {}, {}",
        served.first.session(),
        served.second.session()
    )?;
    gate.retire(&table, slot);
    gate.retire_pass(&table, served.first);
    gate.retire_pass(&table, served.second);
    println!(rt;
        "history_seats: events at the close -> {}",
        gate.close(table)
    )?;
    Ok(())
}
