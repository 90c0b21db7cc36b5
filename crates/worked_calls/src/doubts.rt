// A commit in doubt that lands.

ghost use Rattle.std.specs.Prelude.{◌≡◌, ◌≤◌, [], ◌∷◌, ◌++◌, length};
ghost use Rattle.store_model.specs.Record.{events_of};
ghost use Rattle.history_seats.specs.Views.{new_gate};

use history_seats::{GateSeat, HistoryTable, PassSeat};
use std::alloc::Global;
use store_model::{Event, History, Mark};
use tee_types::{Call, Cause, Device, Reply};

/// A delete whose commit is in doubt, since the card gave no answer.
fn doubted_call() -> Event
    ensures { result ≡ Event.Call 0 0 (Call.Delete 1) (Reply.NotAvailable (Cause.Fault Device.Card 1)) (Mark.Doubtful 1) }
{
    Event::Call {
        session: 0,
        number: 0,
        call: Call::Delete { handle: 1 },
        reply: Reply::NotAvailable(Cause::Fault {
            device: Device::Card,
            count: 1,
        }),
        mark: Mark::Doubtful(1),
    }
}

/// A doubt lands, and a session sees it; behind it no doubt is open.
fn land_doubt(table: &HistoryTable, gate: &mut GateSeat, history: &mut History) -> (u64, PassSeat)
    requires gate { (gate.old.table ≡ table.now) × (gate.old.knows ≡ new_gate) }
    requires history { (history.old.events ≡ []) × (2 ≤ history.old.spare) }
    ensures place { result.0 ≡ 1 }
    ensures events { events_of gate.new.knows.all ≡ history.new.events }
    ensures seen { (result.1.table ≡ table.now) × (result.1.knows.seen ≡ gate.new.knows.all) }
    ensures decided { (gate.new.table ≡ table.now) × (gate.new.knows.decided ≡ 2) }
{
    let pass = gate.split_pass(table, 0);
    let slot = gate.split_slot(table, 1, 0);
    let doubted = gate.append(table, Some(slot), pass, history, doubted_call());
    let place = gate.append_landed(table, history, 1);
    let seats = gate.refresh(table, doubted.slot, doubted.pass);
    gate.drop_doubt(table);
    (place, seats.pass)
}

/// Prints where a doubt lands, and how long the history is at its close.
pub fn print(rt: &impl Print, alloc: Global) -> anyhow::Result<()> {
    let (table, mut gate) = HistoryTable::make(alloc)?;
    let mut history = History::new(alloc);
    history.reserve(2, None)?;
    let (place, pass) = land_doubt(&table, &mut gate, &mut history);
    println!(rt; "history_seats: place of a doubt that lands -> {place}")?;
    println!(rt; "history_seats: session of its pass -> {}", pass.session())?;
    gate.retire_pass(&table, pass);
    println!(rt;
        "history_seats: events at the close -> {}",
        gate.close(table)
    )?;
    Ok(())
}
