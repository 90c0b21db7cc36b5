// Eight sessions in eight threads, behind one lock.

ghost use Rattle.std.specs.Prelude.{◌≡◌, [], ◌∷◌, ◌++◌};
ghost use Rattle.history_seats.specs.Views.{new_gate};

use history_seats::{Appended, GateSeat, HistoryTable, PassSeat};
use std::alloc::Global;
use std::marker::{Brand, Model, PhantomData};
use std::sync::{Mutex, Wait};
use std::thread;
use std::thread::Threads;
use store_model::{Event, History, Mark};
use tee_types::{Call, NoMemory, Reply};

const SESSIONS: u32 = 8;

const CALLS: u64 = 100;

/// Names a table, so that what lies behind a lock and what a thread has are known to belong together.
trait TableName {
    ghost use Rattle.atomic_table.specs.Seated.{TableId};

    ghost table: { TableId };
}

impl TableName for Brand {
    ghost use Rattle.std.specs.Prelude.{[]};

    ghost table = { record { words = 0; slots = 0; views_name = 0; atom = 0; block = 0; offset = 0; slot_names = [] } };
}

/// What lies behind the lock: the gate's seat, and the history that it counts.
#[derive(Drop)]
struct Desk<L: TableName> {
    table: HistoryTable,
    gate: GateSeat,
    history: History,
    of: PhantomData<L>,
}

impl<L: TableName> Model for Desk<L> {
    ghost use Rattle.std.specs.Prelude.{◌≡◌};
    ghost use Rattle.store_model.specs.Record.{events_of};
    ghost use Rattle.history_seats.specs.Views.{Sight, GateView};

    ghost Value = { Sight GateView };

    ghost view = { λ d. d.gate };

    ghost invariant = { λ d. (d.table ≡ L.table) × (d.gate.table ≡ L.table) × (d.history.events ≡ events_of d.gate.knows.all) };
}

/// A session, with its seat and the count of its calls.
#[derive(Drop)]
struct Caller<L: TableName> {
    pass: Option<PassSeat>,
    session: u32,
    made: u64,
    of: PhantomData<L>,
}

impl<L: TableName> Model for Caller<L> {
    ghost use Rattle.std.specs.Prelude.{◌≡◌, Some};
    ghost use Rattle.store_model.specs.History.{count_of};
    ghost use Rattle.store_model.specs.Record.{events_of};
    ghost use Rattle.history_seats.specs.Views.{Sight, PassView};

    ghost Value = { Unit {0} };

    ghost view = { λ _. tt };

    ghost invariant = { λ c. (pass : Sight PassView) × (c.pass ≡ Some pass) × (pass.table ≡ L.table) × (pass.knows.session ≡ c.session) × (count_of c.session (events_of pass.knows.seen) ≡ c.made) };
}

/// Makes the session's next call.
fn call_once<L: TableName>(desk: &mut Desk<L>, caller: &mut Caller<L>) {
    if caller.made >= CALLS || desk.history.reserve(1, None).is_err() {
        return;
    }
    let Some(pass) = caller.pass.take() else {
        unreachable!()
    };
    let event = Event::Call {
        session: caller.session,
        number: caller.made,
        call: Call::EnumNew,
        reply: Reply::Done,
        mark: Mark::Unchanged,
    };
    let Appended {
        place: _,
        slot: _,
        pass,
    } = desk
        .gate
        .append(&desk.table, None, pass, &mut desk.history, event);
    caller.pass = Some(pass);
    caller.made += 1;
}

/// Makes the calls of one session, each under the lock.
fn work<L: TableName, R: Wait>(rt: &R, lock: &Mutex<Desk<L>>, caller: &mut Caller<L>) {
    for _ in 0..CALLS {
        let mut desk = lock.lock(rt);
        call_once(&mut *desk, caller);
    }
}

/// Splits the pass of each session.
fn split_callers<L: TableName>(
    alloc: Global,
    table: &HistoryTable,
    gate: &mut GateSeat,
) -> Result<Vec<Caller<L>>, NoMemory>
    requires table { (table.now ≡ L.table) × (gate.old.table ≡ L.table) }
    requires new { gate.old.knows ≡ new_gate }
    ensures { (gate.new.table ≡ L.table) × (gate.new.knows.all ≡ []) }
{
    let mut callers = Vec::new(alloc);
    for session in 0..SESSIONS {
        let pass = gate.split_pass(table, session);
        callers.push(Caller {
            pass: Some(pass),
            session,
            made: 0,
            of: PhantomData,
        })?;
    }
    Ok(callers)
}

/// Takes in each session's seat, and tells the length of the history.
fn finish<L: TableName>(desk: Desk<L>, mut callers: Vec<Caller<L>>) -> u64 {
    let Desk {
        table,
        mut gate,
        history: _,
        of: _,
    } = desk;
    while let Some(caller) = callers.pop() {
        retire(&table, &mut gate, caller);
    }
    gate.close(table)
}

fn retire<L: TableName>(table: &HistoryTable, gate: &mut GateSeat, caller: Caller<L>)
    requires { (table.now ≡ L.table) × (gate.old.table ≡ L.table) }
    ensures { gate.new.table ≡ L.table }
{
    let Caller {
        pass,
        session: _,
        made: _,
        of: _,
    } = caller;
    let Some(pass) = pass else { unreachable!() };
    gate.retire_pass(table, pass);
}

fn day_at<L: TableName + Send + Sync, R: Threads + Wait + Sync>(
    rt: &R,
    alloc: Global,
    table: HistoryTable,
    mut gate: GateSeat,
) -> Result<u64, NoMemory>
    requires table { (table ≡ L.table) × (gate.table ≡ L.table) }
    requires new { gate.knows ≡ new_gate }
{
    let mut callers = split_callers::<L>(alloc, &table, &mut gate)?;
    let lock = Mutex::new(Desk::<L> {
        table,
        gate,
        history: History::new(alloc),
        of: PhantomData,
    });
    thread::for_each_mut(
        rt,
        callers.as_mut_slice(),
        8,
        &|_, caller| work(rt, &lock, caller),
    );
    Ok(finish(lock.into_inner(), callers))
}

fn day<R: Threads + Wait + Sync>(rt: &R, alloc: Global) -> Result<u64, NoMemory> {
    let (table, gate) = HistoryTable::make(alloc)?;
    day_at::<Brand, R>(rt, alloc, table, gate)
}

/// Prints how long the history of eight sessions is, each of which makes a hundred calls in a thread of its own.
pub fn print<R: Print + Threads + Wait + Sync>(rt: &R, alloc: Global) -> anyhow::Result<()> {
    let events = day(rt, alloc)?;
    println!(rt; "history_seats: events of eight sessions with a hundred calls each -> {events}")?;
    Ok(())
}
