// The seats of files and sessions, split as a store is served.

ghost use Rattle.std.specs.Prelude.{◌≡◌, ◌+◌, ◌-◌, ◌≤◌, ◌<◌, ℕ, [], length, reverse, vec_len};
ghost use Rattle.std.specs.Vec.{vec_capacity};
ghost use Rattle.tee_types.specs.Limits.{last_file};
ghost use Rattle.serial_calls.specs.GuardedSlots.{SlotInvariant};
ghost use Rattle.serial_calls.specs.FirstSlots.{first_slot};
ghost use Rattle.object_calls.specs.Generations.{generation_in};
ghost use Rattle.object_calls.specs.OpeningFiles.{files_of};
ghost use Rattle.object_calls.specs.Seats.{HasTold, IsSplitting};
ghost use Rattle.object_calls.specs.Services.{AreFirstSlots, MayBeFirst};
ghost use Rattle.object_calls.specs.OpeningSessions.{AreSeated, AreUnseated, DrawAlike, HaveNoEvents};

use core_laws::StoreName;
use history_seats::{GateSeat, HistoryTable};
use rpmb_card::RpmbPort;
use serial_calls::{GuardedSlot, Session, Slot};
use store_commit::Gate;
use tee_ports::{Entropy, StoreFile};

/// The same elements, the last first.
pub(crate) fn reversed<T>(items: Vec<T>) -> Vec<T>
    ensures items { result.items ≡ reverse items.items }
    ensures len { vec_len result ≡ vec_len items }
    ensures capacity { vec_capacity result ≡ vec_capacity items }
{
    let mut items = items;
    items.reverse();
    items
}

// The generation of a file: that of the entry that names it, and 0 where none does.
fn generation_of<F: StoreFile + Drop, R: RpmbPort + Drop>(gate: &Gate<F, R>, file: u16) -> u32
    requires { length gate.now.dir.dir.entries ≡ 256 }
    ensures { result ≡ generation_in gate.now.dir.dir.entries file }
{
    for index in 0..256u16 {
        if let Some(entry) = gate.entry(index) {
            if entry.file == file {
                return entry.generation;
            }
        }
    }
    0
}

// The free slot of a file, with the seat that is split for it.
fn split_slot<F: StoreFile + Drop, R: RpmbPort + Drop, L: StoreName>(
    gate: &Gate<F, R>,
    table: &HistoryTable,
    seat: &mut GateSeat,
    number: u16,
    file: F,
) -> GuardedSlot<F, L>
    requires entries { length gate.now.dir.dir.entries ≡ 256 }
    requires table { (table.now ≡ L.store.table) × (seat.old.table ≡ L.store.table) }
    requires splitting { IsSplitting L.store seat.old.knows number }
    requires guarded { SlotInvariant L.store (first_slot L.store number (generation_in gate.now.dir.dir.entries number) (F.state file)) }
    ensures slot { result ≡ first_slot L.store number (generation_in gate.now.dir.dir.entries number) (F.state file) }
    ensures table { seat.new.table ≡ L.store.table }
    ensures splitting { IsSplitting L.store seat.new.knows (number + 1) }
    ensures told { HasTold L.store seat.new.knows 0 }
{
    let generation = generation_of(gate, number);
    let seat = seat.split_slot(table, number, generation);
    GuardedSlot::new(Slot::new(number, file, seat))
}

/// What splitting the slots gives: a slot of each file, file 1 first, and the room of the list that the files were in.
pub(crate) struct SplitSlots<F: StoreFile + Drop, L: StoreName> {
    pub(crate) slots: Vec<GuardedSlot<F, L>>,
    pub(crate) room: Vec<F>,
}

/// A free slot of each file, with its seat, put into the room that `slots` has.
pub(crate) fn split_slots<F: StoreFile + Drop, R: RpmbPort + Drop, L: StoreName>(
    gate: &Gate<F, R>,
    table: &HistoryTable,
    seat: &mut GateSeat,
    files: Vec<F>,
    slots: Vec<GuardedSlot<F, L>>,
) -> SplitSlots<F, L>
    requires entries { length gate.now.dir.dir.entries ≡ 256 }
    requires table { (table.now ≡ L.store.table) × (seat.old.table ≡ L.store.table) }
    requires splitting { IsSplitting L.store seat.old.knows 1 }
    requires files { vec_len files ≡ last_file }
    requires empty { vec_len slots ≡ 0 }
    requires room { last_file ≤ vec_capacity slots }
    requires guarded { MayBeFirst L.store gate.now.dir.dir.entries F.state files.items }
    ensures slots { AreFirstSlots L.store gate.now.dir.dir.entries F.state files.items last_file result.slots.items }
    ensures many { vec_len result.slots ≡ last_file }
    ensures table { seat.new.table ≡ L.store.table }
    ensures told { HasTold L.store seat.new.knows 0 }
    ensures room { vec_capacity result.room ≡ vec_capacity files }
    ensures vacant { vec_len result.room ≡ 0 }
{
    let mut left = reversed(files);
    let mut slots = slots;
    while let Some(file) = left.pop() {
        let number = slots.len() as u16 + 1;
        let slot = split_slot(gate, table, seat, number, file);
        slots.push(slot).unwrap();
    }
    SplitSlots { slots, room: left }
}

/// Gives each session the seat that is split for it.
pub(crate) fn split_passes<E: Entropy, L: StoreName>(
    table: &HistoryTable,
    seat: &mut GateSeat,
    sessions: &mut [Session<E>],
)
    requires few { length L.store.mounted.applications ≤ 16 }
    requires table { (table.now ≡ L.store.table) × (seat.old.table ≡ L.store.table) }
    requires told { HasTold L.store seat.old.knows 0 }
    requires sessions { AreUnseated L.store.mounted.applications sessions.old }
    ensures sessions { AreSeated L.store sessions.new }
    ensures unmade { HaveNoEvents sessions.new }
    ensures draw { DrawAlike sessions.old sessions.new }
    ensures table { seat.new.table ≡ L.store.table }
    ensures told { HasTold L.store seat.new.knows (length L.store.mounted.applications) }
{
    for index in 0..sessions.len() {
        let pass = seat.split_pass(table, index as u32);
        sessions[index].give_pass(pass);
    }
}
