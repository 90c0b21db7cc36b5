//! Single steps of the gate's seat. A slot's seat and a pass may be joined to it, so it is the table's own seat here.

ghost use Rattle.std.specs.Prelude.{◌≡◌, ◌<◌, ◌≤◌, ℕ, [], ◌∷◌, ◌++◌, ◌+◌, ◌^◌, length, Some, None};
ghost use Rattle.history_seats.specs.Settling.{IsOpenDoubt};
ghost use Rattle.history_seats.specs.Views.{SlotView, PassView, gate_of};
ghost use Rattle.history_seats.specs.Views.SeatView.{Gate};
ghost use Rattle.history_seats.specs.Rule.{Agrees};
ghost use Rattle.history_seats.specs.Changes.{landing_of, IsFitting, view_in, IsOf};
ghost use Rattle.history_seats.specs.Steps.{appended, landing_appended, doubts_dropped, retired, renewed, IsTagIn, IsEventIn, ids_in};

use crate::rule::{
    Appends, Drops, KeptInside, Lands, Looks, PassInside, RecordName, Retires, SlotInside, View,
};
use crate::seats::{HistoryTable, KeptSeat, PassSeat, SlotSeat};
use atomic_table::Seat;

/// The file and the generation of a slot's seat that may be there.
pub(crate) fn ids_of(slot: &Option<SlotSeat>) -> Option<(u16, u32)>
    ensures { result ≡ ids_in (view_in slot.now) }
{
    match slot {
        Some(slot) => Some((slot.file(), slot.generation())),
        None => None,
    }
}

/// Joins a slot's seat, where none is joined.
pub(crate) fn take_slot(seat: &mut Seat<(), View>, table: &HistoryTable, slot: Option<SlotSeat>)
    requires table { (seat.old.table_id ≡ table.now) × IsOf table.now slot }
    requires gate { seat.old.me ≡ (Gate (gate_of seat.old.me.0), []) }
    requires free { (gate_of seat.old.me.0).slot ≡ None }
    ensures { (seat.new.table_id ≡ seat.old.table_id) × (seat.new.me ≡ (Gate (record (gate_of seat.old.me.0) { slot = view_in slot }), [])) }
{
    match slot {
        Some(slot) => {
            let SlotSeat {
                seat: other,
                file: _,
                generation: _,
            } = slot;
            table.table.shared.join_seat::<SlotInside>(seat, other);
        }
        None => {}
    }
}

/// Joins a pass, where none is joined.
pub(crate) fn take_pass(seat: &mut Seat<(), View>, table: &HistoryTable, pass: PassSeat)
    requires table { (seat.old.table_id ≡ table.now) × (pass.table ≡ table.now) }
    requires gate { seat.old.me ≡ (Gate (gate_of seat.old.me.0), []) }
    requires free { (gate_of seat.old.me.0).pass ≡ None }
    ensures { (seat.new.table_id ≡ seat.old.table_id) × (seat.new.me ≡ (Gate (record (gate_of seat.old.me.0) { pass = Some pass.knows }), [])) }
{
    let PassSeat {
        seat: other,
        session: _,
    } = pass;
    table.table.shared.join_seat::<PassInside>(seat, other);
}

/// Splits the joined slot's seat off again.
pub(crate) fn let_slot_out(
    seat: &mut Seat<(), View>,
    table: &HistoryTable,
    file: u16,
    generation: u32,
) -> SlotSeat
    requires table { seat.old.table_id ≡ table.now }
    requires gate { seat.old.me ≡ (Gate (gate_of seat.old.me.0), []) }
    requires slot { (s : SlotView) × ((gate_of seat.old.me.0).slot ≡ Some s) × (s.file ≡ file) × (s.generation ≡ generation) }
    ensures seat { (seat.new.table_id ≡ seat.old.table_id) × (seat.new.me ≡ (Gate (record (gate_of seat.old.me.0) { slot = None }), [])) }
    ensures slot { (result.table ≡ table.now) × ((gate_of seat.old.me.0).slot ≡ Some result.knows) }
{
    let seat = table.table.shared.split_seat::<SlotInside>(seat);
    SlotSeat {
        seat,
        file,
        generation,
    }
}

/// The same, where one may be joined.
pub(crate) fn return_slot(
    seat: &mut Seat<(), View>,
    table: &HistoryTable,
    ids: Option<(u16, u32)>,
) -> Option<SlotSeat>
    requires table { seat.old.table_id ≡ table.now }
    requires gate { seat.old.me ≡ (Gate (gate_of seat.old.me.0), []) }
    requires ids { ids ≡ ids_in (gate_of seat.old.me.0).slot }
    ensures seat { (seat.new.table_id ≡ seat.old.table_id) × (seat.new.me ≡ (Gate (record (gate_of seat.old.me.0) { slot = None }), [])) }
    ensures slot { IsOf table.now result × ((gate_of seat.old.me.0).slot ≡ view_in result) }
{
    match ids {
        Some((file, generation)) => Some(let_slot_out(seat, table, file, generation)),
        None => None,
    }
}

/// Splits the joined pass off again.
pub(crate) fn let_pass_out(
    seat: &mut Seat<(), View>,
    table: &HistoryTable,
    session: u32,
) -> PassSeat
    requires table { seat.old.table_id ≡ table.now }
    requires gate { seat.old.me ≡ (Gate (gate_of seat.old.me.0), []) }
    requires pass { (p : PassView) × ((gate_of seat.old.me.0).pass ≡ Some p) × (p.session ≡ session) }
    ensures seat { (seat.new.table_id ≡ seat.old.table_id) × (seat.new.me ≡ (Gate (record (gate_of seat.old.me.0) { pass = None }), [])) }
    ensures pass { (result.table ≡ table.now) × ((gate_of seat.old.me.0).pass ≡ Some result.knows) }
{
    let seat = table.table.shared.split_seat::<PassInside>(seat);
    PassSeat { seat, session }
}

/// Joins a kept half, where none is joined.
pub(crate) fn take_kept(seat: &mut Seat<(), View>, table: &HistoryTable, kept: KeptSeat)
    requires table { (seat.old.table_id ≡ table.now) × (kept.table ≡ table.now) }
    requires gate { seat.old.me ≡ (Gate (gate_of seat.old.me.0), []) }
    requires free { (gate_of seat.old.me.0).kept ≡ None }
    ensures { (seat.new.table_id ≡ seat.old.table_id) × (seat.new.me ≡ (Gate (record (gate_of seat.old.me.0) { kept = Some kept.knows }), [])) }
{
    let KeptSeat {
        seat: other,
        session: _,
    } = kept;
    table.table.shared.join_seat::<KeptInside>(seat, other);
}

/// Splits the joined kept half off again.
pub(crate) fn let_kept_out(
    seat: &mut Seat<(), View>,
    table: &HistoryTable,
    session: u32,
) -> KeptSeat
    requires table { seat.old.table_id ≡ table.now }
    requires gate { seat.old.me ≡ (Gate (gate_of seat.old.me.0), []) }
    requires kept { (p : PassView) × ((gate_of seat.old.me.0).kept ≡ Some p) × (p.session ≡ session) }
    ensures seat { (seat.new.table_id ≡ seat.old.table_id) × (seat.new.me ≡ (Gate (record (gate_of seat.old.me.0) { kept = None }), [])) }
    ensures kept { (result.table ≡ table.now) × ((gate_of seat.old.me.0).kept ≡ Some result.knows) }
{
    let seat = table.table.shared.split_seat::<KeptInside>(seat);
    KeptSeat { seat, session }
}

/// Counts one more record, which `N` names.
pub(crate) fn add_record<N: RecordName>(seat: &mut Seat<(), View>, table: &HistoryTable) -> u64
    requires table { seat.old.table_id ≡ table.now }
    requires gate { seat.old.me ≡ (Gate (gate_of seat.old.me.0), []) }
    requires room { length (gate_of seat.old.me.0).gate.all + 1 < 2 ^ 64 }
    requires whole { (gate_of seat.old.me.0).kept ≡ None }
    requires tag { IsTagIn (gate_of seat.old.me.0) N.entry }
    requires event { IsEventIn (gate_of seat.old.me.0) N.entry }
    requires fitting { IsFitting (gate_of seat.old.me.0).gate N.entry }
    ensures seat { (seat.new.table_id ≡ seat.old.table_id) × (seat.new.me ≡ (Gate (appended N.entry (gate_of seat.old.me.0)), [])) }
    ensures place { result ≡ length (gate_of seat.old.me.0).gate.all }
    ensures agrees { Agrees (gate_of seat.old.me.0) }
{
    table.table.shared.fetch_add::<Appends<N>>(seat, 0, 1)
}

/// Counts the landing of that commit, which `N` names.
pub(crate) fn add_landing<N: RecordName>(
    seat: &mut Seat<(), View>,
    table: &HistoryTable,
    commit: u32,
) -> u64
    requires name { N.entry ≡ landing_of commit }
    requires table { seat.old.table_id ≡ table.now }
    requires gate { seat.old.me ≡ (Gate (gate_of seat.old.me.0), []) }
    requires alone { ((gate_of seat.old.me.0).slot ≡ None) × ((gate_of seat.old.me.0).pass ≡ None) × ((gate_of seat.old.me.0).kept ≡ None) }
    requires room { length (gate_of seat.old.me.0).gate.all + 1 < 2 ^ 64 }
    requires doubt { IsOpenDoubt commit (gate_of seat.old.me.0).gate.decided (gate_of seat.old.me.0).gate.all }
    ensures seat { (seat.new.table_id ≡ seat.old.table_id) × (seat.new.me ≡ (Gate (landing_appended (landing_of commit) (gate_of seat.old.me.0)), [])) }
    ensures place { result ≡ length (gate_of seat.old.me.0).gate.all }
    ensures agrees { Agrees (gate_of seat.old.me.0) }
{
    let _ = commit;
    table.table.shared.fetch_add::<Lands<N>>(seat, 0, 1)
}

/// Raises the place below which each doubt is decided to the length of the history.
pub(crate) fn drop_doubts(seat: &mut Seat<(), View>, table: &HistoryTable)
    requires table { seat.old.table_id ≡ table.now }
    requires gate { seat.old.me ≡ (Gate (gate_of seat.old.me.0), []) }
    requires alone { ((gate_of seat.old.me.0).slot ≡ None) × ((gate_of seat.old.me.0).pass ≡ None) × ((gate_of seat.old.me.0).kept ≡ None) }
    ensures seat { (seat.new.table_id ≡ seat.old.table_id) × (seat.new.me ≡ (Gate (doubts_dropped (gate_of seat.old.me.0)), [])) }
    ensures agrees { Agrees (gate_of seat.old.me.0) }
{
    table.table.shared.load::<Drops>(seat, 0);
}

/// Keeps what is joined for good.
pub(crate) fn keep_joined(seat: &mut Seat<(), View>, table: &HistoryTable)
    requires table { seat.old.table_id ≡ table.now }
    requires gate { seat.old.me ≡ (Gate (gate_of seat.old.me.0), []) }
    requires whole { (gate_of seat.old.me.0).kept ≡ None }
    ensures seat { (seat.new.table_id ≡ seat.old.table_id) × (seat.new.me ≡ (Gate (retired (gate_of seat.old.me.0)), [])) }
    ensures agrees { Agrees (gate_of seat.old.me.0) }
{
    table.table.shared.load::<Retires>(seat, 0);
}

/// Shows what is joined the whole history.
pub(crate) fn look(seat: &mut Seat<(), View>, table: &HistoryTable)
    requires table { seat.old.table_id ≡ table.now }
    requires gate { seat.old.me ≡ (Gate (gate_of seat.old.me.0), []) }
    ensures seat { (seat.new.table_id ≡ seat.old.table_id) × (seat.new.me ≡ (Gate (renewed (gate_of seat.old.me.0)), [])) }
    ensures agrees { Agrees (gate_of seat.old.me.0) }
{
    table.table.shared.load::<Looks>(seat, 0);
}
