//! The calls of the gate's seat.

ghost use Rattle.std.specs.Prelude.{◌≡◌, ◌≤◌, ◌+◌, [], ◌∷◌, ◌++◌, length, true, false, Some, None};
ghost use Rattle.store_model.specs.Record.{events_of};
ghost use Rattle.history_seats.specs.Settling.{IsOpenDoubt};
ghost use Rattle.history_seats.specs.Mounts.{Mounted};
ghost use Rattle.history_seats.specs.Numbers.{is_in};
ghost use Rattle.history_seats.specs.Rule.{Agrees};
ghost use Rattle.history_seats.specs.Changes.{TagVersions, record_of, landing_of, IsNextOf, IsFitting, with_record, with_slot_out, new_slot, with_pass_out, new_pass, pass_renewed, doubt_dropped, without_slot, without_pass, view_in, IsOf, seat_renewed, together, beside};
ghost use Rattle.history_seats.specs.Steps.{IsTagIn};

use crate::rule::{Halving, Mending, NewPass, NewSlot, PassName, RecordName, SlotName};
use crate::seats::{GateSeat, HalfSeat, HistoryTable, KeptSeat, PassSeat, SlotSeat};
use crate::steps;
use std::marker::Brand;
use store_model::{Event, History};

/// What `append` gives: the event's place, and both seats, which see it.
#[derive(Drop)]
pub struct Appended {
    /// The place where the event stands.
    pub place: u64,
    /// The slot's seat, where one came.
    pub slot: Option<SlotSeat>,
    /// The session's seat.
    pub pass: PassSeat,
}

/// What `refresh` gives: both seats, which see the whole history.
#[derive(Drop)]
pub struct Refreshed {
    /// The slot's seat, where one came.
    pub slot: Option<SlotSeat>,
    /// The session's seat.
    pub pass: PassSeat,
}

/// The two halves of a session's seat. Only both together append an event of the session.
#[derive(Drop)]
pub struct Halves {
    /// The half of the session's caller.
    pub one: HalfSeat,
    /// The half that is kept elsewhere.
    pub other: KeptSeat,
}

impl GateSeat {
    /// Splits the seat of a file that has none out. The first split tells the mount.
    pub fn split_slot(&mut self, table: &HistoryTable, file: u16, generation: u32) -> SlotSeat
        ghost mounted: { Mounted }
        requires table { self.old.table ≡ table.now }
        requires new { is_in file self.old.knows.files ≡ false }
        ensures gate { self.new ≡ record self.old { knows = with_slot_out mounted file self.old.knows } }
        ensures slot { result ≡ record { table = table.now; knows = new_slot mounted file generation self.old.knows } }
    {
        self.split_slot_as::<Brand>(table, file, generation)
    }

    fn split_slot_as<N: SlotName>(
        &mut self,
        table: &HistoryTable,
        file: u16,
        generation: u32,
    ) -> SlotSeat
        requires name { (N.file ≡ file) × (N.generation ≡ generation) }
        requires table { self.old.table ≡ table.now }
        requires new { is_in file self.old.knows.files ≡ false }
        ensures gate { self.new ≡ record self.old { knows = with_slot_out N.mounted file self.old.knows } }
        ensures slot { result ≡ record { table = table.now; knows = new_slot N.mounted file generation self.old.knows } }
    {
        let seat = table.table.shared.split_seat::<NewSlot<N>>(&mut self.seat);
        SlotSeat {
            seat,
            file,
            generation,
        }
    }

    /// Splits the seat of a session that has none out. The first split tells the mount.
    pub fn split_pass(&mut self, table: &HistoryTable, session: u32) -> PassSeat
        ghost mounted: { Mounted }
        requires table { self.old.table ≡ table.now }
        requires new { is_in session self.old.knows.sessions ≡ false }
        ensures gate { self.new ≡ record self.old { knows = with_pass_out mounted session self.old.knows } }
        ensures pass { result ≡ record { table = table.now; knows = new_pass mounted session self.old.knows } }
    {
        self.split_pass_as::<Brand>(table, session)
    }

    fn split_pass_as<N: PassName>(&mut self, table: &HistoryTable, session: u32) -> PassSeat
        requires name { N.session ≡ session }
        requires table { self.old.table ≡ table.now }
        requires new { is_in session self.old.knows.sessions ≡ false }
        ensures gate { self.new ≡ record self.old { knows = with_pass_out N.mounted session self.old.knows } }
        ensures pass { result ≡ record { table = table.now; knows = new_pass N.mounted session self.old.knows } }
    {
        let seat = table.table.shared.split_seat::<NewPass<N>>(&mut self.seat);
        PassSeat { seat, session }
    }

    /// Appends an event, with the tag that its slot and the caller's values make, and shows it to both seats.
    pub fn append(
        &mut self,
        table: &HistoryTable,
        slot: Option<SlotSeat>,
        pass: PassSeat,
        history: &mut History,
        event: Event,
    ) -> Appended
        ghost versions: { TagVersions }
        requires table { (self.old.table ≡ table.now) × IsOf table.now slot × (pass.table ≡ table.now) }
        requires history { history.old.events ≡ events_of self.old.knows.all }
        requires spare { 1 ≤ history.old.spare }
        requires next { IsNextOf pass.knows event }
        requires fitting { IsFitting self.old.knows (record_of event (view_in slot) versions) }
        ensures place { result.place ≡ length self.old.knows.all }
        ensures gate { self.new ≡ record self.old { knows = with_record (record_of event (view_in slot) versions) self.old.knows } }
        ensures history { history.new.events ≡ history.old.events ++ event ∷ [] }
        ensures spare { history.old.spare ≤ history.new.spare + 1 }

        // Both seats hold the history with the event as its last.
        ensures slot { result.slot ≡ seat_renewed self.new.knows slot }
        ensures pass { result.pass ≡ record pass { knows = pass_renewed self.new.knows pass.knows } }

        // What the seats knew agreed with the gate.
        ensures agreed { Agrees (together self.old.knows (view_in slot) (Some pass.knows)) }
    {
        self.append_as::<Brand>(table, slot, pass, history, event)
    }

    fn append_as<N: RecordName>(
        &mut self,
        table: &HistoryTable,
        slot: Option<SlotSeat>,
        pass: PassSeat,
        history: &mut History,
        event: Event,
    ) -> Appended
        requires table { (self.old.table ≡ table.now) × IsOf table.now slot × (pass.table ≡ table.now) }
        requires history { history.old.events ≡ events_of self.old.knows.all }
        requires spare { 1 ≤ history.old.spare }
        requires next { (N.entry.event ≡ event) × IsNextOf pass.knows event }
        requires tag { IsTagIn (together self.old.knows (view_in slot) (Some pass.knows)) N.entry }
        requires fitting { IsFitting self.old.knows N.entry }
        ensures place { result.place ≡ length self.old.knows.all }
        ensures gate { self.new ≡ record self.old { knows = with_record N.entry self.old.knows } }
        ensures history { history.new.events ≡ history.old.events ++ event ∷ [] }
        ensures spare { history.old.spare ≤ history.new.spare + 1 }
        ensures slot { result.slot ≡ seat_renewed self.new.knows slot }
        ensures pass { result.pass ≡ record pass { knows = pass_renewed self.new.knows pass.knows } }
        ensures agreed { Agrees (together self.old.knows (view_in slot) (Some pass.knows)) }
    {
        let session = pass.session();
        let ids = steps::ids_of(&slot);
        history.push(event);
        steps::take_slot(&mut self.seat, table, slot);
        steps::take_pass(&mut self.seat, table, pass);
        let place = steps::add_record::<N>(&mut self.seat, table);
        let pass = steps::let_pass_out(&mut self.seat, table, session);
        let slot = steps::return_slot(&mut self.seat, table, ids);
        Appended { place, slot, pass }
    }

    /// Appends that the open doubt landed. No other seat sees it yet.
    pub fn append_landed(&mut self, table: &HistoryTable, history: &mut History, commit: u32) -> u64
        requires table { self.old.table ≡ table.now }
        requires history { history.old.events ≡ events_of self.old.knows.all }
        requires spare { 1 ≤ history.old.spare }
        requires doubt { IsOpenDoubt commit self.old.knows.decided self.old.knows.all }
        ensures place { result ≡ length self.old.knows.all }
        ensures gate { self.new ≡ record self.old { knows = with_record (landing_of commit) self.old.knows } }
        ensures history { history.new.events ≡ history.old.events ++ Event.Landed commit ∷ [] }
        ensures spare { history.old.spare ≤ history.new.spare + 1 }
    {
        history.push(Event::Landed { commit });
        steps::add_landing::<Brand>(&mut self.seat, table, commit)
    }

    /// Drops the doubt that is open, if there is one: a commit that is in doubt now never lands.
    pub fn drop_doubt(&mut self, table: &HistoryTable)
        requires { self.old.table ≡ table.now }
        ensures { self.new ≡ record self.old { knows = doubt_dropped self.old.knows } }
    {
        steps::drop_doubts(&mut self.seat, table);
    }

    /// Shows both seats the history as it stands, before any work on it begins.
    pub fn refresh(
        &mut self,
        table: &HistoryTable,
        slot: Option<SlotSeat>,
        pass: PassSeat,
    ) -> Refreshed
        requires { (self.old.table ≡ table.now) × IsOf table.now slot × (pass.table ≡ table.now) }
        ensures gate { self.new ≡ self.old }
        ensures slot { result.slot ≡ seat_renewed self.old.knows slot }
        ensures pass { result.pass ≡ record pass { knows = pass_renewed self.old.knows pass.knows } }
        ensures agreed { Agrees (together self.old.knows (view_in slot) (Some pass.knows)) }
    {
        let session = pass.session();
        let ids = steps::ids_of(&slot);
        steps::take_slot(&mut self.seat, table, slot);
        steps::take_pass(&mut self.seat, table, pass);
        steps::look(&mut self.seat, table);
        let pass = steps::let_pass_out(&mut self.seat, table, session);
        Refreshed {
            slot: steps::return_slot(&mut self.seat, table, ids),
            pass,
        }
    }

    /// Takes a slot's seat in for good. Its file may have another one then.
    pub fn retire(&mut self, table: &HistoryTable, slot: SlotSeat)
        requires { (self.old.table ≡ table.now) × (slot.table ≡ table.now) }
        ensures gate { self.new ≡ record self.old { knows = without_slot slot.knows self.old.knows } }
        ensures gone { is_in slot.knows.file self.new.knows.files ≡ false }
        ensures agreed { Agrees (together self.old.knows (Some slot.knows) None) }
    {
        steps::take_slot(&mut self.seat, table, Some(slot));
        steps::keep_joined(&mut self.seat, table);
    }

    /// Takes a session's seat in for good. The session may have another one then.
    pub fn retire_pass(&mut self, table: &HistoryTable, pass: PassSeat)
        requires { (self.old.table ≡ table.now) × (pass.table ≡ table.now) }
        ensures gate { self.new ≡ record self.old { knows = without_pass pass.knows self.old.knows } }
        ensures gone { is_in pass.knows.session self.new.knows.sessions ≡ false }
        ensures agreed { Agrees (together self.old.knows None (Some pass.knows)) }
    {
        steps::take_pass(&mut self.seat, table, pass);
        steps::keep_joined(&mut self.seat, table);
    }

    /// Cuts a session's seat in two halves. Each sees what the seat saw.
    pub fn halve(&mut self, table: &HistoryTable, pass: PassSeat) -> Halves
        requires { (self.old.table ≡ table.now) × (pass.table ≡ table.now) }
        ensures gate { self.new ≡ self.old }
        ensures one { result.one ≡ pass }
        ensures other { result.other ≡ pass }
    {
        let PassSeat { seat, session } = pass;
        let mut seat = seat;
        let other = table.table.shared.split_seat::<Halving>(&mut seat);
        Halves {
            one: HalfSeat { seat, session },
            other: KeptSeat {
                seat: other,
                session,
            },
        }
    }

    /// Joins the two halves of a session's seat. It sees what the caller's half saw.
    pub fn whole(&mut self, table: &HistoryTable, one: HalfSeat, other: KeptSeat) -> PassSeat
        requires table { (self.old.table ≡ table.now) × (one.table ≡ table.now) × (other.table ≡ table.now) }
        requires session { other.knows.session ≡ one.knows.session }
        ensures gate { self.new ≡ self.old }
        ensures pass { result ≡ one }
    {
        let HalfSeat { seat, session } = one;
        let KeptSeat {
            seat: other,
            session: _,
        } = other;
        let mut seat = seat;
        table.table.shared.join_seat::<Mending>(&mut seat, other);
        PassSeat { seat, session }
    }

    /// Shows a kept half the history as it stands: past what it saw, the session has no event.
    pub fn show_kept(&mut self, table: &HistoryTable, kept: KeptSeat) -> KeptSeat
        requires { (self.old.table ≡ table.now) × (kept.table ≡ table.now) }
        ensures gate { self.new ≡ self.old }
        ensures kept { result ≡ record kept { knows = pass_renewed self.old.knows kept.knows } }
        ensures agreed { Agrees (beside self.old.knows kept.knows) }
    {
        let session = kept.session();
        steps::take_kept(&mut self.seat, table, kept);
        steps::look(&mut self.seat, table);
        steps::let_kept_out(&mut self.seat, table, session)
    }

    /// Ends the table, and tells the length of the history.
    pub fn close(self, table: HistoryTable) -> u64
        requires { self.table ≡ table }
        ensures { result ≡ length self.knows.all }
    {
        let HistoryTable { table } = table;
        let GateSeat { seat } = self;
        let closed = table.close_with(seat);
        let length = closed.word(0);
        closed.free();
        length
    }
}
