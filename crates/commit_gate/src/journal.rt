//! The journal: the history of a phase, behind the gate's lock.

ghost use Rattle.std.specs.Prelude.{◌≡◌, ◌==◌, ◌≤◌, ◌<◌, ◌+◌, length, false, None, Some, OnOk};
ghost use Rattle.store_model.specs.Record.{events_of};
ghost use Rattle.history_seats.specs.Settling.{IsOpenDoubt};
ghost use Rattle.history_seats.specs.Numbers.{is_in};
ghost use Rattle.history_seats.specs.Rule.{Agrees};
ghost use Rattle.history_seats.specs.Changes.{IsFitting, IsNextOf, IsOf, beside, doubt_dropped, landing_of, new_slot, pass_renewed, record_of, seat_renewed, together, view_in, with_record, with_slot_out, without_pass, without_slot};
ghost use Rattle.core_laws.specs.TamperScenarios.{TamperScenario};
ghost use Rattle.core_laws.specs.Answered.{IsFairAt};
ghost use Rattle.commit_gate.specs.Journals.{IsDoubtOf, IsJournal, IsJournalOf};
ghost use Rattle.commit_gate.specs.Outcomes.{outcome_at};

use crate::doubt_outcome::{Settled, first_landing, settled_by};
use crate::versions_name::VersionsName;
use core_laws::StoreName;
use history_seats::{
    Appended, GateSeat, HalfSeat, Halves, HistoryTable, KeptSeat, PassSeat, Refreshed, SlotSeat,
};
use std::marker::{Model, PhantomData};
use store_model::{Event, EventRoom, History};
use tee_types::NoMemory;

/// The history of the store that `L` names, with the gate's seat, which knows all of it.
///
/// It is fair at all times, and the map of objects is in step with it, under each tamper scenario.
#[derive(Drop)]
pub struct Journal<L: StoreName> {
    table: HistoryTable,
    seat: GateSeat,
    history: History,
    // The place below which each doubt is decided.
    decided: u64,
    of: PhantomData<L>,
}

impl<L: StoreName> Model for Journal<L> {
    ghost use Rattle.commit_gate.specs.Journals.{IsJournalOf, JournalValue};

    ghost Value = { JournalValue };

    ghost view = { λ j. record { knows = j.seat.knows; spare = j.history.spare } };

    ghost invariant = { λ j. IsJournalOf L.store j.table j.seat j.history.events j.decided };
}

impl<L: StoreName> Journal<L> {
    /// The journal of these parts.
    pub fn new(table: HistoryTable, seat: GateSeat, history: History) -> Journal<L>
        requires { IsJournalOf L.store table seat history.events 0 }
        ensures { result ≡ record { knows = seat.knows; spare = history.spare } }
    {
        Journal {
            table,
            seat,
            history,
            decided: 0,
            of: PhantomData,
        }
    }

    /// Makes room for n more events, and keeps the room that was there. It takes the memory first that is given for one.
    pub fn reserve(&mut self, n: usize, given: Option<EventRoom>) -> Result<(), NoMemory>
        ensures knows { self.new.knows ≡ self.old.knows }
        ensures room { OnOk result (n ≤ self.new.spare) }
        ensures spare { self.old.spare ≤ self.new.spare }
    {
        self.history.reserve(n, given)
    }

    /// How many events there are. The next one has this place.
    pub fn len(&self) -> u64
        ensures { result ≡ length self.now.knows.all }
    {
        self.history.len()
    }

    /// Whether there is none.
    pub fn is_empty(&self) -> bool
        ensures { result ≡ (length self.now.knows.all == 0) }
    {
        self.len() == 0
    }

    /// Shows both seats the whole history.
    pub fn refresh(&mut self, slot: Option<SlotSeat>, pass: PassSeat) -> Refreshed
        requires { IsOf L.store.table slot × (pass.table ≡ L.store.table) }
        ensures journal { self.new ≡ self.old }
        ensures slot { result.slot ≡ seat_renewed self.old.knows slot }
        ensures pass { result.pass ≡ record pass { knows = pass_renewed self.old.knows pass.knows } }
        ensures agreed { Agrees (together self.old.knows (view_in slot) (Some pass.knows)) }
        ensures kept { IsJournal L.store self.new.knows }
    {
        self.seat.refresh(&self.table, slot, pass)
    }

    /// Splits the seat of a file that has none out.
    pub fn split_slot(&mut self, file: u16, generation: u32) -> SlotSeat
        requires { is_in file self.old.knows.files ≡ false }
        ensures journal { self.new ≡ record self.old { knows = with_slot_out L.store.mounted file self.old.knows } }
        ensures slot { result ≡ record { table = L.store.table; knows = new_slot L.store.mounted file generation self.old.knows } }
        ensures kept { IsJournal L.store self.new.knows }
    {
        self.seat.split_slot(&self.table, file, generation)
    }

    /// Takes a slot's seat in for good. Its file may have another one then.
    pub fn retire(&mut self, slot: SlotSeat)
        requires { slot.table ≡ L.store.table }
        ensures journal { self.new ≡ record self.old { knows = without_slot slot.knows self.old.knows } }
        ensures gone { is_in slot.knows.file self.new.knows.files ≡ false }
        ensures agreed { Agrees (together self.old.knows (Some slot.knows) None) }
        ensures kept { IsJournal L.store self.new.knows }
    {
        self.seat.retire(&self.table, slot);
    }

    /// Takes a session's seat in for good. The session may have another one then.
    pub fn retire_pass(&mut self, pass: PassSeat)
        requires { pass.table ≡ L.store.table }
        ensures journal { self.new ≡ record self.old { knows = without_pass pass.knows self.old.knows } }
        ensures gone { is_in pass.knows.session self.new.knows.sessions ≡ false }
        ensures agreed { Agrees (together self.old.knows None (Some pass.knows)) }
        ensures kept { IsJournal L.store self.new.knows }
    {
        self.seat.retire_pass(&self.table, pass);
    }

    /// Cuts a session's seat in two halves. Each sees what the seat saw.
    pub fn halve(&mut self, pass: PassSeat) -> Halves
        requires { pass.table ≡ L.store.table }
        ensures journal { self.new ≡ self.old }
        ensures one { result.one ≡ pass }
        ensures other { result.other ≡ pass }
        ensures kept { IsJournal L.store self.new.knows }
    {
        self.seat.halve(&self.table, pass)
    }

    /// Joins the two halves of a session's seat. It sees what the caller's half saw.
    pub fn whole(&mut self, one: HalfSeat, other: KeptSeat) -> PassSeat
        requires table { (one.table ≡ L.store.table) × (other.table ≡ L.store.table) }
        requires session { other.knows.session ≡ one.knows.session }
        ensures journal { self.new ≡ self.old }
        ensures pass { result ≡ one }
        ensures kept { IsJournal L.store self.new.knows }
    {
        self.seat.whole(&self.table, one, other)
    }

    /// Shows a kept half the whole history: past what it saw, its session has no event.
    pub fn show_kept(&mut self, half: KeptSeat) -> KeptSeat
        requires { half.table ≡ L.store.table }
        ensures journal { self.new ≡ self.old }
        ensures half { result ≡ record half { knows = pass_renewed self.old.knows half.knows } }
        ensures agreed { Agrees (beside self.old.knows half.knows) }
        ensures kept { IsJournal L.store self.new.knows }
    {
        self.seat.show_kept(&self.table, half)
    }

    /// Appends an event, into the room that is there. Its tag has the file and the generation of the slot that comes with it, and the
    /// versions that `N` names.
    pub fn append<N: VersionsName>(
        &mut self,
        slot: Option<SlotSeat>,
        pass: PassSeat,
        event: Event,
    ) -> Appended
        requires room { 1 ≤ self.old.spare }
        requires table { IsOf L.store.table slot × (pass.table ≡ L.store.table) }
        requires next { IsNextOf pass.knows event }
        requires fitting { IsFitting self.old.knows (record_of event (view_in slot) N.versions) }
        requires fair { (scenario : TamperScenario) → IsFairAt L.store scenario self.old.knows.all (record_of event (view_in slot) N.versions) }
        ensures place { result.place ≡ length self.old.knows.all }
        ensures knows { self.new.knows ≡ with_record (record_of event (view_in slot) N.versions) self.old.knows }
        ensures spare { self.old.spare ≤ self.new.spare + 1 }
        // Both seats hold the history with the event as its last.
        ensures slot { result.slot ≡ seat_renewed self.new.knows slot }
        ensures pass { result.pass ≡ record pass { knows = pass_renewed self.new.knows pass.knows } }
        // What the seats knew agreed with the journal.
        ensures agreed { Agrees (together self.old.knows (view_in slot) (Some pass.knows)) }
        ensures kept { IsJournal L.store self.new.knows }
    {
        self.seat
            .append(&self.table, slot, pass, &mut self.history, event)
    }

    /// Appends that the open doubt landed, and tells the place. No other seat sees it yet.
    pub fn append_landed(&mut self, commit: u32) -> u64
        requires room { 1 ≤ self.old.spare }
        requires open { IsOpenDoubt commit self.old.knows.decided self.old.knows.all }
        requires held { IsDoubtOf L.store self.old.knows commit }
        ensures place { result ≡ length self.old.knows.all }
        ensures knows { self.new.knows ≡ with_record (landing_of commit) self.old.knows }
        ensures spare { self.old.spare ≤ self.new.spare + 1 }
        ensures kept { IsJournal L.store self.new.knows }
    {
        self.seat
            .append_landed(&self.table, &mut self.history, commit)
    }

    /// Drops the doubt that is open, if there is one: a commit that is in doubt now never lands.
    pub fn drop_doubt(&mut self)
        ensures journal { self.new ≡ record self.old { knows = doubt_dropped self.old.knows } }
        ensures kept { IsJournal L.store self.new.knows }
    {
        self.decided = self.history.len();
        self.seat.drop_doubt(&self.table);
    }

    /// What became of the commit in doubt whose event stands at that place.
    pub fn settled_behind(&self, place: u64) -> Settled
        requires { place < length self.now.knows.all }
        ensures { result ≡ outcome_at self.now.knows place }
    {
        settled_by(first_landing(&self.history, place), place < self.decided)
    }

    /// The history, once no seat is out any more.
    pub fn close(self) -> History
        ensures events { result.events ≡ events_of self.knows.all }
        ensures kept { IsJournal L.store self.knows }
    {
        let Journal {
            table,
            seat,
            history,
            decided: _,
            of: _,
        } = self;
        let _length = seat.close(table);
        history
    }
}
