//! What the gate does for the slots of objects' files: their seats, and which file a new object takes.

ghost use Rattle.std.specs.Prelude.{◌≡◌, ◌<◌, length, slice_set, None, Some};
ghost use Rattle.history_seats.specs.Changes.{new_slot, with_slot_out, without_slot};
ghost use Rattle.history_seats.specs.Rule.{Agrees};
ghost use Rattle.history_seats.specs.Changes.{together};
ghost use Rattle.store_commit.specs.Gates.{file_in_doubt};
ghost use Rattle.store_commit.specs.Holds.{AreApart, IsLeastFreeFile, file_held};
ghost use Rattle.commit_gate.specs.Outcomes.{outcome_at};

use crate::Settled;
use crate::guarded_gate::GuardedGate;
use core_laws::StoreName;
use history_seats::SlotSeat;
use rpmb_card::RpmbPort;
use tee_ports::StoreFile;

impl<F: StoreFile + Drop, R: RpmbPort + Drop, L: StoreName> GuardedGate<F, R, L> {
    /// What became of the commit in doubt whose event stands at that place.
    pub fn settled_behind(&self, place: u64) -> Settled
        requires { place < length self.now.journal.knows.all }
        ensures { result ≡ outcome_at self.now.journal.knows place }
    {
        self.journal.settled_behind(place)
    }

    /// Takes the seat of a file in for good, and splits one of that generation of the same file. It sees the whole history.
    pub fn reseat(&mut self, slot: SlotSeat, generation: u32) -> SlotSeat
        requires { slot.table ≡ L.store.table }
        ensures knows { self.new.journal.knows
            ≡ with_slot_out L.store.mounted slot.knows.file (without_slot slot.knows self.old.journal.knows) }
        ensures gate { self.new ≡ record self.old { journal = record self.old.journal { knows = self.new.journal.knows } } }
        ensures seat { result ≡ record {
          table = L.store.table;
          knows = new_slot L.store.mounted slot.knows.file generation (without_slot slot.knows self.old.journal.knows);
        } }
        // What the seat knew agreed with the journal.
        ensures agreed { Agrees (together self.old.journal.knows (Some slot.knows) None) }
    {
        let file = slot.file();
        self.journal.retire(slot);
        self.journal.split_slot(file, generation)
    }

    /// Reserves the least file that no entry names and no session holds, for a session that holds none.
    pub fn reserve_file(&mut self, session: u32) -> u16
        requires idle { (session < 16) × (file_held self.old.gate.holds session ≡ None) }
        ensures free { IsLeastFreeFile self.old.gate.dir.dir.entries self.old.gate.holds result }
        ensures held { file_held self.new.gate.holds session ≡ Some result }
        ensures undoubted { AreApart (Some result) (file_in_doubt self.old.gate.doubt) }
        ensures same { self.new ≡ record self.old { gate = record self.old.gate { holds = slice_set self.old.gate.holds session (Some result) } } }
    {
        self.gate.reserve_file(session)
    }

    /// Ends a session's hold, if it has one. The hold on the file that a commit in doubt puts ends by `resolve` alone.
    pub fn release_file(&mut self, session: u32)
        requires session { session < 16 }
        requires undoubted { AreApart (file_held self.old.gate.holds session) (file_in_doubt self.old.gate.doubt) }
        ensures { self.new ≡ record self.old { gate = record self.old.gate { holds = slice_set self.old.gate.holds session None } } }
    {
        self.gate.release_file(session);
    }

    /// The card's counter, without the commit in doubt where one is.
    pub fn counter(&self) -> u32
        ensures { result ≡ self.now.gate.counter }
    {
        self.gate.counter()
    }
}
