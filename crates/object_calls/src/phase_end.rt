//! The end of a phase.

ghost use Rattle.std.specs.Prelude.{◌≡◌, ◌+◌, ◌≤◌, ◌<◌, ℕ, All, IsSome, false, true, vec_len};
ghost use Rattle.std.specs.Option.{option_map};
ghost use Rattle.std.specs.Vec.{vec_capacity};
ghost use Rattle.tee_types.specs.Limits.{directory_file, file_count, last_file, old_directory_file};
ghost use Rattle.store_model.specs.Record.{events_of};
ghost use Rattle.history_seats.specs.Numbers.{is_in, without};
ghost use Rattle.history_seats.specs.Tags.{AreTagged};
ghost use Rattle.object_calls.specs.OpeningFiles.{files_of};
ghost use Rattle.object_calls.specs.FinishedPhase.{GivesBack, HaveCounted, LeavesStore};
ghost use Rattle.object_calls.specs.SlotPlaces.{AreFree, place_state};
ghost use Rattle.object_calls.specs.Retiring.{AreObjectSlots, ArePlaced, AreRecorded, IsPlaced, IsRetired};
ghost use Rattle.object_calls.specs.Services.{HasSoundOpening};
ghost use Rattle.object_calls.specs.OpeningSessions.{AreCallers};
ghost use Rattle.serial_calls.specs.Slots.{AreOfObjectFiles};

use crate::bench::{Bench, put_together};
use crate::file_places::{put_file, taken_files};
use crate::service::Service;
use core_laws::StoreName;
use rpmb_card::RpmbPort;
use serial_calls::{GuardedGate, GuardedSlot, Journal, Session, SlotParts, retire_session};
use store_model::History;
use tee_ports::{Entropy, StoreFile};

/// What a phase leaves: its devices, its history, and the number of the commit that is in doubt, if one is.
#[derive(Drop)]
pub struct Closed<F, R> {
    /// The bench.
    pub bench: Bench<F, R>,
    /// The events of all sessions, in their one order.
    pub history: History,
    /// The commit in doubt.
    pub doubt: Option<u32>,
}

// Takes the seats of all sessions in for good.
fn retire_sessions<E: Entropy + Drop, L: StoreName>(
    journal: &mut Journal<L>,
    sessions: Vec<Session<E>>,
)
    requires { AreCallers L.store sessions.items }
    ensures journal { journal.new ≡ record journal.old { knows = record journal.old.knows { sessions = journal.new.knows.sessions } } }
    ensures counted { HaveCounted journal.old.knows sessions.items }
{
    let mut sessions = sessions;
    while let Some(session) = sessions.pop() {
        retire_session(journal, session);
    }
}

// Takes the seat of a slot in for good, and gives its file.
fn retire_slot<F: StoreFile + Drop, L: StoreName>(
    journal: &mut Journal<L>,
    slot: GuardedSlot<F, L>,
) -> F
    ensures journal { journal.new ≡ record journal.old { knows = record journal.old.knows { files = without slot.number journal.old.knows.files } } }
    ensures retired { IsRetired L.store journal.old.knows slot }
    ensures file { F.state result ≡ slot.file }
    // The file had a seat out, and has none any more.
    ensures out { is_in slot.number journal.old.knows.files ≡ true }
    ensures gone { is_in slot.number journal.new.knows.files ≡ false }
    ensures recorded { AreRecorded journal.old.knows }
{
    let SlotParts { file, seat } = slot.into_slot().into_parts();
    journal.retire(seat);
    file
}

// Takes the seats of all slots in for good, and puts their files to their places.
fn retire_slots<F: StoreFile + Drop, L: StoreName>(
    journal: &mut Journal<L>,
    slots: Vec<GuardedSlot<F, L>>,
    places: Vec<Option<F>>,
) -> Vec<Option<F>>
    requires many { vec_len slots ≡ last_file }
    requires objects { AreObjectSlots slots.items }
    requires free { AreFree places.items }
    ensures journal { journal.new ≡ record journal.old { knows = record journal.old.knows { files = journal.new.knows.files } } }
    ensures many { vec_len result ≡ last_file }
    ensures full { All (λ place. IsSome place) result.items }
    ensures placed { ArePlaced L.store journal.old.knows slots.items (place_state F.state) last_file result.items }
    ensures recorded { AreRecorded journal.old.knows }
{
    let mut left = slots;
    let mut places = places;
    while let Some(slot) = left.pop() {
        let number = slot.number();
        let file = retire_slot(journal, slot);
        put_file(&mut places, number, file);
    }
    places
}

/// Ends the phase of a store: takes all seats in, and gives back the bench and the history. The slots may come in any order: each file
/// goes to the place of its number, and `spare` is that of an old directory. No device is called, and no memory is taken.
pub fn close_slots<F: StoreFile + Drop, R: RpmbPort + Drop, E: Entropy + Drop, L: StoreName>(
    gate: GuardedGate<F, R, L>,
    slots: Vec<GuardedSlot<F, L>>,
    places: Vec<Option<F>>,
    room: Vec<F>,
    spare: F,
    sessions: Vec<Session<E>>,
) -> Closed<F, R>
    requires many { vec_len slots ≡ last_file }
    requires objects { AreObjectSlots slots.items }
    requires free { AreFree places.items }
    requires empty { vec_len room ≡ 0 }
    requires room { file_count ≤ vec_capacity room }
    requires tagged { AreOfObjectFiles gate.journal.knows.all }
    requires opens { HasSoundOpening L.store }
    requires sessions { AreCallers L.store sessions.items }
    ensures events { result.history.events ≡ events_of gate.journal.knows.all }
    ensures counted { HaveCounted gate.journal.knows sessions.items }
    ensures doubt { result.doubt ≡ option_map (λ d. d.number) gate.gate.doubt }
    ensures whole { vec_len result.bench.files ≡ file_count }
    ensures dir { files_of F.state result.bench.files.items directory_file ≡ F.state gate.gate.dir.file }
    ensures spare { files_of F.state result.bench.files.items old_directory_file ≡ F.state spare }
    ensures card { result.bench.card ≡ gate.gate.host.port }
    // Each file of an object is as the slot of its number left it.
    ensures placed { (i : ℕ) → i < last_file
        → IsPlaced L.store gate.journal.knows slots.items (i + 1) (files_of F.state result.bench.files.items (i + 1)) }
    // Faults and commits have their tags.
    ensures tagged { AreTagged gate.journal.knows.all }
    ensures leaves { LeavesStore L.store gate.journal.knows (files_of F.state result.bench.files.items) (R.state result.bench.card) result.doubt }
{
    let (gate, mut journal) = gate.into_parts();
    retire_sessions(&mut journal, sessions);
    let places = retire_slots(&mut journal, slots, places);
    let files = taken_files(places, room);
    gate.reveal_invariant();
    let doubt = gate.doubt();
    let (dir, card) = gate.close();
    let files = put_together(spare, files, dir);
    Closed {
        bench: Bench { files, card },
        history: journal.close(),
        doubt,
    }
}

impl<F: StoreFile + Drop, R: RpmbPort + Drop, L: StoreName> Service<F, R, L> {
    /// Ends the phase: takes all seats in, and gives back the bench and the history. No device is called, and no memory is taken.
    pub fn finish<E: Entropy + Drop>(self, sessions: Vec<Session<E>>) -> Closed<F, R>
        requires { AreCallers L.store sessions.items }
        ensures events { result.history.events ≡ events_of self.gate.journal.knows.all }
        ensures counted { HaveCounted self.gate.journal.knows sessions.items }
        ensures doubt { result.doubt ≡ option_map (λ d. d.number) self.gate.gate.doubt }
        ensures whole { vec_len result.bench.files ≡ file_count }
        // Its devices are those of the service, with what they counted.
        ensures gives { GivesBack F.state self result.bench.files.items result.bench.card }
        ensures leaves { LeavesStore L.store self.gate.journal.knows (files_of F.state result.bench.files.items) (R.state result.bench.card) result.doubt }
    {
        let Service {
            gate,
            slots,
            storage_key: _,
            places,
            room,
            spare,
            alloc: _,
        } = self;
        close_slots(gate, slots, places, room, spare, sessions)
    }
}
