//! How a create ends at the gate.

ghost use Rattle.std.specs.Prelude.{◌≡◌, ◌≤◌, ◌<◌, length, None, IfSome, IsSome};
ghost use Rattle.rpmb_card.specs.Protocol.{last_counter};
ghost use Rattle.call_steps.specs.Commits.{IsCalm};
ghost use Rattle.call_steps.specs.Fits.{FitsGate, SeesWhole};
ghost use Rattle.call_steps.specs.GuardedSlots.{SlotInvariant};
ghost use Rattle.call_steps.specs.CreateLaws.{index_of_place};
ghost use Rattle.call_steps.specs.Devices.{DrawsOn};
ghost use Rattle.serial_calls.specs.CreateEnds.{IsCommittableAs, IsCommittableOrSpent, IsFinished, MayTellIfUnmade};
ghost use Rattle.serial_calls.specs.ObjectMaking.{IsMadeOrClear, IsMadeSlot, entry_by};
ghost use Rattle.serial_calls.specs.FileReserving.{IsReserved};
ghost use Rattle.serial_calls.specs.Rules.{IsCreate, MayCreate, new_object};
ghost use Rattle.serial_calls.specs.Seating.{IsFreshSlot, reseated};

use crate::create_failure::CreateFailure;
use crate::create_object::give_up;
use crate::create_replies::tell;
use crate::create_seat::reseat;
use crate::new_object::NewObject;
use call_rules::NewPlace;
use call_steps::{
    EntryChange, GuardedGate, PlacedReply, Session, SessionMove, Slot, commit_change,
};
use core_laws::StoreName;
use dir_records::DirEntry;
use node_image::{FORMAT, RootRef};
use rpmb_card::RpmbPort;
use store_model::ObjectName;
use tee_ports::{Entropy, StoreFile};
use tee_types::{AppId, Call, Reply};

// The index of the entry that the new object takes.
fn index_of(place: &NewPlace) -> u16
    ensures { result ≡ index_of_place place.now }
{
    match place {
        NewPlace::Replaces(held) => held.index,
        NewPlace::Adds(index) => *index,
    }
}

// The entry of the new object of a create in a slot's file, which that reference names there, of the generation of the slot's seat.
fn entry_of<F: StoreFile + Drop>(
    slot: &Slot<F>,
    app: AppId,
    object: &NewObject,
    root: RootRef,
) -> DirEntry
    requires seat { IsSome slot.now.seat }
    requires short { length object.now.attributes.now ≤ 2048 }
    requires few { length object.now.bytes.now ≤ 1044480 }
    ensures { IfSome slot.now.seat (λ seat. result ≡ entry_by app object.now.id root slot.now.number seat.knows.generation (length object.now.attributes.now) (length object.now.bytes.now)) }
{
    let hash = root.hash;
    DirEntry {
        app,
        id: object.id,
        version: root.version,
        file: slot.number(),
        hash,
        size: object.bytes.len() as u32,
        attributes: object.attributes.len() as u16,
        format: FORMAT,
        generation: slot.generation(),
    }
}

// Brings the object that was made to the gate. The slot's seat is fresh.
fn commit_created<F: StoreFile + Drop, R: RpmbPort + Drop, L: StoreName, E: Entropy>(
    gate: &mut GuardedGate<F, R, L>,
    slot: &mut Slot<F>,
    session: &mut Session<E>,
    place: &NewPlace,
    call: Call,
    root: RootRef,
) -> PlacedReply
    requires names { 1 ≤ gate.old.gate.room }
    requires handles { 1 ≤ gate.old.gate.open_handles.spare }
    requires events { 1 ≤ gate.old.journal.spare }
    requires idle { gate.old.gate.doubt ≡ None }
    requires calm { IsCalm L.store gate.old.journal.knows session.old }
    requires may { MayCreate gate.old.gate.dir.dir.entries gate.old.gate.open_handles session.old.state
        (new_object call) place.now }
    requires reserved { IsReserved gate.old.gate session.old.number slot.old.number }
    requires create { IsCreate call }
    requires made { IsMadeSlot L.store slot.old session.old.state.application (new_object call).attributes (new_object call).bytes root }
    requires fresh { IsFreshSlot L.store gate.old.journal.knows gate.old.gate.counter slot.old }
    requires low { gate.old.gate.counter < last_counter }
    ensures committable { IsCommittableAs F.state R.state L.store gate.old gate.new slot.old.number session.old session.new
        (new_object call) place.now
        (E.is_reliable session.old.entropy) (E.faults session.old.entropy) (E.faults session.new.entropy) root result }
    ensures draws { DrawsOn E.is_reliable E.faults session.old.entropy session.new.entropy }
    ensures guarded { SlotInvariant L.store slot.new }
    ensures whole { SeesWhole gate.new.journal.knows slot.new }
    ensures number { slot.new.number ≡ slot.old.number }
    ensures file { slot.new.file ≡ slot.old.file }
{
    gate.reveal_invariant();
    let app = session.app();
    let object = NewObject::of_call(&call);
    let id = object.id;
    let rights = object.flags.without_overwrite();
    let entry = entry_of(slot, app, &object, root);
    let index = index_of(place);
    let handle = session.state().next_handle();
    commit_change(
        gate,
        slot,
        session,
        EntryChange::Put { index, entry },
        call,
        Reply::Handle(handle),
        Reply::Handle(handle),
        SessionMove::Opens(ObjectName { app, id }, rights),
    )
}

// Gives the slot a new seat and brings the object that was made to the gate, unless the counter is spent: then the object goes, and that is told.
fn finish_made<F: StoreFile + Drop, R: RpmbPort + Drop, L: StoreName, E: Entropy>(
    gate: &mut GuardedGate<F, R, L>,
    slot: &mut Slot<F>,
    session: &mut Session<E>,
    place: &NewPlace,
    call: Call,
    root: RootRef,
) -> PlacedReply
    requires names { 1 ≤ gate.old.gate.room }
    requires handles { 1 ≤ gate.old.gate.open_handles.spare }
    requires events { 1 ≤ gate.old.journal.spare }
    requires idle { gate.old.gate.doubt ≡ None }
    requires calm { IsCalm L.store gate.old.journal.knows session.old }
    requires may { MayCreate gate.old.gate.dir.dir.entries gate.old.gate.open_handles session.old.state
        (new_object call) place.now }
    requires reserved { IsReserved gate.old.gate session.old.number slot.old.number }
    requires create { IsCreate call }
    requires made { IsMadeSlot L.store slot.old session.old.state.application (new_object call).attributes (new_object call).bytes root }
    ensures finished { IsCommittableOrSpent F.state R.state L.store (reseated L.store slot.old.number gate.old) gate.new slot.old.number session.old session.new
        (new_object call) place.now
        (E.is_reliable session.old.entropy) (E.faults session.old.entropy) (E.faults session.new.entropy) root result }
    ensures draws { DrawsOn E.is_reliable E.faults session.old.entropy session.new.entropy }
    ensures guarded { SlotInvariant L.store slot.new }
    // What the slot's seat knew agreed with the gate.
    ensures agreed { FitsGate gate.old.journal.knows slot.old }
    ensures whole { SeesWhole gate.new.journal.knows slot.new }
    ensures number { slot.new.number ≡ slot.old.number }
    ensures file { slot.new.file ≡ slot.old.file }
{
    if gate.counter() < u32::MAX {
        reseat(gate, slot);
        return commit_created(gate, slot, session, place, call, root);
    }
    give_up::<F, L>(slot);
    tell(gate, slot, session, call, CreateFailure::Spent)
}

/// Ends a create at the gate. The slot gets a new seat, of the generation that the next commit makes. An object that was made is brought to the
/// gate then, where its entry is put at that place, which the rules gave, by one commit; and the session is given a handle on it, without
/// OVERWRITE among its flags. Where the card's counter is at its end the object goes, and that is told. Where no object was made, it is told
/// why. It takes no memory, so an object that was made is not lost for want of it.
///
/// The session was shown the history, and holds the slot's file. `call` is the create, and `made` what `make` gave for it, be it long ago.
pub fn finish<F: StoreFile + Drop, R: RpmbPort + Drop, L: StoreName, E: Entropy>(
    gate: &mut GuardedGate<F, R, L>,
    slot: &mut Slot<F>,
    session: &mut Session<E>,
    place: &NewPlace,
    call: Call,
    made: Result<RootRef, CreateFailure>,
) -> PlacedReply
    requires names { 1 ≤ gate.old.gate.room }
    requires handles { 1 ≤ gate.old.gate.open_handles.spare }
    requires events { 1 ≤ gate.old.journal.spare }
    requires idle { gate.old.gate.doubt ≡ None }
    requires calm { IsCalm L.store gate.old.journal.knows session.old }
    requires may { MayCreate gate.old.gate.dir.dir.entries gate.old.gate.open_handles session.old.state
        (new_object call) place.now }
    requires reserved { IsReserved gate.old.gate session.old.number slot.old.number }
    requires create { IsCreate call }
    requires made { IsMadeOrClear L.store slot.old session.old.state.application (new_object call).attributes (new_object call).bytes made }
    requires tells { MayTellIfUnmade gate.old.gate.counter slot.old.number made }
    ensures finished { IsFinished F.state R.state L.store (reseated L.store slot.old.number gate.old) gate.new slot.old.number session.old session.new
        (new_object call) place.now
        (E.is_reliable session.old.entropy) (E.faults session.old.entropy) (E.faults session.new.entropy) made result }
    ensures draws { DrawsOn E.is_reliable E.faults session.old.entropy session.new.entropy }
    ensures guarded { SlotInvariant L.store slot.new }
    // What the slot's seat knew agreed with the gate.
    ensures agreed { FitsGate gate.old.journal.knows slot.old }
    ensures whole { SeesWhole gate.new.journal.knows slot.new }
    ensures number { slot.new.number ≡ slot.old.number }
    ensures file { slot.new.file ≡ slot.old.file }
{
    match made {
        Ok(root) => finish_made(gate, slot, session, place, call, root),
        Err(why) => tell(gate, slot, session, call, why),
    }
}
