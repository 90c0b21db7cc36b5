//! Histories: the events of a phase, in their one order.

use crate::event::Event;
use std::alloc::Global;
use std::marker::Model;
use tee_types::NoMemory;

/// Memory for one event, with an event in it. It is made apart from the history that it goes to, so that a thread has it made before it takes the
/// lock behind which that stands.
#[derive(Debug, Drop)]
pub struct EventRoom {
    event: Box<Event>,
}

impl Model for EventRoom {
    ghost use Rattle.store_model.specs.declared.event.Event.{Event};

    ghost Value = { Event };

    ghost view = { λ r. r.event.value };
}

impl EventRoom {
    ghost use Rattle.std.specs.Prelude.{◌≡◌};

    /// Memory for one event.
    ///
    /// # Errors
    ///
    /// Memory ran out.
    pub fn new(alloc: Global) -> Result<EventRoom, NoMemory> {
        Ok(EventRoom {
            event: Box::new(alloc, Event::Landed { commit: 0 })?,
        })
    }

    // Puts an event in it.
    fn fill(&mut self, event: Event)
        ensures { self.new ≡ event }
    {
        *self.event = event;
    }

    // The event in it.
    fn event(&self) -> &Event
        ensures { result.now ≡ self.now }
    {
        &self.event
    }
}

/// A list of events, with room for some more.
#[derive(Debug, Drop)]
pub struct History {
    alloc: Global,
    items: Vec<EventRoom>,
    // For the next events. `items` has room for as many.
    rooms: Vec<EventRoom>,
}

impl Model for History {
    ghost use Rattle.std.specs.Prelude.{◌≤◌, ◌+◌, vec_len};
    ghost use Rattle.std.specs.Vec.{vec_capacity};
    ghost use Rattle.store_model.specs.Ledger.{Ledger};

    ghost Value = { Ledger };

    ghost view = { λ a. record { events = a.items.items; spare = vec_len a.rooms } };

    ghost invariant = { λ a. vec_len a.items + vec_len a.rooms ≤ vec_capacity a.items };
}

impl History {
    ghost use Rattle.std.specs.Prelude.{◌≡◌, ◌==◌, ◌<◌, ◌≤◌, ◌+◌, ◌^◌, [], ◌∷◌, ◌++◌, length, slice_get, OnOk, option_copied};

    /// No events.
    pub fn new(alloc: Global) -> History
        ensures { result.events ≡ [] }
    {
        History {
            alloc,
            items: Vec::new(alloc),
            rooms: Vec::new(alloc),
        }
    }

    // Keeps the memory for one event more.
    fn add_room(&mut self, room: EventRoom) -> Result<(), NoMemory>
        ensures events { self.new.events ≡ self.old.events }
        ensures ok { OnOk result (self.new.spare ≡ self.old.spare + 1) }
        ensures kept { self.old.spare ≤ self.new.spare }
    {
        self.items.reserve(self.rooms.len() + 1)?;
        self.rooms.push(room)?;
        Ok(())
    }

    /// Makes room for n more events, and keeps the room that was there. Where memory is needed for one, the given one is taken first. A refusal
    /// leaves the events.
    pub fn reserve(&mut self, n: usize, given: Option<EventRoom>) -> Result<(), NoMemory>
        ensures events { self.new.events ≡ self.old.events }
        ensures ok { OnOk result (n ≤ self.new.spare) }
        ensures kept { self.old.spare ≤ self.new.spare }
    {
        let mut given = given;
        for _ in self.rooms.len()..n {
            let room = match given.take() {
                Some(room) => room,
                None => EventRoom::new(self.alloc)?,
            };
            self.add_room(room)?;
        }
        Ok(())
    }

    /// Appends an event, into the room that is there.
    pub fn push(&mut self, event: Event)
        requires { 1 ≤ self.old.spare }
        ensures events { self.new.events ≡ self.old.events ++ event ∷ [] }
        ensures spare { self.old.spare ≤ self.new.spare + 1 }
        // A word can hold how many there are.
        ensures fits { length self.new.events < 2 ^ 64 }
    {
        let mut room = self.rooms.pop().unwrap();
        room.fill(event);
        self.items.push(room).unwrap();
    }

    /// How many events there are.
    pub fn len(&self) -> u64
        ensures { result ≡ length self.now.events }
    {
        self.items.len() as u64
    }

    /// Whether there is none.
    pub fn is_empty(&self) -> bool
        ensures { result ≡ (length self.now.events == 0) }
    {
        self.items.is_empty()
    }

    /// The event at that place, from 0 on.
    pub fn get(&self, place: u64) -> Option<&Event>
        ensures { option_copied result ≡ slice_get self.now.events place }
    {
        Some(self.items.get(place as usize)?.event())
    }
}
