//! A caller's session.

ghost use Rattle.std.specs.Prelude.{◌≡◌, ◌≤◌, ◌<◌, ◌^◌, ◌+◌, ◌++◌, ◌∷◌, [], ℕ, false, None, Some, IfOk, IfErr, IfSome, IsOk, IsSome, OnErr, OnOk, if◌then◌else◌};
ghost use Rattle.enumerators.specs.Enumeration.{IsLive, IsStarted, advanced, allocated, cursor_at, freed, has_all, reset, started};
ghost use Rattle.store_model.specs.Machine.{handle_at, has_all_handles, with_handle, without_handle};
ghost use Rattle.history_seats.specs.Views.{PassView, Sight};
ghost use Rattle.commit_gate.specs.CallerSessions.{landed_by, landing_of_call, renamed};

use crate::file_hints::FileHints;
use crate::own_doubt::{Landing, OwnDoubt, landing_of};
use enumerators::{Cursor, EnumFault};
use history_seats::PassSeat;
use std::alloc::Global;
use std::cell::Cell;
use std::marker::Model;
use store_model::{EventRoom, Handle, ObjectName, Session as SessionState};
use tee_ports::Entropy;
use tee_types::{AppId, Call, Flags, ObjectId};

/// The session of an application, which belongs to one caller: its seat, its handles and enumerators, its own commit in doubt, and what
/// it draws nonces from.
#[derive(Drop)]
pub struct Session<E> {
    // None before it is given, and while it is lent.
    pass: Option<PassSeat>,
    number: u32,
    // How many events it has.
    made: u64,
    state: SessionState,
    doubt: Option<OwnDoubt>,
    entropy: E,
    // Nothing depends on these two.
    hints: FileHints,
    room: Cell<Option<EventRoom>>,
}

impl<E> Model for Session<E> {
    ghost use Rattle.commit_gate.specs.CallerSessions.{CallerSession};

    ghost Value = { CallerSession E };

    ghost view = { λ s. record {
      pass = s.pass;
      number = s.number;
      made = s.made;
      state = s.state;
      doubt = s.doubt;
      entropy = s.entropy;
    } };
}

impl<E: Entropy> Session<E> {
    ghost use Rattle.std.specs.Borrow.{Lends, sem};
    ghost use Rattle.store_model.specs.contracts.session.Session.{the_row as state_row};
    ghost use Rattle.commit_gate.specs.contracts.session.Session.{the_row};

    /// The session of that number as it begins, with that state. It has no seat yet.
    pub fn new(number: u32, state: SessionState, entropy: E) -> Session<E>
        ensures { result ≡ record { pass = None; number = number; made = 0; state = state; doubt = None; entropy = entropy } }
    {
        Session {
            pass: None,
            number,
            made: 0,
            state,
            doubt: None,
            entropy,
            hints: FileHints::new(),
            room: Cell::new(None),
        }
    }

    /// Its number.
    pub fn number(&self) -> u32
        ensures { result ≡ self.now.number }
    {
        self.number
    }

    /// How many events it has.
    pub fn made(&self) -> u64
        ensures { result ≡ self.now.made }
    {
        self.made
    }

    /// Its application.
    pub fn app(&self) -> AppId
        ensures { result ≡ self.now.state.application }
    {
        self.state.app()
    }

    /// Its own commit in doubt.
    pub fn doubt(&self) -> Option<OwnDoubt>
        ensures { result ≡ self.now.doubt }
    {
        self.doubt
    }

    /// Lends the seat.
    pub fn lend_pass(&mut self) -> PassSeat
        requires { (pass : Sight PassView) × (self.old.pass ≡ Some pass) }
        ensures session { self.new ≡ record self.old { pass = None } }
        ensures pass { self.old.pass ≡ Some result }
    {
        let Some(pass) = self.pass.take() else {
            unreachable!()
        };
        pass
    }

    /// Takes its seat, or takes it back.
    pub fn give_pass(&mut self, pass: PassSeat)
        ensures { self.new ≡ record self.old { pass = Some pass } }
    {
        self.pass = Some(pass);
    }

    /// Its seat, for good.
    pub fn into_pass(self) -> PassSeat
        requires { (pass : Sight PassView) × (self.pass ≡ Some pass) }
        ensures { self.pass ≡ Some result }
    {
        let Session {
            pass,
            number: _,
            made: _,
            state: _,
            doubt: _,
            entropy: _,
            hints: _,
            room: _,
        } = self;
        let Some(pass) = pass else { unreachable!() };
        pass
    }

    /// Counts one more event.
    pub(crate) fn count(&mut self)
        requires { self.old.made + 1 < 2 ^ 64 }
        ensures { self.new ≡ record self.old { made = self.old.made + 1 } }
    {
        self.made += 1;
    }

    /// The file in which the object of that handle may be. Whoever looks there compares what is found.
    pub fn hint(&self, handle: u32) -> Option<u16> {
        self.hints.file(handle)
    }

    /// Notes that the object of that handle is in that file.
    pub fn note_file(&mut self, handle: u32, file: u16)
        ensures { self.new ≡ self.old }
    {
        self.hints.note(handle, file);
    }

    /// Has memory for its next event made, where it has none. Else the gate makes it, which then is longer behind its lock.
    pub fn make_room(&self, alloc: Global) {
        let room = match self.take_room() {
            Some(room) => Some(room),
            None => EventRoom::new(alloc).ok(),
        };
        self.room.set(room);
    }

    /// Gives the memory for its next event, if it has some.
    pub(crate) fn take_room(&self) -> Option<EventRoom> {
        self.room.replace(None)
    }

    /// The machine's session.
    pub fn state(&self) -> &SessionState
        ensures { result.now ≡ self.now.state }
    {
        &self.state
    }

    /// The machine's session, which a call moves.
    pub fn state_mut(&mut self) -> &mut SessionState
        ensures value { result.now ≡ self.old.state }
        ensures* writes_back { sem 𝓛 (Lends (the_row E.row) state_row self.entry result (λ w. record self.old { state = w })) }
    {
        &mut self.state
    }

    /// What it draws random bytes from.
    pub fn entropy_mut(&mut self) -> &mut E
        ensures value { result.now ≡ self.old.entropy }
        ensures* writes_back { sem 𝓛 (Lends (the_row E.row) E.row self.entry result (λ w. record self.old { entropy = w })) }
    {
        &mut self.entropy
    }

    /// Whether no further handle may be given.
    pub fn is_full(&self) -> bool
        ensures { result ≡ has_all_handles self.now.state }
    {
        self.state.is_full()
    }

    /// The live handle of that number.
    pub fn handle(&self, number: u32) -> Option<Handle>
        ensures { result ≡ handle_at self.now.state number }
    {
        self.state.handle(number)
    }

    /// Gives a handle on that object, at position 0, and tells its number.
    pub fn open(&mut self, name: ObjectName, flags: Flags) -> u32
        requires { has_all_handles self.old.state ≡ false }
        ensures number { result ≡ self.old.state.next_handle }
        ensures opened { self.new ≡ record self.old {
          state = record self.old.state {
            handles = self.old.state.handles ++ (self.old.state.next_handle, record { name = name; flags = flags; position = 0 }) ∷ [];
            next_handle = self.old.state.next_handle + 1;
          };
        } }
    {
        self.state.open(name, flags)
    }

    /// Takes the live handle of that number away.
    pub fn close(&mut self, number: u32)
        requires { IsSome (handle_at self.old.state number) }
        ensures { self.new ≡ record self.old { state = without_handle self.old.state number } }
    {
        self.state.close(number);
    }

    /// Puts this handle in the place of the live one of that number.
    pub fn replace(&mut self, number: u32, handle: Handle)
        requires { IsSome (handle_at self.old.state number) }
        ensures { self.new ≡ record self.old { state = with_handle self.old.state number handle } }
    {
        self.state.replace(number, handle);
    }

    /// Gives an enumerator that is not started, and tells its number.
    pub fn add_enumerator(&mut self) -> Result<u32, EnumFault>
        ensures number { IfOk result (λ number. number ≡ self.old.state.enumerators.next) }
        ensures room { IfOk result (λ _. has_all self.old.state.enumerators ≡ false) }
        ensures ok { OnOk result (self.new ≡ record self.old { state = record self.old.state { enumerators = allocated self.old.state.enumerators } }) }
        ensures fault { IfErr result (λ fault. fault ≡ (if has_all self.old.state.enumerators then EnumFault.TooMany else EnumFault.NoMemory)) }
        ensures err { OnErr result (self.new ≡ self.old) }
    {
        self.state.add_enumerator()
    }

    /// How far the live enumerator of that number has come.
    pub fn cursor(&self, number: u32) -> Option<Cursor>
        ensures { result ≡ cursor_at self.now.state.enumerators number }
    {
        self.state.cursor(number)
    }

    /// Starts the live enumerator of that number anew.
    pub fn start(&mut self, number: u32)
        requires { IsLive self.old.state.enumerators number }
        ensures { self.new ≡ record self.old { state = record self.old.state { enumerators = started self.old.state.enumerators number } } }
    {
        self.state.start(number);
    }

    /// Sets the live enumerator of that number back to not started.
    pub fn reset(&mut self, number: u32)
        requires { IsLive self.old.state.enumerators number }
        ensures { self.new ≡ record self.old { state = record self.old.state { enumerators = reset self.old.state.enumerators number } } }
    {
        self.state.reset(number);
    }

    /// Takes the live enumerator of that number away.
    pub fn free(&mut self, number: u32)
        requires { IsLive self.old.state.enumerators number }
        ensures { self.new ≡ record self.old { state = record self.old.state { enumerators = freed self.old.state.enumerators number } } }
    {
        self.state.free(number);
    }

    /// Notes that a started enumerator gave this identifier.
    pub fn given(&mut self, number: u32, id: ObjectId)
        requires { IsStarted self.old.state.enumerators number }
        ensures { self.new ≡ record self.old { state = record self.old.state { enumerators = advanced self.old.state.enumerators number id } } }
    {
        self.state.given(number, id);
    }

    /// Notes that the commit of this call, whose event has that place, is in doubt.
    pub fn begin_doubt(&mut self, place: u64, call: &Call)
        ensures { self.new ≡ record self.old { doubt = Some (record { place = place; landing = landing_of_call call.now }) } }
    {
        self.doubt = Some(OwnDoubt {
            place,
            landing: landing_of(call),
        });
    }

    /// Notes that its commit in doubt landed: the handle that a delete closes is gone, and the one of a renamed object follows it.
    pub fn land(&mut self)
        requires { IsSome self.old.doubt }
        ensures { IfSome self.old.doubt (λ doubt. self.new ≡ record self.old { state = landed_by self.old.state doubt.landing; doubt = None }) }
    {
        let Some(doubt) = self.doubt.take() else {
            return
        };
        land_state(&mut self.state, doubt.landing);
    }

    /// Notes that its commit in doubt, if it has one, did not land.
    pub fn drop_doubt(&mut self)
        ensures { self.new ≡ record self.old { doubt = None } }
    {
        self.doubt = None;
    }
}

// What a landing does to the machine's session.
fn land_state(state: &mut SessionState, landing: Landing)
    ensures { state.new ≡ landed_by state.old landing }
{
    match landing {
        Landing::Nothing => {}
        Landing::Closes(number) => close_live(state, number),
        Landing::Renames(number, id) => rename(state, number, id),
    }
}

// Takes the live handle of that number away, if there is one.
fn close_live(state: &mut SessionState, number: u32)
    ensures { state.new ≡ without_handle state.old number }
{
    match state.handle(number) {
        Some(_) => state.close(number),
        None => {}
    }
}

// Has the live handle of that number follow its object.
fn rename(state: &mut SessionState, number: u32, id: ObjectId)
    ensures { state.new ≡ renamed state.old number id (handle_at state.old number) }
{
    if let Some(handle) = state.handle(number) {
        let name = ObjectName {
            app: state.app(),
            id,
        };
        state.replace(number, Handle { name, ..handle });
    }
}
