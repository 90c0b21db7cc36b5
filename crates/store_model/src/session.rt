//! The session of an application: its open handles and its enumerators.

use crate::name::ObjectName;
use enumerators::{Cursor, EnumFault, Enumerators, place_of};
use std::alloc::Global;
use std::marker::Model;
use tee_types::{AppId, Flags, MAX_HANDLES, NoMemory, ObjectId};

/// An open handle: the object that it stands for, its rights, and its position in the object's data.
#[derive(Clone, Copy, Debug)]
pub struct Handle {
    /// The object's name.
    pub name: ObjectName,
    /// The rights of the handle.
    pub flags: Flags,
    /// The place of the next byte to be read or written.
    pub position: u32,
}

/// The session of an application, with room for all the handles that it may have.
#[derive(Drop)]
pub struct Session {
    app: AppId,
    handles: Vec<(u32, Handle)>,
    next_handle: u32,
    enumerators: Enumerators,
}

impl Model for Session {
    ghost use Rattle.std.specs.Prelude.{◌≤◌};
    ghost use Rattle.std.specs.Vec.{vec_capacity};
    ghost use Rattle.enumerators.specs.Places.{IsNumbered};
    ghost use Rattle.store_model.specs.Machine.{Session as SessionState};

    ghost Value = { SessionState };

    ghost view = { λ a. record {
      application = a.app;
      handles = a.handles.items;
      next_handle = a.next_handle;
      enumerators = a.enumerators;
    } };

    ghost invariant = { λ a. (1024 ≤ vec_capacity a.handles) × IsNumbered 0 a.handles.items a.next_handle };
}

impl Session {
    ghost use Rattle.std.specs.Prelude.{◌≡◌, ◌==◌, ◌≤◌, ◌+◌, [], ◌∷◌, ◌++◌, false, if◌then◌else◌, None, IfOk, IfErr, IfSome, IfNone, OnOk, OnErr, IsSome, is_some};
    ghost use Rattle.enumerators.specs.Places.{IsPlaceOf};
    ghost use Rattle.enumerators.specs.Enumeration.{cursor_at, has_all, allocated, started, reset, freed, advanced, IsLive, IsStarted};
    ghost use Rattle.store_model.specs.Machine.{handle_at, with_handle, without_handle, has_all_handles, new_session};
    ghost use Rattle.store_model.specs.Handles.{has_open, allows_open};

    /// The session of an application, without handles.
    pub fn new(alloc: Global, app: AppId) -> Result<Session, NoMemory>
        ensures { IfOk result (λ session. session ≡ new_session app) }
    {
        Ok(Session {
            app,
            handles: Vec::with_capacity(alloc, MAX_HANDLES)?,
            next_handle: 0,
            enumerators: Enumerators::new(alloc),
        })
    }

    /// The application.
    pub fn app(&self) -> AppId
        ensures { result ≡ self.now.application }
    {
        self.app
    }

    /// Whether no further handle may be given.
    pub fn is_full(&self) -> bool
        ensures { result ≡ has_all_handles self.now }
    {
        MAX_HANDLES <= self.handles.len() || u32::MAX <= self.next_handle
    }

    /// The number of the next handle that is given.
    pub fn next_handle(&self) -> u32
        ensures { result ≡ self.now.next_handle }
    {
        self.next_handle
    }

    /// Gives a handle on that object, at position 0, and tells its number.
    pub fn open(&mut self, name: ObjectName, flags: Flags) -> u32
        requires { has_all_handles self.old ≡ false }
        ensures number { result ≡ self.old.next_handle }
        ensures opened { self.new ≡ record self.old {
          handles = self.old.handles ++ (self.old.next_handle, record { name = name; flags = flags; position = 0 }) ∷ [];
          next_handle = self.old.next_handle + 1;
        } }
    {
        let number = self.next_handle;
        let handle = Handle {
            name,
            flags,
            position: 0,
        };
        self.handles.push((number, handle)).unwrap();
        self.next_handle += 1;
        number
    }

    // The place of the live handle of that number.
    fn place(&self, number: u32) -> Option<usize>
        ensures found { IfSome result (IsPlaceOf number self.now.handles) }
        ensures none { IfNone result (handle_at self.now number ≡ None) }
    {
        place_of(self.handles.as_slice(), number)
    }

    /// The live handle of that number.
    pub fn handle(&self, number: u32) -> Option<Handle>
        ensures { result ≡ handle_at self.now number }
    {
        let place = self.place(number)?;
        Some(self.handles[place].1)
    }

    /// Takes the live handle of that number away.
    pub fn close(&mut self, number: u32)
        requires { IsSome (handle_at self.old number) }
        ensures { self.new ≡ without_handle self.old number }
    {
        if let Some(place) = self.place(number) {
            let _closed = self.handles.remove(place);
        }
    }

    /// Puts this handle in the place of the live one of that number.
    pub fn replace(&mut self, number: u32, handle: Handle)
        requires { IsSome (handle_at self.old number) }
        ensures { self.new ≡ with_handle self.old number handle }
    {
        if let Some(place) = self.place(number) {
            self.handles[place] = (number, handle);
        }
    }

    /// Whether a new handle with these flags may be open beside each handle of this session on that object.
    pub fn allows(&self, name: &ObjectName, flags: Flags) -> bool
        ensures { result ≡ allows_open name.now flags self.now }
    {
        self.handles.iter().all(|h| !(*name == h.1.name) || flags.is_compatible_with(h.1.flags))
    }

    /// Whether a handle of this session is open on that object.
    pub fn has_open(&self, name: &ObjectName) -> bool
        ensures { result ≡ has_open name.now self.now }
    {
        self.handles.iter().any(|h| *name == h.1.name)
    }

    /// Takes every handle and every enumerator away. The next ones have the numbers from 0 on again.
    pub fn begin_anew(&mut self, alloc: Global)
        ensures { self.new ≡ new_session self.old.application }
    {
        self.handles.clear();
        self.next_handle = 0;
        self.enumerators = Enumerators::new(alloc);
    }

    /// Whether no further enumerator may be given.
    pub fn has_all_enumerators(&self) -> bool
        ensures { result ≡ has_all self.now.enumerators }
    {
        self.enumerators.is_full()
    }

    /// Gives an enumerator that is not started, and tells its number.
    pub fn add_enumerator(&mut self) -> Result<u32, EnumFault>
        ensures number { IfOk result (λ number. number ≡ self.old.enumerators.next) }
        ensures room { IfOk result (λ _. has_all self.old.enumerators ≡ false) }
        ensures ok { OnOk result (self.new ≡ record self.old { enumerators = allocated self.old.enumerators }) }
        ensures fault { IfErr result (λ fault. fault ≡ (if has_all self.old.enumerators then EnumFault.TooMany else EnumFault.NoMemory)) }
        ensures err { OnErr result (self.new ≡ self.old) }
    {
        self.enumerators.add()
    }

    /// How far the live enumerator of that number has come.
    pub fn cursor(&self, number: u32) -> Option<Cursor>
        ensures { result ≡ cursor_at self.now.enumerators number }
    {
        self.enumerators.cursor(number).ok()
    }

    /// Starts the live enumerator of that number anew.
    pub fn start(&mut self, number: u32)
        requires { IsLive self.old.enumerators number }
        ensures { self.new ≡ record self.old { enumerators = started self.old.enumerators number } }
    {
        self.enumerators.start(number).unwrap();
    }

    /// Sets the live enumerator of that number back to not started.
    pub fn reset(&mut self, number: u32)
        requires { IsLive self.old.enumerators number }
        ensures { self.new ≡ record self.old { enumerators = reset self.old.enumerators number } }
    {
        self.enumerators.reset(number).unwrap();
    }

    /// Takes the live enumerator of that number away.
    pub fn free(&mut self, number: u32)
        requires { IsLive self.old.enumerators number }
        ensures { self.new ≡ record self.old { enumerators = freed self.old.enumerators number } }
    {
        self.enumerators.free(number).unwrap();
    }

    /// Notes that a started enumerator gave this identifier.
    pub fn given(&mut self, number: u32, id: ObjectId)
        requires { IsStarted self.old.enumerators number }
        ensures { self.new ≡ record self.old { enumerators = advanced self.old.enumerators number id } }
    {
        self.enumerators.given(number, id);
    }
}
