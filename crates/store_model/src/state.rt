//! The store on one thread.

mod data;
mod enumerating;
mod handles;
mod naming;

use crate::name::ObjectName;
use crate::object::StoredObject;
use crate::session::{Handle, Session};
use std::alloc::Global;
use std::collections::BTreeMap;
use std::marker::Model;
use tee_types::{AppId, Call, NoMemory, ObjectId, Reply};

/// The store on one thread: its objects, and a session for each of its applications.
/// A contract sees it as the state of the machine.
#[derive(Drop)]
pub struct State {
    objects: BTreeMap<ObjectName, StoredObject>,
    sessions: Vec<Session>,
}

impl Model for State {
    ghost use Rattle.std.specs.Prelude.{◌≤◌};
    ghost use Rattle.std.specs.BTreeMap.{btree_map_len};
    ghost use Rattle.store_model.specs.Object.{AreNamed};
    ghost use Rattle.store_model.specs.Machine.{MachineState};

    ghost Value = { MachineState };

    ghost view = { λ a. record { objects = a.objects.entries; sessions = a.sessions.items } };

    ghost invariant = { λ a. (btree_map_len a.objects ≤ 256) × AreNamed a.objects.entries };
}

impl State {
    ghost use Rattle.std.specs.Prelude.{◌≡◌, ◌<◌, ◌≤◌, [], length, true, false, IfOk, Some, None, IsSome, IsNone, IfSome, OnErr};
    ghost use Rattle.store_model.specs.Object.{Sound, object_at};
    ghost use Rattle.store_model.specs.Answer.{IsAnswer, IsOutcome};
    ghost use Rattle.store_model.specs.Refusal.{is_refusal, is_of_device, left_by_refusal};
    ghost use Rattle.store_model.specs.Machine.{opened_store, applications, next_phase, session_at, with_session, name_in, handle_at, with_handle};
    ghost use Rattle.store_model.specs.Calls.{outcome_of, size_by};

    /// The empty store, with a session for each of these applications.
    pub fn empty(alloc: Global, apps: &[AppId]) -> Result<State, NoMemory>
        ensures { IfOk result (λ state. state ≡ opened_store [] apps.now) }
    {
        let mut sessions = Vec::with_capacity(alloc, apps.len())?;
        for app in apps {
            sessions.push(Session::new(alloc, *app)?)?;
        }
        Ok(State {
            objects: BTreeMap::new(alloc),
            sessions,
        })
    }

    /// How many objects there are.
    pub fn objects(&self) -> u16
        ensures { result ≡ length self.now.objects }
    {
        self.objects.len() as u16
    }

    /// Begins the next phase: the objects stay, and each session is without handles and enumerators, and gives the numbers from 0 on.
    pub fn next_phase(&mut self, alloc: Global)
        ensures { self.new ≡ next_phase self.old }
    {
        for i in 0..self.sessions.len() {
            self.sessions[i].begin_anew(alloc);
        }
    }

    /// The name of an object of that session's application.
    fn name_of(&self, session: usize, id: ObjectId) -> ObjectName
        requires { session < length self.now.sessions }
        ensures name { result ≡ name_in self.now session id }
        ensures some { 1 ≤ length result.id }
    {
        let _bytes = id.bytes();
        ObjectName {
            app: self.sessions[session].app(),
            id,
        }
    }

    /// The live handle of that number.
    fn handle(&self, session: usize, number: u32) -> Option<Handle>
        requires { session < length self.now.sessions }
        ensures { result ≡ handle_at (session_at self.now session) number }
    {
        self.sessions[session].handle(number)
    }

    /// The object of that name. It is sound, and none of its blocks is bad.
    fn object(&self, name: &ObjectName) -> Option<&StoredObject>
        ensures none { IsNone result → object_at self.now.objects name.now ≡ None }
        ensures found { IfSome result (λ object. object_at self.now.objects name.now ≡ Some object.now) }
        ensures sound { IfSome result (λ object. (attributes : _) × (bytes : _)
            × (object.now ≡ Sound (record { attributes = attributes; bytes = bytes; bad = [] }))) }
    {
        let object = self.objects.get(name)?;
        let _attributes = object.attributes();
        Some(object)
    }

    /// Puts this handle in the place of the live one of that number.
    fn replace(&mut self, session: usize, number: u32, handle: Handle)
        requires live { IsSome (handle_at (session_at self.old session) number) }
        requires session { session < length self.old.sessions }
        ensures { self.new ≡ with_session self.old session (with_handle (session_at self.old session) number handle) }
    {
        self.sessions[session].replace(number, handle);
    }

    /// The size of the object that a live handle stands for, 0 where there is none.
    pub fn size_under(&self, session: u32, handle: u32) -> u32
        requires { session < length self.now.sessions }
        ensures { result ≡ size_by self.now.objects (handle_at (session_at self.now session) handle) }
    {
        match self.handle(session as usize, handle) {
            Some(handle) => self.size(&handle.name),
            None => 0,
        }
    }

    /// Serves one call of that session, or leaves the state for want of memory.
    fn serve(&mut self, alloc: Global, session: usize, call: &Call) -> Result<Reply, NoMemory>
        requires { session < length self.old.sessions }
        ensures ok { IfOk result (λ reply. IsOutcome (outcome_of self.old session call.now) reply self.new) }
        ensures err { OnErr result (self.new ≡ self.old) }
    {
        match call {
            Call::Create {
                id,
                flags,
                attributes,
                bytes,
            } => self.create(alloc, session, *id, *flags, attributes, bytes),
            Call::Open { id, flags } => Ok(self.open(session, *id, *flags)),
            Call::Close { handle } => Ok(self.close(session, *handle)),
            Call::Read { handle, size } => self.read(alloc, session, *handle, *size),
            Call::Write { handle, bytes } => self.write(session, *handle, bytes.as_slice()),
            Call::Truncate { handle, size } => self.truncate(session, *handle, *size),
            Call::Seek {
                handle,
                offset,
                whence,
            } => Ok(self.seek(session, *handle, *offset, *whence)),
            Call::Rename { handle, id } => self.rename(alloc, session, *handle, *id),
            Call::Delete { handle } => Ok(self.delete(session, *handle)),
            Call::Info { handle } => self.info(alloc, session, *handle),
            Call::EnumNew => self.enum_new(session),
            Call::EnumStart { number } => Ok(self.enum_start(session, *number)),
            Call::EnumNext { number } => Ok(self.enum_next(session, *number)),
            Call::EnumReset { number } => Ok(self.enum_reset(session, *number)),
            Call::EnumFree { number } => Ok(self.enum_free(session, *number)),
        }
    }

    /// Serves one call of that session, as the machine does. NoMemory leaves the state as it was.
    pub fn apply(&mut self, alloc: Global, session: u32, call: &Call) -> Reply
        requires { session < length self.old.sessions }
        ensures answer { IsAnswer (outcome_of self.old session call.now) self.old result self.new }
        ensures refused { is_refusal result ≡ true → self.new ≡ left_by_refusal self.old session call.now result }
        ensures unfaulted { is_of_device result ≡ false }
        ensures applications { applications self.new.sessions ≡ applications self.old.sessions }
        ensures sessions { length self.new.sessions ≡ length self.old.sessions }
    {
        match self.serve(alloc, session as usize, call) {
            Ok(reply) => reply,
            Err(_) => Reply::NoMemory,
        }
    }
}
