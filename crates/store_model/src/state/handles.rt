//! Calls that give handles and take them back.

use crate::name::ObjectName;
use crate::object::StoredObject;
use crate::state::State;
use std::alloc::Global;
use tee_types::{
    Bytes, Code, Flags, MAX_ATTRIBUTES, MAX_DATA, MAX_OBJECTS, NoMemory, OVERWRITE, ObjectId,
    Reason, Reply,
};

impl State {
    ghost use Rattle.std.specs.Prelude.{◌≡◌, ◌<◌, ◌≤◌, length, false, IfOk, IsNone, OnOk, OnErr};
    ghost use Rattle.std.specs.List.{list_any, list_all};
    ghost use Rattle.tee_types.specs.Rights.{without_overwrite};
    ghost use Rattle.store_model.specs.Object.{with_object};
    ghost use Rattle.store_model.specs.Answer.{IsOutcome};
    ghost use Rattle.store_model.specs.Machine.{first_refusal};
    ghost use Rattle.store_model.specs.Handles.{create_refusals, open_refusals, lacks_room, has_open, allows_open, create_of, open_of, close_of};

    /// Whether a handle of any session is open on that object.
    fn is_open(&self, name: &ObjectName) -> bool
        ensures { result ≡ list_any (has_open name.now) self.now.sessions }
    {
        self.sessions.iter().any(|s| s.has_open(name))
    }

    /// Whether a new handle with these flags may be open beside every handle on that object.
    fn allows(&self, name: &ObjectName, flags: Flags) -> bool
        ensures { result ≡ list_all (allows_open name.now flags) self.now.sessions }
    {
        self.sessions.iter().all(|s| s.allows(name, flags))
    }

    /// Why a create is refused, if it is.
    fn create_refusal(
        &self,
        session: usize,
        name: &ObjectName,
        flags: Flags,
        attributes: &Bytes,
        bytes: &Bytes,
    ) -> Option<Reply>
        requires { session < length self.now.sessions }
        ensures first { result ≡ first_refusal (create_refusals self.now session name.now flags attributes.now bytes.now) }
        ensures room { IsNone result → lacks_room self.now.objects name.now ≡ false }
    {
        let exists = self.objects.contains_key(name);
        if !flags.known() {
            return Some(Reply::Misuse(Reason::BadFlags));
        }
        if self.sessions[session].is_full() {
            return Some(Reply::Misuse(Reason::TooMany));
        }
        if MAX_ATTRIBUTES < attributes.len() {
            return Some(Reply::Refused(Code::BadParameters));
        }
        if exists && !flags.has(OVERWRITE) {
            return Some(Reply::Refused(Code::AccessConflict));
        }
        if exists && self.is_open(name) {
            return Some(Reply::Refused(Code::AccessConflict));
        }
        if MAX_DATA < bytes.len() || !exists && MAX_OBJECTS <= self.objects.len() {
            return Some(Reply::Refused(Code::NoSpace));
        }
        None
    }

    /// Why an open is refused, if it is.
    fn open_refusal(&self, session: usize, name: &ObjectName, flags: Flags) -> Option<Reply>
        requires { session < length self.now.sessions }
        ensures { result ≡ first_refusal (open_refusals self.now session name.now flags) }
    {
        if !flags.known() || flags.has(OVERWRITE) {
            return Some(Reply::Misuse(Reason::BadFlags));
        }
        if self.sessions[session].is_full() {
            return Some(Reply::Misuse(Reason::TooMany));
        }
        let Some(_sound) = self.object(name) else {
            return Some(Reply::Refused(Code::ItemNotFound));
        };
        if !self.allows(name, flags) {
            return Some(Reply::Refused(Code::AccessConflict));
        }
        None
    }

    /// Puts an object under that name, in place of the one that is there.
    fn put(&mut self, name: ObjectName, object: StoredObject) -> Result<(), NoMemory>
        requires room { lacks_room self.old.objects name ≡ false }
        requires named { 1 ≤ length name.id }
        ensures ok { OnOk result (self.new ≡ record self.old { objects = with_object self.old.objects name object }) }
        ensures err { OnErr result (self.new ≡ self.old) }
    {
        let _replaced = self.objects.insert(name, object)?;
        Ok(())
    }

    /// TEE_CreatePersistentObject
    #[tactic(auto, unfolding(crate::specs::Handles::create_of))]
    pub(super) fn create(
        &mut self,
        alloc: Global,
        session: usize,
        id: ObjectId,
        flags: Flags,
        attributes: &Bytes,
        bytes: &Bytes,
    ) -> Result<Reply, NoMemory>
        requires { session < length self.old.sessions }
        ensures ok { IfOk result (λ reply. IsOutcome (create_of self.old session id flags attributes.now bytes.now) reply self.new) }
        ensures err { OnErr result (self.new ≡ self.old) }
    {
        let name = self.name_of(session, id);
        if let Some(reply) = self.create_refusal(session, &name, flags, attributes, bytes) {
            return Ok(reply);
        }
        let object = StoredObject::new(attributes.copy(alloc)?, bytes.copy(alloc)?.into_vec());
        self.put(name, object)?;
        let number = self.sessions[session].open(name, flags.without_overwrite());
        Ok(Reply::Handle(number))
    }

    /// TEE_OpenPersistentObject
    #[tactic(auto, unfolding(crate::specs::Handles::open_of))]
    pub(super) fn open(&mut self, session: usize, id: ObjectId, flags: Flags) -> Reply
        requires { session < length self.old.sessions }
        ensures { IsOutcome (open_of self.old session id flags) result self.new }
    {
        let name = self.name_of(session, id);
        match self.open_refusal(session, &name, flags) {
            Some(reply) => reply,
            None => Reply::Handle(self.sessions[session].open(name, flags)),
        }
    }

    /// TEE_CloseObject
    #[tactic(auto, unfolding(crate::specs::Handles::close_of))]
    pub(super) fn close(&mut self, session: usize, number: u32) -> Reply
        requires { session < length self.old.sessions }
        ensures { IsOutcome (close_of self.old session number) result self.new }
    {
        let Some(_live) = self.handle(session, number) else {
            return Reply::Misuse(Reason::BadHandle);
        };
        self.sessions[session].close(number);
        Reply::Done
    }
}
