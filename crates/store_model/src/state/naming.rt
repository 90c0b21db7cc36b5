//! Calls that rename and delete an open object.

use crate::name::ObjectName;
use crate::object::StoredObject;
use crate::session::Handle;
use crate::state::State;
use std::alloc::Global;
use tee_types::{Bytes, Code, NoMemory, ObjectId, Reason, Reply, WRITE_META};

impl State {
    ghost use Rattle.std.specs.Prelude.{◌≡◌, ◌<◌, ◌≤◌, length, false, IfOk, OnOk, OnErr};
    ghost use Rattle.store_model.specs.Object.{holds, moved_object};
    ghost use Rattle.store_model.specs.Answer.{IsOutcome};
    ghost use Rattle.store_model.specs.Naming.{rename_of, delete_of};

    /// Puts the object of one name under another, where none is. A refusal leaves the objects.
    fn move_object(
        &mut self,
        alloc: Global,
        old: &ObjectName,
        new: ObjectName,
    ) -> Result<(), NoMemory>
        requires free { holds self.old.objects new ≡ false }
        requires named { 1 ≤ length new.id }
        ensures ok { OnOk result (self.new ≡ record self.old { objects = moved_object self.old.objects old.now new }) }
        ensures err { OnErr result (self.new ≡ self.old) }
    {
        if !self.objects.contains_key(old) {
            return Ok(());
        }
        let empty = StoredObject::new(Bytes::empty(alloc), Vec::new(alloc));
        let _none = self.objects.insert(new, empty)?;
        let Some(object) = self.objects.remove(old) else {
            return Ok(());
        };
        let Some(place) = self.objects.get_mut(&new) else {
            return Ok(());
        };
        *place = object;
        Ok(())
    }

    /// TEE_RenamePersistentObject
    #[tactic(auto, unfolding(crate::specs::Naming::rename_of))]
    pub(super) fn rename(
        &mut self,
        alloc: Global,
        session: usize,
        number: u32,
        id: ObjectId,
    ) -> Result<Reply, NoMemory>
        requires { session < length self.old.sessions }
        ensures ok { IfOk result (λ reply. IsOutcome (rename_of self.old session number id) reply self.new) }
        ensures err { OnErr result (self.new ≡ self.old) }
    {
        let Some(handle) = self.handle(session, number) else {
            return Ok(Reply::Misuse(Reason::BadHandle));
        };
        if !handle.flags.has(WRITE_META) {
            return Ok(Reply::Misuse(Reason::NoRight));
        }
        let name = self.name_of(session, id);
        if self.objects.contains_key(&name) {
            return Ok(Reply::Refused(Code::AccessConflict));
        }
        self.move_object(alloc, &handle.name, name)?;
        self.replace(session, number, Handle { name, ..handle });
        Ok(Reply::Done)
    }

    /// TEE_CloseAndDeletePersistentObject1
    #[tactic(auto, unfolding(crate::specs::Naming::delete_of))]
    pub(super) fn delete(&mut self, session: usize, number: u32) -> Reply
        requires { session < length self.old.sessions }
        ensures { IsOutcome (delete_of self.old session number) result self.new }
    {
        let Some(handle) = self.handle(session, number) else {
            return Reply::Misuse(Reason::BadHandle);
        };
        if !handle.flags.has(WRITE_META) {
            return Reply::Misuse(Reason::NoRight);
        }
        let _deleted = self.objects.remove(&handle.name);
        self.sessions[session].close(number);
        Reply::Done
    }
}
