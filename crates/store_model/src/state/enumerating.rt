//! Calls that enumerate the objects of an application.

ghost use Rattle.std.specs.Prelude.{◌≡◌, [], ◌∷◌};

use crate::name::ObjectName;
use crate::state::State;
use enumerators::{Cursor, EnumFault};
use std::ops::Bound;
use tee_types::{AppId, Code, NoMemory, ObjectId, Reason, Reply};

impl State {
    ghost use Rattle.std.specs.Prelude.{◌≡◌, ◌<◌, length, IfOk, OnErr, IfSome, IfNone, Some, None};
    ghost use Rattle.std.specs.List.{find, list_any};
    ghost use Rattle.std.specs.List.Sorted.{IsStrictlySortedBy};
    ghost use Rattle.std.specs.Map.{keys_of};
    ghost use Rattle.store_model.specs.Object.{AreNamed};
    ghost use Rattle.std.specs.Option.{option_map};
    ghost use Rattle.std.specs.BTreeMap.Range.{is_from_start};
    ghost use Rattle.store_model.specs.Name.{name_cmp};
    ghost use Rattle.enumerators.specs.Enumeration.{cursor_at};
    ghost use Rattle.store_model.specs.Answer.{IsOutcome};
    ghost use Rattle.store_model.specs.Machine.{session_at};
    ghost use Rattle.store_model.specs.Enumerating.{is_of, is_above, if_of, shown, enum_new_of, enum_start_of, enum_next_of, enum_reset_of, enum_free_of};

    /// How far the live enumerator of that number has come.
    fn cursor(&self, session: usize, number: u32) -> Option<Cursor>
        requires { session < length self.now.sessions }
        ensures { result ≡ cursor_at (session_at self.now session).enumerators number }
    {
        self.sessions[session].cursor(number)
    }

    /// The first object from that bound on, where it is one of the application: its identifier and its size.
    fn first_from(&self, app: AppId, start: Bound<ObjectName>) -> Option<(ObjectId, u32)>
        ensures first { result ≡ option_map shown (if_of app (find (λ e. is_from_start name_cmp start e.0) self.now.objects)) }
        ensures ordered { IsStrictlySortedBy name_cmp (keys_of self.now.objects) }
        ensures named { AreNamed self.now.objects }
    {
        let (name, object) = self.objects.range((start, Bound::Unbounded)).next()?;
        if app == name.app {
            Some((name.id, object.content().len() as u32))
        } else {
            None
        }
    }

    /// The least object of the application.
    fn first_of(&self, app: AppId) -> Option<(ObjectId, u32)>
        ensures { result ≡ option_map shown (find (is_of app) self.now.objects) }
    {
        let id = least_id();
        self.first_from(app, Bound::Included(ObjectName { app, id }))
    }

    /// Whether the application has an object.
    fn has_objects(&self, app: AppId) -> bool
        ensures { result ≡ list_any (is_of app) self.now.objects }
    {
        self.first_of(app).is_some()
    }

    /// The least object of the application above that identifier.
    fn first_above(&self, app: AppId, id: ObjectId) -> Option<(ObjectId, u32)>
        ensures { result ≡ option_map shown (find (is_above app id) self.now.objects) }
    {
        self.first_from(app, Bound::Excluded(ObjectName { app, id }))
    }

    /// TEE_AllocatePersistentObjectEnumerator
    #[tactic(auto, unfolding(crate::specs::Enumerating::enum_new_of))]
    pub(super) fn enum_new(&mut self, session: usize) -> Result<Reply, NoMemory>
        requires { session < length self.old.sessions }
        ensures ok { IfOk result (λ reply. IsOutcome (enum_new_of self.old session) reply self.new) }
        ensures err { OnErr result (self.new ≡ self.old) }
    {
        match self.sessions[session].add_enumerator() {
            Ok(number) => Ok(Reply::Handle(number)),
            Err(EnumFault::NoMemory) => Err(NoMemory {}),
            Err(_) => Ok(Reply::Misuse(Reason::TooMany)),
        }
    }

    /// TEE_StartPersistentObjectEnumerator
    #[tactic(auto, unfolding(crate::specs::Enumerating::enum_start_of))]
    pub(super) fn enum_start(&mut self, session: usize, number: u32) -> Reply
        requires { session < length self.old.sessions }
        ensures { IsOutcome (enum_start_of self.old session number) result self.new }
    {
        let Some(_live) = self.cursor(session, number) else {
            return Reply::Misuse(Reason::BadEnumerator);
        };
        let app = self.sessions[session].app();
        if !self.has_objects(app) {
            self.sessions[session].reset(number);
            return Reply::Refused(Code::ItemNotFound);
        }
        self.sessions[session].start(number);
        Reply::Done
    }

    /// TEE_GetNextPersistentObject
    #[tactic(auto, unfolding(crate::specs::Enumerating::enum_next_of))]
    pub(super) fn enum_next(&mut self, session: usize, number: u32) -> Reply
        requires { session < length self.old.sessions }
        ensures { IsOutcome (enum_next_of self.old session number) result self.new }
    {
        let Some(cursor) = self.cursor(session, number) else {
            return Reply::Misuse(Reason::BadEnumerator);
        };
        let app = self.sessions[session].app();
        let next = match cursor {
            Cursor::Idle => None,
            Cursor::First => self.first_of(app),
            Cursor::After(id) => self.first_above(app, id),
        };
        let Some((id, size)) = next else {
            return Reply::Refused(Code::ItemNotFound);
        };
        self.sessions[session].given(number, id);
        Reply::Found { id, size }
    }

    /// TEE_ResetPersistentObjectEnumerator
    #[tactic(auto, unfolding(crate::specs::Enumerating::enum_reset_of))]
    pub(super) fn enum_reset(&mut self, session: usize, number: u32) -> Reply
        requires { session < length self.old.sessions }
        ensures { IsOutcome (enum_reset_of self.old session number) result self.new }
    {
        let Some(_live) = self.cursor(session, number) else {
            return Reply::Misuse(Reason::BadEnumerator);
        };
        self.sessions[session].reset(number);
        Reply::Done
    }

    /// TEE_FreePersistentObjectEnumerator
    #[tactic(auto, unfolding(crate::specs::Enumerating::enum_free_of))]
    pub(super) fn enum_free(&mut self, session: usize, number: u32) -> Reply
        requires { session < length self.old.sessions }
        ensures { IsOutcome (enum_free_of self.old session number) result self.new }
    {
        let Some(_live) = self.cursor(session, number) else {
            return Reply::Misuse(Reason::BadEnumerator);
        };
        self.sessions[session].free(number);
        Reply::Done
    }
}

/// The least identifier.
fn least_id() -> ObjectId
    ensures { result ≡ 0 ∷ [] }
{
    ObjectId::new(&[0]).unwrap()
}
