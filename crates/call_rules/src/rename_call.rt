//! TEE_RenamePersistentObject, as far as the rules tell.

ghost use Rattle.std.specs.Prelude.{◌≡◌, ℕ, false, None};
ghost use Rattle.dir_index.specs.Index.{named};
ghost use Rattle.store_model.specs.Object.{holds};
ghost use Rattle.store_model.specs.Machine.{MachineState, name_in};
ghost use Rattle.dir_index.specs.EntryNames.{IsEntryNamed};
ghost use Rattle.call_rules.specs.Matches.{Matches};
ghost use Rattle.call_rules.specs.Told.{IsTold};
ghost use Rattle.call_rules.specs.Decided.{IfAnswered, IfNeeds};
ghost use Rattle.call_rules.specs.Plain.{IsRefused};
ghost use Rattle.call_rules.specs.Objects.{IsDone, IsRightful};

use crate::by_handle::rightful_object;
use crate::catalog::Catalog;
use crate::decision::{Decision, OpenObject};
use store_model::Session;
use tee_types::{Call, Code, ObjectId, Reply, WRITE_META};

/// TEE_RenamePersistentObject: why it is refused, or the object that it renames; then no object has the new name.
pub fn rename<C: Catalog>(
    catalog: &C,
    session: &Session,
    number: u32,
    id: ObjectId,
) -> Decision<OpenObject>
    ensures told { (s : MachineState) (i : ℕ) → Matches (C.entries catalog.now) (C.handles catalog.now) session.now s i
        → IfAnswered result (λ reply. IsTold s i (Call.Rename number id) reply session.now) }
    ensures renames { (s : MachineState) (i : ℕ) → Matches (C.entries catalog.now) (C.handles catalog.now) session.now s i
        → IfNeeds result (λ found. IsDone s i (Call.Rename number id) found.handle.name found.held.entry.size) }
    ensures free { (s : MachineState) (i : ℕ) → Matches (C.entries catalog.now) (C.handles catalog.now) session.now s i
        → IfNeeds result (λ _. holds s.objects (name_in s i id) ≡ false) }
    ensures unnamed { IfNeeds result (λ _. IsEntryNamed (C.entries catalog.now) (named session.now.application id) None) }
    ensures found { IfNeeds result (IsRightful (C.entries catalog.now) session.now number WRITE_META) }
    ensures refused { IfAnswered result IsRefused }
{
    match rightful_object(catalog, session, number, WRITE_META) {
        Decision::Answered(reply) => Decision::Answered(reply),
        Decision::Needs(found) => {
            if let Some(_held) = catalog.look(session.app(), id) {
                return Decision::Answered(Reply::Refused(Code::AccessConflict));
            }
            Decision::Needs(found)
        }
    }
}
