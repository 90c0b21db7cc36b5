//! TEE_CloseAndDeletePersistentObject1, as far as the rules tell.

ghost use Rattle.std.specs.Prelude.{ℕ};
ghost use Rattle.store_model.specs.Machine.{MachineState};
ghost use Rattle.call_rules.specs.Matches.{Matches};
ghost use Rattle.call_rules.specs.Told.{IsTold};
ghost use Rattle.call_rules.specs.Decided.{IfAnswered, IfNeeds};
ghost use Rattle.call_rules.specs.Plain.{IsRefused};
ghost use Rattle.call_rules.specs.Objects.{IsDone, IsRightful};

use crate::by_handle::rightful_object;
use crate::catalog::Catalog;
use crate::decision::{Decision, OpenObject};
use store_model::Session;
use tee_types::{Call, WRITE_META};

/// TEE_CloseAndDeletePersistentObject1: why it is refused, or the object that it deletes.
pub fn delete<C: Catalog>(catalog: &C, session: &Session, number: u32) -> Decision<OpenObject>
    ensures told { (s : MachineState) (i : ℕ) → Matches (C.entries catalog.now) (C.handles catalog.now) session.now s i
        → IfAnswered result (λ reply. IsTold s i (Call.Delete number) reply session.now) }
    ensures deletes { (s : MachineState) (i : ℕ) → Matches (C.entries catalog.now) (C.handles catalog.now) session.now s i
        → IfNeeds result (λ found. IsDone s i (Call.Delete number) found.handle.name found.held.entry.size) }
    ensures found { IfNeeds result (IsRightful (C.entries catalog.now) session.now number WRITE_META) }
    ensures refused { IfAnswered result IsRefused }
{
    rightful_object(catalog, session, number, WRITE_META)
}
