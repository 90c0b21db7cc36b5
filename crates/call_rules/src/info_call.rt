//! TEE_GetObjectInfo1, as far as the rules tell.

ghost use Rattle.std.specs.Prelude.{ℕ, Some};
ghost use Rattle.store_model.specs.Machine.{MachineState};
ghost use Rattle.call_rules.specs.Matches.{Matches};
ghost use Rattle.call_rules.specs.Plain.{IsRefused};
ghost use Rattle.call_rules.specs.Told.{IsTold};
ghost use Rattle.call_rules.specs.Decided.{IfAnswered, IfNeeds};
ghost use Rattle.call_rules.specs.Objects.{IsOfObject, IsOpenObject, told_info};

use crate::by_handle::open_object;
use crate::catalog::Catalog;
use crate::decision::{Decision, OpenObject};
use store_model::Session;
use tee_types::{Call, Reason, Reply};

/// TEE_GetObjectInfo1: why it is refused, or the object that it tells of.
pub fn info<C: Catalog>(catalog: &C, session: &Session, number: u32) -> Decision<OpenObject>
    ensures told { (s : MachineState) (i : ℕ) → Matches (C.entries catalog.now) (C.handles catalog.now) session.now s i
        → IfAnswered result (λ reply. IsTold s i (Call.Info number) reply session.now) }
    ensures tells { (s : MachineState) (i : ℕ) → Matches (C.entries catalog.now) (C.handles catalog.now) session.now s i
        → IfNeeds result (λ found. IsOfObject s i (Call.Info number) found.handle.name found.held.entry.size (told_info s found.handle)) }
    ensures found { IfNeeds result (IsOpenObject (C.entries catalog.now) session.now number) }
    ensures refused { IfAnswered result IsRefused }
{
    match open_object(catalog, session, number) {
        Some(found) => Decision::Needs(found),
        None => Decision::Answered(Reply::Misuse(Reason::BadHandle)),
    }
}
