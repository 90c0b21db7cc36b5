//! TEE_ReadObjectData, as far as the rules tell.

ghost use Rattle.std.specs.Prelude.{ℕ};
ghost use Rattle.store_model.specs.Machine.{MachineState};
ghost use Rattle.store_model.specs.Data.{read_from};
ghost use Rattle.call_rules.specs.Matches.{Matches};
ghost use Rattle.call_rules.specs.Plain.{IsRefused};
ghost use Rattle.call_rules.specs.Told.{IsTold};
ghost use Rattle.call_rules.specs.Decided.{IfAnswered, IfNeeds};
ghost use Rattle.call_rules.specs.Objects.{IsOfObject, IsRightful};

use crate::by_handle::rightful_object;
use crate::catalog::Catalog;
use crate::decision::{Decision, OpenObject};
use store_model::Session;
use tee_types::{Call, READ};

/// TEE_ReadObjectData: why it is refused, or the object that it reads, at the handle's position.
pub fn read<C: Catalog>(catalog: &C, session: &Session, number: u32) -> Decision<OpenObject>
    ensures told { (s : MachineState) (i size : ℕ) → Matches (C.entries catalog.now) (C.handles catalog.now) session.now s i
        → IfAnswered result (λ reply. IsTold s i (Call.Read number size) reply session.now) }
    ensures reads { (s : MachineState) (i size : ℕ) → Matches (C.entries catalog.now) (C.handles catalog.now) session.now s i
        → IfNeeds result (λ found. IsOfObject s i (Call.Read number size) found.handle.name found.held.entry.size
        (read_from s i number size found.handle)) }
    ensures found { IfNeeds result (IsRightful (C.entries catalog.now) session.now number READ) }
    ensures refused { IfAnswered result IsRefused }
{
    rightful_object(catalog, session, number, READ)
}
