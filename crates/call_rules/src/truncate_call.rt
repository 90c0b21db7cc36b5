//! TEE_TruncateObjectData, as far as the rules tell.

ghost use Rattle.std.specs.Prelude.{◌≡◌, ◌≤◌, ℕ, [], ◌∷◌, Some, IfSome, IsNone};
ghost use Rattle.store_model.specs.Object.{Contents};
ghost use Rattle.store_model.specs.Machine.{MachineState, first_refusal};
ghost use Rattle.store_model.specs.Data.{spoils, range_resized, truncate_from, truncate_refusals};
ghost use Rattle.call_rules.specs.Matches.{Matches};
ghost use Rattle.call_rules.specs.Plain.{IsRefused};
ghost use Rattle.call_rules.specs.Told.{IsTold};
ghost use Rattle.call_rules.specs.Decided.{IfAnswered, IfNeeds};
ghost use Rattle.call_rules.specs.Objects.{IsOfObject, IsRightful};

use crate::by_handle::rightful_object;
use crate::catalog::Catalog;
use crate::decision::{Decision, OpenObject};
use store_model::Session;
use tee_types::{Call, Code, MAX_DATA, Reply, WRITE};

/// TEE_TruncateObjectData: why it is refused, or the object whose size it sets.
pub fn truncate<C: Catalog>(catalog: &C, session: &Session, number: u32) -> Decision<OpenObject>
    ensures told { (s : MachineState) (i size : ℕ) → Matches (C.entries catalog.now) (C.handles catalog.now) session.now s i
        → IfAnswered result (λ reply. IsTold s i (Call.Truncate number size) reply session.now) }
    ensures resizes { (s : MachineState) (i size : ℕ) → Matches (C.entries catalog.now) (C.handles catalog.now) session.now s i
        → IfNeeds result (λ found. IsOfObject s i (Call.Truncate number size) found.handle.name found.held.entry.size
        (truncate_from s size found.handle)) }
    ensures found { IfNeeds result (IsRightful (C.entries catalog.now) session.now number WRITE) }
    ensures refused { IfAnswered result IsRefused }
{
    rightful_object(catalog, session, number, WRITE)
}

/// Why a size is refused, whatever the sound object holds.
pub fn truncate_refusal(size: u32) -> Option<Reply>
    ensures refused { IfSome result (λ reply. (c : Contents) → first_refusal (truncate_refusals c size) ≡ Some reply) }
    ensures passed { IsNone result → (c : Contents) → first_refusal (truncate_refusals c size)
        ≡ first_refusal ((spoils c (range_resized c size), Reply.Corrupt) ∷ []) }
    ensures fits { IsNone result → size ≤ 1044480 }
{
    if MAX_DATA < size as usize {
        return Some(Reply::Refused(Code::NoSpace));
    }
    None
}
