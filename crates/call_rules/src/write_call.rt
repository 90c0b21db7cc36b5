//! TEE_WriteObjectData, as far as the rules tell.

ghost use Rattle.std.specs.Prelude.{length, ◌==◌, ◌≡◌, ◌+◌, ◌≤◌, ℕ, [], ◌∷◌, false, Some, IfSome, IsNone};
ghost use Rattle.store_model.specs.Object.{Contents};
ghost use Rattle.store_model.specs.Machine.{MachineState, first_refusal};
ghost use Rattle.store_model.specs.Data.{spoils, range_written, write_from, write_refusals};
ghost use Rattle.call_rules.specs.Matches.{Matches};
ghost use Rattle.call_rules.specs.Plain.{IsPlain};
ghost use Rattle.call_rules.specs.Told.{IsTold};
ghost use Rattle.call_rules.specs.Decided.{IfAnswered, IfNeeds};
ghost use Rattle.call_rules.specs.Objects.{IsOfObject, IsRightful};

use crate::by_handle::rightful_object;
use crate::catalog::Catalog;
use crate::decision::{Decision, OpenObject};
use store_model::Session;
use tee_types::{Bytes, Call, Code, MAX_DATA, MAX_POSITION, Reply, WRITE};

/// TEE_WriteObjectData: why it is refused, or the object that it changes, at the handle's position. A write of no bytes is done at once.
pub fn write<C: Catalog>(
    catalog: &C,
    session: &Session,
    number: u32,
    bytes: &Bytes,
) -> Decision<OpenObject>
    ensures told { (s : MachineState) (i : ℕ) → Matches (C.entries catalog.now) (C.handles catalog.now) session.now s i
        → IfAnswered result (λ reply. IsTold s i (Call.Write number bytes.now) reply session.now) }
    ensures writes { (s : MachineState) (i : ℕ) → Matches (C.entries catalog.now) (C.handles catalog.now) session.now s i
        → IfNeeds result (λ found. IsOfObject s i (Call.Write number bytes.now) found.handle.name found.held.entry.size
        (write_from s i number bytes.now found.handle)) }
    ensures found { IfNeeds result (IsRightful (C.entries catalog.now) session.now number WRITE) }
    ensures some { IfNeeds result (λ found. (length bytes.now == 0) ≡ false) }
    ensures plain { IfAnswered result IsPlain }
{
    match rightful_object(catalog, session, number, WRITE) {
        Decision::Answered(reply) => Decision::Answered(reply),
        Decision::Needs(found) => {
            if bytes.is_empty() {
                return Decision::Answered(Reply::Done);
            }
            Decision::Needs(found)
        }
    }
}

/// Why a write of so many bytes at that position is refused, whatever the sound object holds.
pub fn write_refusal(position: u32, count: usize) -> Option<Reply>
    ensures refused { IfSome result (λ reply. (c : Contents) → first_refusal (write_refusals c position count) ≡ Some reply) }
    ensures passed { IsNone result → (c : Contents) → first_refusal (write_refusals c position count)
        ≡ first_refusal ((spoils c (range_written c position count), Reply.Corrupt) ∷ []) }
    ensures fits { IsNone result → position + count ≤ 1044480 }
{
    let end = position as u128 + count as u128;
    if (MAX_POSITION as u128) < end {
        return Some(Reply::Refused(Code::Overflow));
    }
    if (MAX_DATA as u128) < end {
        return Some(Reply::Refused(Code::NoSpace));
    }
    None
}
