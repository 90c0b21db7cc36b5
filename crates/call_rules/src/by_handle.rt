//! The object that a call names by a handle.

ghost use Rattle.std.specs.Prelude.{◌≡◌, ℕ, true, None, IfSome, IsNone};
ghost use Rattle.store_model.specs.Machine.{MachineState, handle_at};
ghost use Rattle.store_model.specs.Files.{is_misuse};
ghost use Rattle.call_rules.specs.Matches.{Matches};
ghost use Rattle.call_rules.specs.Plain.{IsPlain, IsRefused};
ghost use Rattle.call_rules.specs.Decided.{IfAnswered, IfNeeds};
ghost use Rattle.call_rules.specs.Objects.{IsOpenObject, IsRightful, RefusesRight};

use crate::catalog::Catalog;
use crate::decision::{Decision, OpenObject};
use store_model::Session;
use tee_types::{Reason, Reply};

/// The live handle of that number, with the entry of its object.
pub(crate) fn open_object<C: Catalog>(
    catalog: &C,
    session: &Session,
    number: u32,
) -> Option<OpenObject>
    ensures found { IfSome result (IsOpenObject (C.entries catalog.now) session.now number) }
    ensures none { IsNone result → (s : MachineState) (i : ℕ) → Matches (C.entries catalog.now) (C.handles catalog.now) session.now s i
        → handle_at session.now number ≡ None }
{
    let handle = session.handle(number)?;
    let name = handle.name;
    let held = catalog.look(name.app, name.id)?;
    Some(OpenObject { handle, held })
}

/// The live handle of that number, which has that right, with the entry of its object.
pub(crate) fn rightful_object<C: Catalog>(
    catalog: &C,
    session: &Session,
    number: u32,
    right: u32,
) -> Decision<OpenObject>
    ensures found { IfNeeds result (IsRightful (C.entries catalog.now) session.now number right) }
    ensures misuse { IfAnswered result (λ reply. is_misuse reply ≡ true) }
    ensures refusal { IfAnswered result IsRefused }
    ensures plain { IfAnswered result IsPlain }
    ensures refused { (s : MachineState) (i : ℕ) → Matches (C.entries catalog.now) (C.handles catalog.now) session.now s i
        → IfAnswered result (RefusesRight s right (handle_at session.now number)) }
{
    let Some(found) = open_object(catalog, session, number) else {
        return Decision::Answered(Reply::Misuse(Reason::BadHandle));
    };
    if !found.handle.flags.has(right) {
        return Decision::Answered(Reply::Misuse(Reason::NoRight));
    }
    Decision::Needs(found)
}
