//! What a call would leave its application, as far as the directory, the open handles and the caller's session tell: as if each object
//! were sound with no bad block, and the store had room for one object more.

ghost use Rattle.std.specs.Prelude.{◌≡◌, ◌≤◌, ◌+◌, ◌*◌, ◌^◌, ℕ};
ghost use Rattle.app_totals.specs.Meant.{grown};
ghost use Rattle.app_totals.specs.OwnHandles.{HasOwnHandles};
ghost use Rattle.store_model.specs.Machine.{MachineState};
ghost use Rattle.call_rules.specs.Growth.{allowed_totals, placed_totals};
ghost use Rattle.call_rules.specs.Matches.{Matches};

use crate::catalog::Catalog;
use crate::create_call::{create_refusal, is_busy};
use crate::decision::Decision;
use crate::truncate_call::truncate;
use crate::write_call::write;
use app_totals::{Grown, Totals};
use dir_index::Held;
use store_model::Session;
use tee_types::{Bytes, Call, Flags, MAX_DATA, ObjectId};

// What is left where an object that had `old` bytes of data gets `new` ones, if so many are allowed, and more.
fn resized(held: Totals, old: u32, new: u128) -> Option<Grown>
    requires { held.bytes ≤ 256 * 2 ^ 32 }
    ensures { result ≡ allowed_totals held old new }
{
    if new <= u128::from(old) || (MAX_DATA as u128) < new {
        return None;
    }
    Some(Totals {
        objects: held.objects,
        bytes: held.bytes + (new - u128::from(old)) as u64,
    })
}

// What is left where an object of that size comes, in place of the one that is found.
fn placed(held: Totals, found: Option<Held>, size: u32) -> Option<Grown>
    requires objects { held.objects ≤ 256 }
    requires bytes { held.bytes ≤ 256 * 2 ^ 32 }
    requires allowed { size ≤ 1044480 }
    ensures { result ≡ placed_totals held found size }
{
    match found {
        Some(old) => resized(held, old.entry.size, u128::from(size)),
        None => Some(Totals {
            objects: held.objects + 1,
            bytes: held.bytes + u64::from(size),
        }),
    }
}

// A create.
fn of_create<C: Catalog>(
    catalog: &C,
    session: &Session,
    id: ObjectId,
    flags: Flags,
    attributes: &Bytes,
    bytes: &Bytes,
) -> Option<Grown>
    ensures { (s : MachineState) (i : ℕ) → Matches (C.entries catalog.now) (C.handles catalog.now) session.now s i
        → result ≡ grown s i (Call.Create id flags attributes.now bytes.now) }
{
    let app = session.app();
    let found = catalog.look(app, id);
    let held = found.is_some();
    let busy = is_busy(catalog, &found);
    if let Some(_refused) = create_refusal(session, flags, attributes.len(), held, busy) {
        return None;
    }
    if MAX_DATA < bytes.len() {
        return None;
    }
    placed(catalog.totals(app), found, bytes.len() as u32)
}

// A write.
fn of_write<C: Catalog>(catalog: &C, session: &Session, number: u32, bytes: &Bytes) -> Option<Grown>
    ensures { (s : MachineState) (i : ℕ) → Matches (C.entries catalog.now) (C.handles catalog.now) session.now s i
        → HasOwnHandles session.now → result ≡ grown s i (Call.Write number bytes.now) }
{
    match write(catalog, session, number, bytes) {
        Decision::Answered(_refused) => None,
        Decision::Needs(found) => {
            let old = found.held.entry.size;
            let end = u128::from(found.handle.position) + bytes.len() as u128;
            resized(catalog.totals(session.app()), old, end.max(u128::from(old)))
        }
    }
}

// A truncation.
fn of_truncate<C: Catalog>(catalog: &C, session: &Session, number: u32, size: u32) -> Option<Grown>
    ensures { (s : MachineState) (i : ℕ) → Matches (C.entries catalog.now) (C.handles catalog.now) session.now s i
        → HasOwnHandles session.now → result ≡ grown s i (Call.Truncate number size) }
{
    match truncate(catalog, session, number) {
        Decision::Answered(_refused) => None,
        Decision::Needs(found) => {
            let old = found.held.entry.size;
            resized(catalog.totals(session.app()), old, u128::from(size))
        }
    }
}

/// What the call would leave its application, where it raises one of the two numbers.
pub fn grown<C: Catalog>(catalog: &C, session: &Session, call: &Call) -> Option<Grown>
    ensures { (s : MachineState) (i : ℕ) → Matches (C.entries catalog.now) (C.handles catalog.now) session.now s i
        → HasOwnHandles session.now → result ≡ grown s i call.now }
{
    match call {
        Call::Create {
            id,
            flags,
            attributes,
            bytes,
        } => of_create(catalog, session, *id, *flags, attributes, bytes),
        Call::Write { handle, bytes } => of_write(catalog, session, *handle, bytes),
        Call::Truncate { handle, size } => of_truncate(catalog, session, *handle, *size),
        _ => None,
    }
}
