//! TEE_SeekObjectData.

ghost use Rattle.std.specs.Prelude.{◌≡◌, ◌+◌, ℕ, true, false, Some, pos, ◌+ℤ◌, int_lt, MatchOption};
ghost use Rattle.store_model.specs.Machine.{MachineState};
ghost use Rattle.store_model.specs.ReplayState.{is_undone};
ghost use Rattle.store_model.specs.Data.{at_least_zero, seek_base};
ghost use Rattle.call_rules.specs.Matches.{Matches};
ghost use Rattle.call_rules.specs.Plain.{IsPlain};
ghost use Rattle.call_rules.specs.Told.{IsTold};

use crate::by_handle::open_object;
use crate::catalog::Catalog;
use store_model::{Handle, Session};
use tee_types::{Call, Code, MAX_POSITION, Reason, Reply, Whence};

// The place from which a seek counts.
fn seek_base(whence: Whence, position: u32, size: u32) -> u32
    ensures { result ≡ seek_base whence position size }
{
    match whence {
        Whence::Set => 0,
        Whence::Cur => position,
        Whence::End => size,
    }
}

// The position that lies so many bytes from the base, 0 where that is below zero; none where it is past the greatest position.
fn sought(base: u32, offset: i64) -> Option<u32>
    ensures { MatchOption result
        (int_lt (pos 4294967295) (pos base +ℤ offset) ≡ true)
        (λ position. (int_lt (pos 4294967295) (pos base +ℤ offset) ≡ false) × (position ≡ at_least_zero (pos base +ℤ offset))) }
{
    let target = base as i128 + offset as i128;
    if (MAX_POSITION as i128) < target {
        return None;
    }
    Some(target.max(0) as u32)
}

/// TEE_SeekObjectData: what it is answered. Where it is done, the handle is at the new position.
pub fn seek<C: Catalog>(
    catalog: &C,
    session: &mut Session,
    number: u32,
    offset: i64,
    whence: Whence,
) -> Reply
    ensures told { (s : MachineState) (i : ℕ) → Matches (C.entries catalog.now) (C.handles catalog.now) session.old s i
        → IsTold s i (Call.Seek number offset whence) result session.new }
    // A call that was not done leaves the session as it was.
    ensures undone { is_undone result ≡ true → session.new ≡ session.old }
    ensures application { session.new.application ≡ session.old.application }
    ensures plain { IsPlain result }
{
    let Some(found) = open_object(catalog, session, number) else {
        return Reply::Misuse(Reason::BadHandle);
    };
    let base = seek_base(whence, found.handle.position, found.held.entry.size);
    let Some(position) = sought(base, offset) else {
        return Reply::Refused(Code::Overflow);
    };
    session.replace(
        number,
        Handle {
            position,
            ..found.handle
        },
    );
    Reply::Done
}
