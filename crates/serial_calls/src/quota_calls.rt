//! The calls under a quota.

ghost use Rattle.std.specs.Prelude.{◌≡◌, ◌≤◌, true, false, length, OnErr};
ghost use Rattle.app_totals.specs.Meant.{may_grow};
ghost use Rattle.call_steps.specs.CallerSessions.{IsCallerOf};
ghost use Rattle.call_steps.specs.Devices.{DrawsOn};
ghost use Rattle.call_steps.specs.Rising.{devices_in};
ghost use Rattle.call_steps.specs.Slots.{AreSlots};
ghost use Rattle.hmac_keys.specs.KeyTable.{ssk};
ghost use Rattle.serial_calls.specs.QuotaCallers.{IfRefused, IsRefusedRightly, KeepsLimits, answer_in};
ghost use Rattle.serial_calls.specs.ServedAnswers.{ServesCall};
ghost use Rattle.serial_calls.specs.Unfailed.{NoneFailed};

use crate::calls::{serve, serve_object};
use crate::quota_outcome::QuotaOutcome;
use app_quota::tells_beyond;
use app_totals::{Totals, may_grow};
use call_steps::{GuardedGate, GuardedSlot, Session, forecast};
use core_laws::StoreName;
use hmac_keys::SecretKey;
use rpmb_card::RpmbPort;
use std::alloc::Global;
use tee_ports::{Entropy, StoreFile};
use tee_types::{Call, NoMemory};

// Serves a call that may not grow an object.
fn serve_other<F: StoreFile + Drop, R: RpmbPort + Drop, L: StoreName, E: Entropy>(
    alloc: Global,
    gate: &mut GuardedGate<F, R, L>,
    slots: &mut Vec<GuardedSlot<F, L>>,
    storage_key: &SecretKey,
    session: &mut Session<E>,
    limit: Totals,
    call: &Call,
) -> Result<QuotaOutcome, NoMemory>
    requires other { may_grow call.now ≡ false }
    requires caller { IsCallerOf L.store session.old }
    requires slots { AreSlots slots.old.items }
    requires few { length L.store.mounted.applications ≤ 16 }
    requires keyed { storage_key.now ≡ ssk L.store.keys.huk L.store.keys.chip }
    ensures serves { ServesCall F.state R.state E.faults L.store
        (record { gate = gate.old; slots = slots.old.items; session = session.old })
        (record { gate = gate.new; slots = slots.new.items; session = session.new }) call.now (answer_in result) }
    ensures limits { KeepsLimits L.store limit session.old session.new }
    ensures refused { IfRefused result (IsRefusedRightly L.store limit session.old session.new call.now) }
    ensures draws { DrawsOn E.is_reliable E.faults session.old.entropy session.new.entropy }
    ensures passed { OnErr (answer_in result) (NoneFailed (devices_in F.state R.state E.faults (record { gate = gate.old; slots = slots.old.items; session = session.old }))
        (devices_in F.state R.state E.faults (record { gate = gate.new; slots = slots.new.items; session = session.new }))) }
{
    let answer = serve(alloc, gate, slots, storage_key, session, call)?;
    Ok(QuotaOutcome::Answered(answer))
}

// Serves a call that may grow an object, once it was forecast to stay within the limit.
fn serve_growing<F: StoreFile + Drop, R: RpmbPort + Drop, L: StoreName, E: Entropy>(
    alloc: Global,
    gate: &mut GuardedGate<F, R, L>,
    slots: &mut Vec<GuardedSlot<F, L>>,
    storage_key: &SecretKey,
    session: &mut Session<E>,
    limit: Totals,
    call: &Call,
) -> Result<QuotaOutcome, NoMemory>
    requires grows { may_grow call.now ≡ true }
    requires caller { IsCallerOf L.store session.old }
    requires slots { AreSlots slots.old.items }
    requires few { length L.store.mounted.applications ≤ 16 }
    requires keyed { storage_key.now ≡ ssk L.store.keys.huk L.store.keys.chip }
    ensures serves { ServesCall F.state R.state E.faults L.store
        (record { gate = gate.old; slots = slots.old.items; session = session.old })
        (record { gate = gate.new; slots = slots.new.items; session = session.new }) call.now (answer_in result) }
    ensures limits { KeepsLimits L.store limit session.old session.new }
    ensures refused { IfRefused result (IsRefusedRightly L.store limit session.old session.new call.now) }
    ensures draws { DrawsOn E.is_reliable E.faults session.old.entropy session.new.entropy }
    ensures passed { OnErr (answer_in result) (NoneFailed (devices_in F.state R.state E.faults (record { gate = gate.old; slots = slots.old.items; session = session.old }))
        (devices_in F.state R.state E.faults (record { gate = gate.new; slots = slots.new.items; session = session.new }))) }
{
    gate.reveal_invariant();
    gate.reserve(&*session)?;
    let forecast = match forecast(alloc, gate, session, call)? {
        Ok(forecast) => forecast,
        Err(answer) => return Ok(QuotaOutcome::Answered(answer)),
    };
    if tells_beyond(limit, &forecast) {
        return Ok(QuotaOutcome::Refused(forecast.place));
    }
    // A landing may have taken of that room.
    gate.reserve(&*session)?;
    gate.reveal_invariant();
    let answer = serve_object(alloc, gate, slots, storage_key, session, call)?;
    Ok(QuotaOutcome::Answered(answer))
}

/// Serves a session's call as `serve` does; but where it would leave its application more than `limit`, it is refused, and has no event.
///
/// # Errors
///
/// Memory ran out. Nothing was appended for the call.
pub fn serve_within<F: StoreFile + Drop, R: RpmbPort + Drop, L: StoreName, E: Entropy>(
    alloc: Global,
    gate: &mut GuardedGate<F, R, L>,
    slots: &mut Vec<GuardedSlot<F, L>>,
    storage_key: &SecretKey,
    session: &mut Session<E>,
    limit: Totals,
    call: &Call,
) -> Result<QuotaOutcome, NoMemory>
    requires caller { IsCallerOf L.store session.old }
    requires slots { AreSlots slots.old.items }
    requires few { length L.store.mounted.applications ≤ 16 }
    requires keyed { storage_key.now ≡ ssk L.store.keys.huk L.store.keys.chip }
    ensures serves { ServesCall F.state R.state E.faults L.store
        (record { gate = gate.old; slots = slots.old.items; session = session.old })
        (record { gate = gate.new; slots = slots.new.items; session = session.new }) call.now (answer_in result) }
    ensures limits { KeepsLimits L.store limit session.old session.new }
    ensures refused { IfRefused result (IsRefusedRightly L.store limit session.old session.new call.now) }
    ensures draws { DrawsOn E.is_reliable E.faults session.old.entropy session.new.entropy }
    // Where it was refused, or memory ran out, no device counted a fault.
    ensures passed { OnErr (answer_in result) (NoneFailed (devices_in F.state R.state E.faults (record { gate = gate.old; slots = slots.old.items; session = session.old }))
        (devices_in F.state R.state E.faults (record { gate = gate.new; slots = slots.new.items; session = session.new }))) }
{
    if may_grow(call) {
        serve_growing(alloc, gate, slots, storage_key, session, limit, call)
    } else {
        serve_other(alloc, gate, slots, storage_key, session, limit, call)
    }
}
