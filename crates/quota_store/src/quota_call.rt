//! A call under quotas, with what stands behind the lock of its application.

ghost use Rattle.std.specs.Prelude.{◌≡◌, ◌<◌, false, IfNone, IfSome, Some, length, vec_len};
ghost use Rattle.app_totals.specs.Meant.{may_grow};
ghost use Rattle.shared_store.specs.CallerSessions.{IsCallerOf};
ghost use Rattle.shared_store.specs.Devices.{DrawsOn};
ghost use Rattle.quota_store.specs.Halves.{AreHalves, AreOthersHere, IsHalfOf};
ghost use Rattle.quota_store.specs.Draws.{CarriesOutcome};
ghost use Rattle.quota_store.specs.LockedCalls.{AreKeptAlike, CameTo, EndsLocked, KeepsHalves};
ghost use Rattle.shared_store.specs.QuotaCallers.{KeepsLimits};

use crate::app_halves::{AppHalves, take_half};
use crate::looks::{cut, join, look_first, look_last};
use crate::quota_session::QuotaSession;
use app_quota::tells_beyond;
use app_totals::{Totals, may_grow};
use history_seats::{HalfSeat, Halves, KeptSeat};
use rpmb_card::RpmbPort;
use shared_store::{DevicesName, QuotaOutcome, Session, SharedStore, StoreName};
use std::alloc::Global;
use std::sync::Wait;
use tee_ports::{Entropy, StoreFile};
use tee_types::{Call, NoMemory};

// A call that may grow an object: it is forecast, and served in the same look where it stays within the limit.
fn serve_growing<
    W: Wait,
    F: StoreFile + Drop,
    R: RpmbPort + Drop,
    L: StoreName + DevicesName,
    E: Entropy,
>(
    rt: &W,
    alloc: Global,
    store: &SharedStore<F, R, L>,
    kept: &mut Vec<Option<KeptSeat>>,
    session: &mut Session<E>,
    seat: Halves,
    limit: Totals,
    call: &Call,
) -> Result<QuotaOutcome, NoMemory>
    requires halves { AreHalves L.store kept.old.items }
    requires caller { IsCallerOf L.store (record session.old { pass = Some seat.one }) }
    requires other { IsHalfOf L.store session.old.number seat.other }
    ensures came { CameTo L.store limit (record session.old { pass = Some seat.one }) session.new call.now kept.old.items kept.new.items result }
    ensures halves { AreHalves L.store kept.new.items }
    ensures alike { AreKeptAlike kept.old.items kept.new.items }
    ensures many { length kept.new.items ≡ length kept.old.items }
    ensures draws { DrawsOn E.is_reliable E.faults session.old.entropy session.new.entropy }
    ensures drawn { CarriesOutcome (E.faults session.old.entropy) (E.faults session.new.entropy) result }
{
    let mut gate = store.gate(rt);
    let forecast = match look_first(alloc, &mut gate, kept, session, seat, call)? {
        Ok(forecast) => forecast,
        Err(answer) => return Ok(QuotaOutcome::Answered(answer)),
    };
    if tells_beyond(limit, &forecast) {
        return Ok(QuotaOutcome::Refused(forecast.place));
    }
    let answer = store.call_from(rt, alloc, gate, session, call)?;
    Ok(QuotaOutcome::Answered(answer))
}

// Another call: it is served.
fn serve_other<
    W: Wait,
    F: StoreFile + Drop,
    R: RpmbPort + Drop,
    L: StoreName + DevicesName,
    E: Entropy,
>(
    rt: &W,
    alloc: Global,
    store: &SharedStore<F, R, L>,
    session: &mut Session<E>,
    seat: Halves,
    limit: Totals,
    call: &Call,
) -> Result<QuotaOutcome, NoMemory>
    requires other_call { may_grow call.now ≡ false }
    requires caller { IsCallerOf L.store (record session.old { pass = Some seat.one }) }
    requires other { IsHalfOf L.store session.old.number seat.other }
    ensures ends { EndsLocked L.store limit (record session.old { pass = Some seat.one }) session.new call.now result }
    ensures limits { KeepsLimits L.store limit (record session.old { pass = Some seat.one }) session.new }
    ensures draws { DrawsOn E.is_reliable E.faults session.old.entropy session.new.entropy }
    ensures drawn { CarriesOutcome (E.faults session.old.entropy) (E.faults session.new.entropy) result }
{
    let mut gate = store.gate(rt);
    join(&mut gate, session, seat);
    let answer = store.call_from(rt, alloc, gate, session, call)?;
    Ok(QuotaOutcome::Answered(answer))
}

// Serves a call of a session whose kept half was taken from those behind the lock of its application, or refuses it where it would leave
// the application more than its limit. Gives the caller's half of the seat; the kept one is back.
fn serve_locked<
    W: Wait,
    F: StoreFile + Drop,
    R: RpmbPort + Drop,
    L: StoreName + DevicesName,
    E: Entropy,
>(
    rt: &W,
    alloc: Global,
    store: &SharedStore<F, R, L>,
    kept: &mut Vec<Option<KeptSeat>>,
    session: &mut Session<E>,
    seat: Halves,
    limit: Totals,
    call: &Call,
) -> (HalfSeat, Result<QuotaOutcome, NoMemory>)
    requires halves { AreHalves L.store kept.old.items }
    requires others { AreOthersHere L.store session.old.number kept.old.items }
    requires place { session.old.number < vec_len kept.old }
    requires caller { IsCallerOf L.store (record session.old { pass = Some seat.one }) }
    requires other { IsHalfOf L.store session.old.number seat.other }
    ensures ends { EndsLocked L.store limit (record session.old { pass = Some seat.one }) (record session.new { pass = Some result.0 }) call.now result.1 }
    ensures limits { KeepsLimits L.store limit (record session.old { pass = Some seat.one }) (record session.new { pass = Some result.0 }) }
    ensures halves { KeepsHalves L.store session.old.number kept.old.items kept.new.items }
    ensures draws { DrawsOn E.is_reliable E.faults session.old.entropy session.new.entropy }
    ensures drawn { CarriesOutcome (E.faults session.old.entropy) (E.faults session.new.entropy) result.1 }
{
    if may_grow(call) {
        let outcome = serve_growing(rt, alloc, store, kept, session, seat, limit, call);
        let mut gate = store.gate(rt);
        (look_last(&mut gate, kept, session), outcome)
    } else {
        let outcome = serve_other(rt, alloc, store, session, seat, limit, call);
        let mut gate = store.gate(rt);
        (cut(&mut gate, kept, session), outcome)
    }
}

/// Serves a call of a session with what stands behind the lock of its application, or refuses it where it would leave the application more
/// than its limit. None where that is another application's, or has no half of the session's seat: nothing was done.
pub(crate) fn serve_app<
    W: Wait,
    F: StoreFile + Drop,
    R: RpmbPort + Drop,
    L: StoreName + DevicesName,
    E: Entropy,
>(
    rt: &W,
    alloc: Global,
    store: &SharedStore<F, R, L>,
    halves: &mut AppHalves<L>,
    session: &mut QuotaSession<E>,
    call: &Call,
) -> Option<Result<QuotaOutcome, NoMemory>>
    requires caller { IsCallerOf L.store session.old.caller }
    ensures ends { IfSome result (EndsLocked L.store session.old.limit session.old.caller session.new.caller call.now) }
    ensures none { IfNone result (session.new ≡ session.old) }
    ensures limits { KeepsLimits L.store session.old.limit session.old.caller session.new.caller }
    ensures limit { session.new.limit ≡ session.old.limit }
    ensures draws { DrawsOn E.is_reliable E.faults session.old.caller.entropy session.new.caller.entropy }
    ensures drawn { IfSome result (CarriesOutcome (E.faults session.old.caller.entropy) (E.faults session.new.caller.entropy)) }
{
    if halves.app != session.app() {
        return None;
    }
    let other = take_half(&mut halves.kept, session.number())?;
    let one = session.lend_half();
    session.session.make_room(alloc);
    let (half, outcome) = serve_locked(
        rt,
        alloc,
        store,
        &mut halves.kept,
        &mut session.session,
        Halves { one, other },
        session.limit,
        call,
    );
    session.half = Some(half);
    Some(outcome)
}
