//! The looks of a call at the gate, before it and behind it.

ghost use Rattle.std.specs.Prelude.{◌≡◌, ◌<◌, IfErr, IfOk, None, Some, vec_len};
ghost use Rattle.shared_store.specs.CallerSessions.{IsCallerOf};
ghost use Rattle.shared_store.specs.Devices.{DrawsOn};
ghost use Rattle.shared_store.specs.ForeseenCalls.{EndsForecast};
ghost use Rattle.shared_store.specs.SharedCounts.{CarriesDraws};
ghost use Rattle.quota_store.specs.Halves.{AreHalves, IsHalfOf, halves_shown};
ghost use Rattle.quota_store.specs.LockedCalls.{AreKeptAlike};
ghost use Rattle.quota_store.specs.Looks.{HasPut, HaveBeenShown};

use crate::app_halves::{put_half, show_halves};
use app_totals::Forecast;
use history_seats::{HalfSeat, Halves, KeptSeat};
use rpmb_card::RpmbPort;
use shared_store::{DevicesName, PlacedReply, Session, SharedGate, StoreName, forecast};
use std::alloc::Global;
use tee_ports::{Entropy, StoreFile};
use tee_types::{Call, NoMemory};

/// Joins the halves of a session's seat.
pub(crate) fn join<F: StoreFile + Drop, R: RpmbPort + Drop, L: StoreName + DevicesName, E: Entropy>(
    gate: &mut SharedGate<F, R, L>,
    session: &mut Session<E>,
    seat: Halves,
)
    requires caller { IsCallerOf L.store (record session.old { pass = Some seat.one }) }
    requires other { IsHalfOf L.store session.old.number seat.other }
    ensures same { gate.new ≡ gate.old }
    ensures session { session.new ≡ record session.old { pass = Some seat.one } }
{
    let Halves { one, other } = seat;
    gate.gate.join(session, one, other);
}

/// Joins the halves of a session's seat, forecasts its call, and shows the kept halves of the others the history.
///
/// # Errors
///
/// Memory ran out. The session has no event more.
pub(crate) fn look_first<
    F: StoreFile + Drop,
    R: RpmbPort + Drop,
    L: StoreName + DevicesName,
    E: Entropy,
>(
    alloc: Global,
    gate: &mut SharedGate<F, R, L>,
    kept: &mut Vec<Option<KeptSeat>>,
    session: &mut Session<E>,
    seat: Halves,
    call: &Call,
) -> Result<Result<Forecast, PlacedReply>, NoMemory>
    requires halves { AreHalves L.store kept.old.items }
    requires caller { IsCallerOf L.store (record session.old { pass = Some seat.one }) }
    requires other { IsHalfOf L.store session.old.number seat.other }
    ensures ends { EndsForecast L.store gate.new.journal.knows (record session.old { pass = Some seat.one }) session.new call.now result }
    ensures shown { kept.new.items ≡ halves_shown gate.new.journal.knows kept.old.items }
    ensures halves { AreHalves L.store kept.new.items }
    ensures alike { AreKeptAlike kept.old.items kept.new.items }
    ensures draws { DrawsOn E.is_reliable E.faults session.old.entropy session.new.entropy }
    ensures drawn { IfOk result (λ found. IfErr found (λ answer. CarriesDraws (E.faults session.old.entropy) (E.faults session.new.entropy) answer.reply)) }
{
    join(gate, session, seat);
    let foreseen = forecast(alloc, gate, session, call);
    show_halves(&mut gate.gate, kept);
    foreseen
}

/// Cuts a session's seat again. Gives its caller's half; the kept one is put to the others.
pub(crate) fn cut<F: StoreFile + Drop, R: RpmbPort + Drop, L: StoreName + DevicesName, E: Entropy>(
    gate: &mut SharedGate<F, R, L>,
    kept: &mut Vec<Option<KeptSeat>>,
    session: &mut Session<E>,
) -> HalfSeat
    requires halves { AreHalves L.store kept.old.items }
    requires caller { IsCallerOf L.store session.old }
    ensures same { gate.new ≡ gate.old }
    ensures session { session.new ≡ record session.old { pass = None } }
    ensures half { session.old.pass ≡ Some result }
    ensures kept { HasPut L.store session.old.number result.knows kept.old.items kept.new.items }
{
    let Halves { one, other } = gate.gate.cut(session);
    put_half(kept, other);
    one
}

/// Cuts a session's seat again, and shows all kept halves the history, its own too. Gives its caller's half.
pub(crate) fn look_last<
    F: StoreFile + Drop,
    R: RpmbPort + Drop,
    L: StoreName + DevicesName,
    E: Entropy,
>(
    gate: &mut SharedGate<F, R, L>,
    kept: &mut Vec<Option<KeptSeat>>,
    session: &mut Session<E>,
) -> HalfSeat
    requires halves { AreHalves L.store kept.old.items }
    requires caller { IsCallerOf L.store session.old }
    requires place { session.old.number < vec_len kept.old }
    ensures session { session.new ≡ record session.old { pass = None } }
    ensures half { session.old.pass ≡ Some result }
    ensures shown { HaveBeenShown L.store session.old.number result.knows kept.old.items kept.new.items }
{
    let half = cut(gate, kept, session);
    show_halves(&mut gate.gate, kept);
    half
}
