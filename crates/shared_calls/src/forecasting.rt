//! What a session's call would find at the gate, and what it would leave its application.

ghost use Rattle.std.specs.Prelude.{IfErr, IfOk};
ghost use Rattle.serial_calls.specs.CallerSessions.{IsCallerOf};
ghost use Rattle.serial_calls.specs.Devices.{DrawsOn};
ghost use Rattle.shared_calls.specs.ForeseenCalls.{EndsForecast};
ghost use Rattle.shared_calls.specs.SharedCounts.{CarriesDraws};

use crate::{DevicesName, SharedGate};
use app_totals::Forecast;
use rpmb_card::RpmbPort;
use serial_calls::{PlacedReply, Session, StoreName};
use std::alloc::Global;
use tee_ports::{Entropy, StoreFile};
use tee_types::{Call, NoMemory};

/// Tells what a session's call would find where the history stands, and what it would leave its application, once a commit in doubt is
/// resolved. Or the call is answered: it is a misuse, or the commit in doubt could not be resolved.
///
/// # Errors
///
/// Memory ran out. The session has no event more.
pub fn forecast<F: StoreFile + Drop, R: RpmbPort + Drop, L: StoreName + DevicesName, E: Entropy>(
    alloc: Global,
    gate: &mut SharedGate<F, R, L>,
    session: &mut Session<E>,
    call: &Call,
) -> Result<Result<Forecast, PlacedReply>, NoMemory>
    requires caller { IsCallerOf L.store session.old }
    ensures ends { EndsForecast L.store gate.new.journal.knows session.old session.new call.now result }
    ensures draws { DrawsOn E.is_reliable E.faults session.old.entropy session.new.entropy }
    ensures drawn { IfOk result (λ found. IfErr found (λ answer. CarriesDraws (E.faults session.old.entropy) (E.faults session.new.entropy) answer.reply)) }
{
    gate.gate.reveal_invariant();
    gate.gate.reserve(&*session)?;
    serial_calls::forecast(alloc, &mut gate.gate, session, call)
}
