//! What a session's call would find at the gate, and what it would leave its application.

ghost use Rattle.std.specs.Prelude.{◌≡◌, ◌≤◌, IfOk, None, OnOk};
ghost use Rattle.commit_gate.specs.CallerSessions.{IsCallerOf};
ghost use Rattle.call_steps.specs.Devices.{DrawsOn};
ghost use Rattle.call_steps.specs.Foreseen.{Forecasts};

use crate::gate_answers::answer_first;
use app_totals::Forecast;
use commit_gate::{GuardedGate, PlacedReply, Session};
use core_laws::StoreName;
use rpmb_card::RpmbPort;
use std::alloc::Global;
use tee_ports::{Entropy, StoreFile};
use tee_types::{Call, NoMemory};

/// Tells what a session's call would find where the history stands, and what it would leave its application, once a commit in doubt is
/// resolved. Or the call is answered: it is a misuse, or the commit in doubt could not be resolved.
///
/// # Errors
///
/// Memory ran out. The session is as it was but that it may have been shown the history.
pub fn forecast<F: StoreFile + Drop, R: RpmbPort + Drop, L: StoreName, E: Entropy>(
    alloc: Global,
    gate: &mut GuardedGate<F, R, L>,
    session: &mut Session<E>,
    call: &Call,
) -> Result<Result<Forecast, PlacedReply>, NoMemory>
    requires room { 2 ≤ gate.old.journal.spare }
    requires caller { IsCallerOf L.store session.old }
    ensures forecasts { Forecasts F.state R.state L.store call.now gate.old gate.new session.old session.new
        (E.is_reliable session.old.entropy) (E.faults session.old.entropy) (E.faults session.new.entropy) result }
    ensures draws { DrawsOn E.is_reliable E.faults session.old.entropy session.new.entropy }
    // Where it tells, no draw failed.
    ensures undrawn { IfOk result (λ told. OnOk told (E.faults session.new.entropy ≡ E.faults session.old.entropy)) }
    // Nothing is drawn where no commit is in doubt.
    ensures let_be { gate.old.gate.doubt ≡ None → session.new.entropy ≡ session.old.entropy }
{
    gate.catch_up(None, session);
    if let Some(answer) = answer_first(alloc, gate, session, call)? {
        return Ok(Err(answer));
    }
    gate.reveal_invariant();
    Ok(Ok(gate.forecast(session, call)))
}
