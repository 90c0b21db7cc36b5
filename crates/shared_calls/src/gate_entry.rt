//! How each validation of a call at the gate begins.

ghost use Rattle.std.specs.Prelude.{◌≡◌, ◌≢◌, false, true, IfOk, IsNone, IfSome, None};
ghost use Rattle.rpmb_card.specs.Protocol.{last_counter};
ghost use Rattle.serial_calls.specs.CallerSessions.{IsCallerOf};
ghost use Rattle.serial_calls.specs.Devices.{DrawsOn};
ghost use Rattle.serial_calls.specs.Rulings.{is_on_object};
ghost use Rattle.shared_calls.specs.SharedReady.{IsReady};
ghost use Rattle.shared_calls.specs.Attempts.{EndsAttempt};
ghost use Rattle.shared_calls.specs.SharedCounts.{CarriesDraws};

use crate::{DevicesName, SharedGate};
use rpmb_card::RpmbPort;
use serial_calls::{PlacedReply, Session, StoreName, answer_alone};
use std::alloc::Global;
use tee_ports::{Entropy, StoreFile};
use tee_types::{Call, NoMemory};

/// Makes room, and serves a call as far as the gate does alone: the answer, or none where the call is on an object. Then the gate is ready
/// for it.
///
/// # Errors
///
/// Memory ran out. The session has no event more.
pub(crate) fn begin<
    F: StoreFile + Drop,
    R: RpmbPort + Drop,
    L: StoreName + DevicesName,
    E: Entropy,
>(
    alloc: Global,
    gate: &mut SharedGate<F, R, L>,
    session: &mut Session<E>,
    call: &Call,
) -> Result<Option<PlacedReply>, NoMemory>
    requires caller { IsCallerOf L.store session.old }
    ensures ends { EndsAttempt L.store session.old session.new call.now result }
    ensures ready { IfOk result (λ answer. IsNone answer → IsReady L.store gate.new session.new) }
    ensures on { IfOk result (λ answer. IsNone answer → is_on_object call.now ≡ true) }
    ensures draws { DrawsOn E.is_reliable E.faults session.old.entropy session.new.entropy }
    // Where the call is left to an object's file, the session's entropy counted no fault.
    ensures undrawn { IfOk result (λ answer. IsNone answer → E.faults session.new.entropy ≡ E.faults session.old.entropy) }
    ensures drawn { IfOk result (λ found. IfSome found (λ answer. CarriesDraws (E.faults session.old.entropy) (E.faults session.new.entropy) answer.reply)) }
    // Where no commit is in doubt nothing is drawn, and the counter stays.
    ensures let_be { gate.old.gate.doubt ≡ None → session.new.entropy ≡ session.old.entropy }
    ensures counter { IfOk result (λ answer. IsNone answer → gate.old.gate.doubt ≡ None → gate.new.gate.counter ≡ gate.old.gate.counter) }
{
    gate.gate.reveal_invariant();
    gate.gate.reserve(&*session)?;
    if let Some(answer) = answer_alone(alloc, &mut gate.gate, session, call)? {
        return Ok(Some(answer));
    }
    gate.gate.reserve(&*session)?;
    Ok(None)
}

/// Whether the card's counter is at its end, so that no commit can follow. No commit is in doubt.
pub(crate) fn is_spent<F: StoreFile + Drop, R: RpmbPort + Drop, L: StoreName + DevicesName>(
    gate: &SharedGate<F, R, L>,
) -> bool
    requires idle { gate.now.gate.doubt ≡ None }
    ensures spent { result ≡ true → gate.now.gate.counter ≡ last_counter }
    ensures unspent { result ≡ false → gate.now.gate.counter ≢ last_counter }
{
    gate.gate.counter() == u32::MAX
}
