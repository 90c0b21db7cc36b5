//! How a commit in doubt is settled before a call.

ghost use Rattle.std.specs.Prelude.{◌≡◌, ◌≤◌, true, None, IfErr, IfSome, IsOk, IsSome, OnOk};
ghost use Rattle.store_model.specs.ReplayState.{is_of_card};
ghost use Rattle.commit_gate.specs.Prepared.{DrawnCause};
ghost use Rattle.commit_gate.specs.Commits.{IsCalm};
ghost use Rattle.call_steps.specs.Devices.{DrawsOn};
ghost use Rattle.call_steps.specs.Resolved.{HasResolved, IsSettled, StaysInDoubt};
ghost use Rattle.call_steps.specs.Seen.{HasSeen};
ghost use Rattle.call_steps.specs.SessionEvents.{IsWaiting};

use commit_gate::{GuardedGate, Resolved, Session};
use core_laws::StoreName;
use rpmb_card::RpmbPort;
use tee_ports::{Entropy, StoreFile};
use tee_types::{Cause, Device};

// Draws a nonce.
fn draw_nonce<E: Entropy>(entropy: &mut E) -> Result<[u8; 16], Cause>
    ensures reliable { E.is_reliable entropy.old → IsOk result }
    ensures cause { DrawnCause (E.faults entropy.old) (E.faults entropy.new) result }
    ensures draws { DrawsOn E.is_reliable E.faults entropy.old entropy.new }
{
    let mut nonce = [0; 16];
    match entropy.draw(&mut nonce) {
        Ok(()) => Ok(nonce),
        Err(failed) => Err(Cause::Fault {
            device: Device::Entropy,
            count: failed.count,
        }),
    }
}

// Resolves the commit in doubt by one read of the card's counter.
fn resolve_once<F: StoreFile + Drop, R: RpmbPort + Drop, L: StoreName>(
    gate: &mut GuardedGate<F, R, L>,
    nonce: &[u8; 16],
) -> Result<Resolved, Cause>
    requires doubt { IsSome gate.old.gate.doubt }
    requires room { 1 ≤ gate.old.journal.spare }
    ensures { IfSome gate.old.gate.doubt (λ d. HasResolved F.state R.state nonce.now d gate.old gate.new result) }
{
    gate.resolve(nonce)
}

/// Settles the commit in doubt, if one is, by one read of the card's counter. The history tells what became of it, and the session, which
/// saw the history, is shown that.
///
/// # Errors
///
/// No nonce could be drawn, the read failed, or a verified counter is neither of the two. The commit stays in doubt, and the history as it
/// was.
pub fn settle<F: StoreFile + Drop, R: RpmbPort + Drop, L: StoreName, E: Entropy>(
    gate: &mut GuardedGate<F, R, L>,
    session: &mut Session<E>,
) -> Result<(), Cause>
    requires room { 1 ≤ gate.old.journal.spare }
    requires seen { HasSeen L.store gate.old.journal.knows session.old }
    ensures settled { OnOk result (IsSettled F.state R.state gate.old gate.new) }
    ensures idle { OnOk result (gate.new.gate.doubt ≡ None) }
    ensures calm { OnOk result (IsCalm L.store gate.new.journal.knows session.new) }
    ensures held { IfErr result (StaysInDoubt F.state R.state (E.is_reliable session.old.entropy) (E.faults session.old.entropy) (E.faults session.new.entropy) gate.old gate.new) }
    ensures cause { IfErr result (λ cause. is_of_card cause ≡ true) }
    ensures kept { IfErr result (λ _. session.new ≡ record session.old { entropy = session.new.entropy }) }
    ensures seen { HasSeen L.store gate.new.journal.knows session.new }
    ensures waits { IsWaiting L.store session.old session.new }
    ensures draws { DrawsOn E.is_reliable E.faults session.old.entropy session.new.entropy }
    // None counts a fault where the commit is settled.
    ensures undrawn { OnOk result (E.faults session.new.entropy ≡ E.faults session.old.entropy) }
    // Nothing is drawn where no commit is in doubt.
    ensures let_be { gate.old.gate.doubt ≡ None → session.new.entropy ≡ session.old.entropy }
{
    gate.reveal_invariant();
    if gate.doubt().is_none() {
        return Ok(());
    }
    let nonce = draw_nonce(session.entropy_mut())?;
    resolve_once(gate, &nonce)?;
    gate.catch_up(None, session);
    gate.reveal_invariant();
    Ok(())
}
