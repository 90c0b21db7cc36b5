//! Calls that wait for a commit in doubt in vain.

ghost use Rattle.std.specs.Prelude.{◌≡◌, ◌≤◌, ℕ, true, false, IsSome};
ghost use Rattle.tee_types.specs.declared.reply.Reply.TheVariants.{NotAvailable};
ghost use Rattle.store_model.specs.Calls.{reply_of};
ghost use Rattle.store_model.specs.Files.{is_misuse};
ghost use Rattle.store_model.specs.Machine.{MachineState};
ghost use Rattle.store_model.specs.ReplayState.{is_of_card};
ghost use Rattle.call_rules.specs.Matches.{Matches};
ghost use Rattle.call_steps.specs.Seen.{HasSeen};
ghost use Rattle.call_steps.specs.GateServed.{IsServed};

use commit_gate::{GuardedGate, PlacedReply, Session};
use core_laws::StoreName;
use rpmb_card::RpmbPort;
use tee_ports::{Entropy, StoreFile};
use tee_types::{Call, Cause, Reply};

/// Answers a call that is no misuse with what keeps the commit in doubt from being resolved. The doubt stays.
pub fn held_up<F: StoreFile + Drop, R: RpmbPort + Drop, L: StoreName, E: Entropy>(
    gate: &mut GuardedGate<F, R, L>,
    session: &mut Session<E>,
    call: Call,
    cause: Cause,
) -> PlacedReply
    requires room { 1 ≤ gate.old.journal.spare }
    requires seen { HasSeen L.store gate.old.journal.knows session.old }
    requires doubt { IsSome gate.old.gate.doubt }
    requires cause { is_of_card cause ≡ true }
    requires proper { (s : MachineState) (i : ℕ) → Matches gate.old.gate.dir.dir.entries gate.old.gate.open_handles session.old.state s i
        → is_misuse (reply_of s i call) ≡ false }
    ensures served { IsServed L.store call result gate.old gate.new session.old session.new }
    ensures reply { result.reply ≡ NotAvailable cause }
    ensures entropy { session.new.entropy ≡ session.old.entropy }
{
    gate.reveal_invariant();
    let place = gate.answer(session, call, Reply::NotAvailable(cause));
    PlacedReply {
        place,
        reply: Reply::NotAvailable(cause),
    }
}
