//! Calls that the rules answer, and that leave the session as it is.

ghost use Rattle.std.specs.Prelude.{◌≡◌, ◌≤◌, ℕ, length, None};
ghost use Rattle.store_model.specs.declared.event.Event.TheVariants.{Call as CallEvent};
ghost use Rattle.store_model.specs.declared.event.Mark.TheVariants.{Unchanged};
ghost use Rattle.store_model.specs.Machine.{MachineState};
ghost use Rattle.call_rules.specs.Matches.{Matches};
ghost use Rattle.call_rules.specs.Plain.{IsPlain};
ghost use Rattle.call_rules.specs.Told.{IsTold};
ghost use Rattle.core_laws.specs.TieLaws.{KeepsDoubt};
ghost use Rattle.commit_gate.specs.Answering.{LeavesHandles};
ghost use Rattle.commit_gate.specs.Commits.{IsCalm};
ghost use Rattle.commit_gate.specs.Ruled.{IsRuled};
ghost use Rattle.call_steps.specs.GateServed.{IsServed};

use crate::replies::twice;
use commit_gate::{GuardedGate, PlacedReply, Session};
use core_laws::StoreName;
use rpmb_card::RpmbPort;
use tee_ports::{Entropy, StoreFile};
use tee_types::{Call, Reply};

// Appends a call that the rules answered. The session is as the call leaves it.
pub(crate) fn tell<F: StoreFile + Drop, R: RpmbPort + Drop, L: StoreName, E: Entropy>(
    gate: &mut GuardedGate<F, R, L>,
    session: &mut Session<E>,
    call: Call,
    reply: Reply,
) -> PlacedReply
    requires room { 1 ≤ gate.old.journal.spare }
    requires within { gate.old.journal.knows.decided ≤ length gate.old.journal.knows.all }
    requires ruled { IsRuled L.store gate.old.journal.knows gate.old.gate.dir.dir.entries gate.old.gate.open_handles call reply session.old }
    requires plain { IsPlain reply }
    requires doubt { KeepsDoubt gate.old.gate.doubt (CallEvent session.old.number session.old.made call reply Unchanged) }
    requires handles { LeavesHandles call reply }
    ensures served { IsServed L.store call result gate.old gate.new session.old session.new }
    ensures reply { result.reply ≡ reply }
    ensures entropy { session.new.entropy ≡ session.old.entropy }
{
    let (reply, told) = twice(reply);
    let place = gate.answer_ruled(session, call, reply);
    PlacedReply { place, reply: told }
}

/// Answers a call on an object that the rules answered whole, while no commit is in doubt. The session, which saw the history, stays as it
/// is.
pub fn answer_ruled<F: StoreFile + Drop, R: RpmbPort + Drop, L: StoreName, E: Entropy>(
    gate: &mut GuardedGate<F, R, L>,
    session: &mut Session<E>,
    call: Call,
    reply: Reply,
) -> PlacedReply
    requires room { 1 ≤ gate.old.journal.spare }
    requires idle { gate.old.gate.doubt ≡ None }
    requires calm { IsCalm L.store gate.old.journal.knows session.old }
    requires told { (s : MachineState) (i : ℕ) → Matches gate.old.gate.dir.dir.entries gate.old.gate.open_handles session.old.state s i
        → IsTold s i call reply session.old.state }
    requires plain { IsPlain reply }
    requires handles { LeavesHandles call reply }
    ensures served { IsServed L.store call result gate.old gate.new session.old session.new }
    ensures reply { result.reply ≡ reply }
    ensures entropy { session.new.entropy ≡ session.old.entropy }
{
    tell(gate, session, call, reply)
}
