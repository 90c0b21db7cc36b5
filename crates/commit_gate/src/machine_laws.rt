//! What a gate behind its lock knows of the machine. Each function does nothing: its contract is the law.

ghost use Rattle.commit_gate.specs.KnownMachine.{GuardedGatesKnow, ShownSessionsStand};

use tee_ports::Entropy;

/// A gate behind its lock knows the machine: names and sizes of its objects, and the open handles of its sessions.
pub fn guarded_gates_know<F, R>()
    ensures { GuardedGatesKnow F R }
{}

/// A session that sees the whole history stands as the machine's.
pub fn shown_sessions_stand<E: Entropy>()
    ensures { ShownSessionsStand E }
{}
