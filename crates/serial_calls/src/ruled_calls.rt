//! Calls on objects that the rules answer.

ghost use Rattle.std.specs.Prelude.{ℕ, OnErr};
ghost use Rattle.call_steps.specs.Rising.{devices_in};
ghost use Rattle.serial_calls.specs.Unfailed.{NoneFailed};
ghost use Rattle.serial_calls.specs.ChangeChecks.{AreOnlyRead};
ghost use Rattle.store_model.specs.Machine.{MachineState};
ghost use Rattle.call_rules.specs.Matches.{Matches};
ghost use Rattle.call_rules.specs.Plain.{IsPlain};
ghost use Rattle.call_rules.specs.Told.{IsTold};
ghost use Rattle.call_steps.specs.Answering.{LeavesHandles};
ghost use Rattle.call_steps.specs.Devices.{DrawsOn};
ghost use Rattle.serial_calls.specs.ServeReady.{IsReady};
ghost use Rattle.serial_calls.specs.ServeReplay.{ServesObject};

use call_steps::{GuardedGate, GuardedSlot, PlacedReply, Session, answer_ruled};
use core_laws::StoreName;
use rpmb_card::RpmbPort;
use std::alloc::Global;
use tee_ports::{Entropy, StoreFile};
use tee_types::{Call, NoMemory, Reply};

/// Answers a call on an object as the rules decided. No slot is looked at.
pub(crate) fn answer<F: StoreFile + Drop, R: RpmbPort + Drop, L: StoreName, E: Entropy>(
    alloc: Global,
    gate: &mut GuardedGate<F, R, L>,
    slots: &Vec<GuardedSlot<F, L>>,
    session: &mut Session<E>,
    call: &Call,
    reply: Reply,
) -> Result<PlacedReply, NoMemory>
    requires ready { IsReady R.state L.store gate.old slots.now.items session.old }
    requires told { (s : MachineState) (i : ℕ) → Matches gate.old.gate.dir.dir.entries gate.old.gate.open_handles session.old.state s i
        → IsTold s i call.now reply session.old.state }
    requires plain { IsPlain reply }
    requires handles { LeavesHandles call.now reply }
    ensures serves { ServesObject F.state R.state E.faults L.store
        (record { gate = gate.old; slots = slots.now.items; session = session.old })
        (record { gate = gate.new; slots = slots.now.items; session = session.new }) call.now result }
    ensures draws { DrawsOn E.is_reliable E.faults session.old.entropy session.new.entropy }
    ensures passed { OnErr result (NoneFailed (devices_in F.state R.state E.faults (record { gate = gate.old; slots = slots.now.items; session = session.old }))
        (devices_in F.state R.state E.faults (record { gate = gate.new; slots = slots.now.items; session = session.new }))) }
    ensures quiet { AreOnlyRead (record { gate = gate.old; slots = slots.now.items; session = session.old })
        (record { gate = gate.new; slots = slots.now.items; session = session.new }) }
{
    let kept = call.copy(alloc)?;
    Ok(answer_ruled(gate, session, kept, reply))
}
