//! How it is told why a change was not made.

ghost use Rattle.std.specs.Prelude.{◌≡◌, ◌≤◌};
ghost use Rattle.serial_calls.specs.ChangeReplies.{IsFailure};
ghost use Rattle.call_steps.specs.Fits.{SeesWhole};
ghost use Rattle.call_steps.specs.GuardedSlots.{SlotInvariant};
ghost use Rattle.call_steps.specs.AnswerServed.{IsServed};
ghost use Rattle.call_steps.specs.ServableReplies.{MayBeServed};

use call_steps::{GuardedGate, PlacedReply, Session, Slot, tell, twice};
use core_laws::StoreName;
use rpmb_card::RpmbPort;
use tee_ports::{Entropy, StoreFile};
use tee_types::{Call, Reply};

// Tells why nothing was done.
pub(crate) fn tell_failure<F: StoreFile + Drop, R: RpmbPort + Drop, L: StoreName, E: Entropy>(
    gate: &mut GuardedGate<F, R, L>,
    slot: &mut Slot<F>,
    session: &mut Session<E>,
    call: Call,
    reply: Reply,
) -> PlacedReply
    requires room { 1 ≤ gate.old.journal.spare }
    requires handle { 1 ≤ gate.old.gate.open_handles.spare }
    requires guarded { SlotInvariant L.store slot.old }
    requires failure { IsFailure reply }
    requires may { MayBeServed L.store gate.old.gate gate.old.journal.knows slot.old call reply session.old }
    ensures served { IsServed L.store gate.old gate.new session.old session.new slot.old.number call result }
    ensures reply { result.reply ≡ reply }
    ensures number { slot.new.number ≡ slot.old.number }
    ensures file { slot.new.file ≡ slot.old.file }
    ensures guarded { SlotInvariant L.store slot.new }
    ensures whole { SeesWhole gate.new.journal.knows slot.new }
    ensures entropy { session.new.entropy ≡ session.old.entropy }
{
    let (reply, told) = twice(reply);
    tell(gate, slot, session, call, reply, told)
}
