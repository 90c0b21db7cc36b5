//! How a reply that changes nothing is appended with the slot of its call's object.

ghost use Rattle.std.specs.Prelude.{◌≡◌, ◌≤◌};
ghost use Rattle.serial_calls.specs.Appending.{MayBeAppended};
ghost use Rattle.call_steps.specs.Fits.{SeesWhole};
ghost use Rattle.call_steps.specs.GuardedSlots.{SlotInvariant};
ghost use Rattle.call_steps.specs.PlainReplies.{HasNoBytes};
ghost use Rattle.call_steps.specs.AnswerServed.{IsServed};

use call_steps::{GuardedGate, PlacedReply, Session, Slot, twice};
use core_laws::StoreName;
use rpmb_card::RpmbPort;
use tee_ports::{Entropy, StoreFile};
use tee_types::{Call, Reply};

// Appends a reply with the slot of the object, and tells it.
pub(crate) fn append<F: StoreFile + Drop, R: RpmbPort + Drop, L: StoreName, E: Entropy>(
    gate: &mut GuardedGate<F, R, L>,
    slot: &mut Slot<F>,
    session: &mut Session<E>,
    call: Call,
    reply: Reply,
) -> PlacedReply
    requires room { 1 ≤ gate.old.journal.spare }
    requires handle { 1 ≤ gate.old.gate.open_handles.spare }
    requires guarded { SlotInvariant L.store slot.old }
    requires bare { HasNoBytes reply }
    requires may { MayBeAppended L.store gate.old.gate gate.old.journal.knows slot.old call reply session.old }
    ensures served { IsServed L.store gate.old gate.new session.old session.new slot.old.number call result }
    ensures reply { result.reply ≡ reply }
    ensures number { slot.new.number ≡ slot.old.number }
    ensures file { slot.new.file ≡ slot.old.file }
    ensures guarded { SlotInvariant L.store slot.new }
    ensures whole { SeesWhole gate.new.journal.knows slot.new }
    ensures entropy { session.new.entropy ≡ session.old.entropy }
{
    gate.reveal_invariant();
    let seat = slot.lend_seat();
    let (reply, told) = twice(reply);
    let (place, seat) = gate.answer_with(seat, session, call, reply);
    slot.give_seat(seat);
    PlacedReply { place, reply: told }
}
