//! How the answer that an object's file gave is appended.

ghost use Rattle.std.specs.Prelude.{◌≡◌, ◌≤◌};
ghost use Rattle.object_slots.specs.Fits.{SeesWhole};
ghost use Rattle.object_slots.specs.GuardedSlots.{SlotInvariant};
ghost use Rattle.call_steps.specs.AnswerServed.{IsServed};
ghost use Rattle.call_steps.specs.ServableReplies.{MayBeServed};

use commit_gate::{GuardedGate, PlacedReply, Session};
use core_laws::StoreName;
use object_slots::Slot;
use rpmb_card::RpmbPort;
use tee_ports::{Entropy, StoreFile};
use tee_types::{Call, Reply};

/// Appends the reply that an object's file gave, and tells it. `told` is a copy of the reply. The session is already as the call leaves
/// it.
pub fn tell<F: StoreFile + Drop, R: RpmbPort + Drop, L: StoreName, E: Entropy>(
    gate: &mut GuardedGate<F, R, L>,
    slot: &mut Slot<F>,
    session: &mut Session<E>,
    call: Call,
    reply: Reply,
    told: Reply,
) -> PlacedReply
    requires room { 1 ≤ gate.old.journal.spare }
    requires handle { 1 ≤ gate.old.gate.open_handles.spare }
    requires guarded { SlotInvariant L.store slot.old }
    requires copied { told ≡ reply }
    requires may { MayBeServed L.store gate.old.gate gate.old.journal.knows slot.old call reply session.old }
    ensures served { IsServed L.store gate.old gate.new session.old session.new slot.old.number call result }
    ensures reply { result.reply ≡ reply }
    ensures entropy { session.new.entropy ≡ session.old.entropy }
    ensures number { slot.new.number ≡ slot.old.number }
    ensures file { slot.new.file ≡ slot.old.file }
    ensures guarded { SlotInvariant L.store slot.new }
    ensures whole { SeesWhole gate.new.journal.knows slot.new }
{
    gate.reveal_invariant();
    let seat = slot.lend_seat();
    let (place, seat) = gate.answer_with(seat, session, call, reply);
    slot.give_seat(seat);
    PlacedReply { place, reply: told }
}
