//! What a slot does with its stage once its commit has ended.

ghost use Rattle.std.specs.Prelude.{◌≡◌, None};
ghost use Rattle.object_slots.specs.GuardedSlots.{SlotInvariant};
ghost use Rattle.call_steps.specs.StageEndLaws.{IsEndedSlot};
ghost use Rattle.call_steps.specs.StageEnds.{holds_behind, slot_behind, slot_doubt};

use commit_gate::CommitEnd;
use core_laws::StoreName;
use history_seats::SlotSeat;
use object_slots::Slot;
use tee_ports::StoreFile;

// Adopts the stage where the commit was made, gives it up where it was not, and keeps it while the commit is in doubt.
fn end_stage<F: StoreFile + Drop>(slot: &mut Slot<F>, end: CommitEnd, place: u64)
    requires { slot.old.doubt ≡ None }
    ensures { slot.new ≡ record slot.old { holds = holds_behind slot.old.holds end; doubt = slot_doubt place end } }
{
    // Until the end is looked at the change is in doubt.
    slot.hold_doubt(place);
    match end {
        CommitEnd::Made(_) => slot.adopt(),
        CommitEnd::Doubtful(..) => {}
        CommitEnd::Dropped(_) | CommitEnd::Spent => slot.drop_stage(),
    }
}

/// Gives a slot its seat back, and ends its change as the gate ended the commit, whose event stands at that place: the stage is adopted where
/// the commit was made, given up where it was not, and kept while it is in doubt. The slot may stand behind its lock then.
pub fn settle_slot<F: StoreFile + Drop, L: StoreName>(
    slot: &mut Slot<F>,
    seat: SlotSeat,
    end: CommitEnd,
    place: u64,
)
    requires lent { slot.old.seat ≡ None }
    requires ended { IsEndedSlot L.store slot.old seat end place }
    ensures slot { slot.new ≡ slot_behind slot.old seat end place }
    ensures guarded { SlotInvariant L.store slot.new }
{
    slot.give_seat(seat);
    end_stage(slot, end, place);
}
