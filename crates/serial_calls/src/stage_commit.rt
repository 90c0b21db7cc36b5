//! How what was staged is brought to the gate.

ghost use Rattle.std.specs.Prelude.{◌≡◌, ◌≤◌, None};
ghost use Rattle.call_steps.specs.JournalCalls.{LeavesSession};
ghost use Rattle.serial_calls.specs.Renewed.{renewal};
ghost use Rattle.history_seats.specs.Changes.{TagVersions};
ghost use Rattle.call_steps.specs.Commits.{IsCalm};
ghost use Rattle.call_steps.specs.GateEnds.{HoldsNewFile};
ghost use Rattle.call_steps.specs.SessionMoves.{MayMove, moved_by};
ghost use Rattle.call_steps.specs.Fits.{SeesWhole};
ghost use Rattle.call_steps.specs.GuardedSlots.{SlotInvariant};
ghost use Rattle.call_steps.specs.ObjectCommits.{IsCommittable, IsCommitted};
ghost use Rattle.call_steps.specs.Devices.{DrawsOn};
ghost use Rattle.tee_types.specs.declared.reply.Reply.TheVariants.{Done as DoneReply};

use call_steps::{
    EntryChange, GuardedGate, Held, PlacedReply, Session, SessionMove, Slot, commit_change,
};
use core_laws::StoreName;
use dir_records::DirEntry;
use node_image::RootRef;
use rpmb_card::RpmbPort;
use tee_ports::{Entropy, StoreFile};
use tee_types::{Call, Reply};

// Brings the stage of the held object to the gate: the object's entry gets the reference and the size of what was staged.
pub(crate) fn commit_stage<F: StoreFile + Drop, R: RpmbPort + Drop, L: StoreName, E: Entropy>(
    gate: &mut GuardedGate<F, R, L>,
    slot: &mut Slot<F>,
    session: &mut Session<E>,
    held: Held,
    root: RootRef,
    size: u32,
    call: Call,
    step: SessionMove,
) -> PlacedReply
    requires committable { (versions : TagVersions)
        × IsCommittable L.store gate.old.gate gate.old.journal.knows slot.old session.old call DoneReply (renewal held root size) versions }
    requires idle { gate.old.gate.doubt ≡ None }
    requires names { 1 ≤ gate.old.gate.room }
    requires handles { 1 ≤ gate.old.gate.open_handles.spare }
    requires events { 1 ≤ gate.old.journal.spare }
    requires calm { IsCalm L.store gate.old.journal.knows session.old }
    requires held { HoldsNewFile gate.old.gate.holds call (renewal held root size) }
    requires may { MayMove session.old.state step }
    requires moved { LeavesSession L.store gate.old.journal.knows session.old.number call (moved_by session.old.state step) }
    ensures committed { IsCommitted F.state R.state L.store gate.old gate.new slot.old.number session.old session.new call DoneReply (renewal held root size)
        (E.is_reliable session.old.entropy) (E.faults session.old.entropy) (E.faults session.new.entropy) result }
    ensures draws { DrawsOn E.is_reliable E.faults session.old.entropy session.new.entropy }
    ensures guarded { SlotInvariant L.store slot.new }
    ensures whole { SeesWhole gate.new.journal.knows slot.new }
    ensures number { slot.new.number ≡ slot.old.number }
    ensures file { slot.new.file ≡ slot.old.file }
{
    let hash = root.hash;
    let entry = DirEntry {
        version: root.version,
        hash,
        size,
        ..held.entry
    };
    let change = EntryChange::Put {
        index: held.index,
        entry,
    };
    commit_change(
        gate,
        slot,
        session,
        change,
        call,
        Reply::Done,
        Reply::Done,
        step,
    )
}
