//! How a change is brought to the gate with the slot of its object.

ghost use Rattle.std.specs.Prelude.{◌≡◌, ◌≤◌, None};
ghost use Rattle.history_seats.specs.Changes.{TagVersions};
ghost use Rattle.store_model.specs.Record.{fault_in_reply};
ghost use Rattle.commit_gate.specs.JournalCalls.{LeavesSession};
ghost use Rattle.commit_gate.specs.Commits.{IsCalm};
ghost use Rattle.commit_gate.specs.GateEnds.{HoldsNewFile};
ghost use Rattle.commit_gate.specs.SessionMoves.{MayMove, moved_by};
ghost use Rattle.object_slots.specs.Fits.{SeesWhole};
ghost use Rattle.object_slots.specs.GuardedSlots.{SlotInvariant};
ghost use Rattle.call_steps.specs.Devices.{DrawsOn};
ghost use Rattle.call_steps.specs.ObjectCommits.{IsCommittable, IsCommitted};

use crate::stage_ends::settle_slot;
use commit_gate::{Committed, EntryChange, GuardedGate, PlacedReply, Session, SessionMove};
use core_laws::StoreName;
use object_slots::Slot;
use rpmb_card::RpmbPort;
use std::marker::Brand;
use tee_ports::{Entropy, StoreFile};
use tee_types::{Call, Reply};

// Commits the change with those versions of the slot's object: the one that is given before it, and the one that it leaves.
fn commit_versions<F: StoreFile + Drop, R: RpmbPort + Drop, L: StoreName, E: Entropy>(
    gate: &mut GuardedGate<F, R, L>,
    slot: &mut Slot<F>,
    session: &mut Session<E>,
    change: EntryChange,
    call: Call,
    own: Reply,
    told: Reply,
    step: SessionMove,
) -> PlacedReply
    ghost versions: { TagVersions }
    requires committable { IsCommittable L.store gate.old.gate gate.old.journal.knows slot.old session.old call own change versions }
    requires idle { gate.old.gate.doubt ≡ None }
    requires names { 1 ≤ gate.old.gate.room }
    requires handles { 1 ≤ gate.old.gate.open_handles.spare }
    requires events { 1 ≤ gate.old.journal.spare }
    requires calm { IsCalm L.store gate.old.journal.knows session.old }
    requires held { HoldsNewFile gate.old.gate.holds call change }
    requires copied { told ≡ own }
    requires fault { fault_in_reply own ≡ None }
    requires may { MayMove session.old.state step }
    requires moved { LeavesSession L.store gate.old.journal.knows session.old.number call (moved_by session.old.state step) }
    ensures committed { IsCommitted F.state R.state L.store gate.old gate.new slot.old.number session.old session.new call own change
        (E.is_reliable session.old.entropy) (E.faults session.old.entropy) (E.faults session.new.entropy) result }
    ensures draws { DrawsOn E.is_reliable E.faults session.old.entropy session.new.entropy }
    ensures guarded { SlotInvariant L.store slot.new }
    ensures whole { SeesWhole gate.new.journal.knows slot.new }
    ensures number { slot.new.number ≡ slot.old.number }
    ensures file { slot.new.file ≡ slot.old.file }
{
    gate.reveal_invariant();
    let seat = slot.lend_seat();
    let committed = gate.commit::<E, Brand>(change, seat, session, call, own, step);
    let reply = committed.reply(told);
    let Committed {
        end,
        place,
        slot: seat,
    } = committed;
    settle_slot::<F, L>(slot, seat, end, place);
    PlacedReply { place, reply }
}

/// Commits one change of the directory, as the session's call on the slot's object asks, appends the call with what came of it, and ends the
/// slot's stage by that: adopted where the commit was made, given up where it was not, and kept while it is in doubt. It takes no memory.
///
/// The machine's own reply is `own`, `told` a copy of it, and a commit that is made moves the session by `step`. A commit that was not made,
/// or is in doubt, is answered with why.
pub fn commit_change<F: StoreFile + Drop, R: RpmbPort + Drop, L: StoreName, E: Entropy>(
    gate: &mut GuardedGate<F, R, L>,
    slot: &mut Slot<F>,
    session: &mut Session<E>,
    change: EntryChange,
    call: Call,
    own: Reply,
    told: Reply,
    step: SessionMove,
) -> PlacedReply
    requires committable { (versions : TagVersions) × IsCommittable L.store gate.old.gate gate.old.journal.knows slot.old session.old call own change versions }
    requires idle { gate.old.gate.doubt ≡ None }
    requires names { 1 ≤ gate.old.gate.room }
    requires handles { 1 ≤ gate.old.gate.open_handles.spare }
    requires events { 1 ≤ gate.old.journal.spare }
    requires calm { IsCalm L.store gate.old.journal.knows session.old }
    requires held { HoldsNewFile gate.old.gate.holds call change }
    requires copied { told ≡ own }
    requires fault { fault_in_reply own ≡ None }
    requires may { MayMove session.old.state step }
    requires moved { LeavesSession L.store gate.old.journal.knows session.old.number call (moved_by session.old.state step) }
    ensures committed { IsCommitted F.state R.state L.store gate.old gate.new slot.old.number session.old session.new call own change
        (E.is_reliable session.old.entropy) (E.faults session.old.entropy) (E.faults session.new.entropy) result }
    ensures draws { DrawsOn E.is_reliable E.faults session.old.entropy session.new.entropy }
    ensures guarded { SlotInvariant L.store slot.new }
    ensures whole { SeesWhole gate.new.journal.knows slot.new }
    ensures number { slot.new.number ≡ slot.old.number }
    ensures file { slot.new.file ≡ slot.old.file }
{
    commit_versions(gate, slot, session, change, call, own, told, step)
}
