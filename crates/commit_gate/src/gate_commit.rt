//! Commits behind the lock.

ghost use Rattle.std.specs.Prelude.{◌≡◌, ◌≤◌, ◌+◌, ◌↔◌, length, IsTrue, None, Some};
ghost use Rattle.rpmb_card.specs.Protocol.{last_counter};
ghost use Rattle.store_model.specs.Record.{fault_in_reply};
ghost use Rattle.history_seats.specs.Changes.{slot_renewed, together, with_record};
ghost use Rattle.history_seats.specs.Rule.{Agrees};
ghost use Rattle.core_laws.specs.Sessions.{Extends};
ghost use Rattle.store_commit.specs.Causes.{DoubtIsByCard, EndCause, EndIsDrawn, EndNotDrawn, EndNotOfCard, KeepsPortArms, StaysCalm, counts};
ghost use Rattle.store_commit.specs.Counts.{EndCounts};
ghost use Rattle.store_commit.specs.Ends.{Leaves, Throughout};
ghost use Rattle.store_commit.specs.Gates.{LeavesHolds, doubt_left, gate_sides};
ghost use Rattle.store_commit.specs.Heard.{EndHeard};
ghost use Rattle.store_commit.specs.Steps.{Steps};
ghost use Rattle.store_commit.specs.declared.change.CommitEnd.TheVariants.{Spent};
ghost use Rattle.commit_gate.specs.JournalCalls.{LeavesSession, pass_view};
ghost use Rattle.commit_gate.specs.CallerSessions.{IsCallerOf, session_value};
ghost use Rattle.commit_gate.specs.SessionViews.{pass_shown};
ghost use Rattle.commit_gate.specs.Commits.{IsCalm, IsReadyCommit};
ghost use Rattle.commit_gate.specs.GateEnds.{HandlesBehind, HoldsNewFile, IsCommitEnd, closing_behind, doubt_behind, end_event, end_record, reply_told, state_behind};
ghost use Rattle.commit_gate.specs.SessionMoves.{MayMove, moved_by};

use crate::commit_ends::write_end;
use crate::guarded_gate::GuardedGate;
use crate::session_moves::SessionMove;
use crate::{AppendedCall, Session, VersionsName};
use core_laws::StoreName;
use history_seats::SlotSeat;
use rpmb_card::RpmbPort;
use store_commit::{CommitEnd, EntryChange};
use tee_ports::{Entropy, StoreFile};
use tee_types::{Call, Reply};

/// How a commit ended, and what was appended for it.
#[derive(Drop)]
pub struct Committed {
    /// How it ended.
    pub end: CommitEnd,
    /// The place where its call's event stands.
    pub place: u64,
    /// The slot's seat, which sees the event.
    pub slot: SlotSeat,
}

impl Committed {
    /// What the call is answered, where the machine's own reply is that one.
    pub fn reply(&self, own: Reply) -> Reply
        ensures { result ≡ reply_told self.now.end own }
    {
        let end = self.end;
        match end {
            CommitEnd::Made(_) => own,
            CommitEnd::Dropped(cause) => Reply::NotAvailable(cause),
            CommitEnd::Doubtful(_, cause) => Reply::NotAvailable(cause),
            CommitEnd::Spent => Reply::CounterSpent(u32::MAX),
        }
    }
}

impl<F: StoreFile + Drop, R: RpmbPort + Drop, L: StoreName> GuardedGate<F, R, L> {
    /// Commits one change of the directory, as the session's call on that slot's object asks, and appends the call with what came of it. It
    /// takes no memory.
    ///
    /// The machine's own reply is `reply`, and a commit that is made moves the session by `step`. A commit that was not made is answered with
    /// why, and moves nothing. One in doubt is answered with why that is not known, and is the session's own until it is resolved. The tag
    /// has the slot's file and generation, and the versions that `N` names, each by the end.
    pub fn commit<E: Entropy, N: VersionsName>(
        &mut self,
        change: EntryChange,
        slot: SlotSeat,
        session: &mut Session<E>,
        call: Call,
        reply: Reply,
        step: SessionMove,
    ) -> Committed
        requires idle { self.old.gate.doubt ≡ None }
        requires names { 1 ≤ self.old.gate.room }
        requires handles { 1 ≤ self.old.gate.open_handles.spare }
        requires events { 1 ≤ self.old.journal.spare }
        requires table { slot.table ≡ L.store.table }
        requires calm { IsCalm L.store self.old.journal.knows session.old }
        requires ready { IsReadyCommit L.store self.old.journal.knows self.old.gate.dir.dir.entries self.old.gate.counter session.old.number session.old.made
            call reply change slot.knows N.versions }
        requires held { HoldsNewFile self.old.gate.holds call change }
        requires fault { fault_in_reply reply ≡ None }
        requires may { MayMove session.old.state step }
        requires moved { LeavesSession L.store self.old.journal.knows session.old.number call (moved_by session.old.state step) }
        // What is appended.
        ensures place { result.place ≡ length self.old.journal.knows.all }
        ensures knows { self.new.journal.knows
            ≡ with_record (end_record result.end session.old.number session.old.made call reply slot.knows N.versions) self.old.journal.knows }
        ensures spare { self.old.journal.spare ≤ self.new.journal.spare + 1 }
        ensures slot { result.slot ≡ record slot { knows = slot_renewed self.new.journal.knows slot.knows } }
        ensures session { session.new ≡ record session.old {
          pass = pass_shown self.new.journal.knows session.old.pass;
          made = session.old.made + 1;
          state = state_behind result.end step session.old.state;
          doubt = doubt_behind result.end call result.place session.old.doubt;
          entropy = session.new.entropy;
        } }
        // What the seats knew agreed with the journal.
        ensures agreed { Agrees (together self.old.journal.knows (Some slot.knows) (pass_view session.old.pass)) }
        ensures whole { IsCallerOf L.store session.new }
        ensures extends { Extends L.store (session_value session.old) (session_value session.new)
            (end_event result.end session.old.number session.old.made call reply) result.place }
        // What the gate did.
        ensures leaves { Leaves (gate_sides F.state R.state self.old.gate) (gate_sides F.state R.state self.new.gate) change result.end }
        ensures doubt { self.new.gate.doubt ≡ doubt_left change result.end }
        ensures closing { self.new.closing ≡ closing_behind result.end session.old.number call self.old.closing }
        ensures holds { LeavesHolds change result.end self.old.gate.holds self.new.gate.holds }
        ensures open_handles { HandlesBehind result.end self.old.gate.open_handles self.new.gate.open_handles slot.knows.file session.old.number call reply }
        ensures room { self.old.gate.room ≤ self.new.gate.room + 1 }
        ensures throughout { Throughout (gate_sides F.state R.state self.old.gate) (gate_sides F.state R.state self.new.gate) }
        ensures steps { Steps (gate_sides F.state R.state self.old.gate) (gate_sides F.state R.state self.new.gate) change result.end }
        ensures end { IsCommitEnd self.old.gate.counter result.end }
        ensures spent { (result.end ≡ Spent) ↔ (self.old.gate.counter ≡ last_counter) }
        ensures reliable { E.is_reliable session.old.entropy → E.is_reliable session.new.entropy }
        ensures drawn { E.is_reliable session.old.entropy → EndNotDrawn result.end }
        ensures untouched { EndIsDrawn result.end → (self.new.gate.dir ≡ self.old.gate.dir) × (self.new.gate.host ≡ self.old.gate.host) }
        ensures calm { IsTrue (R.state self.old.gate.host.port).calm
            → StaysCalm (R.state self.old.gate.host.port) (R.state self.new.gate.host.port) × EndNotOfCard result.end }
        ensures heard { EndHeard self.old.gate.host.key self.old.gate.counter (R.state self.new.gate.host.port) result.end }
        ensures counts { EndCounts
            (counts (F.state self.old.gate.dir.file) (R.state self.old.gate.host.port) (E.faults session.old.entropy))
            (counts (F.state self.new.gate.dir.file) (R.state self.new.gate.host.port) (E.faults session.new.entropy)) result.end }
        ensures cause { EndCause self.old.gate.host.key self.old.gate.counter
            (counts (F.state self.old.gate.dir.file) (R.state self.old.gate.host.port) (E.faults session.old.entropy))
            (counts (F.state self.new.gate.dir.file) (R.state self.new.gate.host.port) (E.faults session.new.entropy)) result.end }
        ensures doubtful { DoubtIsByCard result.end }
        ensures arms { KeepsPortArms (R.state self.old.gate.host.port) (R.state self.new.gate.host.port) }
    {
        self.gate.reveal_invariant();
        let end = self.gate.commit(change, session.entropy_mut());
        let AppendedCall { place, slot } = write_end::<F, R, L, E, N>(
            &mut self.gate,
            &mut self.journal,
            &mut self.closing,
            end,
            slot,
            session,
            call,
            reply,
            step,
        );
        let Some(slot) = slot else { unreachable!() };
        Committed { end, place, slot }
    }
}
