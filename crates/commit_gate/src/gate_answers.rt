//! Calls that are answered with no object's file.

ghost use Rattle.std.specs.Prelude.{◌≡◌, ◌≤◌, ◌<◌, ◌+◌, length, None};
ghost use Rattle.tee_types.specs.declared.call.Call.TheVariants.{Close as CloseCall};
ghost use Rattle.tee_types.specs.declared.reply.Reply.TheVariants.{Done as DoneReply};
ghost use Rattle.store_model.specs.Record.{fault_in_reply};
ghost use Rattle.history_seats.specs.Changes.{with_record, call_record};
ghost use Rattle.core_laws.specs.TamperScenarios.{TamperScenario};
ghost use Rattle.core_laws.specs.Stores.{replay_at};
ghost use Rattle.core_laws.specs.Answered.{AreAnswered};
ghost use Rattle.core_laws.specs.Sessions.{Extends};
ghost use Rattle.commit_gate.specs.JournalCalls.{IsMovedBy, IsToldAlone};
ghost use Rattle.commit_gate.specs.Journals.{AreDoubtsHeld};
ghost use Rattle.commit_gate.specs.CallerSessions.{IsCallerOf, session_value};
ghost use Rattle.commit_gate.specs.SessionViews.{BeginsAll, SeesAll, pass_shown, shown};
ghost use Rattle.core_laws.specs.TieLaws.{KeepsDoubt};
ghost use Rattle.open_table.specs.HandleChanges.{DropsHandle};
ghost use Rattle.commit_gate.specs.Answering.{LeavesHandles};
ghost use Rattle.commit_gate.specs.Ruled.{IsRuled};

use crate::Session;
use crate::guarded_gate::GuardedGate;
use core_laws::StoreName;
use rpmb_card::RpmbPort;
use store_model::{Event, Mark};
use tee_ports::{Entropy, StoreFile};
use tee_types::{Call, Reply};

impl<F: StoreFile + Drop, R: RpmbPort + Drop, L: StoreName> GuardedGate<F, R, L> {
    /// Answers a call that needs no object's file, and that neither opens a handle nor closes one. The session is already as the call
    /// leaves it. Tells the place of the event.
    pub fn answer<E: Entropy>(&mut self, session: &mut Session<E>, call: Call, reply: Reply) -> u64
        requires room { 1 ≤ self.old.journal.spare }
        requires fault { fault_in_reply reply ≡ None }
        requires told { (scenario : TamperScenario) → AreAnswered L.store scenario self.old.journal.knows.all → IsToldAlone (replay_at L.store scenario self.old.journal.knows.all) session.old.number call reply }
        requires moved { IsMovedBy L.store self.old.journal.knows (call_record session.old.number session.old.made call reply Mark.Unchanged None) session.old }
        // The reply leaves the commit in doubt, if there is one.
        requires doubt { KeepsDoubt self.old.gate.doubt (Event.Call session.old.number session.old.made call reply Mark.Unchanged) }
        requires handles { LeavesHandles call reply }
        ensures place { result ≡ length self.old.journal.knows.all }
        ensures gate { self.new.gate ≡ self.old.gate }
        ensures closing { self.new.closing ≡ self.old.closing }
        ensures knows { self.new.journal.knows ≡ with_record (call_record session.old.number session.old.made call reply Mark.Unchanged None) self.old.journal.knows }
        ensures spare { self.old.journal.spare ≤ self.new.journal.spare + 1 }
        ensures session { session.new ≡ record session.old { pass = pass_shown self.new.journal.knows session.old.pass; made = session.old.made + 1 } }
        ensures whole { IsCallerOf L.store session.new }
        ensures extends { Extends L.store (session_value session.old) (session_value session.new) (Event.Call session.old.number session.old.made call reply Mark.Unchanged) result }
    {
        crate::answer(&mut self.journal, session, call, reply)
    }

    /// Answers a call that the rules answered whole, by the entries and the open handles that are behind the lock. It neither opens a
    /// handle nor closes one. Tells the place of the event.
    pub fn answer_ruled<E: Entropy>(
        &mut self,
        session: &mut Session<E>,
        call: Call,
        reply: Reply,
    ) -> u64
        requires room { 1 ≤ self.old.journal.spare }
        requires within { self.old.journal.knows.decided ≤ length self.old.journal.knows.all }
        requires fault { fault_in_reply reply ≡ None }
        requires ruled { IsRuled L.store self.old.journal.knows self.old.gate.dir.dir.entries self.old.gate.open_handles call reply session.old }
        // The reply leaves the commit in doubt, if there is one.
        requires doubt { KeepsDoubt self.old.gate.doubt (Event.Call session.old.number session.old.made call reply Mark.Unchanged) }
        requires handles { LeavesHandles call reply }
        ensures place { result ≡ length self.old.journal.knows.all }
        ensures gate { self.new.gate ≡ self.old.gate }
        ensures closing { self.new.closing ≡ self.old.closing }
        ensures knows { self.new.journal.knows ≡ with_record (call_record session.old.number session.old.made call reply Mark.Unchanged None) self.old.journal.knows }
        ensures spare { self.old.journal.spare ≤ self.new.journal.spare + 1 }
        ensures session { session.new ≡ record session.old { pass = pass_shown self.new.journal.knows session.old.pass; made = session.old.made + 1 } }
        ensures whole { IsCallerOf L.store session.new }
        ensures extends { Extends L.store (session_value session.old) (session_value session.new) (Event.Call session.old.number session.old.made call reply Mark.Unchanged) result }
    {
        self.reveal_invariant();
        self.answer(session, call, reply)
    }

    /// Closes a handle: the session already lacks it, and the table of open handles loses its record. Tells the place of the event.
    pub fn close_handle<E: Entropy>(&mut self, session: &mut Session<E>, handle: u32) -> u64
        requires room { 1 ≤ self.old.journal.spare }
        requires told { (scenario : TamperScenario) → AreAnswered L.store scenario self.old.journal.knows.all → IsToldAlone (replay_at L.store scenario self.old.journal.knows.all) session.old.number (CloseCall handle) DoneReply }
        requires moved { IsMovedBy L.store self.old.journal.knows (call_record session.old.number session.old.made (CloseCall handle) DoneReply Mark.Unchanged None) session.old }
        requires doubt { self.old.gate.doubt ≡ None }
        ensures place { result ≡ length self.old.journal.knows.all }
        ensures drops { DropsHandle self.old.gate.open_handles self.new.gate.open_handles session.old.number handle }
        ensures gate { self.new.gate ≡ record self.old.gate { open_handles = self.new.gate.open_handles } }
        ensures closing { self.new.closing ≡ self.old.closing }
        ensures knows { self.new.journal.knows ≡ with_record (call_record session.old.number session.old.made (CloseCall handle) DoneReply Mark.Unchanged None) self.old.journal.knows }
        ensures spare { self.old.journal.spare ≤ self.new.journal.spare + 1 }
        ensures session { session.new ≡ record session.old { pass = pass_shown self.new.journal.knows session.old.pass; made = session.old.made + 1 } }
        ensures whole { IsCallerOf L.store session.new }
        ensures extends { Extends L.store (session_value session.old) (session_value session.new) (Event.Call session.old.number session.old.made (CloseCall handle) DoneReply Mark.Unchanged) result }
    {
        self.gate.drop_handle(session.number(), handle);
        crate::answer(
            &mut self.journal,
            session,
            Call::Close { handle },
            Reply::Done,
        )
    }
}
