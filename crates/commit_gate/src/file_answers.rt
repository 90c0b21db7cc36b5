//! Calls that are answered with an object's file.

ghost use Rattle.std.specs.Prelude.{◌≡◌, ◌≤◌, ◌+◌, length};
ghost use Rattle.history_seats.specs.Changes.{slot_renewed, with_record};
ghost use Rattle.core_laws.specs.Sessions.{Extends};
ghost use Rattle.commit_gate.specs.JournalCalls.{IsMovedBy};
ghost use Rattle.commit_gate.specs.CallerSessions.{IsCallerOf, session_value};
ghost use Rattle.commit_gate.specs.SessionViews.{pass_shown};
ghost use Rattle.open_table.specs.HandleChanges.{NotesReply};
ghost use Rattle.commit_gate.specs.SlotAnswers.{MayBeTold, slot_record};

use crate::guarded_gate::GuardedGate;
use crate::{AppendedCall, Session, append_call};
use core_laws::StoreName;
use history_seats::SlotSeat;
use rpmb_card::RpmbPort;
use std::marker::Brand;
use store_model::{Event, Mark};
use tee_ports::{Entropy, StoreFile};
use tee_types::{Call, Reply};

impl<F: StoreFile + Drop, R: RpmbPort + Drop, L: StoreName> GuardedGate<F, R, L> {
    /// Appends an answer that comes with the seat of the object's file, to a call that changes nothing. The session is already as the call
    /// leaves it. Tells the place of the event, and gives the seat back, which sees it.
    pub fn answer_with<E: Entropy>(
        &mut self,
        slot: SlotSeat,
        session: &mut Session<E>,
        call: Call,
        reply: Reply,
    ) -> (u64, SlotSeat)
        requires room { 1 ≤ self.old.journal.spare }
        requires handle { 1 ≤ self.old.gate.open_handles.spare }
        requires table { slot.table ≡ L.store.table }
        requires told { MayBeTold L.store self.old.gate.doubt self.old.gate.dir.dir.entries self.old.journal.knows slot.knows session.old.number session.old.made call reply }
        requires moved { IsMovedBy L.store self.old.journal.knows (slot_record L.store self.old.journal.knows slot.knows session.old.number session.old.made call reply) session.old }
        ensures place { result.0 ≡ length self.old.journal.knows.all }
        ensures slot { result.1 ≡ record slot { knows = slot_renewed self.new.journal.knows slot.knows } }
        ensures gate { self.new.gate ≡ record self.old.gate { open_handles = self.new.gate.open_handles } }
        ensures notes { NotesReply self.old.gate.open_handles self.new.gate.open_handles slot.knows.file session.old.number call reply }
        ensures closing { self.new.closing ≡ self.old.closing }
        ensures knows { self.new.journal.knows ≡ with_record (slot_record L.store self.old.journal.knows slot.knows session.old.number session.old.made call reply) self.old.journal.knows }
        ensures spare { self.old.journal.spare ≤ self.new.journal.spare + 1 }
        ensures session { session.new ≡ record session.old { pass = pass_shown self.new.journal.knows session.old.pass; made = session.old.made + 1 } }
        ensures whole { IsCallerOf L.store session.new }
        ensures extends { Extends L.store (session_value session.old) (session_value session.new) (Event.Call session.old.number session.old.made call reply Mark.Unchanged) result.0 }
    {
        self.gate.note(slot.file(), session.number(), &call, &reply);
        let AppendedCall { place, slot } = append_call::<L, E, Brand>(
            &mut self.journal,
            Some(slot),
            session,
            call,
            reply,
            Mark::Unchanged,
        );
        let Some(slot) = slot else { unreachable!() };
        (place, slot)
    }
}
