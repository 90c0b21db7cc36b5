//! What a session does with the journal: it is shown the history, and its calls are appended.

ghost use Rattle.std.specs.Prelude.{◌≡◌, ◌≤◌, ◌<◌, ◌+◌, length, false, None, Some};
ghost use Rattle.store_model.specs.History.{count_of};
ghost use Rattle.store_model.specs.Record.{events_of, fault_in_reply};
ghost use Rattle.history_seats.specs.Numbers.{is_in, without};
ghost use Rattle.history_seats.specs.Rule.{Agrees};
ghost use Rattle.history_seats.specs.Changes.{IsFitting, IsOf, record_of, seat_renewed, together, view_in, with_record, call_record};
ghost use Rattle.core_laws.specs.TamperScenarios.{TamperScenario};
ghost use Rattle.core_laws.specs.Stores.{replay_at};
ghost use Rattle.core_laws.specs.Answered.{AreAnswered, IsFairAt};
ghost use Rattle.core_laws.specs.Sessions.{Extends};
ghost use Rattle.commit_gate.specs.declared.own_doubt.OwnDoubt.{OwnDoubt as OwnDoubtValue};
ghost use Rattle.commit_gate.specs.Journals.{AreDoubtsHeld, IsJournal};
ghost use Rattle.commit_gate.specs.CallerSessions.{IsCallerOf, session_value};
ghost use Rattle.commit_gate.specs.SessionViews.{BeginsAll, SeesAll, doubt_learnt, pass_shown, shown, state_learnt};
ghost use Rattle.commit_gate.specs.JournalCalls.{IsMovedBy, IsToldAlone, pass_view};

use crate::doubt_outcome::Settled;
use crate::journal::Journal;
use crate::session::Session;
use crate::versions_name::VersionsName;
use core_laws::StoreName;
use history_seats::{Appended, Refreshed, SlotSeat};
use std::marker::Brand;
use store_model::{Event, Mark};
use tee_ports::Entropy;
use tee_types::{Call, Reply};

/// Shows a session the whole history, and a slot's seat beside it where one comes. The session learns what became of its own commit in
/// doubt.
pub fn catch_up<L: StoreName, E: Entropy>(
    journal: &mut Journal<L>,
    slot: Option<SlotSeat>,
    session: &mut Session<E>,
) -> Option<SlotSeat>
    requires slot { IsOf L.store.table slot }
    requires session { IsCallerOf L.store session.old }
    requires held { AreDoubtsHeld L.store journal.old.knows }
    ensures journal { journal.new ≡ journal.old }
    ensures kept { IsJournal L.store journal.new.knows }
    ensures slot { result ≡ seat_renewed journal.old.knows slot }
    ensures session { session.new ≡ shown journal.old.knows session.old }
    // What the seats knew agreed with the journal.
    ensures agreed { Agrees (together journal.old.knows (view_in slot) (pass_view session.old.pass)) }
    ensures begins { BeginsAll journal.old.knows session.old.pass }
    ensures sees { SeesAll journal.new.knows session.new.pass }
    ensures whole { IsCallerOf L.store session.new }
{
    let pass = session.lend_pass();
    let Refreshed { slot, pass } = journal.refresh(slot, pass);
    session.give_pass(pass);
    learn_outcome(journal, session);
    slot
}

// Tells a session what became of its own commit in doubt.
fn learn_outcome<L: StoreName, E: Entropy>(journal: &Journal<L>, session: &mut Session<E>)
    requires { (doubt : OwnDoubtValue) → session.old.doubt ≡ Some doubt → doubt.place < length journal.now.knows.all }
    ensures { session.new ≡ record session.old {
      state = state_learnt journal.now.knows session.old.state session.old.doubt;
      doubt = doubt_learnt journal.now.knows session.old.doubt;
    } }
{
    if let Some(doubt) = session.doubt() {
        match journal.settled_behind(doubt.place) {
            Settled::Open => {}
            Settled::Landed => session.land(),
            Settled::Dropped => session.drop_doubt(),
        }
    }
}

/// What `append_call` gives: the event's place, and the slot's seat, where one came.
#[derive(Drop)]
pub struct AppendedCall {
    /// The place where the event stands.
    pub place: u64,
    /// The slot's seat, which sees the event.
    pub slot: Option<SlotSeat>,
}

/// Appends a call of a session that is already as the call leaves it. The event's tag has the file and the generation of the slot that
/// comes with it, and the versions that `N` names.
pub fn append_call<L: StoreName, E: Entropy, N: VersionsName>(
    journal: &mut Journal<L>,
    slot: Option<SlotSeat>,
    session: &mut Session<E>,
    call: Call,
    reply: Reply,
    mark: Mark,
) -> AppendedCall
    requires room { 1 ≤ journal.old.spare }
    requires slot { IsOf L.store.table slot }
    requires moved { IsMovedBy L.store journal.old.knows (record_of (Event.Call session.old.number session.old.made call reply mark) (view_in slot) N.versions) session.old }
    requires fitting { IsFitting journal.old.knows (record_of (Event.Call session.old.number session.old.made call reply mark) (view_in slot) N.versions) }
    requires fair { (scenario : TamperScenario) → IsFairAt L.store scenario journal.old.knows.all (record_of (Event.Call session.old.number session.old.made call reply mark) (view_in slot) N.versions) }
    ensures place { result.place ≡ length journal.old.knows.all }
    ensures knows { journal.new.knows ≡ with_record (record_of (Event.Call session.old.number session.old.made call reply mark) (view_in slot) N.versions) journal.old.knows }
    ensures spare { journal.old.spare ≤ journal.new.spare + 1 }
    ensures kept { IsJournal L.store journal.new.knows }
    ensures slot { result.slot ≡ seat_renewed journal.new.knows slot }
    ensures session { session.new ≡ record session.old { pass = pass_shown journal.new.knows session.old.pass; made = session.old.made + 1 } }
    // What the seats knew agreed with the journal.
    ensures agreed { Agrees (together journal.old.knows (view_in slot) (pass_view session.old.pass)) }
    ensures whole { IsCallerOf L.store session.new }
    ensures extends { Extends L.store (session_value session.old) (session_value session.new) (Event.Call session.old.number session.old.made call reply mark) result.place }
{
    let event = Event::Call {
        session: session.number(),
        number: session.made(),
        call,
        reply,
        mark,
    };
    let pass = session.lend_pass();
    let Appended { place, slot, pass } = journal.append::<N>(slot, pass, event);
    session.give_pass(pass);
    // A word can hold how many events there are, so that it can hold how many the session has.
    let _length = journal.len();
    session.count();
    AppendedCall { place, slot }
}

/// Appends a call that commits nothing, and that was answered with no object's file: as the machine does, or since the open doubt could
/// not be resolved. The session is already as the call leaves it.
pub fn answer<L: StoreName, E: Entropy>(
    journal: &mut Journal<L>,
    session: &mut Session<E>,
    call: Call,
    reply: Reply,
) -> u64
    requires room { 1 ≤ journal.old.spare }
    requires fault { fault_in_reply reply ≡ None }
    requires told { (scenario : TamperScenario) → AreAnswered L.store scenario journal.old.knows.all → IsToldAlone (replay_at L.store scenario journal.old.knows.all) session.old.number call reply }
    requires moved { IsMovedBy L.store journal.old.knows (call_record session.old.number session.old.made call reply Mark.Unchanged None) session.old }
    ensures place { result ≡ length journal.old.knows.all }
    ensures knows { journal.new.knows ≡ with_record (call_record session.old.number session.old.made call reply Mark.Unchanged None) journal.old.knows }
    ensures spare { journal.old.spare ≤ journal.new.spare + 1 }
    ensures kept { IsJournal L.store journal.new.knows }
    ensures session { session.new ≡ record session.old { pass = pass_shown journal.new.knows session.old.pass; made = session.old.made + 1 } }
    ensures whole { IsCallerOf L.store session.new }
    ensures extends { Extends L.store (session_value session.old) (session_value session.new) (Event.Call session.old.number session.old.made call reply Mark.Unchanged) result }
{
    append_call::<L, E, Brand>(journal, None, session, call, reply, Mark::Unchanged).place
}

/// Takes a session's seat in for good, and lets the session go. It has as many events in the history as it counted, and none past its view.
pub fn retire_session<L: StoreName, E: Entropy>(journal: &mut Journal<L>, session: Session<E>)
    requires { IsCallerOf L.store session }
    ensures journal { journal.new ≡ record journal.old { knows = record journal.old.knows { sessions = without session.number journal.old.knows.sessions } } }
    ensures gone { is_in session.number journal.new.knows.sessions ≡ false }
    ensures begins { BeginsAll journal.old.knows session.pass }
    ensures made { session.made ≡ count_of session.number (events_of journal.old.knows.all) }
    ensures kept { IsJournal L.store journal.new.knows }
{
    let pass = session.into_pass();
    journal.retire_pass(pass);
}
