//! The ends of a commit, as they are written into the history.

ghost use Rattle.std.specs.Prelude.{◌≡◌, ◌≤◌, ◌+◌, length, Some};
ghost use Rattle.open_table.specs.HandleChanges.{NotesReply};
ghost use Rattle.commit_gate.specs.CallerSessions.{landing_of_call};
ghost use Rattle.commit_gate.specs.Commits.{made_versions, unmade_versions};
ghost use Rattle.commit_gate.specs.Ended.{IsAppended, IsEnded, MayAppend, MayEnd};
ghost use Rattle.commit_gate.specs.GateEnds.{HandlesBehind, closing_behind};
ghost use Rattle.commit_gate.specs.GuardedGates.{closing_of};
ghost use Rattle.commit_gate.specs.SessionMoves.{MayMove, moved_by};

use crate::end_versions::{MadeVersions, UnmadeVersions};
use crate::guarded_gate::Closing;
use crate::session_moves::{SessionMove, apply};
use crate::{AppendedCall, Journal, Session, VersionsName, append_call};
use core_laws::StoreName;
use history_seats::SlotSeat;
use rpmb_card::RpmbPort;
use store_commit::{CommitEnd, Gate};
use store_model::Mark;
use tee_ports::{Entropy, StoreFile};
use tee_types::{Call, Cause, Reply};

// The handle that the landing of a session's call closes.
fn closing_of(session: u32, call: &Call) -> Option<Closing>
    ensures { result ≡ closing_of session call.now }
{
    match call {
        Call::Delete { handle } => Some(Closing {
            session,
            handle: *handle,
        }),
        _ => None,
    }
}

// Ends the commit of that number, which was made: the table of open handles follows, and the session moves.
fn end_made<F: StoreFile + Drop, R: RpmbPort + Drop, L: StoreName, E: Entropy, N: VersionsName>(
    gate: &mut Gate<F, R>,
    journal: &mut Journal<L>,
    slot: SlotSeat,
    session: &mut Session<E>,
    call: Call,
    reply: Reply,
    number: u32,
    step: SessionMove,
) -> AppendedCall
    requires handles { 1 ≤ gate.old.open_handles.spare }
    requires room { 1 ≤ journal.old.spare }
    requires table { slot.table ≡ L.store.table }
    requires may { MayMove session.old.state step }
    requires append { MayAppend L.store journal.old.knows call reply (Mark.Made number) slot.knows (made_versions N.versions) session.old
        (record session.old { state = moved_by session.old.state step }) }
    ensures notes { NotesReply gate.old.open_handles gate.new.open_handles slot.knows.file session.old.number call reply }
    ensures gate { gate.new ≡ record gate.old { open_handles = gate.new.open_handles } }
    ensures spare { journal.old.spare ≤ journal.new.spare + 1 }
    ensures appended { IsAppended L.store journal.old.knows journal.new.knows call reply (Mark.Made number) slot (made_versions N.versions) session.old
        (record session.old { state = moved_by session.old.state step }) session.new result }
{
    gate.note(slot.file(), session.number(), &call, &reply);
    apply(session, step);
    append_call::<L, E, MadeVersions<N>>(
        journal,
        Some(slot),
        session,
        call,
        reply,
        Mark::Made(number),
    )
}

// Ends the commit of that number, which is in doubt for that cause: from now on it is the session's own.
fn end_doubtful<L: StoreName, E: Entropy, N: VersionsName>(
    journal: &mut Journal<L>,
    slot: SlotSeat,
    session: &mut Session<E>,
    call: Call,
    number: u32,
    cause: Cause,
) -> AppendedCall
    requires room { 1 ≤ journal.old.spare }
    requires table { slot.table ≡ L.store.table }
    requires append { MayAppend L.store journal.old.knows call (Reply.NotAvailable cause) (Mark.Doubtful number) slot.knows N.versions session.old
        (record session.old { doubt = Some (record { place = length journal.old.knows.all; landing = landing_of_call call }) }) }
    ensures spare { journal.old.spare ≤ journal.new.spare + 1 }
    ensures appended { IsAppended L.store journal.old.knows journal.new.knows call (Reply.NotAvailable cause) (Mark.Doubtful number) slot N.versions session.old
        (record session.old { doubt = Some (record { place = length journal.old.knows.all; landing = landing_of_call call }) }) session.new result }
{
    session.begin_doubt(journal.len(), &call);
    append_call::<L, E, N>(
        journal,
        Some(slot),
        session,
        call,
        Reply::NotAvailable(cause),
        Mark::Doubtful(number),
    )
}

// Ends a commit that was not made, with why.
fn end_unmade<L: StoreName, E: Entropy, N: VersionsName>(
    journal: &mut Journal<L>,
    slot: SlotSeat,
    session: &mut Session<E>,
    call: Call,
    why: Reply,
) -> AppendedCall
    requires room { 1 ≤ journal.old.spare }
    requires table { slot.table ≡ L.store.table }
    requires append { MayAppend L.store journal.old.knows call why Mark.Unchanged slot.knows (unmade_versions N.versions) session.old session.old }
    ensures spare { journal.old.spare ≤ journal.new.spare + 1 }
    ensures appended { IsAppended L.store journal.old.knows journal.new.knows call why Mark.Unchanged slot (unmade_versions N.versions) session.old session.old session.new result }
{
    append_call::<L, E, UnmadeVersions<N>>(journal, Some(slot), session, call, why, Mark::Unchanged)
}

/// Writes the end of a commit into the history: the call with its reply and its mark. The machine's own reply is `reply`, and a commit that
/// is made moves the session by that step.
pub(crate) fn write_end<
    F: StoreFile + Drop,
    R: RpmbPort + Drop,
    L: StoreName,
    E: Entropy,
    N: VersionsName,
>(
    gate: &mut Gate<F, R>,
    journal: &mut Journal<L>,
    closing: &mut Option<Closing>,
    end: CommitEnd,
    slot: SlotSeat,
    session: &mut Session<E>,
    call: Call,
    reply: Reply,
    step: SessionMove,
) -> AppendedCall
    requires handles { 1 ≤ gate.old.open_handles.spare }
    requires room { 1 ≤ journal.old.spare }
    requires table { slot.table ≡ L.store.table }
    requires may { MayMove session.old.state step }
    requires ends { MayEnd L.store journal.old.knows end call reply step slot.knows N.versions session.old }
    ensures handles { HandlesBehind end gate.old.open_handles gate.new.open_handles slot.knows.file session.old.number call reply }
    ensures gate { gate.new ≡ record gate.old { open_handles = gate.new.open_handles } }
    ensures closing { closing.new ≡ closing_behind end session.old.number call closing.old }
    ensures spare { journal.old.spare ≤ journal.new.spare + 1 }
    ensures ended { IsEnded L.store journal.old.knows journal.new.knows end call reply step slot N.versions session.old session.new result }
{
    match end {
        CommitEnd::Made(number) => {
            end_made::<F, R, L, E, N>(gate, journal, slot, session, call, reply, number, step)
        }
        CommitEnd::Doubtful(number, cause) => {
            *closing = closing_of(session.number(), &call);
            end_doubtful::<L, E, N>(journal, slot, session, call, number, cause)
        }
        CommitEnd::Dropped(cause) => end_unmade::<L, E, N>(
            journal,
            slot,
            session,
            call,
            Reply::NotAvailable(cause),
        ),
        CommitEnd::Spent => end_unmade::<L, E, N>(
            journal,
            slot,
            session,
            call,
            Reply::CounterSpent(u32::MAX),
        ),
    }
}
