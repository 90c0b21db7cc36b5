//! The sessions of a store that was served under quotas, joined again.

ghost use Rattle.std.specs.Prelude.{◌≡◌, ◌≤◌, None, Some, slice_set, vec_len};
ghost use Rattle.std.specs.Vec.{vec_capacity};
ghost use Rattle.history_seats.specs.Views.{PassView, Sight};
ghost use Rattle.shared_store.specs.CallerSessions.{IsCallerOf};
ghost use Rattle.quota_store.specs.Halves.{AreHalves, IsHalfOf, kept_at};
ghost use Rattle.quota_store.specs.Sharing.{AreCallers, callers_of};

use crate::app_halves::{AppHalves, put_half, take_half};
use crate::looks::join;
use crate::quota_room::JoinRoom;
use crate::quota_session::QuotaSession;
use crate::sharing::reversed;
use history_seats::{Halves, KeptSeat};
use rpmb_card::RpmbPort;
use shared_store::{DevicesName, Session, SharedGate, StoreName};
use std::sync::{Mutex, Wait};
use tee_ports::{Entropy, StoreFile};

// Puts a kept half, if there is one, to the place of its session.
fn put_any<L: StoreName>(half: Option<KeptSeat>, places: &mut Vec<Option<KeptSeat>>)
    requires half { (h : Sight PassView) → half ≡ Some h → h.table ≡ L.store.table }
    requires halves { AreHalves L.store places.old.items }
    ensures { AreHalves L.store places.new.items }
{
    let Some(half) = half else { return };
    put_half(places, half);
}

// Puts these kept halves to the places of their sessions.
fn put_halves<L: StoreName>(kept: Vec<Option<KeptSeat>>, places: &mut Vec<Option<KeptSeat>>)
    requires kept { AreHalves L.store kept.items }
    requires halves { AreHalves L.store places.old.items }
    ensures { AreHalves L.store places.new.items }
{
    let mut left = kept;
    while let Some(half) = left.pop() {
        put_any::<L>(half, places);
    }
}

// Puts the kept halves that stand behind these locks to the places of their sessions.
fn gather_halves<L: StoreName>(locks: Vec<Mutex<AppHalves<L>>>, places: &mut Vec<Option<KeptSeat>>)
    requires { AreHalves L.store places.old.items }
    ensures { AreHalves L.store places.new.items }
{
    let mut left = locks;
    while let Some(lock) = left.pop() {
        put_halves::<L>(lock.into_inner().into_kept(), places);
    }
}

// Takes the kept half of a session from its place, and waits for it where it is not there.
fn await_half<W: Wait>(rt: &W, places: &mut Vec<Option<KeptSeat>>, session: u32) -> KeptSeat
    ensures half { kept_at places.old.items session ≡ Some result }
    ensures left { places.new.items ≡ slice_set places.old.items session None }
{
    for _ in rt.forever() {
        if let Some(half) = take_half(places, session) {
            return half;
        }
    }
    unreachable!()
}

// Joins the halves of a session's seat.
fn join_session<F: StoreFile + Drop, R: RpmbPort + Drop, L: StoreName + DevicesName, E: Entropy>(
    gate: &mut SharedGate<F, R, L>,
    halved: QuotaSession<E>,
    other: KeptSeat,
) -> Session<E>
    requires caller { IsCallerOf L.store halved.caller }
    requires other { IsHalfOf L.store halved.caller.number other }
    ensures same { gate.new ≡ gate.old }
    ensures session { result ≡ halved.caller }
{
    let QuotaSession {
        mut session,
        half,
        limit: _,
        lock: _,
    } = halved;
    let Some(one) = half else { unreachable!() };
    join(gate, &mut session, Halves { one, other });
    session
}

// Joins the halves of each session's seat. The sessions come into the room that `room` has.
fn join_halves<
    W: Wait,
    F: StoreFile + Drop,
    R: RpmbPort + Drop,
    L: StoreName + DevicesName,
    E: Entropy,
>(
    rt: &W,
    gate: &mut SharedGate<F, R, L>,
    sessions: Vec<QuotaSession<E>>,
    places: &mut Vec<Option<KeptSeat>>,
    room: Vec<Session<E>>,
) -> Vec<Session<E>>
    requires callers { AreCallers L.store sessions.items }
    requires halves { AreHalves L.store places.old.items }
    requires empty { vec_len room ≡ 0 }
    requires room { vec_len sessions ≤ vec_capacity room }
    ensures same { gate.new ≡ gate.old }
    ensures sessions { result.items ≡ callers_of sessions.items }
{
    let mut left = sessions;
    let mut joined = room;
    while let Some(session) = left.pop() {
        let other = await_half(rt, places, session.number());
        let session = join_session(gate, session, other);
        joined.push(session).unwrap();
    }
    // The last came first.
    reversed(joined)
}

/// Joins the seats of a store's sessions, once no thread shares it any more: each session is as it was under quotas. No memory is taken but
/// the room. It waits for a kept half that stands behind none of these locks, which are those that the sessions were shared with.
pub fn join_sessions<
    W: Wait,
    F: StoreFile + Drop,
    R: RpmbPort + Drop,
    L: StoreName + DevicesName,
    E: Entropy,
>(
    rt: &W,
    gate: &mut SharedGate<F, R, L>,
    locks: Vec<Mutex<AppHalves<L>>>,
    sessions: Vec<QuotaSession<E>>,
    room: JoinRoom<E>,
) -> Vec<Session<E>>
    requires callers { AreCallers L.store sessions.items }
    requires few { vec_len sessions ≤ 16 }
    ensures same { gate.new ≡ gate.old }
    ensures sessions { result.items ≡ callers_of sessions.items }
{
    let JoinRoom {
        places,
        sessions: room,
    } = room;
    let mut places = places.into_places();
    gather_halves(locks, &mut places);
    join_halves(rt, gate, sessions, &mut places, room)
}
