//! The sessions of a store, cut into halves for quotas.

ghost use Rattle.std.specs.Prelude.{◌≡◌, ◌<◌, ◌≤◌, if◌then◌else◌, is_some, length, map, None, reverse, true, vec_len};
ghost use Rattle.std.specs.Vec.{vec_capacity};
ghost use Rattle.shared_store.specs.CallerSessions.{IsCallerOf};
ghost use Rattle.quota_store.specs.Halves.{AreEmptyPlaces, AreHalves, kept_at};
ghost use Rattle.quota_store.specs.Sharing.{AreAllKept, AreMoved, AreOfApps, AreSeated, AreTogether, PutsHalf, callers_of, is_app_at, limited_by};

use crate::app_halves::AppHalves;
use crate::looks::cut;
use crate::places::EmptyPlaces;
use crate::quota_room::{JoinRoom, QuotaRoom};
use crate::quota_session::QuotaSession;
use app_quota::{Quota, limit_of};
use history_seats::KeptSeat;
use rpmb_card::RpmbPort;
use shared_store::{DevicesName, Session, SharedGate, StoreName};
use std::sync::Mutex;
use tee_ports::{Entropy, StoreFile};
use tee_types::AppId;

/// The sessions of a store under quotas.
pub struct SharedSessions<E, L: StoreName> {
    /// The lock of each application.
    pub locks: Vec<Mutex<AppHalves<L>>>,
    /// The sessions, in order.
    pub sessions: Vec<QuotaSession<E>>,
    /// What they need to be joined again.
    pub room: JoinRoom<E>,
}

/// The same elements, the last first.
pub(crate) fn reversed<T>(items: Vec<T>) -> Vec<T>
    ensures items { result.items ≡ reverse items.items }
{
    let mut items = items;
    items.reverse();
    items
}

// Cuts the seat of a session. The kept half is put to the others.
fn cut_session<F: StoreFile + Drop, R: RpmbPort + Drop, L: StoreName + DevicesName, E: Entropy>(
    gate: &mut SharedGate<F, R, L>,
    session: Session<E>,
    quotas: &[Quota],
    kept: &mut Vec<Option<KeptSeat>>,
) -> QuotaSession<E>
    requires halves { AreHalves L.store kept.old.items }
    requires caller { IsCallerOf L.store session }
    ensures same { gate.new ≡ gate.old }
    ensures session { result ≡ limited_by quotas.now session }
    ensures kept { PutsHalf L.store session.number kept.old.items kept.new.items }
{
    let mut session = session;
    let half = cut(gate, kept, &mut session);
    let limit = limit_of(quotas, session.app());
    QuotaSession {
        session,
        half: Some(half),
        limit,
        lock: 0,
    }
}

// Cuts the seats of all sessions, and puts the kept halves to their places. The sessions come into the room that `cut` has.
fn cut_sessions<F: StoreFile + Drop, R: RpmbPort + Drop, L: StoreName + DevicesName, E: Entropy>(
    gate: &mut SharedGate<F, R, L>,
    sessions: Vec<Session<E>>,
    quotas: &[Quota],
    kept: &mut Vec<Option<KeptSeat>>,
    room: Vec<QuotaSession<E>>,
) -> Vec<QuotaSession<E>>
    requires seated { AreSeated L.store sessions.items }
    requires few { length L.store.mounted.applications ≤ 16 }
    requires places { AreEmptyPlaces kept.old.items }
    requires empty { vec_len room ≡ 0 }
    requires room { 16 ≤ vec_capacity room }
    ensures same { gate.new ≡ gate.old }
    ensures sessions { result.items ≡ map (limited_by quotas.now) sessions.items }
    ensures halves { AreHalves L.store kept.new.items }
    ensures all { AreAllKept L.store kept.new.items }
    ensures many { vec_len kept.new ≡ 16 }
{
    let mut left = sessions;
    let mut halved = room;
    while let Some(session) = left.pop() {
        let session = cut_session(gate, session, quotas, kept);
        halved.push(session).unwrap();
    }
    // The last came first.
    reversed(halved)
}

// Moves a kept half from its place to that one, if it is picked.
fn move_half(is_picked: bool, from: &mut Option<KeptSeat>, to: &mut Option<KeptSeat>)
    ensures left { from.new ≡ (if is_picked then None else from.old) }
    ensures came { to.new ≡ (if is_picked then from.old else to.old) }
{
    if !is_picked {
        return;
    }
    *to = from.take();
}

// Moves the kept halves of an application's sessions to places of their own.
fn take_own<E: Entropy>(
    app: AppId,
    sessions: &[QuotaSession<E>],
    kept: &mut [Option<KeptSeat>],
    places: EmptyPlaces,
) -> Vec<Option<KeptSeat>>
    requires few { length sessions.now ≤ 16 }
    requires many { length kept.old ≡ 16 }
    ensures { AreMoved (is_app_at app sessions.now) kept.old kept.new result.items }
{
    let mut own = places.into_places();
    for number in 0..sessions.len() {
        let is_own = app == sessions[number].app();
        move_half(is_own, &mut kept[number], &mut own[number]);
    }
    own
}

// Tells the sessions of an application where its lock is.
fn tell_lock<E: Entropy>(app: AppId, sessions: &mut [QuotaSession<E>], lock: usize)
    ensures { sessions.new ≡ sessions.old }
{
    for session in sessions.iter_mut() {
        session.tell_lock(app, lock);
    }
}

// Puts the kept halves of one application's sessions behind a lock, and tells these sessions which it is. The application is that of the
// session of that number, whose kept half is here.
fn lock_app<E: Entropy, L: StoreName>(
    number: usize,
    lock: usize,
    sessions: &mut [QuotaSession<E>],
    kept: &mut [Option<KeptSeat>],
    places: EmptyPlaces,
) -> Mutex<AppHalves<L>>
    requires number { number < length sessions.old }
    requires here { is_some (kept_at kept.old number) ≡ true }
    requires few { length L.store.mounted.applications ≤ 16 }
    requires sessions { length sessions.old ≡ length L.store.mounted.applications }
    requires apps { AreOfApps L.store sessions.old }
    requires many { length kept.old ≡ 16 }
    requires halves { AreHalves L.store kept.old }
    requires together { AreTogether L.store kept.old }
    ensures same { sessions.new ≡ sessions.old }
    ensures halves { AreHalves L.store kept.new }
    ensures together { AreTogether L.store kept.new }
{
    let app = sessions[number].app();
    let own = take_own(app, sessions, kept, places);
    tell_lock(app, sessions, lock);
    Mutex::new(AppHalves::new(app, own))
}

// Puts the kept halves of each application's sessions behind a lock of their own, into the room that `locks` has, and tells the sessions
// which it is.
fn lock_apps<E: Entropy, L: StoreName>(
    sessions: &mut [QuotaSession<E>],
    kept: &mut [Option<KeptSeat>],
    places: Vec<EmptyPlaces>,
    locks: Vec<Mutex<AppHalves<L>>>,
) -> Vec<Mutex<AppHalves<L>>>
    requires few { length L.store.mounted.applications ≤ 16 }
    requires sessions { length sessions.old ≡ length L.store.mounted.applications }
    requires apps { AreOfApps L.store sessions.old }
    requires many { length kept.old ≡ 16 }
    requires halves { AreHalves L.store kept.old }
    requires all { AreAllKept L.store kept.old }
    requires places { vec_len places ≡ 16 }
    requires empty { vec_len locks ≡ 0 }
    requires room { 16 ≤ vec_capacity locks }
    ensures { sessions.new ≡ sessions.old }
{
    let mut places = places;
    let mut locks = locks;
    for number in 0..sessions.len() {
        if kept[number].is_some() {
            let own = places.pop().unwrap();
            let lock = lock_app(number, locks.len(), sessions, kept, own);
            locks.push(lock).unwrap();
        }
    }
    locks
}

/// Cuts the seats of a store's sessions for quotas: of each session one half is its caller's, and the kept halves of each application's
/// sessions come behind a lock of their own. No memory is taken but the room.
pub fn share_sessions<
    F: StoreFile + Drop,
    R: RpmbPort + Drop,
    L: StoreName + DevicesName,
    E: Entropy,
>(
    gate: &mut SharedGate<F, R, L>,
    sessions: Vec<Session<E>>,
    quotas: &[Quota],
    room: QuotaRoom<E, L>,
) -> SharedSessions<E, L>
    requires seated { AreSeated L.store sessions.items }
    requires few { length L.store.mounted.applications ≤ 16 }
    ensures same { gate.new ≡ gate.old }
    ensures sessions { result.sessions.items ≡ map (limited_by quotas.now) sessions.items }
    ensures callers { callers_of result.sessions.items ≡ sessions.items }
{
    let QuotaRoom {
        places,
        app_places,
        locks: lock_room,
        sessions: session_room,
        join,
    } = room;
    let mut kept = places.into_places();
    let mut halved = cut_sessions(gate, sessions, quotas, &mut kept, session_room);
    let locks = lock_apps(&mut halved, &mut kept, app_places, lock_room);
    SharedSessions {
        locks,
        sessions: halved,
        room: join,
    }
}
