// The workers of a phase under quotas: one for each session.

ghost use Rattle.std.specs.Prelude.{◌≡◌, ◌≤◌, IfOk, vec_len};
ghost use Rattle.std.specs.List.{list_all};
ghost use Rattle.std.specs.Vec.{vec_capacity};
ghost use Rattle.run_acts.specs.QuotaCrews.{AreHired, lists_of, sessions_of};

use crate::quota_worker::QuotaWorker;
use crate::refused_call::RefusedCall;
use quota_store::QuotaSession;
use std::alloc::Global;
use tee_types::{MAX_SESSIONS, NoMemory};

/// The memory that the workers of a phase need. It is taken before the store is served.
#[derive(Drop)]
pub(crate) struct CrewRoom<E> {
    pub(crate) workers: Vec<QuotaWorker<E>>,
    // Where their sessions come to, and the lists of their refused calls.
    pub(crate) sessions: Vec<QuotaSession<E>>,
    pub(crate) lists: Vec<Vec<RefusedCall>>,
    ghost unhired: { vec_len workers ≡ 0 },
    ghost workers_fit: { 16 ≤ vec_capacity workers },
    ghost empty: { vec_len sessions ≡ 0 },
    ghost sessions_fit: { 16 ≤ vec_capacity sessions },
    ghost unlisted: { vec_len lists ≡ 0 },
    ghost lists_fit: { 16 ≤ vec_capacity lists },
}

impl<E: Drop> CrewRoom<E> {
    /// Room for as many workers as a store may have sessions.
    ///
    /// # Errors
    ///
    /// Memory ran out.
    pub(crate) fn make(alloc: Global) -> Result<CrewRoom<E>, NoMemory> {
        Ok(CrewRoom {
            workers: Vec::with_capacity(alloc, MAX_SESSIONS)?,
            sessions: Vec::with_capacity(alloc, MAX_SESSIONS)?,
            lists: Vec::with_capacity(alloc, MAX_SESSIONS)?,
        })
    }
}

/// The sessions of a phase once their calls were made, and the refused calls of each.
pub(crate) struct Dismissed<E> {
    pub(crate) sessions: Vec<QuotaSession<E>>,
    pub(crate) lists: Vec<Vec<RefusedCall>>,
}

/// A worker for each session, in order, in the room that `room` has.
pub(crate) fn hire<E: Drop>(
    alloc: Global,
    sessions: Vec<QuotaSession<E>>,
    room: Vec<QuotaWorker<E>>,
) -> Vec<QuotaWorker<E>>
    requires few { vec_len sessions ≤ 16 }
    requires empty { vec_len room ≡ 0 }
    requires room { 16 ≤ vec_capacity room }
    ensures { AreHired sessions.items result.items }
{
    let mut workers = room;
    for session in sessions {
        workers
            .push(QuotaWorker {
                session,
                refused: Vec::new(alloc),
                done: false,
            })
            .unwrap();
    }
    workers
}

/// Whether each worker made all its calls that were not refused.
pub(crate) fn are_done<E>(workers: &[QuotaWorker<E>]) -> bool
    ensures { result ≡ list_all (λ w. w.done) workers.now }
{
    workers.iter().all(|worker| worker.done)
}

/// The sessions of these workers and the refused calls of each, in order, in the room that the two lists have.
pub(crate) fn dismiss<E: Drop>(
    workers: Vec<QuotaWorker<E>>,
    sessions: Vec<QuotaSession<E>>,
    lists: Vec<Vec<RefusedCall>>,
) -> Dismissed<E>
    requires few { vec_len workers ≤ 16 }
    requires empty { vec_len sessions ≡ 0 }
    requires room { 16 ≤ vec_capacity sessions }
    requires unlisted { vec_len lists ≡ 0 }
    requires lists { 16 ≤ vec_capacity lists }
    ensures sessions { result.sessions.items ≡ sessions_of workers.items }
    ensures lists { result.lists.items ≡ lists_of workers.items }
{
    let mut sessions = sessions;
    let mut lists = lists;
    for worker in workers {
        let QuotaWorker {
            session,
            refused,
            done: _,
        } = worker;
        sessions.push(session).unwrap();
        lists.push(refused).unwrap();
    }
    Dismissed { sessions, lists }
}
