// The calls of a phase under quotas, served by threads under a name of its store and of its devices.

ghost use Rattle.std.specs.Prelude.{◌≡◌, ◌≢◌, ◌≤◌, All, [], length, vec_len, IfErr, IfOk, MatchResult};
ghost use Rattle.std.specs.Vec.{vec_capacity};
ghost use Rattle.tee_types.specs.Limits.{file_count, last_file, old_directory_file};
ghost use Rattle.app_quota.specs.Limits.{Limits};
ghost use Rattle.object_calls.specs.OpeningFiles.{files_of};
ghost use Rattle.object_calls.specs.OpenedStores.{IsStoreOf, store_in};
ghost use Rattle.object_calls.specs.Opening.{IsKeyed};
ghost use Rattle.object_calls.specs.OpeningSessions.{AreSeated, AreUnseated, HaveNoEvents};
ghost use Rattle.quota_store.specs.Sharing.{callers_of};
ghost use Rattle.script_text.specs.declared.script.Mode.TheVariants.{Threads};
ghost use Rattle.quota_store.specs.CallerSessions.{IsCallerOf};
ghost use Rattle.quota_store.specs.Kept.{KeepsGate};
ghost use Rattle.run_acts.specs.Benches.{BenchState, bench_state, opening_state};
ghost use Rattle.run_acts.specs.Closing.{ClosesEarly};
ghost use Rattle.run_acts.specs.OwnQuotas.{lists_in};
ghost use Rattle.run_acts.specs.QuotaClosing.{ClosesSharedWithin, ClosesWithin};
ghost use Rattle.run_acts.specs.QuotaRefusals.{HoldsOfAdmitted};
ghost use Rattle.run_acts.specs.QuotaWork.{AreLimited, AreUnworked, HaveWorkedWithin, IsLimited, LeaveWork};
ghost use Rattle.run_acts.specs.Reliable.{AreFresh, AreReliable};
ghost use Rattle.run_acts.specs.ServedSteps.{AreCalls};
ghost use Rattle.run_acts.specs.Sharing.{AreKept, IsBenchOf, opening_devices};

use crate::quota_closed::{QuotaClosed, with_refused};
use crate::quota_crew::{CrewRoom, Dismissed, are_done, dismiss, hire};
use crate::quota_worker::{QuotaWorker, work};
use crate::refused_call::RefusedCall;
use crate::shared_slots::{SharedSlots, share_slots, unshare_slots};
use app_quota::Quota;
use core_laws::StoreName;
use hmac_keys::Keys;
use object_calls::{Bench, Opening, Service, ServiceParts, close_slots};
use quota_store::{
    DevicesName, QuotaRoom, QuotaSession, QuotaStore, Session, SharedGate, SharedSessions,
    SharedSlot, SharedStore, join_sessions, share_sessions,
};
use rpmb_card::RpmbPort;
use script_text::Step;
use std::alloc::Global;
use std::marker::Brand;
use std::sync::{Mutex, Wait};
use std::thread;
use std::thread::Threads;
use tee_ports::{Entropy, StoreFile};
use tee_types::{MAX_FILE, MAX_SESSIONS, NoMemory};

// The memory that a phase on threads needs under quotas. It is taken before the store is served.
#[derive(Drop)]
struct ThreadRoom<F: StoreFile + Drop, E, L: StoreName + DevicesName> {
    slots: Vec<Mutex<SharedSlot<F, L>>>,
    quotas: QuotaRoom<E, L>,
    crew: CrewRoom<E>,
    ghost empty: { vec_len slots ≡ 0 },
    ghost slots_fit: { last_file ≤ vec_capacity slots },
}

impl<F: StoreFile + Drop, E: Entropy, L: StoreName + DevicesName> ThreadRoom<F, E, L> {
    fn make(alloc: Global) -> Result<ThreadRoom<F, E, L>, NoMemory> {
        Ok(ThreadRoom {
            slots: Vec::with_capacity(alloc, usize::from(MAX_FILE))?,
            quotas: QuotaRoom::make(alloc)?,
            crew: CrewRoom::make(alloc)?,
        })
    }
}

// The sessions of a phase once their calls were made.
struct Finished<E> {
    sessions: Vec<QuotaSession<E>>,
    // The refused calls of each.
    lists: Vec<Vec<RefusedCall>>,
    // Whether all calls were made or refused.
    done: bool,
}

// Makes the calls of all workers, those of each on a thread of its own.
fn work_beside<
    W: Threads + Wait + Sync,
    F: StoreFile + Drop + Send,
    R: RpmbPort + Drop + Send,
    E: Entropy + Drop + Send,
    L: StoreName + DevicesName + Send + Sync,
>(
    rt: &W,
    alloc: Global,
    store: &QuotaStore<F, R, L>,
    workers: &mut [QuotaWorker<E>],
    calls: &[Step],
)
    requires { AreUnworked L.store workers.old }
    ensures { (limits : Limits) → AreLimited limits workers.old → HaveWorkedWithin E.is_reliable E.faults L.store limits calls.now workers.old workers.new }
{
    thread::for_each_mut(
        rt,
        workers,
        MAX_SESSIONS,
        &|_, worker| work(rt, alloc, store, worker, calls),
    );
}

// Makes the calls of all sessions, those of each on a thread of its own. A session in which memory ran out made the first of its calls.
fn make_beside_within<
    W: Threads + Wait + Sync,
    F: StoreFile + Drop + Send,
    R: RpmbPort + Drop + Send,
    E: Entropy + Drop + Send,
    L: StoreName + DevicesName + Send + Sync,
>(
    rt: &W,
    alloc: Global,
    store: &QuotaStore<F, R, L>,
    sessions: Vec<QuotaSession<E>>,
    crew: CrewRoom<E>,
    calls: &[Step],
) -> Finished<E>
    requires few { vec_len sessions ≤ 16 }
    requires callers { All (λ s. IsCallerOf L.store s.caller) sessions.items }
    ensures { (limits : Limits) → All (IsLimited limits) sessions.items
        → LeaveWork E.is_reliable E.faults L.store limits calls.now result.done (callers_of sessions.items) (callers_of result.sessions.items) (lists_in result.lists.items) }
{
    let CrewRoom {
        workers,
        sessions: emptied,
        lists,
    } = crew;
    let mut workers = hire(alloc, sessions, workers);
    work_beside(rt, alloc, store, &mut workers, calls);
    let done = are_done(&workers);
    let Dismissed { sessions, lists } = dismiss(workers, emptied, lists);
    Finished {
        sessions,
        lists,
        done,
    }
}

// Shares a store under quotas, makes the calls, and closes it. Where memory runs out the bench is given back alone.
fn share_and_close_within<
    W: Threads + Wait + Sync,
    F: StoreFile + Drop + Send,
    R: RpmbPort + Drop + Send,
    E: Entropy + Drop + Send,
    L: StoreName + DevicesName + Send + Sync,
>(
    rt: &W,
    alloc: Global,
    service: Service<F, R, L>,
    room: ThreadRoom<F, E, L>,
    sessions: Vec<Session<E>>,
    quotas: &[Quota],
    calls: &[Step],
) -> Result<QuotaClosed<F, R>, Bench<F, R>>
    requires gate { KeepsGate F.state R.state L.store L.devices service.gate }
    requires slots { AreKept L.devices last_file service.slots }
    requires spare { F.state service.spare ≡ L.devices.file old_directory_file }
    requires sessions { AreSeated L.store sessions.items }
    requires unmade { HaveNoEvents sessions.items }
    requires calls { AreCalls (length sessions.items) calls.now }
    requires fresh { AreFresh E.faults sessions.items }
    requires some { quotas.now ≢ [] }
    ensures closed { IfOk result (λ c. ClosesSharedWithin (AreReliable E.is_reliable sessions.items) L.store quotas.now L.devices calls.now
        (files_of F.state c.closed.bench.files.items) (R.state c.closed.bench.card) c.closed.history.events c.refused.items) }
    ensures early { (before : BenchState) → IsBenchOf L.devices before
        → IfErr result (λ b. HoldsOfAdmitted quotas.now calls.now (λ steps. ClosesEarly L.store before Threads steps (bench_state F.state R.state b))) }
    ensures whole { MatchResult result (λ c. vec_len c.closed.bench.files ≡ file_count) (λ b. vec_len b.files ≡ file_count) }
{
    let ServiceParts {
        gate,
        slots,
        storage_key,
        room: files,
        places,
        spare,
    } = service.into_parts();
    let ThreadRoom {
        slots: shared,
        quotas: quota_room,
        crew,
    } = room;
    let SharedSlots {
        slots,
        room: emptied,
    } = share_slots(slots, shared);
    let mut gate = SharedGate::new(gate);
    let SharedSessions {
        sessions,
        locks,
        room: join_room,
    } = share_sessions(&mut gate, sessions, quotas, quota_room);
    let store = QuotaStore::new(SharedStore::new(gate, slots, storage_key), locks);
    let Finished {
        sessions,
        lists,
        done,
    } = make_beside_within(rt, alloc, &store, sessions, crew, calls);
    let (store, locks) = store.into_parts();
    let (mut gate, slots) = store.into_parts();
    let sessions = join_sessions(rt, &mut gate, locks, sessions, join_room);
    let slots = unshare_slots(slots, emptied);
    let closed = close_slots(gate.into_gate(), slots, places, files, spare, sessions);
    if done {
        with_refused(alloc, closed, &lists)
    } else {
        Err(closed.bench)
    }
}

/// Serves the store that `L` names on the devices that `L` names under quotas, and closes it. The calls of each application are made in their
/// order, on a thread of its own, but for those that would leave it more than it may have: these are refused. Only contracts read the keys:
/// they name the store.
///
/// # Errors
///
/// Memory ran out. The bench is given back, and the calls have no history.
pub(crate) fn serve_shared_within<
    W: Threads + Wait + Sync,
    F: StoreFile + Drop + Send,
    R: RpmbPort + Drop + Send,
    E: Entropy + Drop + Send,
    L: StoreName + DevicesName + Send + Sync,
>(
    rt: &W,
    alloc: Global,
    opening: Opening<F, R>,
    sessions: Vec<Session<E>>,
    _keys: &Keys,
    quotas: &[Quota],
    calls: &[Step],
) -> Result<QuotaClosed<F, R>, Bench<F, R>>
    requires store { IsStoreOf F.state L.store opening }
    requires devices { L.devices ≡ opening_devices F.state R.state opening }
    requires sessions { AreUnseated opening.applications sessions.items }
    requires calls { AreCalls (length opening.applications) calls.now }
    requires fresh { AreFresh E.faults sessions.items }
    requires some { quotas.now ≢ [] }
    ensures closed { IfOk result (λ c. ClosesSharedWithin (AreReliable E.is_reliable sessions.items) L.store quotas.now L.devices calls.now
        (files_of F.state c.closed.bench.files.items) (R.state c.closed.bench.card) c.closed.history.events c.refused.items) }
    ensures early { IfErr result (λ b. HoldsOfAdmitted quotas.now calls.now (λ steps. ClosesEarly L.store (opening_state F.state R.state opening) Threads steps (bench_state F.state R.state b))) }
    ensures whole { MatchResult result (λ c. vec_len c.closed.bench.files ≡ file_count) (λ b. vec_len b.files ≡ file_count) }
{
    let Ok(room) = ThreadRoom::make(alloc) else {
        return Err(opening.close());
    };
    let mut sessions = sessions;
    match opening.serve::<E, L>(&mut sessions) {
        Ok(service) => share_and_close_within(rt, alloc, service, room, sessions, quotas, calls),
        Err(opening) => Err(opening.close()),
    }
}

/// Serves a store that is mounted under quotas, and closes it, as `serve_shared_within` does.
///
/// # Errors
///
/// Memory ran out. The bench is given back, and the calls have no history.
pub(crate) fn serve_shared_within_once<
    W: Threads + Wait + Sync,
    F: StoreFile + Drop + Send,
    R: RpmbPort + Drop + Send,
    E: Entropy + Drop + Send,
>(
    rt: &W,
    alloc: Global,
    opening: Opening<F, R>,
    sessions: Vec<Session<E>>,
    keys: &Keys,
    quotas: &[Quota],
    calls: &[Step],
) -> Result<QuotaClosed<F, R>, Bench<F, R>>
    requires keyed { IsKeyed keys.now opening }
    requires sessions { AreUnseated opening.applications sessions.items }
    requires calls { AreCalls (length opening.applications) calls.now }
    requires fresh { AreFresh E.faults sessions.items }
    requires some { quotas.now ≢ [] }
    ensures closed { IfOk result (λ c. ClosesWithin (AreReliable E.is_reliable sessions.items) (store_in keys.now F.state opening) quotas.now (opening_state F.state R.state opening) Threads calls.now
        (bench_state F.state R.state c.closed.bench) c.closed.history.events c.refused.items) }
    ensures early { IfErr result (λ b. HoldsOfAdmitted quotas.now calls.now (λ steps. ClosesEarly (store_in keys.now F.state opening) (opening_state F.state R.state opening) Threads steps (bench_state F.state R.state b))) }
    ensures whole { MatchResult result (λ c. vec_len c.closed.bench.files ≡ file_count) (λ b. vec_len b.files ≡ file_count) }
{
    serve_shared_within::<W, F, R, E, Brand>(rt, alloc, opening, sessions, keys, quotas, calls)
}
