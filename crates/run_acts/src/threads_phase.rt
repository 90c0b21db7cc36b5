//! The calls of a phase, served by threads under a name of its store and of its devices.

ghost use Rattle.std.specs.Prelude.{◌≡◌, ◌≤◌, length, vec_len, IfErr, IfOk, MatchResult};
ghost use Rattle.std.specs.Vec.{vec_capacity};
ghost use Rattle.tee_types.specs.Limits.{file_count, last_file, old_directory_file};
ghost use Rattle.object_calls.specs.OpeningFiles.{files_of};
ghost use Rattle.object_calls.specs.OpenedStores.{IsStoreOf, store_in};
ghost use Rattle.object_calls.specs.Opening.{IsKeyed};
ghost use Rattle.object_calls.specs.OpeningSessions.{AreCallers, AreSeated, AreUnseated, HaveNoEvents};
ghost use Rattle.run_acts.specs.Reliable.{AreFresh, AreReliable};
ghost use Rattle.run_acts.specs.ServedSteps.{AreCalls};
ghost use Rattle.script_text.specs.declared.script.Mode.TheVariants.{Threads};
ghost use Rattle.quota_store.specs.Kept.{KeepsGate};
ghost use Rattle.run_acts.specs.SharedClosing.{ClosesShared};
ghost use Rattle.run_acts.specs.Benches.{BenchState, bench_state, opening_state};
ghost use Rattle.run_acts.specs.Closing.{ClosesEarly};
ghost use Rattle.run_acts.specs.OwnCalls.{HaveWorked};
ghost use Rattle.run_acts.specs.Sharing.{AreKept, IsBenchOf, opening_devices};

use crate::done_calls::have_made;
use crate::own_calls::make_own_calls;
use crate::shared_slots::{SharedSlots, share_slots, unshare_slots};
use core_laws::StoreName;
use hmac_keys::Keys;
use object_calls::{Bench, Closed, Opening, Service, ServiceParts, close_slots};
use quota_store::{DevicesName, Session, SharedGate, SharedSlot, SharedStore};
use rpmb_card::RpmbPort;
use script_text::Step;
use std::alloc::Global;
use std::marker::Brand;
use std::sync::{Mutex, Wait};
use std::thread;
use std::thread::Threads;
use tee_ports::{Entropy, StoreFile};
use tee_types::{MAX_FILE, MAX_SESSIONS};

// Makes the calls of all sessions, those of each on a thread of its own. A session in which memory ran out made the first of its calls.
fn make_beside<
    W: Threads + Wait + Sync,
    F: StoreFile + Drop + Send,
    R: RpmbPort + Drop + Send,
    E: Entropy + Drop + Send,
    L: StoreName + DevicesName + Send + Sync,
>(rt: &W, alloc: Global, store: &SharedStore<F, R, L>, sessions: &mut [Session<E>], calls: &[Step])
    requires { AreCallers L.store sessions.old }
    ensures { HaveWorked E.is_reliable E.faults L.store calls.now sessions.old sessions.new }
{
    thread::for_each_mut(
        rt,
        sessions,
        MAX_SESSIONS,
        &|_, session| {
            let _made = make_own_calls(rt, alloc, store, session, calls);
        },
    );
}

// Shares a store, makes the calls, and closes it. Where memory runs out the bench is given back alone.
fn share_and_close<
    W: Threads + Wait + Sync,
    F: StoreFile + Drop + Send,
    R: RpmbPort + Drop + Send,
    E: Entropy + Drop + Send,
    L: StoreName + DevicesName + Send + Sync,
>(
    rt: &W,
    alloc: Global,
    service: Service<F, R, L>,
    shared: Vec<Mutex<SharedSlot<F, L>>>,
    sessions: Vec<Session<E>>,
    calls: &[Step],
) -> Result<Closed<F, R>, Bench<F, R>>
    requires gate { KeepsGate F.state R.state L.store L.devices service.gate }
    requires slots { AreKept L.devices last_file service.slots }
    requires spare { F.state service.spare ≡ L.devices.file old_directory_file }
    requires empty { vec_len shared ≡ 0 }
    requires room { last_file ≤ vec_capacity shared }
    requires sessions { AreSeated L.store sessions.items }
    requires unmade { HaveNoEvents sessions.items }
    requires calls { AreCalls (length sessions.items) calls.now }
    requires fresh { AreFresh E.faults sessions.items }
    ensures closed { IfOk result (λ c. ClosesShared (AreReliable E.is_reliable sessions.items) L.store L.devices calls.now (files_of F.state c.bench.files.items) (R.state c.bench.card) c.history.events) }
    ensures early { (before : BenchState) → IsBenchOf L.devices before → IfErr result (λ b. ClosesEarly L.store before Threads calls.now (bench_state F.state R.state b)) }
    ensures whole { MatchResult result (λ c. vec_len c.bench.files ≡ file_count) (λ b. vec_len b.files ≡ file_count) }
{
    let ServiceParts {
        gate,
        slots,
        storage_key,
        room,
        places,
        spare,
    } = service.into_parts();
    let SharedSlots {
        slots,
        room: emptied,
    } = share_slots(slots, shared);
    let store = SharedStore::new(SharedGate::new(gate), slots, storage_key);
    let mut sessions = sessions;
    make_beside(rt, alloc, &store, &mut sessions, calls);
    let (gate, slots) = store.into_parts();
    let slots = unshare_slots(slots, emptied);
    let done = have_made(&sessions, calls.len());
    let closed = close_slots(gate.into_gate(), slots, places, room, spare, sessions);
    if done { Ok(closed) } else { Err(closed.bench) }
}

/// Serves the store that `L` names on the devices that `L` names, and closes it. The calls of each application are made in their order, on a
/// thread of its own. Only contracts read the keys: they name the store.
///
/// # Errors
///
/// Memory ran out. The bench is given back, and the calls have no history.
pub fn serve_shared<
    W: Threads + Wait + Sync,
    F: StoreFile + Drop + Send,
    R: RpmbPort + Drop + Send,
    E: Entropy + Drop + Send,
    L: StoreName + DevicesName + Send + Sync,
>(
    rt: &W,
    alloc: Global,
    opening: Opening<F, R>,
    sessions: Vec<Session<E>>,
    _keys: &Keys,
    calls: &[Step],
) -> Result<Closed<F, R>, Bench<F, R>>
    requires store { IsStoreOf F.state L.store opening }
    requires devices { L.devices ≡ opening_devices F.state R.state opening }
    requires sessions { AreUnseated opening.applications sessions.items }
    requires calls { AreCalls (length opening.applications) calls.now }
    requires fresh { AreFresh E.faults sessions.items }
    ensures closed { IfOk result (λ c. ClosesShared (AreReliable E.is_reliable sessions.items) L.store L.devices calls.now (files_of F.state c.bench.files.items) (R.state c.bench.card) c.history.events) }
    ensures early { IfErr result (λ b. ClosesEarly L.store (opening_state F.state R.state opening) Threads calls.now (bench_state F.state R.state b)) }
    ensures whole { MatchResult result (λ c. vec_len c.bench.files ≡ file_count) (λ b. vec_len b.files ≡ file_count) }
{
    let Ok(shared) = Vec::with_capacity(alloc, usize::from(MAX_FILE)) else {
        return Err(opening.close());
    };
    let mut sessions = sessions;
    match opening.serve::<E, L>(&mut sessions) {
        Ok(service) => share_and_close(rt, alloc, service, shared, sessions, calls),
        Err(opening) => Err(opening.close()),
    }
}

/// Serves a store that is mounted, and closes it, as `serve_shared` does.
///
/// # Errors
///
/// Memory ran out. The bench is given back, and the calls have no history.
pub fn serve_shared_once<
    W: Threads + Wait + Sync,
    F: StoreFile + Drop + Send,
    R: RpmbPort + Drop + Send,
    E: Entropy + Drop + Send,
>(
    rt: &W,
    alloc: Global,
    opening: Opening<F, R>,
    sessions: Vec<Session<E>>,
    keys: &Keys,
    calls: &[Step],
) -> Result<Closed<F, R>, Bench<F, R>>
    requires keyed { IsKeyed keys.now opening }
    requires sessions { AreUnseated opening.applications sessions.items }
    requires calls { AreCalls (length opening.applications) calls.now }
    requires fresh { AreFresh E.faults sessions.items }
    ensures closed { IfOk result (λ c. ClosesShared (AreReliable E.is_reliable sessions.items) (store_in keys.now F.state opening) (opening_devices F.state R.state opening) calls.now
        (files_of F.state c.bench.files.items) (R.state c.bench.card) c.history.events) }
    ensures early { IfErr result (λ b. ClosesEarly (store_in keys.now F.state opening) (opening_state F.state R.state opening) Threads calls.now (bench_state F.state R.state b)) }
    ensures whole { MatchResult result (λ c. vec_len c.bench.files ≡ file_count) (λ b. vec_len b.files ≡ file_count) }
{
    serve_shared::<W, F, R, E, Brand>(rt, alloc, opening, sessions, keys, calls)
}
