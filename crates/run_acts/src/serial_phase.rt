// The calls of a phase, served under a name of its store.

ghost use Rattle.std.specs.Prelude.{◌≡◌, ◌≤◌, [], length, vec_len, IfErr, IfOk, MatchResult};
ghost use Rattle.tee_types.specs.Limits.{file_count};
ghost use Rattle.object_calls.specs.OpenedStores.{IsStoreOf, store_in};
ghost use Rattle.object_calls.specs.Opening.{IsKeyed};
ghost use Rattle.object_calls.specs.OpeningSessions.{AreSeated, AreUnseated};
ghost use Rattle.quota_store.specs.EventCounts.{events_at};
ghost use Rattle.run_acts.specs.Reliable.{AreFresh, AreReliable};
ghost use Rattle.run_acts.specs.ServedSteps.{AreCalls};
ghost use Rattle.script_text.specs.declared.script.Mode.{Mode};
ghost use Rattle.script_text.specs.declared.script.Mode.TheVariants.{Serial};
ghost use Rattle.run_acts.specs.Benches.{BenchState, bench_state, opening_state};
ghost use Rattle.run_acts.specs.Closing.{ClosesEarly, ClosesStore};
ghost use Rattle.run_acts.specs.PhaseServing.{HasDevices};

use crate::sessions::open_sessions;
use crate::{make_calls, serve_shared_once};
use core_laws::StoreName;
use hmac_keys::Keys;
use object_calls::{Bench, Closed, Opening, Service};
use quota_store::Session;
use rpmb_card::RpmbPort;
use script_text::{Mode, Step};
use std::alloc::Global;
use std::marker::Brand;
use std::sync::Wait;
use std::thread::Threads;
use tee_ports::{Entropy, StoreFile};
use tee_types::{AppId, NoMemory};

// Makes the calls, and closes the store. Where memory runs out the bench is given back alone.
fn make_and_close<F: StoreFile + Drop, R: RpmbPort + Drop, E: Entropy + Drop, L: StoreName>(
    service: Service<F, R, L>,
    sessions: Vec<Session<E>>,
    calls: &[Step],
) -> Result<Closed<F, R>, Bench<F, R>>
    requires begins { events_at service.gate ≡ [] }
    requires sessions { AreSeated L.store sessions.items }
    requires calls { AreCalls (length sessions.items) calls.now }
    requires fresh { AreFresh E.faults sessions.items }
    ensures closed { (mode : Mode) (before : BenchState) → HasDevices F.state R.state service before
        → IfOk result (λ c. ClosesStore (AreReliable E.is_reliable sessions.items) L.store before mode calls.now (bench_state F.state R.state c.bench) c.history.events) }
    ensures early { (before : BenchState) → HasDevices F.state R.state service before → IfErr result (λ b. ClosesEarly L.store before Serial calls.now (bench_state F.state R.state b)) }
    ensures whole { MatchResult result (λ c. vec_len c.bench.files ≡ file_count) (λ b. vec_len b.files ≡ file_count) }
{
    let mut service = service;
    let mut sessions = sessions;
    let made = make_calls(&mut service, &mut sessions, calls);
    let closed = service.finish(sessions);
    match made {
        Ok(()) => Ok(closed),
        Err(NoMemory {}) => Err(closed.bench),
    }
}

// Serves the store that `L` names, one call after another, and closes it. What was served so serves in each mode. Only contracts read the
// keys: they name the store.
fn serve_calls<F: StoreFile + Drop, R: RpmbPort + Drop, E: Entropy + Drop, L: StoreName>(
    opening: Opening<F, R>,
    sessions: Vec<Session<E>>,
    _keys: &Keys,
    calls: &[Step],
) -> Result<Closed<F, R>, Bench<F, R>>
    requires store { IsStoreOf F.state L.store opening }
    requires sessions { AreUnseated opening.applications sessions.items }
    requires calls { AreCalls (length opening.applications) calls.now }
    requires fresh { AreFresh E.faults sessions.items }
    ensures closed { (mode : Mode) → IfOk result (λ c. ClosesStore (AreReliable E.is_reliable sessions.items) L.store (opening_state F.state R.state opening) mode calls.now
        (bench_state F.state R.state c.bench) c.history.events) }
    ensures early { IfErr result (λ b. ClosesEarly L.store (opening_state F.state R.state opening) Serial calls.now (bench_state F.state R.state b)) }
    ensures whole { MatchResult result (λ c. vec_len c.bench.files ≡ file_count) (λ b. vec_len b.files ≡ file_count) }
{
    let mut sessions = sessions;
    match opening.serve::<E, L>(&mut sessions) {
        Ok(service) => make_and_close(service, sessions, calls),
        Err(opening) => Err(opening.close()),
    }
}

// Serves a store under a name of its own, one call after another, and closes it. The keys are those that it was mounted with.
fn serve_alone<F: StoreFile + Drop, R: RpmbPort + Drop, E: Entropy + Drop>(
    opening: Opening<F, R>,
    sessions: Vec<Session<E>>,
    keys: &Keys,
    calls: &[Step],
) -> Result<Closed<F, R>, Bench<F, R>>
    requires keyed { IsKeyed keys.now opening }
    requires sessions { AreUnseated opening.applications sessions.items }
    requires calls { AreCalls (length opening.applications) calls.now }
    requires fresh { AreFresh E.faults sessions.items }
    ensures closed { (mode : Mode) → IfOk result (λ c. ClosesStore (AreReliable E.is_reliable sessions.items) (store_in keys.now F.state opening) (opening_state F.state R.state opening) mode calls.now
        (bench_state F.state R.state c.bench) c.history.events) }
    ensures early { IfErr result (λ b. ClosesEarly (store_in keys.now F.state opening) (opening_state F.state R.state opening) Serial calls.now (bench_state F.state R.state b)) }
    ensures whole { MatchResult result (λ c. vec_len c.bench.files ≡ file_count) (λ b. vec_len b.files ≡ file_count) }
{
    serve_calls::<F, R, E, Brand>(opening, sessions, keys, calls)
}

/// Serves a store that is mounted to some applications, one call after another, and closes it. Each application has a session, which draws
/// from a stream of `entropy` of its own. The keys are those that the store was mounted with.
///
/// # Errors
///
/// Memory ran out. The bench is given back: no call was made, or some of the first.
pub fn serve_serially<F: StoreFile + Drop, R: RpmbPort + Drop, E: Entropy + Drop>(
    alloc: Global,
    opening: Opening<F, R>,
    keys: &Keys,
    entropy: &E,
    applications: &[AppId],
    calls: &[Step],
) -> Result<Closed<F, R>, Bench<F, R>>
    requires keyed { IsKeyed keys.now opening }
    requires none { opening.applications ≡ [] }
    requires few { length applications.now ≤ 16 }
    requires calls { AreCalls (length applications.now) calls.now }
    ensures closed { IfOk result (λ c. ClosesStore (E.is_reliable entropy.now) (store_in keys.now F.state (record opening { applications = applications.now }))
        (opening_state F.state R.state opening) Serial calls.now (bench_state F.state R.state c.bench) c.history.events) }
    ensures early { IfErr result (λ b. ClosesEarly (store_in keys.now F.state (record opening { applications = applications.now }))
        (opening_state F.state R.state opening) Serial calls.now (bench_state F.state R.state b)) }
    ensures whole { MatchResult result (λ c. vec_len c.bench.files ≡ file_count) (λ b. vec_len b.files ≡ file_count) }
{
    let mut opening = opening;
    match open_sessions(alloc, &mut opening, entropy, 0, applications) {
        Ok(sessions) => serve_alone(opening, sessions, keys, calls),
        Err(NoMemory {}) => Err(opening.close()),
    }
}

/// Serves a store under a name of its own: makes the calls as the mode says, and closes it. The keys are those that it was mounted with.
///
/// # Errors
///
/// Memory ran out. The bench is given back.
pub(crate) fn serve_once<
    W: Threads + Wait + Sync,
    F: StoreFile + Drop + Send,
    R: RpmbPort + Drop + Send,
    E: Entropy + Drop + Send,
>(
    rt: &W,
    alloc: Global,
    opening: Opening<F, R>,
    sessions: Vec<Session<E>>,
    keys: &Keys,
    mode: Mode,
    calls: &[Step],
) -> Result<Closed<F, R>, Bench<F, R>>
    requires keyed { IsKeyed keys.now opening }
    requires sessions { AreUnseated opening.applications sessions.items }
    requires calls { AreCalls (length opening.applications) calls.now }
    requires fresh { AreFresh E.faults sessions.items }
    ensures closed { IfOk result (λ c. ClosesStore (AreReliable E.is_reliable sessions.items) (store_in keys.now F.state opening) (opening_state F.state R.state opening) mode calls.now
        (bench_state F.state R.state c.bench) c.history.events) }
    ensures early { IfErr result (λ b. ClosesEarly (store_in keys.now F.state opening) (opening_state F.state R.state opening) mode calls.now (bench_state F.state R.state b)) }
    ensures whole { MatchResult result (λ c. vec_len c.bench.files ≡ file_count) (λ b. vec_len b.files ≡ file_count) }
{
    match mode {
        Mode::Serial => serve_alone(opening, sessions, keys, calls),
        Mode::Threads => serve_shared_once(rt, alloc, opening, sessions, keys, calls),
    }
}
