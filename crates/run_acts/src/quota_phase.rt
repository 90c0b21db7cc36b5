// The calls of a phase under quotas, served under a name of its store.

ghost use Rattle.std.specs.Prelude.{◌≡◌, ◌≢◌, [], List, length, replicate, vec_len, IfErr, IfOk, MatchResult};
ghost use Rattle.tee_types.specs.Limits.{file_count};
ghost use Rattle.object_calls.specs.OpenedStores.{IsStoreOf, store_in};
ghost use Rattle.object_calls.specs.Opening.{IsKeyed};
ghost use Rattle.object_calls.specs.OpeningSessions.{AreSeated, AreUnseated, HaveNoEvents};
ghost use Rattle.quota_store.specs.EventCounts.{events_at};
ghost use Rattle.script_text.specs.declared.script.Mode.TheVariants.{Serial};
ghost use Rattle.script_text.specs.declared.script.Step.{Step};
ghost use Rattle.run_acts.specs.Benches.{BenchState, bench_state, opening_state};
ghost use Rattle.run_acts.specs.Closing.{ClosesEarly};
ghost use Rattle.run_acts.specs.OwnQuotas.{lists_in};
ghost use Rattle.run_acts.specs.PhaseServing.{HasDevices};
ghost use Rattle.run_acts.specs.QuotaClosing.{ClosesWithin};
ghost use Rattle.run_acts.specs.QuotaRefusals.{HoldsOfAdmitted};
ghost use Rattle.run_acts.specs.Reliable.{AreFresh, AreReliable};
ghost use Rattle.run_acts.specs.ServedSteps.{AreCalls};

use crate::phase_calls::make_calls_within;
use crate::quota_closed::{QuotaClosed, with_refused};
use crate::quota_threads::serve_shared_within_once;
use crate::refused_call::{RefusedCall, empty_lists};
use crate::serial_phase::serve_once;
use app_quota::Quota;
use core_laws::StoreName;
use hmac_keys::Keys;
use object_calls::{Bench, Opening, Service};
use quota_store::Session;
use rpmb_card::RpmbPort;
use script_text::{Mode, Step};
use std::alloc::Global;
use std::marker::Brand;
use std::sync::Wait;
use std::thread::Threads;
use tee_ports::{Entropy, StoreFile};
use tee_types::NoMemory;

// Makes the calls one after another, and closes the store. `refused` has an empty list for each session. Where memory runs out the bench is
// given back alone.
fn make_and_close_within<F: StoreFile + Drop, R: RpmbPort + Drop, E: Entropy + Drop, L: StoreName>(
    alloc: Global,
    service: Service<F, R, L>,
    sessions: Vec<Session<E>>,
    quotas: &[Quota],
    calls: &[Step],
    refused: Vec<Vec<RefusedCall>>,
) -> Result<QuotaClosed<F, R>, Bench<F, R>>
    requires begins { events_at service.gate ≡ [] }
    requires sessions { AreSeated L.store sessions.items }
    requires unmade { HaveNoEvents sessions.items }
    requires calls { AreCalls (length sessions.items) calls.now }
    requires fresh { AreFresh E.faults sessions.items }
    requires some { quotas.now ≢ [] }
    requires none { lists_in refused.items ≡ replicate (length sessions.items) [] }
    ensures closed { (before : BenchState) → HasDevices F.state R.state service before
        → IfOk result (λ c. ClosesWithin (AreReliable E.is_reliable sessions.items) L.store quotas.now before Serial calls.now (bench_state F.state R.state c.closed.bench) c.closed.history.events c.refused.items) }
    ensures early { (before : BenchState) → HasDevices F.state R.state service before
        → IfErr result (λ b. HoldsOfAdmitted quotas.now calls.now (λ steps. ClosesEarly L.store before Serial steps (bench_state F.state R.state b))) }
    ensures whole { MatchResult result (λ c. vec_len c.closed.bench.files ≡ file_count) (λ b. vec_len b.files ≡ file_count) }
{
    let mut service = service;
    let mut sessions = sessions;
    let mut refused = refused;
    let made = make_calls_within(&mut service, &mut sessions, quotas, calls, &mut refused);
    let closed = service.finish(sessions);
    match made {
        Ok(()) => with_refused(alloc, closed, &refused),
        Err(NoMemory {}) => Err(closed.bench),
    }
}

// Serves the store that `L` names, one call after another, and closes it. Only contracts read the keys: they name the store.
fn serve_calls_within<F: StoreFile + Drop, R: RpmbPort + Drop, E: Entropy + Drop, L: StoreName>(
    alloc: Global,
    opening: Opening<F, R>,
    sessions: Vec<Session<E>>,
    _keys: &Keys,
    quotas: &[Quota],
    calls: &[Step],
) -> Result<QuotaClosed<F, R>, Bench<F, R>>
    requires store { IsStoreOf F.state L.store opening }
    requires sessions { AreUnseated opening.applications sessions.items }
    requires calls { AreCalls (length opening.applications) calls.now }
    requires fresh { AreFresh E.faults sessions.items }
    requires some { quotas.now ≢ [] }
    ensures closed { IfOk result (λ c. ClosesWithin (AreReliable E.is_reliable sessions.items) L.store quotas.now (opening_state F.state R.state opening) Serial calls.now
        (bench_state F.state R.state c.closed.bench) c.closed.history.events c.refused.items) }
    ensures early { IfErr result (λ b. HoldsOfAdmitted quotas.now calls.now (λ steps. ClosesEarly L.store (opening_state F.state R.state opening) Serial steps (bench_state F.state R.state b))) }
    ensures whole { MatchResult result (λ c. vec_len c.closed.bench.files ≡ file_count) (λ b. vec_len b.files ≡ file_count) }
{
    let Ok(refused) = empty_lists(alloc, sessions.len()) else {
        return Err(opening.close());
    };
    let mut sessions = sessions;
    match opening.serve::<E, L>(&mut sessions) {
        Ok(service) => make_and_close_within(alloc, service, sessions, quotas, calls, refused),
        Err(opening) => Err(opening.close()),
    }
}

// Serves a store under a name of its own, one call after another, and closes it. The keys are those that it was mounted with.
fn serve_alone_within<F: StoreFile + Drop, R: RpmbPort + Drop, E: Entropy + Drop>(
    alloc: Global,
    opening: Opening<F, R>,
    sessions: Vec<Session<E>>,
    keys: &Keys,
    quotas: &[Quota],
    calls: &[Step],
) -> Result<QuotaClosed<F, R>, Bench<F, R>>
    requires keyed { IsKeyed keys.now opening }
    requires sessions { AreUnseated opening.applications sessions.items }
    requires calls { AreCalls (length opening.applications) calls.now }
    requires fresh { AreFresh E.faults sessions.items }
    requires some { quotas.now ≢ [] }
    ensures closed { IfOk result (λ c. ClosesWithin (AreReliable E.is_reliable sessions.items) (store_in keys.now F.state opening) quotas.now (opening_state F.state R.state opening) Serial calls.now
        (bench_state F.state R.state c.closed.bench) c.closed.history.events c.refused.items) }
    ensures early { IfErr result (λ b. HoldsOfAdmitted quotas.now calls.now (λ steps. ClosesEarly (store_in keys.now F.state opening) (opening_state F.state R.state opening) Serial steps (bench_state F.state R.state b))) }
    ensures whole { MatchResult result (λ c. vec_len c.closed.bench.files ≡ file_count) (λ b. vec_len b.files ≡ file_count) }
{
    serve_calls_within::<F, R, E, Brand>(alloc, opening, sessions, keys, quotas, calls)
}

// Serves a store under quotas, as the mode says.
fn serve_limited<
    W: Threads + Wait + Sync,
    F: StoreFile + Drop + Send,
    R: RpmbPort + Drop + Send,
    E: Entropy + Drop + Send,
>(
    rt: &W,
    alloc: Global,
    opening: Opening<F, R>,
    sessions: Vec<Session<E>>,
    keys: &Keys,
    mode: Mode,
    quotas: &[Quota],
    calls: &[Step],
) -> Result<QuotaClosed<F, R>, Bench<F, R>>
    requires keyed { IsKeyed keys.now opening }
    requires sessions { AreUnseated opening.applications sessions.items }
    requires calls { AreCalls (length opening.applications) calls.now }
    requires fresh { AreFresh E.faults sessions.items }
    requires some { quotas.now ≢ [] }
    ensures closed { IfOk result (λ c. ClosesWithin (AreReliable E.is_reliable sessions.items) (store_in keys.now F.state opening) quotas.now (opening_state F.state R.state opening) mode calls.now
        (bench_state F.state R.state c.closed.bench) c.closed.history.events c.refused.items) }
    ensures early { IfErr result (λ b. HoldsOfAdmitted quotas.now calls.now (λ steps. ClosesEarly (store_in keys.now F.state opening) (opening_state F.state R.state opening) mode steps (bench_state F.state R.state b))) }
    ensures whole { MatchResult result (λ c. vec_len c.closed.bench.files ≡ file_count) (λ b. vec_len b.files ≡ file_count) }
{
    match mode {
        Mode::Serial => serve_alone_within(alloc, opening, sessions, keys, quotas, calls),
        Mode::Threads => {
            serve_shared_within_once(rt, alloc, opening, sessions, keys, quotas, calls)
        }
    }
}

/// Serves a store under a name of its own: makes the calls as the mode says, but for those that are refused under the quotas, and closes it.
/// The keys are those that it was mounted with. Where there is no quota the calls are made as without any.
///
/// # Errors
///
/// Memory ran out. The bench is given back.
pub(crate) fn serve_within<
    W: Threads + Wait + Sync,
    F: StoreFile + Drop + Send,
    R: RpmbPort + Drop + Send,
    E: Entropy + Drop + Send,
>(
    rt: &W,
    alloc: Global,
    opening: Opening<F, R>,
    sessions: Vec<Session<E>>,
    keys: &Keys,
    mode: Mode,
    quotas: &[Quota],
    calls: &[Step],
) -> Result<QuotaClosed<F, R>, Bench<F, R>>
    requires keyed { IsKeyed keys.now opening }
    requires sessions { AreUnseated opening.applications sessions.items }
    requires calls { AreCalls (length opening.applications) calls.now }
    requires fresh { AreFresh E.faults sessions.items }
    ensures closed { IfOk result (λ c. ClosesWithin (AreReliable E.is_reliable sessions.items) (store_in keys.now F.state opening) quotas.now (opening_state F.state R.state opening) mode calls.now
        (bench_state F.state R.state c.closed.bench) c.closed.history.events c.refused.items) }
    ensures early { IfErr result (λ b. HoldsOfAdmitted quotas.now calls.now (λ steps. ClosesEarly (store_in keys.now F.state opening) (opening_state F.state R.state opening) mode steps (bench_state F.state R.state b))) }
    ensures whole { MatchResult result (λ c. vec_len c.closed.bench.files ≡ file_count) (λ b. vec_len b.files ≡ file_count) }
{
    if !quotas.is_empty() {
        return serve_limited(rt, alloc, opening, sessions, keys, mode, quotas, calls);
    }
    match serve_once(rt, alloc, opening, sessions, keys, mode, calls) {
        Ok(closed) => Ok(QuotaClosed {
            closed,
            refused: Vec::new(alloc),
        }),
        Err(bench) => Err(bench),
    }
}
