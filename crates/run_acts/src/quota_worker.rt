// Sessions under quotas that make their calls on threads of their own.

ghost use Rattle.std.specs.Prelude.{◌≡◌, ◌++◌, [], ◌∷◌, List, length, IfOk, OnErr, OnOk};
ghost use Rattle.app_quota.specs.Limits.{Limits};
ghost use Rattle.script_text.specs.declared.script.Step.{Step};
ghost use Rattle.quota_store.specs.CallerSessions.{CallerSession, IsCallerOf};
ghost use Rattle.run_acts.specs.OwnCalls.{HasStopped};
ghost use Rattle.run_acts.specs.QuotaWork.{HasMadeWithin, HasStoppedWithin, HasWorked, IsLimited, IsUnworked};
ghost use Rattle.run_acts.specs.ServedSteps.{calls_in};

use crate::refused_call::RefusedCall;
use core_laws::StoreName;
use quota_store::{DevicesName, QuotaOutcome, QuotaSession, QuotaStore};
use rpmb_card::RpmbPort;
use script_text::Step;
use std::alloc::Global;
use std::sync::Wait;
use tee_ports::{Entropy, StoreFile};
use tee_types::NoMemory;

/// A session that makes its calls of a phase on a thread of its own, and those of them that were refused.
#[derive(Drop)]
pub(crate) struct QuotaWorker<E> {
    pub(crate) session: QuotaSession<E>,
    pub(crate) refused: Vec<RefusedCall>,
    // Whether it made all calls that were not refused.
    pub(crate) done: bool,
}

// Makes the call of the step of that number, if that is of the worker's session, and notes it where it is refused. Where memory runs out
// nothing is noted.
fn make_own_step_within<
    W: Wait,
    F: StoreFile + Drop,
    R: RpmbPort + Drop,
    E: Entropy,
    L: StoreName + DevicesName,
>(
    rt: &W,
    alloc: Global,
    store: &QuotaStore<F, R, L>,
    worker: &mut QuotaWorker<E>,
    number: usize,
    step: &Step,
) -> Result<(), NoMemory>
    requires { IsCallerOf L.store worker.old.session.caller }
    ensures made { (limits : Limits) (was : CallerSession E) (steps : List Step) → length steps ≡ number → IsLimited limits worker.old.session
        → HasMadeWithin E.is_reliable E.faults L.store limits steps was worker.old.session.caller worker.old.refused.items
        → OnOk result (HasMadeWithin E.is_reliable E.faults L.store limits (steps ++ step.now ∷ []) was worker.new.session.caller worker.new.refused.items) }
    ensures caller { IsCallerOf L.store worker.new.session.caller }
    ensures limited { (limits : Limits) → IsLimited limits worker.old.session → IsLimited limits worker.new.session }
    ensures stopped { OnErr result (HasStopped L.store worker.old.session.caller worker.new.session.caller (calls_in worker.old.session.caller.number (step.now ∷ []))) }
    ensures unnoted { OnErr result (worker.new.refused.items ≡ worker.old.refused.items) }
{
    let Step::Call { app, call } = step else {
        return Ok(());
    };
    if *app != worker.session.number() {
        return Ok(());
    }
    let QuotaOutcome::Refused(place) = store.call(rt, alloc, &mut worker.session, call)? else {
        return Ok(());
    };
    worker.refused.push(RefusedCall {
        step: number,
        place,
    })?;
    Ok(())
}

// Makes the calls of the steps that are of the worker's session, one after another, beside those that other threads make for theirs.
fn make_own_calls_within<
    W: Wait,
    F: StoreFile + Drop,
    R: RpmbPort + Drop,
    E: Entropy,
    L: StoreName + DevicesName,
>(
    rt: &W,
    alloc: Global,
    store: &QuotaStore<F, R, L>,
    worker: &mut QuotaWorker<E>,
    steps: &[Step],
) -> Result<(), NoMemory>
    requires { IsUnworked L.store worker.old }
    ensures made { (limits : Limits) → IsLimited limits worker.old.session
        → OnOk result (HasMadeWithin E.is_reliable E.faults L.store limits steps.now worker.old.session.caller worker.new.session.caller worker.new.refused.items) }
    ensures stopped { (limits : Limits) → IsLimited limits worker.old.session
        → OnErr result (HasStoppedWithin E.is_reliable E.faults L.store limits steps.now worker.old.session.caller worker.new.session.caller worker.new.refused.items) }
{
    for (number, step) in steps.iter().enumerate() {
        make_own_step_within(rt, alloc, store, worker, number, step)?;
    }
    Ok(())
}

/// Makes the worker's calls of the steps, beside those that other threads make for theirs. Where memory runs out it is not done.
pub(crate) fn work<
    W: Wait,
    F: StoreFile + Drop,
    R: RpmbPort + Drop,
    E: Entropy,
    L: StoreName + DevicesName,
>(rt: &W, alloc: Global, store: &QuotaStore<F, R, L>, worker: &mut QuotaWorker<E>, steps: &[Step])
    requires { IsUnworked L.store worker.old }
    ensures { (limits : Limits) → IsLimited limits worker.old.session → HasWorked E.is_reliable E.faults L.store limits steps.now worker.old worker.new }
{
    let made = make_own_calls_within(rt, alloc, store, worker, steps);
    worker.done = made.is_ok();
}
