//! The calls of a serial phase.

ghost use Rattle.std.specs.Prelude.{◌≡◌, ◌<◌, ◌++◌, [], ◌∷◌, List, length, replicate, slice_index_or, slice_set, true, IfOk, OnErr, OnOk};
ghost use Rattle.app_quota.specs.Quotas.{limit_of};
ghost use Rattle.script_text.specs.Script.{IsPlaced, is_call};
ghost use Rattle.script_text.specs.declared.script.Mode.{Mode};
ghost use Rattle.script_text.specs.declared.script.Step.{Step};
ghost use Rattle.script_text.specs.declared.script.Step.TheVariants.{Call as CallStep};
ghost use Rattle.quota_store.specs.CallerSessions.{CallerSession};
ghost use Rattle.quota_store.specs.EventCounts.{events_at};
ghost use Rattle.object_calls.specs.OpeningSessions.{AreSeated};
ghost use Rattle.object_calls.specs.Services.{ServiceValue};
ghost use Rattle.run_acts.specs.MadeCalls.{MakesCalls, MakesFront};
ghost use Rattle.run_acts.specs.OwnQuotas.{CallsWithin, all_in, lists_in};
ghost use Rattle.run_acts.specs.QuotaCalls.{MakesCallsWithin, MakesFrontWithin, unless_refused};
ghost use Rattle.run_acts.specs.Reliable.{StayReliable};
ghost use Rattle.run_acts.specs.ServedSteps.{AreCalls, ServesSteps};

use crate::refused_call::RefusedCall;
use app_quota::{Quota, limit_of};
use core_laws::StoreName;
use object_calls::{QuotaOutcome, Service};
use quota_store::Session;
use rpmb_card::RpmbPort;
use script_text::Step;
use tee_ports::{Entropy, StoreFile};
use tee_types::{Call, NoMemory};

// Makes a call, by the session of that application.
fn make_call<F: StoreFile + Drop, R: RpmbPort + Drop, E: Entropy + Drop, L: StoreName>(
    service: &mut Service<F, R, L>,
    sessions: &mut [Session<E>],
    app: u32,
    call: &Call,
) -> Result<(), NoMemory>
    requires sessions { AreSeated L.store sessions.old }
    requires app { app < length sessions.old }
    ensures made { OnOk result (MakesCalls F.state R.state E.faults L.store service.old service.new sessions.old sessions.new (CallStep app call.now ∷ [])) }
    ensures stopped { OnErr result (MakesCalls F.state R.state E.faults L.store service.old service.new sessions.old sessions.new []) }
    ensures sessions { AreSeated L.store sessions.new }
    ensures reliable { StayReliable E.is_reliable E.faults sessions.old sessions.new }
{
    let answer = service.call(&mut sessions[app as usize], call);
    match answer.place {
        Some(_) => Ok(()),
        None => Err(NoMemory {}),
    }
}

// Makes the call of a step.
fn make_step<F: StoreFile + Drop, R: RpmbPort + Drop, E: Entropy + Drop, L: StoreName>(
    service: &mut Service<F, R, L>,
    sessions: &mut [Session<E>],
    step: &Step,
) -> Result<(), NoMemory>
    requires sessions { AreSeated L.store sessions.old }
    requires call { is_call step.now ≡ true }
    requires placed { IsPlaced (length sessions.old) step.now }
    ensures made { OnOk result (MakesCalls F.state R.state E.faults L.store service.old service.new sessions.old sessions.new (step.now ∷ [])) }
    ensures stopped { OnErr result (MakesCalls F.state R.state E.faults L.store service.old service.new sessions.old sessions.new []) }
    ensures sessions { AreSeated L.store sessions.new }
    ensures reliable { StayReliable E.is_reliable E.faults sessions.old sessions.new }
{
    match step {
        Step::Call { app, call } => make_call(service, sessions, *app, call),
        Step::Control(_) => unreachable!(),
    }
}

/// Makes the calls of a phase, one after another, each by the session of its application.
///
/// Where the store had no event before, its events then are the calls of these steps, each once and in their order.
///
/// # Errors
///
/// Memory ran out in a call. The calls before it were made, and none from it on.
pub fn make_calls<F: StoreFile + Drop, R: RpmbPort + Drop, E: Entropy + Drop, L: StoreName>(
    service: &mut Service<F, R, L>,
    sessions: &mut [Session<E>],
    calls: &[Step],
) -> Result<(), NoMemory>
    requires sessions { AreSeated L.store sessions.old }
    requires calls { AreCalls (length sessions.old) calls.now }
    ensures made { OnOk result (MakesCalls F.state R.state E.faults L.store service.old service.new sessions.old sessions.new calls.now) }
    ensures serves { OnOk result (events_at service.old.gate ≡ [] → ((mode : Mode) → ServesSteps mode calls.now (events_at service.new.gate))) }
    ensures stopped { OnErr result (MakesFront F.state R.state E.faults L.store service.old service.new sessions.old sessions.new calls.now) }
    ensures sessions { AreSeated L.store sessions.new }
    ensures reliable { StayReliable E.is_reliable E.faults sessions.old sessions.new }
{
    for step in calls {
        make_step(service, sessions, step)?;
    }
    Ok(())
}

// Makes a call under the quotas, by the session of that application. Gives the place where it was refused, if it was.
fn make_call_within<F: StoreFile + Drop, R: RpmbPort + Drop, E: Entropy + Drop, L: StoreName>(
    service: &mut Service<F, R, L>,
    sessions: &mut [Session<E>],
    quotas: &[Quota],
    app: u32,
    call: &Call,
) -> Result<Option<u64>, NoMemory>
    requires sessions { AreSeated L.store sessions.old }
    requires app { app < length sessions.old }
    ensures made { IfOk result (λ refused. MakesCalls F.state R.state E.faults L.store service.old service.new sessions.old sessions.new (unless_refused refused (CallStep app call.now))) }
    ensures called { (d : CallerSession E) → IfOk result (CallsWithin L.store (limit_of quotas.now) (slice_index_or sessions.old app d) (slice_index_or sessions.new app d) call.now) }
    ensures stopped { OnErr result (MakesCalls F.state R.state E.faults L.store service.old service.new sessions.old sessions.new []) }
    ensures others { (d : CallerSession E) → sessions.new ≡ slice_set sessions.old app (slice_index_or sessions.new app d) }
    ensures sessions { AreSeated L.store sessions.new }
    ensures reliable { StayReliable E.is_reliable E.faults sessions.old sessions.new }
{
    let session = &mut sessions[app as usize];
    let limit = limit_of(quotas, session.app());
    let QuotaOutcome::Refused(place) = service.call_within(session, limit, call)? else {
        return Ok(None);
    };
    Ok(Some(place))
}

// Makes the call of the step of that number under the quotas, and notes it where it is refused. Where memory runs out nothing is noted.
fn make_step_within<F: StoreFile + Drop, R: RpmbPort + Drop, E: Entropy + Drop, L: StoreName>(
    service: &mut Service<F, R, L>,
    sessions: &mut [Session<E>],
    quotas: &[Quota],
    number: usize,
    step: &Step,
    refused: &mut [Vec<RefusedCall>],
) -> Result<(), NoMemory>
    requires sessions { AreSeated L.store sessions.old }
    requires call { is_call step.now ≡ true }
    requires placed { IsPlaced (length sessions.old) step.now }
    requires lists { length refused.old ≡ length sessions.old }
    ensures made { (old : ServiceValue F R) (was : List (CallerSession E)) (steps : List Step) → length was ≡ length sessions.old → length steps ≡ number
        → MakesCallsWithin F.state R.state E.faults L.store (limit_of quotas.now) old service.old was sessions.old steps (lists_in refused.old)
        → OnOk result (MakesCallsWithin F.state R.state E.faults L.store (limit_of quotas.now) old service.new was sessions.new (steps ++ step.now ∷ []) (lists_in refused.new)) }
    ensures stopped { OnErr result (MakesCalls F.state R.state E.faults L.store service.old service.new sessions.old sessions.new []) }
    ensures unnoted { OnErr result (lists_in refused.new ≡ lists_in refused.old) }
    ensures sessions { AreSeated L.store sessions.new }
    ensures reliable { StayReliable E.is_reliable E.faults sessions.old sessions.new }
{
    let Step::Call { app, call } = step else {
        unreachable!()
    };
    let Some(place) = make_call_within(service, sessions, quotas, *app, call)? else {
        return Ok(());
    };
    refused[*app as usize].push(RefusedCall {
        step: number,
        place,
    })?;
    Ok(())
}

/// Makes the calls of a phase under quotas, one after another, each by the session of its application. A call that would leave its application
/// more than that may have is refused: it has no event, and is noted among the refused calls of its application.
///
/// # Errors
///
/// Memory ran out in a call. The calls before it were made or refused, and none from it on.
pub fn make_calls_within<F: StoreFile + Drop, R: RpmbPort + Drop, E: Entropy + Drop, L: StoreName>(
    service: &mut Service<F, R, L>,
    sessions: &mut [Session<E>],
    quotas: &[Quota],
    calls: &[Step],
    refused: &mut [Vec<RefusedCall>],
) -> Result<(), NoMemory>
    requires sessions { AreSeated L.store sessions.old }
    requires calls { AreCalls (length sessions.old) calls.now }
    requires none { lists_in refused.old ≡ replicate (length sessions.old) [] }
    ensures made { OnOk result (MakesCallsWithin F.state R.state E.faults L.store (limit_of quotas.now) service.old service.new sessions.old sessions.new calls.now (lists_in refused.new)) }
    ensures stopped { OnErr result (MakesFrontWithin F.state R.state E.faults L.store service.old service.new sessions.old sessions.new calls.now (lists_in refused.new)) }
    ensures sessions { AreSeated L.store sessions.new }
    ensures reliable { StayReliable E.is_reliable E.faults sessions.old sessions.new }
{
    for (number, step) in calls.iter().enumerate() {
        make_step_within(service, sessions, quotas, number, step, refused)?;
    }
    Ok(())
}
