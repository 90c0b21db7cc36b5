// The calls of one session.

ghost use Rattle.std.specs.Prelude.{[], ◌∷◌, OnErr, OnOk};
ghost use Rattle.quota_store.specs.CallerSessions.{IsCallerOf};
ghost use Rattle.run_acts.specs.ServedSteps.{calls_in};
ghost use Rattle.run_acts.specs.OwnCalls.{HasMade, HasStopped};

use core_laws::StoreName;
use quota_store::{DevicesName, Session, SharedStore};
use rpmb_card::RpmbPort;
use script_text::Step;
use std::alloc::Global;
use std::sync::Wait;
use tee_ports::{Entropy, StoreFile};
use tee_types::NoMemory;

// Makes the call of a step, if that is of the session's application.
fn make_own_step<
    W: Wait,
    F: StoreFile + Drop,
    R: RpmbPort + Drop,
    E: Entropy,
    L: StoreName + DevicesName,
>(
    rt: &W,
    alloc: Global,
    store: &SharedStore<F, R, L>,
    session: &mut Session<E>,
    step: &Step,
) -> Result<(), NoMemory>
    requires { IsCallerOf L.store session.old }
    ensures made { OnOk result (HasMade E.is_reliable E.faults L.store session.old session.new (calls_in session.old.number (step.now ∷ []))) }
    ensures stopped { OnErr result (HasStopped L.store session.old session.new (calls_in session.old.number (step.now ∷ []))) }
{
    let Step::Call { app, call } = step else {
        return Ok(());
    };
    if *app != session.number() {
        return Ok(());
    }
    let _answer = store.call(rt, alloc, session, call)?;
    Ok(())
}

/// Makes the calls of the steps that are of the session's application, one after another, beside those that other threads make for theirs.
///
/// # Errors
///
/// Memory ran out in a call. The calls before it were made, and none from it on.
pub(crate) fn make_own_calls<
    W: Wait,
    F: StoreFile + Drop,
    R: RpmbPort + Drop,
    E: Entropy,
    L: StoreName + DevicesName,
>(
    rt: &W,
    alloc: Global,
    store: &SharedStore<F, R, L>,
    session: &mut Session<E>,
    steps: &[Step],
) -> Result<(), NoMemory>
    requires { IsCallerOf L.store session.old }
    ensures made { OnOk result (HasMade E.is_reliable E.faults L.store session.old session.new (calls_in session.old.number steps.now)) }
    ensures stopped { OnErr result (HasStopped L.store session.old session.new (calls_in session.old.number steps.now)) }
{
    for step in steps {
        make_own_step(rt, alloc, store, session, step)?;
    }
    Ok(())
}
