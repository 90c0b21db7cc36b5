//! Writing the lines of the calls that were refused under quotas.

ghost use Rattle.std.specs.Prelude.{◌≡◌, ◌≤◌, ◌<◌, ◌⊎◌, [], ◌∷◌, length, option_copied, slice_get, take, OnOk, OnErr, IfErr};
ghost use Rattle.run_acts.specs.ServedSteps.{calls_in};
ghost use Rattle.tee_ports.specs.Faults.{Rose};
ghost use Rattle.script_runner.specs.RefusedLines.{IsCounted, refused_lines, step_line};
ghost use Rattle.script_runner.specs.Sending.{Sends, Stops, IsWriteError};

use crate::status::Status;
use crate::text_sink::{PIECE, flush};
use run_acts::RefusedCall;
use script_text::{Script, Step, print_refused_call};
use tee_ports::Sink;

/// How many calls of an application stand in front of a step.
#[derive(Clone, Copy)]
pub(crate) struct CallCount {
    /// The application, by its place among those declared.
    pub app: u32,
    /// The step.
    pub step: usize,
    /// How many calls.
    pub calls: u64,
}

/// How many calls of that application the step is: one or none.
fn count_call(step: &Step, app: u32) -> u64
    ensures { result ≡ length (calls_in app (step.now ∷ [])) }
{
    match step {
        Step::Call { app: own, call: _ } => u64::from(*own == app),
        Step::Control(_) => 0,
    }
}

/// How many of the steps are calls of that application.
fn count_calls(steps: &[Step], app: u32) -> u64
    ensures { result ≡ length (calls_in app steps.now) }
{
    let mut count = 0;
    for step in steps {
        count += count_call(step, app);
    }
    count
}

/// Counts the calls of an application in front of a step: on from the count, where that is of the application and not behind the step.
fn count_to(steps: &[Step], count: CallCount, app: u32, step: usize) -> CallCount
    requires counted { IsCounted steps.now count }
    requires within { step ≤ length steps.now }
    ensures counted { IsCounted steps.now result }
    ensures app { result.app ≡ app }
    ensures step { result.step ≡ step }
{
    if count.app == app && count.step <= step {
        let more = count_calls(&steps[count.step..step], app);
        let calls = count.calls + more;
        return CallCount { app, step, calls };
    }
    let calls = count_calls(&steps[..step], app);
    CallCount { app, step, calls }
}

/// The step at that place.
fn step_at(steps: &[Step], place: usize) -> Option<&Step>
    ensures { option_copied result ≡ slice_get steps.now place }
{
    steps.get(place)
}

/// Sends the line of one refused call, and counts to its step.
fn send_refused_call<K: Sink>(
    script: &Script,
    steps: &[Step],
    refused: &RefusedCall,
    count: &mut CallCount,
    sink: &mut K,
    kept: &mut Vec<u8>,
) -> Result<(), Status>
    requires counted { IsCounted steps.now count.old }
    requires small { length kept.old.items < PIECE }
    ensures counted { IsCounted steps.now count.new }
    ensures ok { OnOk result (Sends (K.held sink.old) (K.held sink.new) kept.old.items kept.new.items
        (step_line script.now refused.now.place (take refused.now.step steps.now) (slice_get steps.now refused.now.step))) }
    ensures err { OnErr result (Stops (K.held sink.old) (K.held sink.new) kept.old.items
        (step_line script.now refused.now.place (take refused.now.step steps.now) (slice_get steps.now refused.now.step))) }
    ensures error { IfErr result (IsWriteError (Rose (K.faults sink.old) (K.faults sink.new) ⊎ K.is_full sink.new)) }
    ensures faults { K.faults sink.old ≤ K.faults sink.new }
    // Less than a piece stays kept.
    ensures small { OnOk result (length kept.new.items < PIECE) }
{
    let Some(step) = step_at(steps, refused.step) else {
        return Ok(());
    };
    let Step::Call { app, call } = step else {
        return Ok(());
    };
    *count = count_to(steps, *count, *app, refused.step);
    print_refused_call(refused.place, script, *app, count.calls, call, kept)?;
    flush(sink, kept, PIECE)
}

/// Sends the lines of the calls of these steps that were refused.
pub(crate) fn send_refused<K: Sink>(
    script: &Script,
    steps: &[Step],
    refused: &[RefusedCall],
    sink: &mut K,
    kept: &mut Vec<u8>,
) -> Result<(), Status>
    requires { length kept.old.items < PIECE }
    ensures ok { OnOk result (Sends (K.held sink.old) (K.held sink.new) kept.old.items kept.new.items (refused_lines script.now steps.now refused.now)) }
    ensures err { OnErr result (Stops (K.held sink.old) (K.held sink.new) kept.old.items (refused_lines script.now steps.now refused.now)) }
    ensures error { IfErr result (IsWriteError (Rose (K.faults sink.old) (K.faults sink.new) ⊎ K.is_full sink.new)) }
    ensures counted { K.faults sink.old ≤ K.faults sink.new }
    // Less than a piece stays kept.
    ensures small { OnOk result (length kept.new.items < PIECE) }
{
    let mut count = CallCount {
        app: 0,
        step: 0,
        calls: 0,
    };
    for call in refused {
        send_refused_call(script, steps, call, &mut count, sink, kept)?;
    }
    Ok(())
}
