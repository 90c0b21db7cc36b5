//! Running a phase of a script.

ghost use Rattle.std.specs.Prelude.{◌≡◌, ◌⊎◌, ◌≤◌, ◌+◌, ◌<◌, drop, length, take, IfErr, IfOk};
ghost use Rattle.std.specs.List.{prefix_len};
ghost use Rattle.script_text.specs.Script.{is_call};
ghost use Rattle.run_acts.specs.ServedSteps.{AreCalls};
ghost use Rattle.tee_ports.specs.Faults.{Rose};
ghost use Rattle.script_runner.specs.RunReady.{IsCallFirst, IsReady, IsSound};
ghost use Rattle.script_runner.specs.Running.{EndsAt, GoesOn};

use crate::PhaseText;
use crate::act_text::{print_excess, print_phase_act};
use crate::mount_refusal::print_mount_refusal;
use crate::run_state::{Run, RunEnd};
use hmac_keys::Keys;
use rpmb_card::CardRig;
use run_acts::{Halted, Phase, PhaseEnd, PhaseOutcome, run_phase};
use script_text::{Script, Step};
use std::alloc::Global;
use std::sync::Wait;
use std::thread::Threads;
use tee_ports::{Entropy, FileRig, Sink};

/// How many calls stand in front of the first control.
fn calls_length(steps: &[Step]) -> usize
    ensures length { result ≡ prefix_len is_call steps.now }
    ensures within { result ≤ length steps.now }
{
    for (i, step) in steps.iter().enumerate() {
        if matches!(step, Step::Control(_)) {
            return i;
        }
    }
    steps.len()
}

/// The calls from that step on, up to the next control.
pub(crate) fn calls_from(script: &Script, at: usize) -> &[Step]
    requires { at ≤ length script.now.steps }
    ensures calls { result.now ≡ take (prefix_len is_call (drop at script.now.steps)) (drop at script.now.steps) }
    ensures count { length result.now ≡ prefix_len is_call (drop at script.now.steps) }
    ensures within { length result.now ≤ length (drop at script.now.steps) }
    ensures are_calls { AreCalls (length script.now.applications) result.now }
{
    let rest = &script.all_steps()[at..];
    &rest[..calls_length(rest)]
}

/// Runs the phase whose calls are the next steps, in the mode of the run, with its quotas and the arms that wait, and sends its text.
pub(crate) fn do_phase<
    W: Threads + Wait + Sync,
    K: Sink,
    F: FileRig + Drop + Send,
    R: CardRig + Drop + Send,
    E: Entropy + Drop + Send,
>(
    rt: &W,
    alloc: Global,
    script: &Script,
    run: Run<F, R>,
    sink: &mut K,
    keys: &Keys,
    entropy: &mut E,
) -> Result<Run<F, R>, RunEnd<F, R>>
    requires sound { IsSound script.now }
    requires ready { IsReady script.now run }
    requires call { IsCallFirst (drop run.at script.now.steps) }
    ensures ok { (first : E) → (E.is_reliable first → E.is_reliable entropy.old) → IfOk result (GoesOn F.state R.state F.crash_image (E.is_reliable first) keys.now script.now (K.held sink.old) (K.held sink.new) run) }
    ensures err { (first : E) → (E.is_reliable first → E.is_reliable entropy.old) → IfErr result (EndsAt F.state R.state F.crash_image (E.is_reliable first) (E.faults entropy.old) (E.faults entropy.new) keys.now script.now (Rose (K.faults sink.old) (K.faults sink.new) ⊎ K.is_full sink.new) (K.held sink.old) (K.held sink.new) run) }
    ensures counted { K.faults sink.old ≤ K.faults sink.new }
    ensures undrawn { IfOk result (λ next. E.faults entropy.new ≡ E.faults entropy.old) }
    ensures reliable { E.is_reliable entropy.old → E.is_reliable entropy.new }
{
    let Run {
        bench,
        saved,
        quotas,
        arms,
        number,
        mode,
        at,
        kept,
    } = run;
    let calls = calls_from(script, at);
    let phase = Phase {
        number,
        mode,
        applications: script.applications(),
        quotas: quotas.as_slice(),
        arms: arms.as_slice(),
        calls,
    };
    match run_phase(rt, alloc, bench, keys, entropy, &phase) {
        Ok(PhaseOutcome::Served(end)) => {
            let PhaseEnd {
                bench,
                objects,
                history,
                refused,
            } = end;
            let run = Run {
                bench,
                saved,
                quotas,
                arms: Vec::new(alloc),
                number: number + 1,
                mode,
                at: at + calls.len(),
                kept,
            };
            let text = PhaseText {
                number,
                mode,
                objects,
                history: &history,
                calls,
                refused: refused.as_slice(),
            };
            print_phase_act(script, &text, run, sink)
        }
        Ok(PhaseOutcome::OverCommitted { bench, sum }) => {
            let status = print_excess(sum, sink, kept);
            Err(RunEnd { status, bench })
        }
        Err(Halted { bench, fault }) => {
            let status = print_mount_refusal(fault, sink, kept);
            Err(RunEnd { status, bench })
        }
    }
}
