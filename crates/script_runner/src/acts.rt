//! Running the steps of a script, one act after another.

ghost use Rattle.std.specs.Prelude.{◌≡◌, ◌⊎◌, ◌≤◌, ◌<◌, ℕ, length, vec_len, IfErr, IfOk};
ghost use Rattle.tee_ports.specs.Faults.{Rose};
ghost use Rattle.tee_types.specs.Limits.{file_count};
ghost use Rattle.run_acts.specs.Benches.{bench_state};
ghost use Rattle.script_runner.specs.RunReady.{IsReady, IsSound};
ghost use Rattle.script_runner.specs.Running.{EndsAt, GoesOn, RunsScript};

use crate::act_text::print_last_lines;
use crate::controls::do_control;
use crate::mount_refusal::print_mount_refusal;
use crate::phase_act::do_phase;
use crate::run_state::{Run, RunEnd};
use crate::saved_files::SavedFiles;
use hmac_keys::Keys;
use rpmb_card::CardRig;
use run_acts::{Bench, Halted, open_bench};
use script_text::{Mode, Script, Step};
use std::alloc::Global;
use std::sync::Wait;
use std::thread::Threads;
use tee_ports::{Entropy, FileRig, Sink};

/// Does the next act of a script: a phase, or a control.
fn do_act<
    W: Threads + Wait + Sync,
    K: Sink,
    F: FileRig + Drop + Send,
    R: CardRig + Drop + Send,
    E: Entropy + Drop + Send,
>(
    rt: &W,
    alloc: Global,
    script: &Script,
    run: Run<F, R>,
    sink: &mut K,
    keys: &Keys,
    entropy: &mut E,
) -> Result<Run<F, R>, RunEnd<F, R>>
    requires sound { IsSound script.now }
    requires ready { IsReady script.now run }
    requires some { run.at < length script.now.steps }
    ensures ok { (first : E) → (E.is_reliable first → E.is_reliable entropy.old) → IfOk result (GoesOn F.state R.state F.crash_image (E.is_reliable first) keys.now script.now (K.held sink.old) (K.held sink.new) run) }
    ensures err { (first : E) → (E.is_reliable first → E.is_reliable entropy.old) → IfErr result (EndsAt F.state R.state F.crash_image (E.is_reliable first) (E.faults entropy.old) (E.faults entropy.new) keys.now script.now (Rose (K.faults sink.old) (K.faults sink.new) ⊎ K.is_full sink.new) (K.held sink.old) (K.held sink.new) run) }
    ensures counted { K.faults sink.old ≤ K.faults sink.new }
    ensures undrawn { IfOk result (λ next. E.faults entropy.new ≡ E.faults entropy.old) }
    ensures reliable { E.is_reliable entropy.old → E.is_reliable entropy.new }
{
    match &script.all_steps()[run.at] {
        Step::Control(control) => { do_control(alloc, script, control, run, sink, keys, entropy) }
        Step::Call { .. } => do_phase(rt, alloc, script, run, sink, keys, entropy),
    }
}

/// Puts the text that is left, where every act was done. Only contracts read the generator.
fn finish<K: Sink, F: FileRig + Drop, R: CardRig + Drop, E: Entropy>(
    script: &Script,
    keys: &Keys,
    run: Run<F, R>,
    sink: &mut K,
    _entropy: &E,
) -> RunEnd<F, R>
    requires ready { IsReady script.now run }
    requires all { length script.now.steps ≤ run.at }
    ensures ends { (drew draws : ℕ) (first : E) → EndsAt F.state R.state F.crash_image (E.is_reliable first) drew draws keys.now script.now (Rose (K.faults sink.old) (K.faults sink.new) ⊎ K.is_full sink.new) (K.held sink.old) (K.held sink.new) run result }
    ensures counted { K.faults sink.old ≤ K.faults sink.new }
{
    let Run { bench, kept, .. } = run;
    let status = print_last_lines(kept, sink);
    RunEnd { status, bench }
}

/// Does the acts of a script on a bench that was opened.
fn do_acts<
    W: Threads + Wait + Sync,
    K: Sink,
    F: FileRig + Drop + Send,
    R: CardRig + Drop + Send,
    E: Entropy + Drop + Send,
>(
    rt: &W,
    alloc: Global,
    script: &Script,
    run: Run<F, R>,
    sink: &mut K,
    keys: &Keys,
    entropy: &mut E,
) -> RunEnd<F, R>
    requires sound { IsSound script.now }
    requires ready { IsReady script.now run }
    ensures ends { (first : E) → (E.is_reliable first → E.is_reliable entropy.old) → EndsAt F.state R.state F.crash_image (E.is_reliable first) (E.faults entropy.old) (E.faults entropy.new) keys.now script.now (Rose (K.faults sink.old) (K.faults sink.new) ⊎ K.is_full sink.new) (K.held sink.old) (K.held sink.new) run result }
    ensures counted { K.faults sink.old ≤ K.faults sink.new }
{
    let mut run = run;
    while run.at < script.all_steps().len() {
        match do_act(rt, alloc, script, run, sink, keys, entropy) {
            Ok(next) => run = next,
            Err(end) => return end,
        }
    }
    finish(script, keys, run, sink, &*entropy)
}

/// Opens the bench, runs the steps of a script on it, and writes their text.
pub(crate) fn run_script<
    W: Threads + Wait + Sync,
    K: Sink,
    F: FileRig + Drop + Send,
    R: CardRig + Drop + Send,
    E: Entropy + Drop + Send,
>(
    rt: &W,
    alloc: Global,
    script: &Script,
    sink: &mut K,
    bench: Bench<F, R>,
    keys: &Keys,
    entropy: &mut E,
) -> RunEnd<F, R>
    requires sound { IsSound script.now }
    requires whole { vec_len bench.files ≡ file_count }
    ensures ran { RunsScript F.state R.state F.crash_image (E.is_reliable entropy.old) (E.faults entropy.old) (E.faults entropy.new) keys.now script.now (Rose (K.faults sink.old) (K.faults sink.new) ⊎ K.is_full sink.new) (K.held sink.old) (K.held sink.new)
        (bench_state F.state R.state bench) (bench_state F.state R.state result.bench) result.status }
    ensures counted { K.faults sink.old ≤ K.faults sink.new }
    ensures whole { vec_len result.bench.files ≡ file_count }
{
    match open_bench(alloc, bench, keys, entropy) {
        Ok(bench) => {
            let run = Run {
                bench,
                saved: SavedFiles::new(alloc),
                quotas: Vec::new(alloc),
                arms: Vec::new(alloc),
                number: 0,
                mode: Mode::Serial,
                at: 0,
                kept: Vec::new(alloc),
            };
            do_acts(rt, alloc, script, run, sink, keys, entropy)
        }
        Err(Halted { bench, fault }) => {
            let status = print_mount_refusal(fault, sink, Vec::new(alloc));
            RunEnd { status, bench }
        }
    }
}
