//! Running a soak: the calls that follow from a number are one phase on threads, and what came of it is printed in five lines.

ghost use Rattle.std.specs.Prelude.{◌≡◌, ◌⊎◌, ◌≤◌, ℕ, List, vec_len, IfErr, IfOk};
ghost use Rattle.tee_ports.specs.Faults.{Rose};
ghost use Rattle.tee_types.specs.Limits.{file_count};
ghost use Rattle.run_acts.specs.Benches.{bench_state};
ghost use Rattle.store_model.specs.Object.{ObjectMap};
ghost use Rattle.run_acts.specs.ListedBenches.{IsListRefused, ListsBench};
ghost use Rattle.script_runner.specs.Soaks.{IsThrough, IsBroken, RunsSoak, PrintsObjects};

use crate::act_text::print_last_lines;
use crate::mount_refusal::print_mount_refusal;
use crate::phase_act::calls_from;
use crate::run_state::RunEnd;
use hmac_keys::Keys;
use rpmb_card::CardRig;
use run_acts::{
    Bench, Halted, Listing, MountFault, Phase, PhaseEnd, PhaseOutcome, list_objects, open_bench,
    run_phase,
};
use script_text::Mode;
use seed_words::{soak_lines, soak_script};
use std::alloc::Global;
use std::sync::Wait;
use std::thread::Threads;
use store_model::History;
use tee_ports::{Entropy, FileRig, Sink};

/// A bench that was soaked.
#[derive(Drop)]
pub(crate) struct Soaked<F, R> {
    /// The bench.
    pub bench: Bench<F, R>,
    /// The lines that tell what came of it.
    pub lines: Vec<u8>,
}

/// Lists the objects that a soak with this history left, and prints what came of it.
fn print_soak<F: FileRig + Drop, R: CardRig + Drop, E: Entropy + Drop>(
    alloc: Global,
    number: u32,
    bench: Bench<F, R>,
    history: &History,
    keys: &Keys,
    entropy: &mut E,
) -> Result<Soaked<F, R>, Halted<F, R>>
    requires { vec_len bench.files ≡ file_count }
    ensures ok { IfOk result (λ s. PrintsObjects F.state R.state keys.now number history.now.events (bench_state F.state R.state bench) (bench_state F.state R.state s.bench) s.lines.items) }
    ensures err { IfErr result (λ h. ((h.fault ≡ MountFault.NoMemory) × ((objects : ObjectMap) × (lines : List ℕ)
        × ListsBench F.state R.state keys.now (bench_state F.state R.state bench) (bench_state F.state R.state h.bench) objects lines))
        ⊎ IsListRefused F.state R.state keys.now (bench_state F.state R.state bench) (bench_state F.state R.state h.bench) (E.faults entropy.old) (E.faults entropy.new) h.fault) }
    ensures whole { IfOk result (λ s. vec_len s.bench.files ≡ file_count) }
    ensures whole_err { IfErr result (λ h. vec_len h.bench.files ≡ file_count) }
{
    match list_objects(alloc, bench, keys, entropy) {
        Ok(
            Listing {
                bench,
                objects,
                lines,
            },
        ) => match soak_lines(alloc, number, history, u64::from(objects), lines.as_slice()) {
            Ok(lines) => Ok(Soaked { bench, lines }),
            Err(_) => Err(Halted {
                bench,
                fault: MountFault::NoMemory,
            }),
        },
        Err(halted) => Err(halted),
    }
}

/// Makes the calls of a soak on a bench that was opened, and prints what came of it.
fn soak_opened<
    W: Threads + Wait + Sync,
    F: FileRig + Drop + Send,
    R: CardRig + Drop + Send,
    E: Entropy + Drop + Send,
>(
    rt: &W,
    alloc: Global,
    number: u32,
    bench: Bench<F, R>,
    keys: &Keys,
    entropy: &mut E,
) -> Result<Soaked<F, R>, Halted<F, R>>
    requires { vec_len bench.files ≡ file_count }
    ensures ok { (first : E) → (E.is_reliable first → E.is_reliable entropy.old) → IfOk result (λ s. IsThrough F.state R.state F.crash_image (E.is_reliable first) keys.now number
        (bench_state F.state R.state bench) (bench_state F.state R.state s.bench) s.lines.items) }
    ensures err { (first : E) → (E.is_reliable first → E.is_reliable entropy.old) → IfErr result (λ h. IsBroken F.state R.state F.crash_image (E.is_reliable first) keys.now number
        (E.faults entropy.old) (E.faults entropy.new) (bench_state F.state R.state bench) (bench_state F.state R.state h.bench) h.fault) }
    ensures whole { IfOk result (λ s. vec_len s.bench.files ≡ file_count) }
    ensures whole_err { IfErr result (λ h. vec_len h.bench.files ≡ file_count) }
{
    let Ok(script) = soak_script(alloc, number) else {
        let fault = MountFault::NoMemory;
        return Err(Halted { bench, fault });
    };
    // The first step sets the mode.
    let calls = calls_from(&script, 1);
    let phase = Phase {
        number: 0,
        mode: Mode::Threads,
        applications: script.applications(),
        quotas: &[],
        arms: &[],
        calls,
    };
    match run_phase(rt, alloc, bench, keys, entropy, &phase) {
        Ok(PhaseOutcome::Served(end)) => {
            let PhaseEnd { bench, history, .. } = end;
            print_soak(alloc, number, bench, &history, keys, entropy)
        }
        // It has no quotas.
        Ok(PhaseOutcome::OverCommitted { .. }) => unreachable!(),
        Err(halted) => Err(halted),
    }
}

/// Opens the bench, makes the calls of the soak of that number on it, and writes what came of it.
pub(crate) fn run_soak<
    W: Threads + Wait + Sync,
    K: Sink,
    F: FileRig + Drop + Send,
    R: CardRig + Drop + Send,
    E: Entropy + Drop + Send,
>(
    rt: &W,
    alloc: Global,
    number: u32,
    sink: &mut K,
    bench: Bench<F, R>,
    keys: &Keys,
    entropy: &mut E,
) -> RunEnd<F, R>
    requires { vec_len bench.files ≡ file_count }
    ensures soak { RunsSoak F.state R.state F.crash_image (E.is_reliable entropy.old) keys.now number (E.faults entropy.old) (E.faults entropy.new)
        (Rose (K.faults sink.old) (K.faults sink.new) ⊎ K.is_full sink.new) (K.held sink.old) (K.held sink.new)
        (bench_state F.state R.state bench) (bench_state F.state R.state result.bench) result.status }
    ensures whole { vec_len result.bench.files ≡ file_count }
{
    let bench = match open_bench(alloc, bench, keys, entropy) {
        Ok(bench) => bench,
        Err(Halted { bench, fault }) => {
            let status = print_mount_refusal(fault, sink, Vec::new(alloc));
            return RunEnd { status, bench };
        }
    };
    match soak_opened(rt, alloc, number, bench, keys, entropy) {
        Ok(Soaked { bench, lines }) => {
            let status = print_last_lines(lines, sink);
            RunEnd { status, bench }
        }
        Err(Halted { bench, fault }) => {
            let status = print_mount_refusal(fault, sink, Vec::new(alloc));
            RunEnd { status, bench }
        }
    }
}
