//! Doing the controls of a script.

ghost use Rattle.std.specs.Prelude.{◌≡◌, ◌⊎◌, ◌≤◌, ◌+◌, ◌<◌, ◌++◌, ◌∷◌, [], length, vec_len, IfErr, IfOk, OnErr, OnOk};
ghost use Rattle.tee_types.specs.Limits.{file_count};
ghost use Rattle.script_text.specs.Script.{ScriptValue};
ghost use Rattle.script_text.specs.declared.script.Control.TheVariants.{List as ListControl};
ghost use Rattle.script_text.specs.declared.script.Step.TheVariants.{Control as ControlStep};
ghost use Rattle.tee_ports.specs.Faults.{Rose};
ghost use Rattle.script_text.specs.Laws.{IsFileDevice};
ghost use Rattle.run_acts.specs.Alterations.{FlipsFile, file_number};
ghost use Rattle.run_acts.specs.Benches.{bench_state};
ghost use Rattle.run_acts.specs.Crashes.{Crashes, CrashesInPart};
ghost use Rattle.script_runner.specs.RunReady.{IsNext, IsReady, IsSound};
ghost use Rattle.script_runner.specs.Running.{EndsAt, GoesOn};
ghost use Rattle.script_runner.specs.SavedFiles.{PutsBack, quota_for, reads_saved, saved_of, with_saved};

use crate::Status;
use crate::act_text::{print_control_act, print_list};
use crate::mount_refusal::print_mount_refusal;
use crate::run_state::{Run, RunEnd};
use crate::saved_files::SavedFiles;
use hmac_keys::Keys;
use rpmb_card::CardRig;
use run_acts::{
    Bench, Halted, Listing, Quota, crash_files, file_number, flip_file, list_objects, restore_file,
    save_files,
};
use script_text::{Arm, Control, Script};
use std::alloc::Global;
use tee_ports::{Entropy, FileRig, Sink};
use tee_types::{AppId, Bytes, Device, NoMemory};

/// Puts an equal arm behind those that wait.
fn push_arm(alloc: Global, arm: &Arm, arms: &mut Vec<Arm>) -> Result<(), NoMemory>
    ensures { OnOk result (arms.new.items ≡ arms.old.items ++ arm.now ∷ []) }
{
    arms.push(arm.copy(alloc)?)?;
    Ok(())
}

/// Has one arm more wait for the next phase.
fn await_arm<F: Drop, R: Drop>(
    alloc: Global,
    arm: &Arm,
    run: Run<F, R>,
) -> Result<Run<F, R>, RunEnd<F, R>>
    ensures waits { IfOk result (λ next. next ≡ record run { arms = next.arms }) }
    ensures arms { IfOk result (λ next. next.arms.items ≡ run.arms.items ++ arm.now ∷ []) }
    ensures err { IfErr result (λ end. end ≡ record { status = Status.NoMemory; bench = run.bench }) }
{
    let mut run = run;
    match push_arm(alloc, arm, &mut run.arms) {
        Ok(()) => Ok(run),
        Err(_) => Err(RunEnd {
            status: Status::NoMemory,
            bench: run.bench,
        }),
    }
}

/// Sets a quota for all phases to come.
fn set_quota<F: Drop, R: Drop>(
    app: AppId,
    objects: u16,
    bytes: u32,
    run: Run<F, R>,
) -> Result<Run<F, R>, RunEnd<F, R>>
    ensures sets { IfOk result (λ next. next ≡ record run { quotas = next.quotas }) }
    ensures quotas { IfOk result (λ next. next.quotas.items ≡ run.quotas.items ++ quota_for app objects bytes ∷ []) }
    ensures err { IfErr result (λ end. end ≡ record { status = Status.NoMemory; bench = run.bench }) }
{
    let mut run = run;
    let quota = Quota {
        app,
        objects,
        bytes: u64::from(bytes),
    };
    match run.quotas.push(quota) {
        Ok(()) => Ok(run),
        Err(_) => Err(RunEnd {
            status: Status::NoMemory,
            bench: run.bench,
        }),
    }
}

/// Keeps what the files of the bench read as, under a mark.
fn save_under<F: FileRig + Drop, R: CardRig + Drop>(
    alloc: Global,
    mark: &Bytes,
    bench: &Bench<F, R>,
    saved: &mut SavedFiles,
) -> Result<(), NoMemory>
    requires { vec_len bench.now.files ≡ file_count }
    ensures { OnOk result (saved_of saved.new ≡ with_saved (saved_of saved.old) mark.now (reads_saved (bench_state F.state R.state bench.now).files)) }
{
    let images = save_files(alloc, bench)?;
    saved.keep(alloc, mark.as_slice(), images)
}

/// Keeps what the files of the bench read as, under a mark.
fn save_bench<F: FileRig + Drop, R: CardRig + Drop>(
    alloc: Global,
    mark: &Bytes,
    run: Run<F, R>,
) -> Result<Run<F, R>, RunEnd<F, R>>
    requires { vec_len run.bench.files ≡ file_count }
    ensures saves { IfOk result (λ next. saved_of next.saved ≡ with_saved (saved_of run.saved) mark.now (reads_saved (bench_state F.state R.state run.bench).files)) }
    ensures others { IfOk result (λ next. next ≡ record run { saved = next.saved }) }
    ensures err { IfErr result (λ end. end ≡ record { status = Status.NoMemory; bench = run.bench }) }
{
    let mut run = run;
    match save_under(alloc, mark, &run.bench, &mut run.saved) {
        Ok(()) => Ok(run),
        Err(_) => Err(RunEnd {
            status: Status::NoMemory,
            bench: run.bench,
        }),
    }
}

/// Puts back what is kept of a file under a mark. Where nothing is, it does nothing.
fn restore_from<F: FileRig + Drop, R: CardRig + Drop>(
    saved: &SavedFiles,
    mark: &Bytes,
    file: Device,
    bench: &mut Bench<F, R>,
) -> Result<(), NoMemory>
    requires whole { vec_len bench.old.files ≡ file_count }
    requires file { IsFileDevice file }
    ensures restores { OnOk result (PutsBack (file_number file) (saved_of saved.now mark.now (file_number file)) (bench_state F.state R.state bench.old) (bench_state F.state R.state bench.new)) }
    ensures refused { OnErr result (bench_state F.state R.state bench.new ≡ bench_state F.state R.state bench.old) }
    ensures whole { vec_len bench.new.files ≡ file_count }
{
    let Some(image) = saved.image(mark.as_slice(), file_number(file)) else {
        return Ok(());
    };
    restore_file(bench, file, image)
}

/// Puts back what is kept of a file under a mark.
fn restore_bench<F: FileRig + Drop, R: CardRig + Drop>(
    mark: &Bytes,
    file: Device,
    run: Run<F, R>,
) -> Result<Run<F, R>, RunEnd<F, R>>
    requires whole { vec_len run.bench.files ≡ file_count }
    requires file { IsFileDevice file }
    ensures restores { IfOk result (λ next. PutsBack (file_number file) (saved_of run.saved mark.now (file_number file)) (bench_state F.state R.state run.bench) (bench_state F.state R.state next.bench)) }
    ensures whole { IfOk result (λ next. vec_len next.bench.files ≡ file_count) }
    ensures others { IfOk result (λ next. next ≡ record run { bench = next.bench }) }
    ensures err { IfErr result (λ end. end.status ≡ Status.NoMemory) }
    ensures same { IfErr result (λ end. bench_state F.state R.state end.bench ≡ bench_state F.state R.state run.bench) }
    ensures whole_err { IfErr result (λ end. vec_len end.bench.files ≡ file_count) }
{
    let mut run = run;
    match restore_from(&run.saved, mark, file, &mut run.bench) {
        Ok(()) => Ok(run),
        Err(_) => Err(RunEnd {
            status: Status::NoMemory,
            bench: run.bench,
        }),
    }
}

/// Lays a mask over a file.
fn flip_bench<F: FileRig + Drop, R: CardRig + Drop>(
    file: Device,
    at: u32,
    mask: &Bytes,
    run: Run<F, R>,
) -> Run<F, R>
    requires whole { vec_len run.bench.files ≡ file_count }
    requires file { IsFileDevice file }
    ensures flips { FlipsFile (file_number file) at mask.now (bench_state F.state R.state run.bench) (bench_state F.state R.state result.bench) }
    ensures whole { vec_len result.bench.files ≡ file_count }
    ensures others { result ≡ record run { bench = result.bench } }
{
    let mut run = run;
    flip_file(&mut run.bench, file, at, mask.as_slice());
    run
}

/// Crashes the files of the bench.
fn crash_bench<F: FileRig + Drop, R: CardRig + Drop>(
    seed: u64,
    run: Run<F, R>,
) -> Result<Run<F, R>, RunEnd<F, R>>
    requires { vec_len run.bench.files ≡ file_count }
    ensures crashes { IfOk result (λ next. Crashes F.crash_image seed (bench_state F.state R.state run.bench) (bench_state F.state R.state next.bench)) }
    ensures whole { IfOk result (λ next. vec_len next.bench.files ≡ file_count) }
    ensures others { IfOk result (λ next. next ≡ record run { bench = next.bench }) }
    ensures err { IfErr result (λ end. end.status ≡ Status.NoMemory) }
    ensures in_part { IfErr result (λ end. CrashesInPart F.crash_image seed (bench_state F.state R.state run.bench) (bench_state F.state R.state end.bench)) }
    ensures whole_err { IfErr result (λ end. vec_len end.bench.files ≡ file_count) }
{
    let mut run = run;
    match crash_files(&mut run.bench, seed) {
        Ok(()) => Ok(run),
        Err(_) => Err(RunEnd {
            status: Status::NoMemory,
            bench: run.bench,
        }),
    }
}

/// Mounts the store and sends the lines of its objects.
fn do_list<K: Sink, F: FileRig + Drop, R: CardRig + Drop, E: Entropy + Drop>(
    alloc: Global,
    run: Run<F, R>,
    sink: &mut K,
    keys: &Keys,
    entropy: &mut E,
) -> Result<Run<F, R>, RunEnd<F, R>>
    requires whole { vec_len run.bench.files ≡ file_count }
    requires place { run.at < 16777216 }
    ensures ok { (first : E) → (E.is_reliable first → E.is_reliable entropy.old) → (script : ScriptValue) → IsReady script run → IsNext script run (ControlStep ListControl)
        → IfOk result (GoesOn F.state R.state F.crash_image (E.is_reliable first) keys.now script (K.held sink.old) (K.held sink.new) run) }
    ensures err { (first : E) → (E.is_reliable first → E.is_reliable entropy.old) → (script : ScriptValue) → IsReady script run → IsNext script run (ControlStep ListControl)
        → IfErr result (EndsAt F.state R.state F.crash_image (E.is_reliable first) (E.faults entropy.old) (E.faults entropy.new) keys.now script (Rose (K.faults sink.old) (K.faults sink.new) ⊎ K.is_full sink.new) (K.held sink.old) (K.held sink.new) run) }
    ensures counted { K.faults sink.old ≤ K.faults sink.new }
    ensures undrawn { IfOk result (λ next. E.faults entropy.new ≡ E.faults entropy.old) }
    ensures reliable { E.is_reliable entropy.old → E.is_reliable entropy.new }
{
    let Run {
        bench,
        saved,
        quotas,
        arms,
        number,
        mode,
        at,
        kept,
    } = run;
    match list_objects(alloc, bench, keys, entropy) {
        Ok(Listing { bench, lines, .. }) => {
            let run = Run {
                bench,
                saved,
                quotas,
                arms,
                number,
                mode,
                at: at + 1,
                kept,
            };
            print_list(lines.as_slice(), run, sink)
        }
        Err(Halted { bench, fault }) => {
            let status = print_mount_refusal(fault, sink, kept);
            Err(RunEnd { status, bench })
        }
    }
}

/// Does a control, which is the next step of the script.
pub(crate) fn do_control<K: Sink, F: FileRig + Drop, R: CardRig + Drop, E: Entropy + Drop>(
    alloc: Global,
    script: &Script,
    control: &Control,
    run: Run<F, R>,
    sink: &mut K,
    keys: &Keys,
    entropy: &mut E,
) -> Result<Run<F, R>, RunEnd<F, R>>
    requires sound { IsSound script.now }
    requires ready { IsReady script.now run }
    requires next { IsNext script.now run (ControlStep control.now) }
    requires place { run.at < length script.now.steps }
    ensures ok { (first : E) → (E.is_reliable first → E.is_reliable entropy.old) → IfOk result (GoesOn F.state R.state F.crash_image (E.is_reliable first) keys.now script.now (K.held sink.old) (K.held sink.new) run) }
    ensures err { (first : E) → (E.is_reliable first → E.is_reliable entropy.old) → IfErr result (EndsAt F.state R.state F.crash_image (E.is_reliable first) (E.faults entropy.old) (E.faults entropy.new) keys.now script.now (Rose (K.faults sink.old) (K.faults sink.new) ⊎ K.is_full sink.new) (K.held sink.old) (K.held sink.new) run) }
    ensures counted { K.faults sink.old ≤ K.faults sink.new }
    ensures undrawn { IfOk result (λ next. E.faults entropy.new ≡ E.faults entropy.old) }
    ensures reliable { E.is_reliable entropy.old → E.is_reliable entropy.new }
{
    let mut run = run;
    match control {
        Control::Mode(mode) => {
            run.mode = *mode;
            run.at += 1;
            print_control_act(control, run, sink)
        }
        Control::Phase => {
            run.at += 1;
            print_control_act(control, run, sink)
        }
        Control::Arm(arm) => match await_arm(alloc, arm, run) {
            Ok(run) => {
                let mut run = run;
                run.at += 1;
                print_control_act(control, run, sink)
            }
            Err(end) => Err(end),
        },
        Control::Crash { seed } => match crash_bench(*seed, run) {
            Ok(run) => {
                let mut run = run;
                run.at += 1;
                print_control_act(control, run, sink)
            }
            Err(end) => Err(end),
        },
        Control::Save { mark } => match save_bench(alloc, mark, run) {
            Ok(run) => {
                let mut run = run;
                run.at += 1;
                print_control_act(control, run, sink)
            }
            Err(end) => Err(end),
        },
        Control::Restore { file, mark } => match restore_bench(mark, *file, run) {
            Ok(run) => {
                let mut run = run;
                run.at += 1;
                print_control_act(control, run, sink)
            }
            Err(end) => Err(end),
        },
        Control::Flip { file, at, mask } => {
            let mut run = flip_bench(*file, *at, mask, run);
            run.at += 1;
            print_control_act(control, run, sink)
        }
        Control::Quota {
            app,
            objects,
            bytes,
        } => match set_quota(*app, *objects, *bytes, run) {
            Ok(run) => {
                let mut run = run;
                run.at += 1;
                print_control_act(control, run, sink)
            }
            Err(end) => Err(end),
        },
        Control::List => do_list(alloc, run, sink, keys, entropy),
    }
}
