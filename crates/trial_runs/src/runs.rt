//! The run of a script over simulated devices.

ghost use Rattle.std.specs.Prelude.{◌≡◌, vec_len, IfOk};
ghost use Rattle.tee_types.specs.Limits.{file_count};
ghost use Rattle.folder_export.specs.Folders.{folder_count};

use crate::folders::new_folder;
use anyhow::{Context, bail};
use mem_files::MemFile;
use rpmb_card::CardRig;
use script_runner::{Bench, RunEnd, Status, run, simulator_keys};
use std::alloc::Global;
use std::sync::Wait;
use std::thread::Threads;
use tee_ports::{Entropy, FileRig, ListEntropy, MemSink, MemSource};

/// How a run ended, what it put, and the devices as it left them, where it was done or a mount was refused.
#[derive(Drop)]
pub struct RanOver<F, R> {
    /// No mount was refused.
    pub is_done: bool,
    /// What it put.
    pub output: String,
    /// The devices.
    pub bench: Bench<F, R>,
}

/// How a run ended, what it put, and the devices as it left them, whatever its end.
#[derive(Drop)]
pub struct Ended<F, R> {
    /// Its end.
    pub status: Status,
    /// What it put, of up to 65,536 bytes.
    pub output: String,
    /// The devices.
    pub bench: Bench<F, R>,
}

/// More calls of a device than a run here makes.
pub const MOST_CALLS: u64 = 64;

/// The stream from which the mounts draw: none that a session has.
const MOUNTS: u64 = 1_000;

/// A generator that fails at no draw.
pub fn reliable() -> ListEntropy {
    ListEntropy::new([0; 16]).stream(MOUNTS)
}

/// A generator that fails at this draw of the mounts, and at this draw of each session.
pub fn failing(draw: u64) -> ListEntropy {
    let mut failing = [0; 16];
    failing[0] = draw;
    ListEntropy::new(failing).stream(MOUNTS)
}

/// A generator that fails at this draw of each session alone: the draws of the mounts are behind the one that fails.
pub fn failing_sessions(draw: u64) -> ListEntropy {
    let mut entropy = failing(draw);
    let mut drawn = [0; 16];
    for _ in 0..MOST_CALLS {
        let _ = entropy.draw(&mut drawn);
    }
    entropy
}

// Whether the run was done; else a mount was refused. Any other end is none of a trial.
fn is_done(status: &Status) -> anyhow::Result<bool> {
    match status {
        Status::Done => Ok(true),
        Status::DeviceFault(_) | Status::MountRefused(_) => Ok(false),
        _ => bail!("a run that has no end of a trial"),
    }
}

/// Does what the words say over these devices and this folder, with a script to read.
///
/// # Errors
///
/// Memory ran out, or what was put is no text.
pub fn run_into<W: Threads + Wait + Sync, F: FileRig + Drop + Send, R: CardRig + Drop + Send>(
    rt: &W,
    alloc: Global,
    words: &[String],
    script: &str,
    bench: Bench<F, R>,
    entropy: &mut ListEntropy,
    folder: &mut Vec<MemFile>,
) -> anyhow::Result<Ended<F, R>>
    requires files { vec_len bench.files ≡ file_count }
    requires folder { vec_len folder.old ≡ folder_count }
    ensures files { IfOk result (λ ended. vec_len ended.bench.files ≡ file_count) }
    ensures folder { vec_len folder.new ≡ folder_count }
{
    let mut source = MemSource::new(alloc, script.as_bytes(), &[])?;
    let mut sink = MemSink::new(alloc, 65_536, &[])?;
    let keys = simulator_keys();
    let RunEnd { status, bench } = run(
        rt,
        alloc,
        words,
        &mut source,
        &mut sink,
        bench,
        &keys,
        entropy,
        folder,
    );
    let text = str::from_utf8(sink.bytes()).context("no text")?;
    Ok(Ended {
        status,
        output: String::from_str(alloc, text)?,
        bench,
    })
}

/// Does what the words say over these devices, with a script to read.
///
/// # Errors
///
/// Memory ran out, or the run had another end.
pub fn run_words<W: Threads + Wait + Sync, F: FileRig + Drop + Send, R: CardRig + Drop + Send>(
    rt: &W,
    alloc: Global,
    words: &[String],
    script: &str,
    bench: Bench<F, R>,
    entropy: &mut ListEntropy,
) -> anyhow::Result<RanOver<F, R>>
    requires { vec_len bench.files ≡ file_count }
    ensures { IfOk result (λ ran. vec_len ran.bench.files ≡ file_count) }
{
    let mut folder = new_folder(alloc)?;
    let ended = run_into(rt, alloc, words, script, bench, entropy, &mut folder)?;
    Ok(RanOver {
        is_done: is_done(&ended.status)?,
        output: ended.output,
        bench: ended.bench,
    })
}

/// Runs a script over these devices.
///
/// # Errors
///
/// Memory ran out, or the run had another end.
pub fn try_script<W: Threads + Wait + Sync, F: FileRig + Drop + Send, R: CardRig + Drop + Send>(
    rt: &W,
    alloc: Global,
    script: &str,
    bench: Bench<F, R>,
    entropy: &mut ListEntropy,
) -> anyhow::Result<RanOver<F, R>>
    requires { vec_len bench.files ≡ file_count }
    ensures { IfOk result (λ ran. vec_len ran.bench.files ≡ file_count) }
{
    let words = vec![in alloc; String::from_str(alloc, "run")?]?;
    run_words(rt, alloc, &words, script, bench, entropy)
}

/// The same, for a script whose run is done.
///
/// # Errors
///
/// Memory ran out, or the run was not done.
pub fn run_script<W: Threads + Wait + Sync, F: FileRig + Drop + Send, R: CardRig + Drop + Send>(
    rt: &W,
    alloc: Global,
    script: &str,
    bench: Bench<F, R>,
    entropy: &mut ListEntropy,
) -> anyhow::Result<RanOver<F, R>>
    requires { vec_len bench.files ≡ file_count }
    ensures { IfOk result (λ ran. vec_len ran.bench.files ≡ file_count) }
{
    let ran = try_script(rt, alloc, script, bench, entropy)?;
    if !ran.is_done {
        bail!("a run that is not done: {script}");
    }
    Ok(ran)
}
