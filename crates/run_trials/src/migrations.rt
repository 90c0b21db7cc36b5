// Migrations that a device cuts off, then a crash, and a migration to the end.

ghost use Rattle.std.specs.Prelude.{◌≡◌, vec_len, IfOk};
ghost use Rattle.tee_types.specs.Limits.{file_count};

use crate::old_stores::{LISTED, old_bench};
use anyhow::{Context, bail};
use mem_files::MemFile;
use std::alloc::{AllocError, Global};
use std::sync::Wait;
use std::thread::Threads;
use trial_runs::{
    CardPort, Device, Mishap, RanOver, SimBench, Trouble, arm_bench, crash_bench, reliable,
    run_words,
};

/// The devices that a migration calls: both files that a directory may have, those of the objects, those that they are moved into, and the
/// card.
const DEVICES: [Device; 9] = [
    Device::File(0),
    Device::File(273),
    Device::File(1),
    Device::File(2),
    Device::File(3),
    Device::File(4),
    Device::File(5),
    Device::File(6),
    Device::Card,
];

/// With how many seeds the files crash.
const SEEDS: u64 = 4;

/// More calls than a migration makes of one device.
const MOST_CALLS: u64 = 200;

// Migrates these devices.
fn migrate<W: Threads + Wait + Sync>(
    rt: &W,
    alloc: Global,
    bench: SimBench,
) -> anyhow::Result<RanOver<MemFile, CardPort>>
    requires { vec_len bench.files ≡ file_count }
    ensures { IfOk result (λ ran. vec_len ran.bench.files ≡ file_count) }
{
    let words = vec![in alloc; String::from_str(alloc, "migrate")?]?;
    run_words(rt, alloc, &words, "", bench, &mut reliable())
}

// Whether the objects stand behind the line of what was moved.
fn shows_all(output: &str) -> bool {
    match output.split_once("\n") {
        Some((_, objects)) => objects == LISTED,
        None => false,
    }
}

// Migrates a store whose device stops at that call, then crashes it and migrates it to the end. Says whether the device stopped at all, and
// whether the objects are there.
fn cut_once<W: Threads + Wait + Sync>(
    rt: &W,
    alloc: Global,
    device: Device,
    call: u64,
    seed: u64,
) -> anyhow::Result<(bool, bool)> {
    let mut bench = old_bench(alloc)?;
    let mishap = Mishap::Stops;
    arm_bench(
        &mut bench,
        Trouble {
            device,
            mishap,
            call,
        },
    )?;
    let cut = migrate(rt, alloc, bench)?;
    let stopped = !cut.is_done;
    let mut bench = cut.bench;
    crash_bench(&mut bench, seed)?;
    let ran = migrate(rt, alloc, bench)?;
    Ok((stopped, ran.is_done && shows_all(ran.output.as_str())))
}

// Cuts migrations off at each call of a device, with all seeds. Says how often an object was lost.
fn lost_by<W: Threads + Wait + Sync>(rt: &W, alloc: Global, device: Device) -> anyhow::Result<u64> {
    let mut lost = 0u64;
    for call in 0..MOST_CALLS {
        let mut stops = false;
        for seed in 0..SEEDS {
            let (stopped, kept) = cut_once(rt, alloc, device, call, seed)?;
            stops = stops || stopped;
            if !kept {
                lost = lost.saturating_add(1);
            }
        }
        if !stops {
            return Ok(lost);
        }
    }
    bail!("a migration that does not end")
}

/// The line of migrations that were cut off.
pub fn migration_line<W: Threads + Wait + Sync>(rt: &W, alloc: Global) -> anyhow::Result<String> {
    let mut lost = 0u64;
    for device in DEVICES {
        lost = lost.saturating_add(lost_by(rt, alloc, device)?);
    }
    let line: Result<String, AllocError> = format!(in alloc;
        "migrations cut off at each call of {} devices, {lost} lost",
        DEVICES.len()
    );
    line.context("no memory")
}
