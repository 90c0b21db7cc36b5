//! Benches whose devices go wrong, and crash.

ghost use Rattle.std.specs.Prelude.{◌≡◌, vec_len, OnOk};

use crate::mishaps::{Arm, Device, Trouble};
use mem_files::MemFile;
use rpmb_card::{CardRig, NoMemory};
use script_runner::Bench;
use tee_ports::FileRig;
use tee_types::{BENCH_FILES, DIRECTORY_FILE};

// Arms a file.
fn arm_file(file: &mut MemFile, arm: Arm) -> Result<(), NoMemory> {
    match arm {
        Arm::Stop(calls) => {
            file.stop_after(calls);
            Ok(())
        }
        Arm::Fail(call) => file.fail_call(call),
        // A file gives no answers that are lost.
        Arm::Lose(_) => Ok(()),
    }
}

// Arms the card.
fn arm_card<R: CardRig>(card: &mut R, arm: Arm) -> Result<(), NoMemory> {
    match arm {
        Arm::Stop(calls) => {
            card.stop_after(calls);
            Ok(())
        }
        Arm::Fail(call) => card.fail_call(call),
        Arm::Lose(call) => card.lose_call(call),
    }
}

// Arms the file of a number.
fn arm_numbered<R: CardRig>(
    bench: &mut Bench<MemFile, R>,
    number: usize,
    arm: Arm,
) -> Result<(), NoMemory>
    ensures { vec_len bench.new.files ≡ vec_len bench.old.files }
{
    match bench.files.get_mut(number) {
        Some(file) => arm_file(file, arm),
        None => Ok(()),
    }
}

// Arms a device.
fn arm_device<R: CardRig>(
    bench: &mut Bench<MemFile, R>,
    device: Device,
    arm: Arm,
) -> Result<(), NoMemory>
    ensures { vec_len bench.new.files ≡ vec_len bench.old.files }
{
    match device {
        Device::Dir => arm_numbered(bench, usize::from(DIRECTORY_FILE), arm),
        Device::File(number) => arm_numbered(bench, number, arm),
        Device::Card => arm_card(&mut bench.card, arm),
        Device::Draws => Ok(()),
    }
}

/// Arms the device that goes wrong. Draws are not armed here.
///
/// # Errors
///
/// Memory ran out.
pub fn arm_bench<R: CardRig>(
    bench: &mut Bench<MemFile, R>,
    trouble: Trouble,
) -> Result<(), NoMemory>
    ensures { vec_len bench.new.files ≡ vec_len bench.old.files }
{
    let (first, second) = trouble.arms();
    arm_device(bench, trouble.device, first)?;
    match second {
        Some(arm) => arm_device(bench, trouble.device, arm),
        None => Ok(()),
    }
}

/// Nothing goes wrong any more, and each file crashes.
///
/// # Errors
///
/// Memory ran out.
pub fn crash_bench<R: CardRig>(bench: &mut Bench<MemFile, R>, seed: u64) -> Result<(), NoMemory>
    ensures { OnOk result (vec_len bench.new.files ≡ vec_len bench.old.files) }
{
    bench.card.disarm();
    for number in 0..bench.files.len() {
        if let Some(file) = bench.files.get_mut(number) {
            file.disarm();
            file.crash(seed, (number % BENCH_FILES) as u16)?;
        }
    }
    Ok(())
}
