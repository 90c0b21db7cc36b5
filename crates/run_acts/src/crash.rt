//! A crash of the files of a bench.

ghost use Rattle.std.specs.Prelude.{◌≡◌, ◌≢◌, ◌<◌, ◌≤◌, ℕ, length, vec_len, OnErr, OnOk};
ghost use Rattle.tee_types.specs.Limits.{file_count};
ghost use Rattle.object_calls.specs.OpeningFiles.{files_of};
ghost use Rattle.run_acts.specs.Benches.{bench_state};
ghost use Rattle.run_acts.specs.Crashes.{Crashes, CrashesBelow, CrashesFile, CrashesInPart};

use object_calls::Bench;
use rpmb_card::RpmbPort;
use tee_ports::{FileRig, NoMemory};
use tee_types::BENCH_FILES;

// Crashes one file.
fn crash_file<F: FileRig>(files: &mut [F], seed: u64, file: u16) -> Result<(), NoMemory>
    requires { file < length files.old }
    ensures here { OnOk result (CrashesFile F.crash_image seed (files_of F.state files.old file) (files_of F.state files.new file) file) }
    ensures others { (k : ℕ) → k ≢ file → files_of F.state files.new k ≡ files_of F.state files.old k }
    ensures same { OnErr result (files_of F.state files.new file ≡ files_of F.state files.old file) }
{
    files[file as usize].crash(seed, file)
}

// Crashes all files, file 0 first.
fn crash_all<F: FileRig>(files: &mut [F], seed: u64) -> Result<(), NoMemory>
    requires { length files.old ≡ file_count }
    ensures all { OnOk result (CrashesBelow F.crash_image seed file_count (files_of F.state files.old) (files_of F.state files.new)) }
    ensures some { OnErr result ((count : ℕ) × (count ≤ file_count) × CrashesBelow F.crash_image seed count (files_of F.state files.old) (files_of F.state files.new)) }
{
    for file in 0..BENCH_FILES as u16 {
        crash_file(files, seed, file)?;
    }
    Ok(())
}

/// Crashes the files: each takes the image that the seed, its number and its state pick of those that a crash may leave, file 0 first.
/// The card stays.
///
/// # Errors
///
/// Memory ran out. The files below some number have taken their images, and the others are as they were.
pub fn crash_files<F: FileRig + Drop, R: RpmbPort + Drop>(
    bench: &mut Bench<F, R>,
    seed: u64,
) -> Result<(), NoMemory>
    requires { vec_len bench.old.files ≡ file_count }
    ensures crashed { OnOk result (Crashes F.crash_image seed (bench_state F.state R.state bench.old) (bench_state F.state R.state bench.new)) }
    ensures in_part { OnErr result (CrashesInPart F.crash_image seed (bench_state F.state R.state bench.old) (bench_state F.state R.state bench.new)) }
    ensures whole { vec_len bench.new.files ≡ file_count }
    ensures card { bench.new.card ≡ bench.old.card }
{
    crash_all(&mut bench.files, seed)
}
