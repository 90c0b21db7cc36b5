//! In how many calls of files memory ran out.

ghost use Rattle.std.specs.Prelude.{◌≡◌, ◌↔◌, ℕ, List, map, vec_len, IfOk, IsTrue};
ghost use Rattle.object_calls.specs.OpeningFiles.{files_of};
ghost use Rattle.run_acts.specs.Benches.{TellsFault, bench_state};

use object_calls::{Bench, Halted};
use rpmb_card::RpmbPort;
use std::alloc::Global;
use store_commit::MountFault;
use tee_ports::{FileRig, NoMemory};

/// In how many calls of each file memory ran out, file 0 first.
pub fn starved_counts<F: FileRig>(alloc: Global, files: &[F]) -> Result<Vec<u64>, NoMemory>
    ensures { IfOk result (λ counts. counts.items ≡ map (λ f. (F.state f).starved) files.now) }
{
    files.iter().map(|file| file.starved()).collect(alloc)
}

/// Whether the counts of the files are still those.
pub fn had_memory<F: FileRig>(files: &[F], before: &[u64]) -> bool
    ensures same { IsTrue result ↔ (map (λ f. (F.state f).starved) files.now ≡ before.now) }
    // Then no count of a file differs from what it was.
    ensures with_memory { (old : List F) → before.now ≡ map (λ f. (F.state f).starved) old → IsTrue result
        → (file : ℕ) → (files_of F.state files.now file).starved ≡ (files_of F.state old file).starved }
{
    if files.len() != before.len() {
        return false;
    }
    for (index, file) in files.iter().enumerate() {
        if file.starved() != before[index] {
            return false;
        }
    }
    true
}

/// A bench that was halted, and why: what was answered, where the counts are still those; else for want of memory.
pub(crate) fn tell_fault<F: FileRig + Drop, R: RpmbPort + Drop>(
    halted: Halted<F, R>,
    before: &[u64],
) -> Halted<F, R>
    ensures bench { result.bench ≡ halted.bench }
    ensures told { (old : Bench F R) → vec_len old.files ≡ vec_len halted.bench.files → before.now ≡ map (λ f. (F.state f).starved) old.files.items
        → TellsFault (bench_state F.state R.state old) (bench_state F.state R.state halted.bench) halted.fault result.fault }
{
    if had_memory(&halted.bench.files, before) {
        return halted;
    }
    Halted {
        bench: halted.bench,
        fault: MountFault::NoMemory,
    }
}
