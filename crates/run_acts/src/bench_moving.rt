//! Migrating a bench.

ghost use Rattle.std.specs.Prelude.{◌≡◌, vec_len, IfErr, IfOk, MatchResult};
ghost use Rattle.tee_types.specs.Limits.{file_count};
ghost use Rattle.store_commit.specs.Counts.{RefusalNotDrawn};
ghost use Rattle.run_acts.specs.Benches.{bench_state};
ghost use Rattle.run_acts.specs.MigratedBenches.{IsBenchNotMoved, MovesBench, StopsBench};

use crate::memory_failures::{starved_counts, tell_fault};
use hmac_keys::Keys;
use object_calls::{Bench, Halted, Migrated, migrate};
use rpmb_card::RpmbPort;
use std::alloc::Global;
use store_commit::MountFault;
use tee_ports::{Entropy, FileRig};

// Migrates a bench, as the store below does. What is said of the answer is said here in the words of benches.
fn move_bench<F: FileRig + Drop, R: RpmbPort + Drop, E: Entropy>(
    alloc: Global,
    bench: Bench<F, R>,
    keys: &Keys,
    entropy: &mut E,
) -> Result<Migrated<F, R>, Halted<F, R>>
    requires { vec_len bench.files ≡ file_count }
    ensures answer { MatchResult result
        (λ m. MovesBench keys.now (bench_state F.state R.state bench) (bench_state F.state R.state m.bench) m.directory m.objects)
        (λ h. StopsBench keys.now (bench_state F.state R.state bench) (bench_state F.state R.state h.bench) (E.faults entropy.old) (E.faults entropy.new) h.fault) }
    ensures undrawn { IfOk result (λ m. E.faults entropy.new ≡ E.faults entropy.old) }
    ensures whole { IfOk result (λ m. vec_len m.bench.files ≡ file_count) }
    ensures whole_err { IfErr result (λ h. vec_len h.bench.files ≡ file_count) }
    ensures drawn { E.is_reliable entropy.old → IfErr result (λ h. RefusalNotDrawn h.fault) }
    ensures reliable { E.is_reliable entropy.old → E.is_reliable entropy.new }
{
    match migrate(alloc, bench, keys, entropy) {
        Ok(migrated) => Ok(migrated),
        Err(halted) => Err(halted),
    }
}

/// Moves what a bench has in files of the old format into files of the current one, and says what was moved.
///
/// # Errors
///
/// As the migration says. `NoMemory`, too, where a call of a file found no memory.
pub fn migrate_bench<F: FileRig + Drop, R: RpmbPort + Drop, E: Entropy>(
    alloc: Global,
    bench: Bench<F, R>,
    keys: &Keys,
    entropy: &mut E,
) -> Result<Migrated<F, R>, Halted<F, R>>
    requires { vec_len bench.files ≡ file_count }
    ensures moves { IfOk result (λ m. MovesBench keys.now (bench_state F.state R.state bench) (bench_state F.state R.state m.bench) m.directory m.objects) }
    ensures undrawn { IfOk result (λ m. E.faults entropy.new ≡ E.faults entropy.old) }
    ensures refused { IfErr result (λ h. IsBenchNotMoved keys.now (bench_state F.state R.state bench) (bench_state F.state R.state h.bench)
        (E.faults entropy.old) (E.faults entropy.new) h.fault) }
    ensures whole { IfOk result (λ m. vec_len m.bench.files ≡ file_count) }
    ensures whole_err { IfErr result (λ h. vec_len h.bench.files ≡ file_count) }
    ensures drawn { E.is_reliable entropy.old → IfErr result (λ h. RefusalNotDrawn h.fault) }
    ensures reliable { E.is_reliable entropy.old → E.is_reliable entropy.new }
{
    let Ok(before) = starved_counts(alloc, &bench.files) else {
        let fault = MountFault::NoMemory;
        return Err(Halted { bench, fault });
    };
    match move_bench(alloc, bench, keys, entropy) {
        Ok(migrated) => Ok(migrated),
        Err(halted) => Err(tell_fault(halted, &before)),
    }
}
