//! Running a migration: the bench is migrated, and its objects are listed.

ghost use Rattle.std.specs.Prelude.{◌≡◌, ◌⊎◌, ◌≤◌, ◌++◌, ℕ, Bool, vec_len};
ghost use Rattle.tee_ports.specs.Faults.{Rose};
ghost use Rattle.tee_types.specs.Limits.{file_count};
ghost use Rattle.script_text.specs.Text.{migration_line};
ghost use Rattle.run_acts.specs.Benches.{BenchState, bench_state};
ghost use Rattle.run_acts.specs.MigratedBenches.{MovesBench};
ghost use Rattle.script_runner.specs.Migrations.{PrintsBehind, RunsMigration, told_behind};

use crate::Status;
use crate::act_text::print_last_lines;
use crate::mount_refusal::print_mount_refusal;
use crate::run_state::RunEnd;
use hmac_keys::Keys;
use rpmb_card::CardRig;
use run_acts::{Bench, Halted, Listing, Migrated, MountFault, list_objects, migrate_bench};
use script_text::print_migration;
use std::alloc::Global;
use tee_ports::{Entropy, FileRig, Sink};

/// Puts the text so far, with the lines of objects below it, and says how the run ends.
fn print_listed<K: Sink>(lines: &[u8], sink: &mut K, kept: Vec<u8>) -> Status
    ensures prints { PrintsBehind (Rose (K.faults sink.old) (K.faults sink.new) ⊎ K.is_full sink.new) (K.held sink.old) (K.held sink.new) kept.items lines.now result }
    ensures counted { K.faults sink.old ≤ K.faults sink.new }
{
    let mut text = kept;
    match text.extend_from_slice(lines) {
        Ok(()) => print_last_lines(text, sink),
        Err(_) => Status::NoMemory,
    }
}

// What the refusal of a mount behind the migration is told as. An old file is found there only where the card named another directory than
// the one that was read before.
fn told_behind(fault: MountFault) -> MountFault
    ensures { result ≡ told_behind fault }
{
    match fault {
        MountFault::OldFormat { .. } => MountFault::CardBlock { byte: 0 },
        fault => fault,
    }
}

/// Lists the objects of a bench that was migrated, and puts their lines behind the text so far.
fn list_migrated<K: Sink, F: FileRig + Drop, R: CardRig + Drop, E: Entropy + Drop>(
    alloc: Global,
    kept: Vec<u8>,
    sink: &mut K,
    bench: Bench<F, R>,
    keys: &Keys,
    entropy: &mut E,
) -> RunEnd<F, R>
    requires { vec_len bench.files ≡ file_count }
    ensures lists { (handed : BenchState) (directory : Bool) (moved : ℕ) → kept.items ≡ migration_line directory moved
        → MovesBench keys.now handed (bench_state F.state R.state bench) directory moved
        → RunsMigration F.state R.state keys.now (E.faults entropy.old) (E.faults entropy.new) (Rose (K.faults sink.old) (K.faults sink.new) ⊎ K.is_full sink.new)
        (K.held sink.old) (K.held sink.new) handed (bench_state F.state R.state result.bench) result.status }
    ensures counted { K.faults sink.old ≤ K.faults sink.new }
    ensures whole { vec_len result.bench.files ≡ file_count }
{
    match list_objects(alloc, bench, keys, entropy) {
        Ok(Listing { bench, lines, .. }) => {
            let status = print_listed(lines.as_slice(), sink, kept);
            RunEnd { status, bench }
        }
        Err(Halted { bench, fault }) => {
            let told = told_behind(fault);
            let status = print_mount_refusal(told, sink, kept);
            RunEnd { status, bench }
        }
    }
}

/// Migrates a bench, and writes what was moved and the lines of its objects.
pub(crate) fn run_migration<K: Sink, F: FileRig + Drop, R: CardRig + Drop, E: Entropy + Drop>(
    alloc: Global,
    sink: &mut K,
    bench: Bench<F, R>,
    keys: &Keys,
    entropy: &mut E,
) -> RunEnd<F, R>
    requires { vec_len bench.files ≡ file_count }
    ensures migrates { RunsMigration F.state R.state keys.now (E.faults entropy.old) (E.faults entropy.new) (Rose (K.faults sink.old) (K.faults sink.new) ⊎ K.is_full sink.new)
        (K.held sink.old) (K.held sink.new) (bench_state F.state R.state bench) (bench_state F.state R.state result.bench) result.status }
    ensures counted { K.faults sink.old ≤ K.faults sink.new }
    ensures whole { vec_len result.bench.files ≡ file_count }
{
    match migrate_bench(alloc, bench, keys, entropy) {
        Ok(
            Migrated {
                bench,
                directory,
                objects,
            },
        ) => {
            let mut kept = Vec::new(alloc);
            match print_migration(directory, objects, &mut kept) {
                Ok(()) => list_migrated(alloc, kept, sink, bench, keys, entropy),
                Err(_) => RunEnd {
                    status: Status::NoMemory,
                    bench,
                },
            }
        }
        Err(Halted { bench, fault }) => {
            let status = print_mount_refusal(fault, sink, Vec::new(alloc));
            RunEnd { status, bench }
        }
    }
}
