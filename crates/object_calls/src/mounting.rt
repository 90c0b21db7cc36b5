//! Mounting a store.

ghost use Rattle.std.specs.Prelude.{◌≡◌, [], vec_len, IfErr, IfOk, IsTrue};
ghost use Rattle.htree_file.specs.Answers.{FilePassed};
ghost use Rattle.node_image.specs.References.{current_format};
ghost use Rattle.crash_core.specs.EntryLists.{AreCurrent};
ghost use Rattle.tee_types.specs.Limits.{directory_file, file_count};
ghost use Rattle.store_commit.specs.Causes.{counts};
ghost use Rattle.store_commit.specs.Counts.{RefusalNotDrawn, RefusalNotOfCard};
ghost use Rattle.store_commit.specs.Gates.{gate_sides};
ghost use Rattle.store_commit.specs.Mounts.{IsOfCurrentFormat, LeavesDevices, OpensGate, TellsFailure};
ghost use Rattle.object_calls.specs.Begins.{IsWholeOpening, MountsAsRead};
ghost use Rattle.object_calls.specs.OpeningFiles.{files_of};
ghost use Rattle.object_calls.specs.Opening.{IsKeyed, bench_files, entries_in};
ghost use Rattle.object_calls.specs.MountRefusals.{BenchCounts, BenchHeard, BenchRefused};
ghost use Rattle.object_calls.specs.Syncing.{SyncsNamed};

use crate::bench::{Bench, FileParts, Halted, put_together, take_apart};
use crate::current_gate::mount_gate;
use crate::file_syncing::sync_named;
use crate::opening::Opening;
use history_seats::HistoryTable;
use hmac_keys::{Keys, ssk};
use rpmb_card::RpmbPort;
use std::alloc::Global;
use store_commit::{GateBroken, MountFault};
use tee_ports::{Entropy, StoreFile};

/// Mounts a store: reads the card's counter and its block 0, each with a nonce that is drawn, syncs and loads the directory, and syncs
/// each file that the directory names. No object is loaded.
///
/// # Errors
///
/// `NoStore` and `CardBlock` by block 0; `OldFormat` of file 0 where block 0 names a directory of the old format, or else of the file of
/// the first entry that names one of the old format; `Directory` where the directory's image is refused; `Frame` and `CardResult` as the host says;
/// `Failed` where a call of a device failed; `NoMemory`. The card is as it was, and each file too, but for the syncs.
pub fn mount<F: StoreFile + Drop, R: RpmbPort + Drop, E: Entropy>(
    alloc: Global,
    bench: Bench<F, R>,
    keys: &Keys,
    entropy: &mut E,
) -> Result<Opening<F, R>, Halted<F, R>>
    requires { vec_len bench.files ≡ file_count }
    ensures gate { IfOk result (λ o. OpensGate (files_of F.state bench.files.items directory_file) (R.state bench.card) keys.now (gate_sides F.state R.state o.gate)) }
    ensures files { IfOk result (λ o. SyncsNamed (entries_in o) 256 (files_of F.state bench.files.items) (bench_files F.state o)) }
    ensures keyed { IfOk result (λ o. IsKeyed keys.now o) }
    ensures mounted { IfOk result (λ o. MountsAsRead F.state (files_of F.state bench.files.items directory_file) (R.state bench.card) keys.now o) }
    ensures opens { IfOk result (λ o. IsWholeOpening F.state R.state o) }
    ensures unopened { IfOk result (λ o. o.applications ≡ []) }
    ensures current { IfOk result (λ o. (o.gate.dir.dir.root.format ≡ current_format) × AreCurrent (entries_in o)) }
    ensures refused { IfErr result (λ h. BenchRefused F.state bench.files.items h.bench.files.items (R.state bench.card) (R.state h.bench.card) keys.now
        (E.faults entropy.old) (E.faults entropy.new) h.fault) }
    // A directory that is refused is none of the old format.
    ensures only { IfErr result (λ h. IsOfCurrentFormat (R.state bench.card) keys.now h.fault) }
    ensures leaves { IfErr result (λ h. LeavesDevices (files_of F.state bench.files.items directory_file) (files_of F.state h.bench.files.items directory_file)
        (R.state bench.card) (R.state h.bench.card)) }
    // A failure is told as one, and not within a fault of the directory.
    ensures told { IfErr result (λ h. TellsFailure h.fault) }
    ensures whole { IfErr result (λ h. vec_len h.bench.files ≡ file_count) }
    // What was heard of the card, whatever it is.
    ensures heard { IfErr result (λ h. BenchHeard (files_of F.state bench.files.items directory_file) (files_of F.state h.bench.files.items directory_file) (R.state bench.card) (R.state h.bench.card) keys.now h.fault) }
    // No count rose where the bench is mounted; of the files of objects `files` says it.
    ensures undrawn { IfOk result (λ o. E.faults entropy.new ≡ E.faults entropy.old) }
    ensures dir_passed { IfOk result (λ o. FilePassed (files_of F.state bench.files.items directory_file) (bench_files F.state o directory_file)) }
    ensures card_passed { IfOk result (λ o. (R.state o.gate.host.port).faults ≡ (R.state bench.card).faults) }
    ensures counts { IfErr result (λ h. BenchCounts (counts (files_of F.state bench.files.items directory_file) (R.state bench.card) (E.faults entropy.old))
        (counts (files_of F.state h.bench.files.items directory_file) (R.state h.bench.card) (E.faults entropy.new)) h.fault) }
    // A calm port stays so and is not accused, nor a generator that never fails.
    ensures calm { IsTrue (R.state bench.card).calm → IfOk result (λ o. IsTrue (R.state o.gate.host.port).calm) }
    ensures calm_err { IsTrue (R.state bench.card).calm → IfErr result (λ h. IsTrue (R.state h.bench.card).calm × RefusalNotOfCard h.fault) }
    ensures drawn { E.is_reliable entropy.old → IfErr result (λ h. RefusalNotDrawn h.fault) }
    ensures reliable { E.is_reliable entropy.old → E.is_reliable entropy.new }
{
    let Ok((table, seat)) = HistoryTable::make(alloc) else {
        let fault = MountFault::NoMemory;
        return Err(Halted { bench, fault });
    };
    let Bench { files, card } = bench;
    let FileParts {
        spare,
        mut objects,
        dir,
    } = take_apart(files);
    let gate = match mount_gate(alloc, dir, card, keys, entropy) {
        Ok(gate) => gate,
        Err(GateBroken { dir, card, fault }) => {
            let files = put_together(spare, objects, dir);
            let bench = Bench { files, card };
            return Err(Halted { bench, fault });
        }
    };
    match sync_named(&mut objects, &gate) {
        Ok(()) => Ok(Opening::new(alloc, gate, objects, spare, ssk(keys), table, seat)),
        Err(cause) => {
            let (dir, card) = gate.close();
            let files = put_together(spare, objects, dir);
            let bench = Bench { files, card };
            let fault = MountFault::Failed(cause);
            Err(Halted { bench, fault })
        }
    }
}
