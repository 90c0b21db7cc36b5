//! Running a script, and exporting the bench that it leaves into a folder.

ghost use Rattle.std.specs.Prelude.{◌≡◌, ◌⊎◌, ◌≤◌, IfErr, IfOk, length, vec_len, MatchResult};
ghost use Rattle.tee_ports.specs.Faults.{Rose};
ghost use Rattle.tee_types.specs.Limits.{file_count};
ghost use Rattle.run_acts.specs.OpeningFiles.{files_of};
ghost use Rattle.folder_export.specs.Folders.{folder_count};
ghost use Rattle.run_acts.specs.Benches.{bench_state};
ghost use Rattle.run_acts.specs.Opens.{IsBlockUnread, ReadsBlock};
ghost use Rattle.script_runner.specs.Exports.{CopiesFiles, ExportsBench, RunsExport};

use crate::Status;
use crate::mount_refusal::print_mount_refusal;
use crate::run_state::RunEnd;
use crate::source_run::run_source;
use folder_export::export_files;
use hmac_keys::Keys;
use rpmb_card::CardRig;
use run_acts::{Bench, BlockRead, Halted, card_block, had_memory, starved_counts};
use std::alloc::Global;
use std::sync::Wait;
use std::thread::Threads;
use tee_ports::{Entropy, FileRig, Sink, Source, StoreFile};

/// Copies the files of a bench and its card's block 0 into a folder, and says how that ends.
fn copy_files<F: FileRig, G: StoreFile>(
    alloc: Global,
    files: &mut [F],
    block: &[u8; 256],
    folder: &mut [G],
) -> Status
    requires files { length files.old ≡ file_count }
    requires folder { length folder.old ≡ folder_count }
    ensures { CopiesFiles (files_of F.state files.old) (files_of F.state files.new) (files_of G.state folder.old) (files_of G.state folder.new) block.now result }
{
    let Ok(before) = starved_counts(alloc, files) else {
        return Status::NoMemory;
    };
    match export_files(files, block, folder) {
        Ok(()) => Status::Done,
        Err(fault) => {
            if had_memory(files, &before) {
                Status::FileFault(fault)
            } else {
                Status::NoMemory
            }
        }
    }
}

/// Reads block 0 of the card. No file is called.
fn ask_block<F: FileRig + Drop, R: CardRig + Drop, E: Entropy>(
    bench: Bench<F, R>,
    keys: &Keys,
    entropy: &mut E,
) -> Result<BlockRead<F, R>, Halted<F, R>>
    requires { vec_len bench.files ≡ file_count }
    ensures answer { MatchResult result (λ r. ReadsBlock keys.now (bench_state F.state R.state bench) (bench_state F.state R.state r.bench) r.block)
        (λ h. IsBlockUnread keys.now (bench_state F.state R.state bench) (bench_state F.state R.state h.bench) (E.faults entropy.old) (E.faults entropy.new) h.fault) }
    ensures undrawn { IfOk result (λ r. E.faults entropy.new ≡ E.faults entropy.old) }
    ensures whole { IfOk result (λ r. vec_len r.bench.files ≡ file_count) }
    ensures whole_err { IfErr result (λ h. vec_len h.bench.files ≡ file_count) }
{
    match card_block(bench, keys, entropy) {
        Ok(read) => Ok(read),
        Err(halted) => Err(halted),
    }
}

/// Exports a bench: reads block 0 of the card, and copies that and the files into a folder.
fn export_bench<K: Sink, F: FileRig + Drop, R: CardRig + Drop, E: Entropy, G: StoreFile>(
    alloc: Global,
    sink: &mut K,
    bench: Bench<F, R>,
    keys: &Keys,
    entropy: &mut E,
    folder: &mut [G],
) -> RunEnd<F, R>
    requires files { vec_len bench.files ≡ file_count }
    requires folder { length folder.old ≡ folder_count }
    ensures exports { ExportsBench keys.now (E.faults entropy.old) (E.faults entropy.new) (bench_state F.state R.state bench) (bench_state F.state R.state result.bench)
        (files_of G.state folder.old) (files_of G.state folder.new) (Rose (K.faults sink.old) (K.faults sink.new) ⊎ K.is_full sink.new) (K.held sink.old) (K.held sink.new) result.status }
    ensures counted { K.faults sink.old ≤ K.faults sink.new }
    ensures whole { vec_len result.bench.files ≡ file_count }
{
    match ask_block(bench, keys, entropy) {
        Ok(read) => {
            let BlockRead { bench, block } = read;
            let Bench { mut files, card } = bench;
            let status = copy_files(alloc, &mut files, &block, folder);
            let bench = Bench { files, card };
            RunEnd { status, bench }
        }
        Err(Halted { bench, fault }) => {
            let status = print_mount_refusal(fault, sink, Vec::new(alloc));
            RunEnd { status, bench }
        }
    }
}

/// Reads a script, runs it and writes its text, and where that is done, exports the bench that it left.
pub(crate) fn run_export<
    W: Threads + Wait + Sync,
    S: Source,
    K: Sink,
    F: FileRig + Drop + Send,
    R: CardRig + Drop + Send,
    E: Entropy + Drop + Send,
    G: StoreFile,
>(
    rt: &W,
    alloc: Global,
    source: &mut S,
    sink: &mut K,
    bench: Bench<F, R>,
    keys: &Keys,
    entropy: &mut E,
    folder: &mut [G],
) -> RunEnd<F, R>
    requires files { vec_len bench.files ≡ file_count }
    requires folder { length folder.old ≡ folder_count }
    ensures export { RunsExport F.state R.state F.crash_image (E.is_reliable entropy.old) (S.left source.old) (S.left source.new) (K.held sink.old) (K.held sink.new) (record {
      source_failed = Rose (S.faults source.old) (S.faults source.new);
      source_ended = S.has_ended source.new;
      sink_failed = Rose (K.faults sink.old) (K.faults sink.new);
      sink_full = K.is_full sink.new;
    }) (E.faults entropy.old) (E.faults entropy.new) keys.now (bench_state F.state R.state bench) (bench_state F.state R.state result.bench)
        (files_of G.state folder.old) (files_of G.state folder.new) result.status }
    ensures whole { vec_len result.bench.files ≡ file_count }
{
    let RunEnd { status, bench } = run_source(rt, alloc, source, sink, bench, keys, entropy);
    match status {
        Status::Done => export_bench(alloc, sink, bench, keys, entropy, folder),
        status => RunEnd { status, bench },
    }
}
