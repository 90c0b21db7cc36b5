//! The bench that a run begins with.

ghost use Rattle.std.specs.Prelude.{◌≡◌, vec_len, IfErr, IfOk, MatchResult};
ghost use Rattle.tee_types.specs.Limits.{file_count};
ghost use Rattle.store_commit.specs.Counts.{RefusalNotDrawn};
ghost use Rattle.run_acts.specs.Benches.{HasPassed, HadMemory, bench_state};
ghost use Rattle.run_acts.specs.Opens.{FormsBench, IsBlockUnread, IsNotFormed, IsOpenRefused, OpensBench, ReadsBlock, StopsOpening, is_blank};

use crate::memory_failures::{starved_counts, tell_fault};
use hmac_keys::Keys;
use object_calls::{Bench, BlockRead, Halted, card_block, format};
use rpmb_card::RpmbPort;
use std::alloc::Global;
use store_commit::MountFault;
use tee_ports::{Entropy, FileRig};

/// All bytes are zero.
fn is_blank(block: &[u8; 256]) -> bool
    ensures { result ≡ is_blank block.now }
{
    block.iter().all(|byte| *byte == 0)
}

/// Reads block 0 of the card.
fn ask_block<F: FileRig + Drop, R: RpmbPort + Drop, E: Entropy>(
    bench: Bench<F, R>,
    keys: &Keys,
    entropy: &mut E,
) -> Result<BlockRead<F, R>, Halted<F, R>>
    requires { vec_len bench.files ≡ file_count }
    ensures answer { MatchResult result (λ r. ReadsBlock keys.now (bench_state F.state R.state bench) (bench_state F.state R.state r.bench) r.block)
        (λ h. IsBlockUnread keys.now (bench_state F.state R.state bench) (bench_state F.state R.state h.bench) (E.faults entropy.old) (E.faults entropy.new) h.fault) }
    ensures undrawn { IfOk result (λ r. E.faults entropy.new ≡ E.faults entropy.old) }
    ensures whole { IfOk result (λ r. vec_len r.bench.files ≡ file_count) }
    ensures whole_err { IfErr result (λ h. vec_len h.bench.files ≡ file_count) }
    ensures drawn { E.is_reliable entropy.old → IfErr result (λ h. RefusalNotDrawn h.fault) }
    ensures reliable { E.is_reliable entropy.old → E.is_reliable entropy.new }
{
    match card_block(bench, keys, entropy) {
        Ok(read) => Ok(read),
        Err(halted) => Err(halted),
    }
}

/// Formats the bench.
fn form_bench<F: FileRig + Drop, R: RpmbPort + Drop, E: Entropy>(
    alloc: Global,
    bench: Bench<F, R>,
    keys: &Keys,
    entropy: &mut E,
) -> Result<Bench<F, R>, Halted<F, R>>
    requires { vec_len bench.files ≡ file_count }
    ensures answer { MatchResult result (λ b. FormsBench keys.now (bench_state F.state R.state bench) (bench_state F.state R.state b))
        (λ h. IsNotFormed keys.now (bench_state F.state R.state bench) (bench_state F.state R.state h.bench) (E.faults entropy.old) (E.faults entropy.new) h.fault) }
    ensures undrawn { IfOk result (λ b. E.faults entropy.new ≡ E.faults entropy.old) }
    ensures whole { IfOk result (λ b. vec_len b.files ≡ file_count) }
    ensures whole_err { IfErr result (λ h. vec_len h.bench.files ≡ file_count) }
    ensures drawn { E.is_reliable entropy.old → IfErr result (λ h. RefusalNotDrawn h.fault) }
    ensures reliable { E.is_reliable entropy.old → E.is_reliable entropy.new }
{
    match format(alloc, bench, keys, entropy) {
        Ok(bench) => Ok(bench),
        Err(halted) => Err(halted),
    }
}

/// Reads block 0 of the card, and formats the bench where that is all zero.
fn open_or_form<F: FileRig + Drop, R: RpmbPort + Drop, E: Entropy>(
    alloc: Global,
    bench: Bench<F, R>,
    keys: &Keys,
    entropy: &mut E,
) -> Result<Bench<F, R>, Halted<F, R>>
    requires { vec_len bench.files ≡ file_count }
    ensures answer { MatchResult result (λ b. OpensBench keys.now (bench_state F.state R.state bench) (bench_state F.state R.state b))
        (λ h. StopsOpening keys.now (bench_state F.state R.state bench) (bench_state F.state R.state h.bench) (E.faults entropy.old) (E.faults entropy.new) h.fault) }
    ensures undrawn { IfOk result (λ b. E.faults entropy.new ≡ E.faults entropy.old) }
    ensures whole { IfOk result (λ b. vec_len b.files ≡ file_count) }
    ensures whole_err { IfErr result (λ h. vec_len h.bench.files ≡ file_count) }
    ensures drawn { E.is_reliable entropy.old → IfErr result (λ h. RefusalNotDrawn h.fault) }
    ensures reliable { E.is_reliable entropy.old → E.is_reliable entropy.new }
{
    match ask_block(bench, keys, entropy) {
        Ok(read) => {
            let BlockRead { bench, block } = read;
            if !is_blank(&block) {
                return Ok(bench);
            }
            form_bench(alloc, bench, keys, entropy)
        }
        Err(halted) => Err(halted),
    }
}

/// Opens the bench of a run: reads block 0 of the card, and formats the store where that is all zero.
///
/// # Errors
///
/// As the read of the block and the format say. `NoMemory`, too, where a call of a file found no memory.
pub fn open_bench<F: FileRig + Drop, R: RpmbPort + Drop, E: Entropy>(
    alloc: Global,
    bench: Bench<F, R>,
    keys: &Keys,
    entropy: &mut E,
) -> Result<Bench<F, R>, Halted<F, R>>
    requires { vec_len bench.files ≡ file_count }
    ensures opens { IfOk result (λ b. OpensBench keys.now (bench_state F.state R.state bench) (bench_state F.state R.state b)) }
    ensures passed { IfOk result (λ b. HasPassed (bench_state F.state R.state bench) (bench_state F.state R.state b)) }
    ensures with_memory { IfOk result (λ b. HadMemory (bench_state F.state R.state bench) (bench_state F.state R.state b)) }
    ensures undrawn { IfOk result (λ b. E.faults entropy.new ≡ E.faults entropy.old) }
    ensures refused { IfErr result (λ h. IsOpenRefused keys.now (bench_state F.state R.state bench) (bench_state F.state R.state h.bench)
        (E.faults entropy.old) (E.faults entropy.new) h.fault) }
    ensures whole { IfOk result (λ b. vec_len b.files ≡ file_count) }
    ensures whole_err { IfErr result (λ h. vec_len h.bench.files ≡ file_count) }
    ensures drawn { E.is_reliable entropy.old → IfErr result (λ h. RefusalNotDrawn h.fault) }
    ensures reliable { E.is_reliable entropy.old → E.is_reliable entropy.new }
{
    let Ok(before) = starved_counts(alloc, &bench.files) else {
        let fault = MountFault::NoMemory;
        return Err(Halted { bench, fault });
    };
    match open_or_form(alloc, bench, keys, entropy) {
        Ok(bench) => Ok(bench),
        Err(halted) => Err(tell_fault(halted, &before)),
    }
}
