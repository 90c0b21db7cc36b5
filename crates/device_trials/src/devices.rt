// The devices of the runs.

ghost use Rattle.std.specs.Prelude.{◌≡◌, vec_len, IfOk};
ghost use Rattle.tee_types.specs.Limits.{file_count};

use crate::kept_port::KeptPort;
use mem_files::MemFile;
use std::alloc::{AllocError, Global};
use trial_runs::{Bench, blank_bench};

/// Files in memory, and a card that keeps its frames.
pub type KeptBench = Bench<MemFile, KeptPort>;

/// Devices that were never used.
pub fn new_bench(alloc: Global) -> Result<KeptBench, AllocError>
    ensures { IfOk result (λ bench. vec_len bench.files ≡ file_count) }
{
    let Bench { files, card } = blank_bench(alloc)?;
    Ok(Bench {
        files,
        card: KeptPort::new(alloc, card),
    })
}
