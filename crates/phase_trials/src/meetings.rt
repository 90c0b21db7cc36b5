// Two applications whose files wait for each other: both calls have to be under way at once.

ghost use Rattle.std.specs.Prelude.{◌≡◌, vec_len, IfOk};
ghost use Rattle.tee_types.specs.Limits.{file_count};

use crate::meeting_file::{Meeting, MeetingFile};
use anyhow::bail;
use std::alloc::{AllocError, Global};
use std::sync::{Arc, Wait};
use std::thread::Threads;
use tee_types::BENCH_FILES;
use trial_runs::{Bench, CardPort, blank_bench, reliable, run_script};

/// Files that may wait, and a card.
type MeetingBench = Bench<MeetingFile, CardPort>;

/// Each application makes an object, in files 1 and 2.
const FIRST: &str =
    "app a 00000000-0000-0000-0000-000000000001\napp b 00000000-0000-0000-0000-000000000002\na create 6b r - 0a\nb create 6b r - 0b\n";

/// Each opens and reads its own, on a thread of its own.
const SECOND: &str =
    "app a 00000000-0000-0000-0000-000000000001\napp b 00000000-0000-0000-0000-000000000002\nthreads\na open 6b r\na read 0 4\nb open 6b r\nb read 0 4\n";

/// The files of the two objects.
const FILES_THAT_MEET: [usize; 2] = [1, 2];

// Devices that were never used, whose files wait for nobody.
fn new_bench(alloc: Global) -> Result<MeetingBench, AllocError> {
    let Bench { files, card } = blank_bench(alloc)?;
    let mut waiting = Vec::with_capacity(alloc, files.len())?;
    for file in files {
        waiting.push(MeetingFile::new(file))?;
    }
    Ok(Bench {
        files: waiting,
        card,
    })
}

// The bench, which has all its files.
fn whole(bench: MeetingBench) -> anyhow::Result<MeetingBench>
    ensures { IfOk result (λ bench. vec_len bench.files ≡ file_count) }
{
    if bench.files.len() == BENCH_FILES {
        Ok(bench)
    } else {
        bail!("a bench without all its files")
    }
}

// Has the next read of each of the two files wait for that of the other.
fn arrange(bench: &mut MeetingBench, meeting: &Arc<Meeting, Global>) -> Result<(), AllocError> {
    for number in FILES_THAT_MEET {
        if let Some(file) = bench.files.get_mut(number) {
            file.wait_at(Arc::try_clone(meeting)?);
        }
    }
    Ok(())
}

/// The line that says how many of two files were read while the other one was: both, where two calls are served at the same time. One lock
/// round everything, or a thread for all calls, has none.
pub fn meeting_line<W: Threads + Wait + Sync>(rt: &W, alloc: Global) -> anyhow::Result<String> {
    let first = run_script(rt, alloc, FIRST, whole(new_bench(alloc)?)?, &mut reliable())?;
    let mut bench = first.bench;
    let meeting = Arc::new(alloc, Meeting::new())?;
    arrange(&mut bench, &meeting)?;
    let second = run_script(rt, alloc, SECOND, whole(bench)?, &mut reliable())?;
    let read = second
        .output
        .lines()
        .filter(|line| line.contains(" read 0 4 -> ok "))
        .count();
    Ok(format!(in alloc;
        "two files that wait for each other: {} met, {read} read",
        meeting.met()
    )?)
}
