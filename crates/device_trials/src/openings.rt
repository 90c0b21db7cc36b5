// The tries of a format and of a mount, whose calls come before the ones that a script can arm.

ghost use Rattle.std.specs.Prelude.{◌≡◌, vec_len, IfOk};
ghost use Rattle.tee_types.specs.Limits.{file_count};

use crate::devices::{KeptBench, new_bench};
use crate::tally::Outcome;
use crate::tries::FIRST;
use anyhow::Context;
use std::alloc::Global;
use std::sync::Wait;
use std::thread::Threads;
use tee_ports::ListEntropy;
use trial_runs::{
    Device, Trouble, arm_bench, crash_bench, failing, reliable, run_script, try_script,
};

/// How a store is opened.
#[derive(Clone, Copy, PartialEq, Eq)]
pub enum Opening {
    /// Blank devices are formatted.
    Format,
    /// A store with an object is mounted.
    Mount,
}

/// The object of the store that is mounted: its call, and how a list shows it.
const MADE: &str = "app a 00000000-0000-0000-0000-000000000001\na create 6b rw 05 01\na close 0\n";

const LISTED: &str = "# 00000000-0000-0000-0000-000000000001 6b 1 05 01\n";

/// A run whose phase mounts the store and makes no other call of a device.
const MOUNTS: &str = "app a 00000000-0000-0000-0000-000000000001\na close 0\n";

impl Opening {
    /// Both, in the order of the table.
    pub const ALL: [Opening; 2] = [Opening::Format, Opening::Mount];

    /// The act in words.
    pub fn name(self) -> &'static str {
        match self {
            Opening::Format => "format",
            Opening::Mount => "mount",
        }
    }

    // The script that does it, and nothing else.
    fn script(self) -> &'static str {
        match self {
            Opening::Format => FIRST,
            Opening::Mount => MOUNTS,
        }
    }

    // What a list shows afterwards.
    fn listed(self) -> &'static str {
        match self {
            Opening::Format => "",
            Opening::Mount => LISTED,
        }
    }

    // The devices that are opened.
    fn bench<W: Threads + Wait + Sync>(self, rt: &W, alloc: Global) -> anyhow::Result<KeptBench>
        ensures { IfOk result (λ bench. vec_len bench.files ≡ file_count) }
    {
        let bench = new_bench(alloc)?;
        match self {
            Opening::Format => Ok(bench),
            Opening::Mount => Ok(run_script(rt, alloc, MADE, bench, &mut reliable())?.bench),
        }
    }
}

// The draws of a try.
fn entropy_of(trouble: Trouble) -> ListEntropy {
    match trouble.device {
        Device::Draws => failing(trouble.call.saturating_add(1)),
        _ => reliable(),
    }
}

// The outcome of a try, by whether the store was opened, by what the list shows, and by whether that run had to format the store.
fn outcome_of(opening: Opening, opened: bool, listed: &str, formats: bool) -> Outcome {
    if listed != opening.listed() {
        Outcome::Lost
    } else if !formats {
        Outcome::After
    } else if opening == Opening::Format && !opened {
        Outcome::Before
    } else {
        Outcome::Lost
    }
}

// What the crashed devices hold.
fn outcome_in<W: Threads + Wait + Sync>(
    rt: &W,
    alloc: Global,
    opening: Opening,
    opened: bool,
    bench: KeptBench,
) -> anyhow::Result<Outcome>
    requires { vec_len bench.files ≡ file_count }
{
    let writes = bench.card.writes();
    let ran = run_script(rt, alloc, "list\n", bench, &mut reliable())?;
    let listed = ran.output.strip_prefix("# list\n").context("no list")?;
    let formats = ran.bench.card.writes() != writes;
    Ok(outcome_of(opening, opened, listed, formats))
}

/// Opens a store with that trouble, crashes its files and lists its objects. Says whether it was refused, and what the store holds.
pub fn try_opening<W: Threads + Wait + Sync>(
    rt: &W,
    alloc: Global,
    opening: Opening,
    trouble: Trouble,
    seed: u64,
) -> anyhow::Result<(bool, Outcome)> {
    let mut bench = opening.bench(rt, alloc)?;
    arm_bench(&mut bench, trouble)?;
    let mut entropy = entropy_of(trouble);
    let ran = try_script(rt, alloc, opening.script(), bench, &mut entropy)?;
    let opened = ran.is_done;
    let mut bench = ran.bench;
    crash_bench(&mut bench, seed)?;
    let outcome = outcome_in(rt, alloc, opening, opened, bench)?;
    Ok((!opened, outcome))
}
