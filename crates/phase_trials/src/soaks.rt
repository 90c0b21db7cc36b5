// Soaks, run twice, and their calls on the machine of the model.

use crate::machine::Machine;
use seed_words::soak_script;
use sha2::{Digest, Sha256};
use std::alloc::Global;
use std::sync::Wait;
use std::thread::Threads;
use trial_runs::{blank_bench, reliable, run_words};

/// The numbers of the soaks.
const NUMBERS: [u32; 4] = [0, 1, 2, u32::MAX];

/// What became of the soaks so far.
#[derive(Drop)]
struct Soaks {
    /// How many told something else when they were run again.
    differ: u64,
    /// How many left other objects than their calls leave on the machine.
    apart: u64,
}

// What the soak of that number tells, over devices that were never used.
fn told<W: Threads + Wait + Sync>(rt: &W, alloc: Global, number: u32) -> anyhow::Result<String> {
    let words = vec![in alloc;
        String::from_str(alloc, "soak")?,
        format!(in alloc; "{number}")?,
    ]?;
    let ran = run_words(rt, alloc, &words, "", blank_bench(alloc)?, &mut reliable())?;
    Ok(ran.output)
}

// How many lines a text has.
fn line_count(text: &[u8]) -> usize {
    text.iter().filter(|byte| **byte == b'\n').count()
}

// The end of what a soak tells: how many objects its calls leave on the machine, and the digest of their lines.
fn machine_told(alloc: Global, number: u32) -> anyhow::Result<String> {
    let script = soak_script(alloc, number)?;
    let mut machine = Machine::run(alloc, &script)?;
    let lines = machine.lines(alloc, script.applications())?;
    let digest = hex::encode(alloc, Sha256::digest(&lines))?;
    Ok(format!(in alloc;
        " objects {}\ndigest {}\n",
        line_count(&lines),
        digest.as_str()
    )?)
}

// Runs a soak twice, and on the machine.
fn soak<W: Threads + Wait + Sync>(
    rt: &W,
    alloc: Global,
    number: u32,
    soaks: &mut Soaks,
) -> anyhow::Result<()> {
    let first = told(rt, alloc, number)?;
    let again = told(rt, alloc, number)?;
    if first != again {
        soaks.differ = soaks.differ.saturating_add(1);
    }
    if !first.ends_with(machine_told(alloc, number)?.as_str()) {
        soaks.apart = soaks.apart.saturating_add(1);
    }
    Ok(())
}

/// The line that says how many soaks were run twice, how many told something else the second time, and how many left other objects than
/// their calls leave on the machine, one after another.
pub fn soak_line<W: Threads + Wait + Sync>(rt: &W, alloc: Global) -> anyhow::Result<String> {
    let mut soaks = Soaks {
        differ: 0,
        apart: 0,
    };
    for number in NUMBERS {
        soak(rt, alloc, number, &mut soaks)?;
    }
    Ok(format!(in alloc;
        "{} soaks, {} differ when run again, {} leave other objects than the machine",
        NUMBERS.len(),
        soaks.differ,
        soaks.apart
    )?)
}
