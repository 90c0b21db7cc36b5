// Scripts of sessions on threads that meet at the same objects, and their histories once more, one call after another.

use crate::histories::{call_in, push_done_calls};
use crate::machine::Machine;
use anyhow::{Context, bail};
use script_text::{Script, parse};
use seed_words::SeedEntropy;
use std::alloc::{AllocError, Global};
use std::sync::Wait;
use std::thread::Threads;
use tee_ports::Entropy;
use trial_runs::{blank_bench, reliable, run_script};

/// How many scripts are run.
const SCRIPTS: u8 = 200;

/// How many calls each of them has.
const CALLS_OF_SCRIPT: u64 = 60;

/// More bytes than a script here has.
const MOST_BYTES: usize = 1 << 20;

/// Two sessions of each of two applications.
const SESSIONS: &str =
    "app a 00000000-0000-0000-0000-000000000001\napp b 00000000-0000-0000-0000-000000000001\napp c 00000000-0000-0000-0000-000000000002\napp d 00000000-0000-0000-0000-000000000002\n";

/// Their names.
const NAMES: [&str; 4] = ["a", "b", "c", "d"];

/// What they call.
const CALLS: [&str; 16] = [
    "create 6b rwRW - 0102",
    "create 6c rwmRW 0a 030405",
    "create 6b rwoRW - 06",
    "open 6b rwRW",
    "open 6b rRW",
    "open 6c rwmRW",
    "open 6c rwRW",
    "read 0 4",
    "read 1 4",
    "write 0 a1a2a3",
    "write 1 b1",
    "truncate 0 5000",
    "seek 0 0 set",
    "rename 0 6d",
    "delete 0",
    "close 1",
];

// The script of that number: its calls are drawn.
fn script_of(alloc: Global, number: u8) -> Result<String, AllocError> {
    let mut words = SeedEntropy::from_seed(&[number; 32]);
    let mut drawn = [0; 16];
    let mut script = String::from_str(alloc, SESSIONS)?;
    script.push_str("threads\n")?;
    for _ in 0..CALLS_OF_SCRIPT {
        let _ = words.draw(&mut drawn);
        let name = NAMES[usize::from(drawn[0] % 4)];
        let call = CALLS[usize::from(drawn[1] % 16)];
        script.push_str(format!(in alloc; "{name} {call}\n")?.as_str())?;
    }
    script.push_str("list\n")?;
    Ok(script)
}

// The calls of a history in its order, as a serial script.
fn replay_of(alloc: Global, history: &str) -> Result<String, AllocError> {
    let mut script = String::from_str(alloc, SESSIONS)?;
    push_done_calls(&mut script, history)?;
    script.push_str("list\n")?;
    Ok(script)
}

// What stands below the line of the first phase.
fn history_in(output: &str) -> anyhow::Result<&str> {
    let (_, history) = output.split_once(" objects 0\n").context("no phase")?;
    Ok(history)
}

// What a script puts that is run over new devices.
fn output_of<W: Threads + Wait + Sync>(
    rt: &W,
    alloc: Global,
    script: &str,
) -> anyhow::Result<String> {
    let ran = run_script(rt, alloc, script, blank_bench(alloc)?, &mut reliable())?;
    Ok(ran.output)
}

// How many calls a history has.
fn calls_in(history: &str) -> u64 {
    history.lines().fold(
        0u64,
        |calls, line| calls.saturating_add(u64::from(call_in(line).is_some())),
    )
}

/// What became of the scripts so far.
#[derive(Drop)]
struct Replays {
    calls: u64,
    /// How many histories are not those of their calls on a store.
    differ: u64,
    /// How many are not those of their calls on the machine.
    apart: u64,
}

// The script that a text is.
fn script_in(alloc: Global, text: &str) -> anyhow::Result<Script> {
    if text.len() > MOST_BYTES {
        bail!("too long a script");
    }
    parse(alloc, text.as_bytes()).ok().context("no script")
}

// Runs a script on threads, and the calls of its history once more, one after another in its order, on a store and on the machine of the
// model: they must have the same replies, and leave the same objects.
fn replay<W: Threads + Wait + Sync>(
    rt: &W,
    alloc: Global,
    number: u8,
    replays: &mut Replays,
) -> anyhow::Result<()> {
    let script = script_of(alloc, number)?;
    let ran = output_of(rt, alloc, script.as_str())?;
    let history = history_in(ran.as_str())?;
    let replay = replay_of(alloc, history)?;
    let again = output_of(rt, alloc, replay.as_str())?;
    replays.calls = replays.calls.saturating_add(calls_in(history));
    if history_in(again.as_str())? != history {
        replays.differ = replays.differ.saturating_add(1);
    }
    let script = script_in(alloc, replay.as_str())?;
    if Machine::print(alloc, &script)?.as_slice() != history.as_bytes() {
        replays.apart = replays.apart.saturating_add(1);
    }
    Ok(())
}

/// The line that says how many scripts were run on threads, how many calls their histories have, and how many of these are not those of their
/// calls one after another, on a store and on the machine of the model.
pub fn replay_line<W: Threads + Wait + Sync>(rt: &W, alloc: Global) -> anyhow::Result<String> {
    let mut replays = Replays {
        calls: 0,
        differ: 0,
        apart: 0,
    };
    for number in 0..SCRIPTS {
        replay(rt, alloc, number, &mut replays)?;
    }
    Ok(format!(in alloc;
        "{SCRIPTS} scripts on threads, {} calls, {} differ from their replay, {} from the machine's",
        replays.calls, replays.differ, replays.apart
    )?)
}
