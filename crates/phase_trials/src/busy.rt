// A phase on threads in which a device goes wrong, the power cut behind it, and what its history leaves.

use crate::histories::{answers_in, push_done_calls, unconfirmed_call};
use anyhow::Context;
use std::alloc::{AllocError, Global};
use std::sync::Wait;
use std::thread::Threads;
use trial_runs::{Mishap, Trouble, blank_bench, push_arms, reliable, run_script};

/// The sessions, each of an application of its own.
const SESSIONS: &str =
    "app a 00000000-0000-0000-0000-000000000001\napp b 00000000-0000-0000-0000-000000000002\napp c 00000000-0000-0000-0000-000000000003\napp d 00000000-0000-0000-0000-000000000004\n";

/// Their names, and a digit of each for its data.
const NAMES: [(&str, &str); 4] = [("a", "1"), ("b", "2"), ("c", "3"), ("d", "4")];

/// What each of them calls, with its digit for `{n}`. Ten of the calls commit, and each of these changes what a list shows.
const CALLS: [&str; 16] = [
    "create 6b rwm - {n}102",
    "write 0 {n}3{n}4{n}5",
    "create 6c rwm 0a {n}60708",
    "seek 0 0 set",
    "read 0 4",
    "truncate 1 2",
    "rename 0 6d",
    "write 1 {n}90a0b",
    "read 1 8",
    "delete 1",
    "seek 0 0 end",
    "write 0 {n}c",
    "create 6c rw - {n}d0e0f",
    "info 0",
    "write 2 {n}1",
    "read 2 8",
];

/// What a store holds behind a power cut, and what it may hold.
#[derive(Drop)]
pub struct CutStore {
    /// The objects that a list shows behind the cut.
    pub listed: String,
    /// The objects that the calls of the history leave which no device kept from being done.
    pub told: String,
    /// The objects that these leave with the call that the card did not confirm, if there is one.
    pub landed: Option<String>,
    /// The calls of the history have the same replies, made one after another.
    pub agrees: bool,
}

// Pushes the calls of all sessions.
fn push_calls(alloc: Global, script: &mut String) -> Result<(), AllocError> {
    for call in CALLS {
        for (name, digit) in NAMES {
            let call = call.replace(alloc, "{n}", digit)?;
            script.push_str(format!(in alloc; "{name} {call}\n")?.as_str())?;
        }
    }
    Ok(())
}

// The script of a phase on threads with that trouble, and of the power cut behind it.
fn script_of(alloc: Global, trouble: Trouble, seed: u64) -> Result<String, AllocError> {
    let mut script = String::from_str(alloc, SESSIONS)?;
    script.push_str("threads\n")?;
    push_arms(alloc, &mut script, trouble)?;
    push_calls(alloc, &mut script)?;
    script.push_str(format!(in alloc; "crash {seed}\nlist\n")?.as_str())?;
    Ok(script)
}

// The calls of a history that were done, as a serial script, with a last call behind them.
fn replay_of(alloc: Global, history: &str, last: &str) -> Result<String, AllocError> {
    let mut script = String::from_str(alloc, SESSIONS)?;
    push_done_calls(&mut script, history)?;
    script.push_str(last)?;
    script.push_str("\nlist\n")?;
    Ok(script)
}

// What a script puts that is run over new devices, up to its list, and the objects of the list.
fn run_anew<W: Threads + Wait + Sync>(
    rt: &W,
    alloc: Global,
    script: &str,
) -> anyhow::Result<(String, String)> {
    let ran = run_script(rt, alloc, script, blank_bench(alloc)?, &mut reliable())?;
    let (history, listed) = ran.output.split_once("# list\n").context("no list")?;
    let history = String::from_str(alloc, history)?;
    Ok((history, String::from_str(alloc, listed)?))
}

// The call of which nobody knows whether it landed. Where the card missed one exchange alone, it was asked, and there is none.
fn doubted_call(trouble: Trouble, history: &str) -> Option<&str> {
    match trouble.mishap {
        Mishap::Stops => unconfirmed_call(history),
        _ => None,
    }
}

/// Runs a phase on threads with that trouble, crashes the files and lists the objects. Then runs the calls of its history that were done
/// over new devices, one after another in its order, and once more with the call that the card did not confirm.
pub fn cut_store<W: Threads + Wait + Sync>(
    rt: &W,
    alloc: Global,
    trouble: Trouble,
    seed: u64,
) -> anyhow::Result<CutStore> {
    let script = script_of(alloc, trouble, seed)?;
    let (history, listed) = run_anew(rt, alloc, script.as_str())?;
    let replay = replay_of(alloc, history.as_str(), "")?;
    let (again, told) = run_anew(rt, alloc, replay.as_str())?;
    let answers = answers_in(alloc, history.as_str())?;
    let agrees = answers_in(alloc, again.as_str())?.as_str() == answers.as_str();
    let landed = match doubted_call(trouble, history.as_str()) {
        Some(call) => {
            let replay = replay_of(alloc, history.as_str(), call)?;
            let (_again, objects) = run_anew(rt, alloc, replay.as_str())?;
            Some(objects)
        }
        None => None,
    };
    Ok(CutStore {
        listed,
        told,
        landed,
        agrees,
    })
}
