// The tries of an act: runs in which a call of a device goes wrong, or the device stops.

use crate::acts::Act;
use crate::devices::new_bench;
use crate::tally::Outcome;
use crate::texts::Texts;
use anyhow::Context;
use std::alloc::{AllocError, Global};
use std::sync::Wait;
use std::thread::Threads;
use tee_ports::ListEntropy;
use trial_runs::{Device, Mishap, Trouble, failing_sessions, push_arms, reliable, run_script};

/// The application of the lines before an act.
pub const FIRST: &str = "app a 00000000-0000-0000-0000-000000000001\n";

// The applications of an act. That of the calls is the second one, so that its session draws from another stream than before.
const SECOND: &str =
    "app z 00000000-0000-0000-0000-000000000002\napp a 00000000-0000-0000-0000-000000000001\n";

// The lines behind the call that commits.
fn last_lines(alloc: Global, mishap: Mishap, seed: u64) -> Result<String, AllocError> {
    match mishap {
        Mishap::Passes => String::from_str(alloc, "\na info 0\nlist\n"),
        _ => format!(in alloc; "\ncrash {seed}\nlist\n"),
    }
}

// The script of a try.
fn script_of(
    alloc: Global,
    texts: &Texts,
    trouble: Trouble,
    seed: u64,
) -> Result<String, AllocError> {
    let mut script = String::from_str(alloc, SECOND)?;
    push_arms(alloc, &mut script, trouble)?;
    script.push_str(texts.calls.as_str())?;
    script.push_str(last_lines(alloc, trouble.mishap, seed)?.as_str())?;
    Ok(script)
}

// The draws of a try.
fn entropy_of(trouble: Trouble) -> ListEntropy {
    match trouble.device {
        Device::Draws => failing_sessions(trouble.call.saturating_add(1)),
        _ => reliable(),
    }
}

// The outcome of a try, by what was told and by what the list shows.
fn outcome_of(act: &Act, told: Option<bool>, listed: &str) -> Outcome {
    if listed == act.new && told != Some(false) {
        Outcome::After
    } else if listed == act.old && told != Some(true) {
        Outcome::Before
    } else {
        Outcome::Lost
    }
}

/// Runs the lines before the act, then those of the act with that trouble. Says whether a device was missed, and what the store holds.
pub fn try_act<W: Threads + Wait + Sync>(
    rt: &W,
    alloc: Global,
    texts: &Texts,
    trouble: Trouble,
    seed: u64,
) -> anyhow::Result<(bool, Outcome)> {
    let mut before = String::from_str(alloc, FIRST)?;
    before.push_str(texts.before.as_str())?;
    let before = run_script(
        rt,
        alloc,
        before.as_str(),
        new_bench(alloc)?,
        &mut reliable(),
    )?;
    let script = script_of(alloc, texts, trouble, seed)?;
    let mut entropy = entropy_of(trouble);
    let ran = run_script(rt, alloc, script.as_str(), before.bench, &mut entropy)?;
    let (replies, listed) = ran.output.split_once("# list\n").context("no list")?;
    let outcome = outcome_of(&texts.act, texts.told(replies), listed);
    Ok((replies.contains("STORAGE_NOT_AVAILABLE"), outcome))
}
