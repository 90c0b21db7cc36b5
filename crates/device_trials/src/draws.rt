// What is drawn in two runs over equal devices, with equal entropy.

use crate::devices::new_bench;
use crate::facts::{Facts, facts_of};
use anyhow::Context;
use std::alloc::{AllocError, Global};
use std::sync::Wait;
use std::thread::Threads;
use trial_runs::{reliable, run_script};

/// The script of the first run.
const MADE: &str = "app a 00000000-0000-0000-0000-000000000001\na create 6b rw - 01\n";

/// The script of the second run.
const WRITTEN: &str =
    "app a 00000000-0000-0000-0000-000000000001\na create 6b rw - 01\na write 0 ff\n";

// What is drawn in the run of a script.
fn drawn_by<W: Threads + Wait + Sync>(
    rt: &W,
    alloc: Global,
    script: &str,
) -> anyhow::Result<Facts> {
    let ran = run_script(rt, alloc, script, new_bench(alloc)?, &mut reliable())?;
    facts_of(alloc, ran.bench)
}

// How many different values there are.
fn different(values: &[[u8; 16]]) -> usize {
    values
        .iter()
        .enumerate()
        .filter(|(place, value)| !values.iter().take(*place).any(|before| before == *value))
        .count()
}

// The line that says how many values there are, and how many different ones.
fn push_line(
    alloc: Global,
    text: &mut String,
    what: &str,
    values: &[[u8; 16]],
) -> Result<(), AllocError> {
    let (drawn, different) = (values.len(), different(values));
    let line = format!(in alloc; "{what}: {drawn} drawn, {different} different\n")?;
    text.push_str(line.as_str())
}

// The line that says how many nodes there are.
fn push_nodes(alloc: Global, text: &mut String, facts: &Facts) -> Result<(), AllocError> {
    let (directory, object) = (facts.directory.len(), facts.object.len());
    let line = format!(in alloc;
        "  nodes: {directory} of the directory, {object} of the object\n"
    )?;
    text.push_str(line.as_str())
}

// The lines of one run.
fn push_facts(
    alloc: Global,
    text: &mut String,
    name: &str,
    facts: &Facts,
) -> Result<(), AllocError> {
    text.push_str(name)?;
    push_line(alloc, text, "  file keys", &facts.keys)?;
    push_nodes(alloc, text, facts)?;
    let mut vectors = facts.directory.to_vec(alloc)?;
    vectors.extend_from_slice(&facts.object)?;
    push_line(alloc, text, "  vectors", &vectors)?;
    push_line(alloc, text, "  nonces", &facts.nonces)
}

/// The lines of both runs.
pub fn draw_lines<W: Threads + Wait + Sync>(rt: &W, alloc: Global) -> anyhow::Result<String> {
    let made = drawn_by(rt, alloc, MADE)?;
    let written = drawn_by(rt, alloc, WRITTEN)?;
    let mut text = String::new(alloc);
    push_facts(alloc, &mut text, "an object is made\n", &made)?;
    push_facts(
        alloc,
        &mut text,
        "an object is made and written\n",
        &written,
    )?;
    let first = *made.object.get(1).context("no data block")?;
    let second = *written.object.get(1).context("no data block")?;
    push_line(
        alloc,
        &mut text,
        "vectors of data block 1 in both",
        &[first, second],
    )?;
    Ok(text)
}
