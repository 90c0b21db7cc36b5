// The run of a row, beside what it must do.

use crate::rows::bench::bench_for;
use crate::rows::ends::status_text;
use crate::rows::row::Row;
use seed_words::SeedEntropy;
use std::alloc::{AllocError, Global};
use std::sync::Wait;
use std::thread::Threads;
use tee_ports::{MemSink, MemSource};
use trial_runs::{RunEnd, SimBench, Status, new_folder, run, simulator_keys};

/// How a row's run ended: its status, what it put, and the bench that it left.
#[derive(Drop)]
pub struct Ran {
    status: Status,
    put: Vec<u8>,
    /// The bench.
    pub bench: SimBench,
}

/// Runs the script of a row, over a new bench or over the one that the row before left.
pub fn run_row<W: Threads + Wait + Sync>(
    rt: &W,
    alloc: Global,
    row: &Row,
    before: Option<SimBench>,
) -> anyhow::Result<Ran> {
    let bench = bench_for(alloc, &row.settings, before)?;
    let mut script = row.script.to_vec(alloc)?;
    if script.len() < row.settings.length {
        script.resize(row.settings.length, b'\n')?;
    }
    let mut source = MemSource::new(alloc, &script, &[row.settings.failing])?;
    let mut sink = MemSink::new(alloc, row.settings.room, &[])?;
    let mut entropy = SeedEntropy::from_seed(&[0; 32]);
    let mut folder = new_folder(alloc)?;
    let RunEnd { status, bench } = run(
        rt,
        alloc,
        &row.settings.words,
        &mut source,
        &mut sink,
        bench,
        &simulator_keys(),
        &mut entropy,
        &mut folder,
    );
    Ok(Ran {
        status,
        put: sink.bytes().to_vec(alloc)?,
        bench,
    })
}

/// What differs in the run of the row, or none.
pub fn difference(alloc: Global, row: &Row, ran: &Ran) -> Result<Option<String>, AllocError> {
    let status = status_text(alloc, &ran.status)?;
    if status != row.status {
        let text = format!(in alloc; "{} in place of {}", status.as_str(), row.status.as_str())?;
        return Ok(Some(text));
    }
    if ran.put == row.output {
        return Ok(None);
    }
    Ok(Some(other_line(alloc, text_of(&row.output), text_of(&ran.put))?))
}

fn text_of(bytes: &[u8]) -> &str {
    str::from_utf8(bytes).unwrap_or("no text")
}

// The first line in which two texts differ.
fn other_line(alloc: Global, wanted: &str, found: &str) -> Result<String, AllocError> {
    let same = wanted
        .lines()
        .zip(found.lines())
        .take_while(|(one, other)| one == other)
        .count();
    let want = wanted.lines().nth(same).unwrap_or("no line");
    let line = found.lines().nth(same).unwrap_or("no line");
    format!(in alloc;
        "line {} is '{line}' in place of '{want}'",
        same.saturating_add(1)
    )
}
