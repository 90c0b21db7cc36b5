// Audits of a folder of files in memory.

use crate::alterations::Case;
use crate::exports::{Exported, MADE, export_made, fail_first, run_form};
use anyhow::Context;
use mem_files::MemFile;
use std::alloc::{AllocError, Global};
use std::sync::Wait;
use std::thread::Threads;
use trial_runs::{FileFault, FilePlace, Status, reliable, status_number};

/// What an audit of an exported folder says once a file of it is altered.
pub fn audit_lines<W: Threads + Wait + Sync>(
    rt: &W,
    alloc: Global,
    case: Case,
    other: &[MemFile],
) -> anyhow::Result<String> {
    let Exported { bench, mut folder } = export_made(rt, alloc, MADE)?;
    case.make(&mut folder, other)?;
    let ended = run_form(rt, alloc, "audit", "", bench, &mut reliable(), &mut folder)?;
    let lines: Result<String, AllocError> = format!(in alloc;
        "file {} {}: status {}\n{}",
        case.number,
        case.alteration.name(),
        status_number(&ended.status),
        ended.output.as_str()
    );
    lines.context("no memory")
}

// The files of the folder that fail, one after another: the first object's, the directory's, and that of the card's block.
const PLACES: [u16; 3] = [1, 273, 274];

// Whether an audit tells of the file that fails at its first call.
fn tells<W: Threads + Wait + Sync>(rt: &W, alloc: Global, number: u16) -> anyhow::Result<bool> {
    let Exported { bench, mut folder } = export_made(rt, alloc, MADE)?;
    fail_first(&mut folder, number)?;
    let ended = run_form(rt, alloc, "audit", "", bench, &mut reliable(), &mut folder)?;
    let place = FilePlace::Folder(number);
    Ok(ended.status == Status::FileFault(FileFault { place, count: 1 }))
}

/// The line of audits with a file that fails.
pub fn untold_line<W: Threads + Wait + Sync>(rt: &W, alloc: Global) -> anyhow::Result<String> {
    let mut missed = 0u64;
    for number in PLACES {
        if !tells(rt, alloc, number)? {
            missed = missed.saturating_add(1);
        }
    }
    let line: Result<String, AllocError> = format!(in alloc;
        "{} audits with a file that fails, {missed} do not tell it",
        PLACES.len()
    );
    line.context("no memory")
}
