//! `dump`: what stands in the card and in the directory, and which blocks are good.

use crate::amounts::Amount;
use crate::faults::Fault;
use crate::findings::{Finding, finding_of, line_of};
use crate::names::Name;
use crate::stores::inspect;
use crate::words::Place;
use dir_records::DirEntry;
use kept_store::Report;
use std::alloc::{AllocError, Global};
use std::io;
use uuid::Uuid;

// Writes what the card says.
fn write_card(rt: &HostRuntime, report: &Report) -> io::Result<()> {
    let counter = report.counter;
    let version = report.root.version;
    let format = report.root.format;
    println!(rt; "card: write counter {counter}")?;
    println!(rt; "directory: version {version}, format {format}")
}

// Writes which blocks of an object are good, by its line.
fn write_blocks(rt: &HostRuntime, line: &str) -> io::Result<()> {
    match finding_of(line) {
        Finding::Whole => println!(rt; "    each block is good"),
        Finding::Damaged => println!(rt; "    damaged: not the tree that the directory names"),
        Finding::BadBlocks => {
            print!(rt; "    bad blocks:")?;
            for number in line.split(' ').skip(5) {
                print!(rt; " {number}")?;
            }
            println!(rt)
        }
    }
}

// The line of an object, among those of an audit.
fn own_line<'a>(
    alloc: Global,
    lines: &'a str,
    entry: &DirEntry,
) -> Result<Option<&'a str>, AllocError> {
    let uuid = Uuid::from_bytes(entry.app.bytes());
    let app = format!(in alloc; "{uuid}")?;
    let id = hex::encode(alloc, entry.id.bytes())?;
    Ok(line_of(lines, app.as_str(), id.as_str()))
}

// Writes what the directory says of an object.
fn write_entry(rt: &HostRuntime, entry: &DirEntry) -> io::Result<()> {
    let app = Uuid::from_bytes(entry.app.bytes());
    let name = Name { id: entry.id };
    let size = Amount {
        bytes: u64::from(entry.size),
    };
    let file = entry.file;
    let version = entry.version;
    let format = entry.format;
    let generation = entry.generation;
    println!(rt; "object {name} of {app}")?;
    println!(rt;
        "    {size} in {file:03}.bin, version {version}, format {format}, generation {generation}"
    )
}

// Writes what there is of an object.
fn write_object(rt: &HostRuntime, entry: &DirEntry, lines: &str) -> Result<(), Fault> {
    write_entry(rt, entry).map_err(Fault::Output)?;
    match own_line(rt.alloc(), lines, entry)? {
        Some(line) => write_blocks(rt, line).map_err(Fault::Output),
        None => Ok(()),
    }
}

// Writes a report.
fn write_report(rt: &HostRuntime, report: &Report) -> Result<(), Fault> {
    write_card(rt, report).map_err(Fault::Output)?;
    let lines = str::from_utf8(report.lines.as_slice()).unwrap_or("");
    for entry in report.entries.as_slice() {
        if let Some(entry) = entry {
            write_object(rt, entry, lines)?;
        }
    }
    Ok(())
}

/// Writes what stands in the card and in the directory, of all applications, and which blocks are good. Nothing is changed.
///
/// # Errors
///
/// The audit ended early.
pub fn dump(rt: &HostRuntime, place: &Place) -> Result<(), Fault> {
    let report = inspect(rt, place)?;
    write_report(rt, &report)?;
    let Report { end, .. } = report;
    match end {
        Err(fault) => Err(Fault::Audit(fault)),
        Ok(()) => Ok(()),
    }
}
