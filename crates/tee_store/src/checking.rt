//! `check`: whether each object of a store is whole.

use crate::faults::Fault;
use crate::findings::{Finding, finding_of};
use crate::stores::inspect;
use crate::words::Place;
use kept_store::Report;
use std::io;

// How many objects were found so.
#[derive(Clone, Copy)]
struct Counts {
    whole: u64,
    bad_blocks: u64,
    damaged: u64,
}

impl Counts {
    fn none() -> Counts {
        Counts {
            whole: 0,
            bad_blocks: 0,
            damaged: 0,
        }
    }

    fn add(&mut self, finding: Finding) {
        match finding {
            Finding::Whole => self.whole = self.whole.saturating_add(1),
            Finding::BadBlocks => self.bad_blocks = self.bad_blocks.saturating_add(1),
            Finding::Damaged => self.damaged = self.damaged.saturating_add(1),
        }
    }

    // How many are not whole.
    fn not_whole(&self) -> u64 {
        self.bad_blocks.saturating_add(self.damaged)
    }
}

// Counts the lines.
fn counts_of(lines: &[u8]) -> Counts {
    let mut counts = Counts::none();
    if let Ok(text) = str::from_utf8(lines) {
        for line in text.lines() {
            counts.add(finding_of(line));
        }
    }
    counts
}

// Writes the lines, and one with the counts behind them.
fn write_lines(rt: &HostRuntime, lines: &[u8], counts: Counts) -> io::Result<()> {
    let Counts {
        whole,
        bad_blocks,
        damaged,
    } = counts;
    rt.write_all(lines)?;
    println!(rt; "whole {whole}, with bad blocks {bad_blocks}, damaged {damaged}")
}

/// Certifies each object of the store, of all applications, and writes a line of each and one with the counts. Nothing is changed.
///
/// # Errors
///
/// The audit ended early, or an object is not whole.
pub fn check(rt: &HostRuntime, place: &Place) -> Result<(), Fault> {
    let Report { lines, end, .. } = inspect(rt, place)?;
    let counts = counts_of(lines.as_slice());
    write_lines(rt, lines.as_slice(), counts).map_err(Fault::Output)?;
    match end {
        Err(fault) => Err(Fault::Audit(fault)),
        Ok(()) if counts.not_whole() > 0 => Err(Fault::Found(counts.not_whole())),
        Ok(()) => Ok(()),
    }
}
