//! Calls functions of the lower crates with values that were worked out elsewhere, and prints a line a call: the crate, what was called, and
//! what it gave. What it prints is compared with `stdout`, which was written by hand.
//!
//! No contract says that it means what was meant, that anything meets what a call requires, or that memory is left, and no proof shows that
//! threads come to their end. So each function is called here where it succeeds: first those on bytes, trees and ciphers, then what keeps a
//! state (the card and its host, sources, sinks and entropy, byte strings, calls and replies, and the tables of sessions and the directory),
//! then histories, written by seats, from eight threads too. The laws of the core machine hold whatever stands for a version in a history's
//! tags; here one kind does.
#![tactic(auto)]

mod cards;
mod ciphers;
mod doubts;
mod fields;
mod pages;
mod places;
mod ports;
mod records;
mod report;
mod tables;
mod threads;
mod trees;
mod words;

use crash_core::{every_picture_mounts, honest_pictures_mount, openings_are_starts};
use report::Report;

// The calls whose results follow from their arguments alone.
fn print_values(rt: &HostRuntime, report: &mut Report) -> anyhow::Result<()> {
    fields::add_calls(report);
    pages::add_calls(report);
    trees::add_calls(report, rt.alloc())?;
    ciphers::add_calls(report);
    report.print(rt)?;
    Ok(())
}

// The calls on what keeps a state. One sink writes to the standard output itself, behind the lines of those before it.
fn print_states(rt: &HostRuntime, report: &mut Report) -> anyhow::Result<()> {
    cards::add_calls(report, rt.alloc())?;
    ports::add_calls(report, rt, rt.alloc())?;
    report.print(rt)?;
    ports::add_standard(report, rt);
    ports::add_seeds(report);
    words::add_calls(report, rt.alloc())?;
    tables::add_calls(report, rt.alloc())?;
    records::add_calls(report, rt.alloc())?;
    report.print(rt)?;
    Ok(())
}

// The laws of the core machine, at one kind of version.
fn cite_core_laws() {
    every_picture_mounts::<u8>();
    honest_pictures_mount::<u8>();
    openings_are_starts::<u8>();
}

fn main(rt: HostRuntime) -> anyhow::Result<()> {
    let mut report = Report::new(rt.alloc());
    print_values(&rt, &mut report)?;
    print_states(&rt, &mut report)?;
    cite_core_laws();
    places::print(&rt, rt.alloc())?;
    doubts::print(&rt, rt.alloc())?;
    threads::print(&rt, rt.alloc())
}
