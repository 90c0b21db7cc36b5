//! Tries what may go wrong with a device while a store is formatted, mounted and changed: calls of the directory's file, of the objects' files
//! and of the card fail, or the device stops there, answers of the card are lost, and draws fail. Then the power fails, by each seed, and the
//! objects are listed; or another object is asked about, and the objects are listed then.
//!
//! A line for each act, device and mishap says how many calls of the device fail the act where they go wrong, how often it was tried, how
//! often the store then holds the objects of before, how often those that the act leaves, and how often not what the replies say. The calls are found by
//! running, until none fails that was set to.
//!
//! A call that was answered ok, or that landed later, must be there. One that was answered for want of a device must not be there, but for
//! one that the card did not confirm, of which nobody can tell before it is resolved. A store whose format was refused is blank or has no objects,
//! and a mount leaves the objects as they were.
//!
//! The lines below look at what was drawn in two runs over equal devices, with equal entropy: the first makes an object of one byte, the
//! second writes it too. They say how many file keys, vectors and nonces there are, and how many different ones. Nothing else tells that
//! they are drawn anew and are no constants.
#![tactic(auto)]

use acts::ACTS;
use choices::{DEVICES, MISHAPS};
use draws::draw_lines;
use openings::Opening;
use std::sync::Wait;
use std::thread::Threads;
use subjects::Subject;
use table::{head_line, row_line};
use texts::Texts;
use trial_runs::{Device, Mishap, print_line};

mod acts;
mod choices;
mod devices;
mod draws;
mod facts;
mod kept_port;
mod openings;
mod subjects;
mod table;
mod tally;
mod texts;
mod trees;
mod tries;

// Prints the line of one mishap. Says how often something was lost.
fn print_row<W: Print + AllocGlobal + Threads + Wait + Sync>(
    rt: &W,
    subject: Subject<'_>,
    device: Device,
    mishap: Mishap,
) -> anyhow::Result<u64> {
    let tally = subject.tally(rt, rt.alloc(), device, mishap)?;
    let line = row_line(rt.alloc(), subject.name(), device, mishap, &tally)?;
    print_line(rt, line.as_str())?;
    Ok(tally.lost)
}

// Prints the lines of what is tried. Says how often something was lost.
fn print_rows<W: Print + AllocGlobal + Threads + Wait + Sync>(
    rt: &W,
    subject: Subject<'_>,
) -> anyhow::Result<u64> {
    let mut lost = 0u64;
    for device in DEVICES {
        for mishap in MISHAPS {
            if subject.has(device, mishap) {
                lost = lost.saturating_add(print_row(rt, subject, device, mishap)?);
            }
        }
    }
    Ok(lost)
}

// Prints the table. Says how often something was lost.
fn print_table<W: Print + AllocGlobal + Threads + Wait + Sync>(rt: &W) -> anyhow::Result<u64> {
    let mut lost = 0u64;
    for opening in Opening::ALL {
        lost = lost.saturating_add(print_rows(rt, Subject::Opening(opening))?);
    }
    for act in ACTS {
        let texts = Texts::new(rt.alloc(), act)?;
        lost = lost.saturating_add(print_rows(rt, Subject::Act(&texts))?);
    }
    Ok(lost)
}

fn main(rt: HostRuntime) -> anyhow::Result<()> {
    print_line(&rt, head_line(rt.alloc())?.as_str())?;
    let lost = print_table(&rt)?;
    println!(rt; "{lost} lost")?;
    print_line(&rt, draw_lines(&rt, rt.alloc())?.trim_end())
}
