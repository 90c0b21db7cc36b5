//! Runs `run`. First the rows of standard input: scripts, each with the output and the status that it must have (`rows.rt` says how a row is
//! written). Then migrations that are cut off.
//!
//! The last line is of these migrations: a store of the old format is migrated while a device stops at one of its calls, crashed by four seeds,
//! and migrated once more. Then all files are of the current format, and the objects are listed as they were, bad blocks and damage included.
#![tactic(auto)]

use migrations::migration_line;
use rows::run_rows;
use trial_runs::print_line;

mod migrations;
mod old_stores;
mod rows;

fn main(rt: HostRuntime) -> anyhow::Result<()> {
    run_rows(&rt)?;
    print_line(&rt, migration_line(&rt, rt.alloc())?.as_str())
}
