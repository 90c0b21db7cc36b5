//! Tries what may go wrong with objects and the trees that hold them: calls that fail, stops, crashes, altered bytes. Prints a line for
//! each scenario with what then stands, how many bytes some changes write, and how often something was lost.
//!
//! A scenario is run once for each call that may fail, in each way and with each seed of a crash. What stands then is the bytes
//! before the change, or after it, where both are read again under their references; or the alteration is told, in the
//! right words. All else is lost. The numbers of calls are found by running, until none fails that was set to.
#![tactic(auto)]

use outcome::Tally;

mod altered;
mod arms;
mod bad_blocks;
mod base;
mod blocks;
mod budget;
mod change;
mod copies;
mod files;
mod masks;
mod named;
mod objects;
mod outcome;
mod passed_on;
mod ranges;
mod roots;
mod scenarios;
mod single_calls;
mod told;
mod trees;
mod trials;
mod work;

/// Prints the head of the table.
fn print_head(rt: &impl Print) -> anyhow::Result<()> {
    println!(rt;
        "{:<52}{:>7}{:>7}{:>7}{:>8}{:>8}{:>8}{:>10}{:>9}{:>6}",
        "scenario",
        "calls",
        "draws",
        "seeds",
        "tries",
        "before",
        "after",
        "in doubt",
        "refused",
        "lost"
    )?;
    Ok(())
}

/// Prints a line of the table.
fn print_row(rt: &impl Print, name: &str, tally: &Tally) -> anyhow::Result<()> {
    println!(rt;
        "{name:<52}{:>7}{:>7}{:>7}{:>8}{:>8}{:>8}{:>10}{:>9}{:>6}",
        tally.calls,
        tally.draws,
        tally.seeds,
        tally.tries,
        tally.before,
        tally.after,
        tally.in_doubt,
        tally.refused,
        tally.lost
    )?;
    Ok(())
}

fn main(rt: HostRuntime) -> anyhow::Result<()> {
    print_head(&rt)?;
    let mut lost = 0u64;
    for scenario in scenarios::ALL {
        let tally = scenario.tally(rt.alloc())?;
        print_row(&rt, scenario.name, &tally)?;
        lost = lost.saturating_add(tally.lost);
    }
    println!(rt; "{lost} lost")?;
    budget::print(&rt)?;
    if lost > 0 {
        anyhow::bail!("{lost} lost");
    }
    Ok(())
}
