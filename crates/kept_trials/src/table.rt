// The lines that are printed.

use crate::altered::Altered;
use crate::arms::Way;
use crate::outcome::Tally;

/// Prints the head of the table of scenarios.
pub fn print_scenario_head(rt: &impl Print) -> anyhow::Result<()> {
    println!(rt;
        "{:<24}{:<14}{:>6}{:>8}{:>7}{:>10}{:>9}{:>6}",
        "scenario", "way", "tries", "before", "after", "in doubt", "refused", "lost"
    )?;
    Ok(())
}

/// Prints the line of a scenario and a way.
pub fn print_scenario(rt: &impl Print, name: &str, way: Way, tally: &Tally) -> anyhow::Result<()> {
    let way = way.name();
    println!(rt;
        "{name:<24}{way:<14}{:>6}{:>8}{:>7}{:>10}{:>9}{:>6}",
        tally.tries, tally.before, tally.after, tally.in_doubt, tally.refused, tally.lost
    )?;
    Ok(())
}

/// Prints the head of the table of alterations.
pub fn print_alteration_head(rt: &impl Print) -> anyhow::Result<()> {
    println!(rt;
        "{:<38}{:>6}{:>8}{:>7}{:>9}{:>6}",
        "alteration", "tries", "same", "older", "refused", "lost"
    )?;
    Ok(())
}

/// Prints the line of an alteration.
pub fn print_alteration(rt: &impl Print, name: &str, tally: &Altered) -> anyhow::Result<()> {
    println!(rt;
        "{name:<38}{:>6}{:>8}{:>7}{:>9}{:>6}",
        tally.tries, tally.same, tally.older, tally.refused, tally.lost
    )?;
    Ok(())
}

/// Prints the line of a single run.
pub fn print_run(rt: &impl Print, name: &str, ends_well: bool) -> anyhow::Result<()> {
    let end = if ends_well { "ok" } else { "LOST" };
    println!(rt; "{name:<70}{end:>4}")?;
    Ok(())
}
