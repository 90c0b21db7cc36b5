//! Tries what may go wrong with a store whose card is kept in a file, over files in memory. Prints three tables.
//!
//! A scenario is a step of a store: it is opened, something is done, and it is closed. It is tried once for each call of each file that
//! fails once; once for each call from which on all fail; and so with a crash, by each of three seeds. Of the calls that read the card's
//! file in an opening some are left out. The numbers of calls are found by running, until a call is not made any more. Then the store is
//! opened again with nothing armed, and all its objects are read. What was told as done is there, what was told as not done is not there,
//! and of what was told as in doubt either is right. A store that was not opened tells the file that failed, and no byte was written;
//! but where a store is made or taken over, the next opening finds what there was before, what there is after it, or refuses the store
//! and writes nothing. All else is lost.
//!
//! An alteration is of the files of a closed store. What was altered is not used, or it is told: by a refusal, or of the one object
//! whose file it is. Nothing is written then. A card that is kept in a file gives no protection from older copies: where the card is put
//! back, with all files or alone, the store of then may be opened, and counts as older.
//!
//! The single runs below have one right end each.
#![tactic(auto)]

mod acts;
mod alterations;
mod altered;
mod arms;
mod bases;
mod causes;
mod devices;
mod objects;
mod opening;
mod outcome;
mod reopening;
mod runs;
mod scenarios;
mod serving;
mod steps;
mod table;
mod trials;
mod wear;
mod world;

use alterations::Stores;
use arms::Way;
use runs::Run;
use table::{
    print_alteration, print_alteration_head, print_run, print_scenario, print_scenario_head,
};

// Prints the table of scenarios. Says how often something was lost.
fn print_scenarios(rt: &(impl Print + AllocGlobal)) -> anyhow::Result<u64> {
    print_scenario_head(rt)?;
    let mut lost = 0u64;
    for scenario in scenarios::ALL {
        let base = scenario.base.world(rt.alloc())?;
        for way in Way::ALL {
            let tally = trials::tally(rt.alloc(), &scenario, &base, way)?;
            print_scenario(rt, scenario.name, way, &tally)?;
            lost = lost.saturating_add(tally.lost);
        }
    }
    Ok(lost)
}

// Prints the table of alterations. Says how often something was lost.
fn print_alterations(rt: &(impl Print + AllocGlobal)) -> anyhow::Result<u64> {
    print_alteration_head(rt)?;
    let stores = Stores::new(rt.alloc())?;
    let mut lost = 0u64;
    for alteration in alterations::ALL {
        let tally = alteration.tally(rt.alloc(), &stores)?;
        print_alteration(rt, alteration.name, &tally)?;
        lost = lost.saturating_add(tally.lost);
    }
    Ok(lost)
}

// Prints the lines of single runs. Says in how many something was lost.
fn print_runs(rt: &(impl Print + AllocGlobal)) -> anyhow::Result<u64> {
    let mut lost = 0u64;
    for run in Run::ALL {
        let ends_well = run.ends_well(rt.alloc())?;
        print_run(rt, run.name(), ends_well)?;
        lost = lost.saturating_add(u64::from(!ends_well));
    }
    Ok(lost)
}

fn main(rt: HostRuntime) -> anyhow::Result<()> {
    let lost = print_scenarios(&rt)?
        .saturating_add(print_alterations(&rt)?)
        .saturating_add(print_runs(&rt)?);
    println!(rt; "{lost} lost")?;
    if lost > 0 {
        anyhow::bail!("{lost} lost");
    }
    Ok(())
}
