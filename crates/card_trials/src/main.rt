//! Tries what may go wrong with the objects on a card alone.
//!
//! First a put of one byte, a put, a replacement and a removal, while the card stops at each of their exchanges. Behind it the objects before the
//! call must stand, or those behind it, and these where it was answered ok: once the card goes on, and the same once it is mounted anew.
//!
//! Then a put near the end of the card's write counter: it is refused exactly where its three writes do not fit.
//!
//! Then lists of calls that are drawn, while the card stops now and then. Each answer is that of a finite map. A change that the card did not
//! confirm is found out by the next read: until then no name is read, and a list gives the names without it.
#![tactic(auto)]

use devices::{name_of, new_store};
use lists::run_lists;
use rpmb_files::CardFault;
use std::alloc::Global;
use stops::acts;

mod choices;
mod devices;
mod lists;
mod objects;
mod stops;

/// How many lists are run.
const LISTS: u32 = 2000;

/// How many writes the counter leaves at most.
const LEFT: u32 = 6;

// The put of one byte is done where the counter leaves so many writes, else it is refused for the counter.
fn is_put(alloc: Global, left: u32) -> anyhow::Result<bool> {
    let mut store = new_store(alloc, u32::MAX - left)?;
    let name = name_of(0)?;
    match store.put(name.app, name.id, &[1]) {
        Ok(()) => Ok(true),
        Err(CardFault::Spent) => Ok(false),
        Err(_) => anyhow::bail!("another refusal"),
    }
}

// Prints with how few writes left a put is refused.
fn print_spent(rt: &(impl Print + AllocGlobal)) -> anyhow::Result<()> {
    for left in 0..LEFT {
        if is_put(rt.alloc(), left)? {
            println!(rt; "a put of one byte is refused below {left} writes")?;
            return Ok(());
        }
    }
    anyhow::bail!("each put is refused");
}

fn main(rt: HostRuntime) -> anyhow::Result<()> {
    let mut lost = 0u64;
    for act in acts() {
        let (line, missed) = act.line(rt.alloc())?;
        println!(rt; "{}", line.as_str())?;
        lost = lost.saturating_add(missed);
    }
    print_spent(&rt)?;
    let counts = run_lists(rt.alloc(), LISTS)?;
    println!(rt;
        "{LISTS} lists, {} calls, {} failed, {} of them done, {} refused, {} differ from a map",
        counts.calls, counts.failed, counts.landed, counts.refused, counts.differ
    )?;
    if lost > 0 || counts.differ > 0 {
        anyhow::bail!("something differs");
    }
    Ok(())
}
