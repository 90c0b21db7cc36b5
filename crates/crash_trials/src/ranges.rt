// Changes at the edges of blocks, with nothing that goes wrong.

use crate::arms::Arm;
use crate::base::Base;
use crate::blocks;
use crate::change::Change;
use crate::outcome::{Outcome, Tally};
use crate::trials::Trial;
use crate::work::Work;
use std::alloc::Global;

/// A place in an object of 904 bytes, whose tree has 5,000, and how many bytes are written there.
const WRITES: [(u16, u16); 15] = [
    (0, 10),
    (100, 0),
    (100, 50),
    // over the edge, up to it, and from it on up to the end
    (4090, 12),
    (4000, 96),
    (4096, 904),
    // at the end, and over it
    (5000, 20),
    (4990, 4000),
    // behind the end, in the same block, in the next, and with a whole block between
    (6000, 10),
    (9000, 10),
    (13_000, 5),
    (6000, 0),
    // whole blocks
    (0, 4096),
    (0, 8192),
    (8192, 4096),
];

/// Tries each write, on the bytes of a tree.
pub fn tally_writes(alloc: Global) -> anyhow::Result<Tally> {
    let mut tally = Tally::new();
    for (at, count) in WRITES {
        let work = Work::Blocks(Change::Write { at, count });
        let (_, outcome) = Trial::of_work(alloc, 904, work)?.outcome(alloc, Arm::NONE, 0)?;
        tally.add(outcome);
    }
    Ok(tally)
}

/// How many of 10,000 bytes are left, and how many there are then.
const SIZES: [(u16, u16); 9] = [
    (5000, 6000),
    (5000, 9000),
    (4096, 4097),
    (4096, 12_288),
    (4095, 4096),
    (0, 1),
    (0, 20_000),
    (10_000, 12_000),
    (1, 0),
];

// The bytes of a tree, cut and grown again.
fn outcome_of(alloc: Global, base: &Base, cut: u16, grown: u16) -> anyhow::Result<Outcome> {
    let (cut, grown) = (
        Change::Truncate { size: cut },
        Change::Truncate { size: grown },
    );
    let left = cut.apply(alloc, &base.whole)?;
    let want = grown.apply(alloc, &left)?;
    let (file, next) = blocks::changed(alloc, base.file(alloc)?, &base.named, cut, Arm::NONE);
    let Some(next) = next else {
        return Ok(Outcome::Lost);
    };
    let (file, is_cut) = blocks::opens(alloc, file, &next, &left);
    let (file, next) = blocks::changed(alloc, file, &next, grown, Arm::NONE);
    let Some(next) = next else {
        return Ok(Outcome::Lost);
    };
    let (_, is_grown) = blocks::opens(alloc, file, &next, &want);
    let stands = is_cut && is_grown;
    Ok(if stands {
        Outcome::After
    } else {
        Outcome::Lost
    })
}

/// Tries each pair of lengths.
pub fn tally_sizes(alloc: Global) -> anyhow::Result<Tally> {
    let base = Base::new(alloc, 5904)?;
    let mut tally = Tally::new();
    for (cut, grown) in SIZES {
        tally.add(outcome_of(alloc, &base, cut, grown)?);
    }
    Ok(tally)
}
