// Copies of an object's file: into a file of format 1, and from there into one of format 2.

ghost use Rattle.std.specs.Prelude.{◌<◌};

use crate::base::Base;
use crate::outcome::{Outcome, Tally};
use crate::told::{Told, answer_of};
use anyhow::{Context, bail};
use htree_file::{TreeFault, copy_tree};
use mem_files::MemFile;
use node_image::{FORMAT, RootRef, block_offset, head_offset, node_offset};
use std::alloc::Global;
use tee_ports::{FileRig, StoreFile};

/// With how many seeds each copy is crashed, from 0 on.
const SEEDS: u64 = 4;

// How many bytes of data. The tree has three blocks.
const SIZE: u16 = 5000;

/// How many calls a copy of such a tree makes of the file that is copied, and of the other.
const READS: u64 = 8;

const WRITES: u64 = 9;

/// What is done to the file that is copied.
#[derive(Clone, Copy)]
enum Alteration {
    Nothing,
    /// A bit is turned in the byte at a place.
    Flip(u64),
    /// It ends at a place.
    Cut(u64),
}

// Nothing, a part of each kind, what no reference selects, and ends in each kind of part.
fn alterations() -> [Alteration; 10] {
    [
        Alteration::Nothing,
        Alteration::Flip(head_offset(FORMAT, 0) + 20),
        Alteration::Flip(node_offset(FORMAT, 1, 0)),
        Alteration::Flip(node_offset(FORMAT, 2, 0) + 65),
        Alteration::Flip(block_offset(FORMAT, 1, 0) + 9),
        Alteration::Flip(block_offset(FORMAT, 1, 1)),
        Alteration::Cut(head_offset(FORMAT, 0) + 20),
        Alteration::Cut(node_offset(FORMAT, 1, 0) + 20),
        Alteration::Cut(block_offset(FORMAT, 1, 0) + 20),
        Alteration::Cut(block_offset(FORMAT, 2, 0) + 4095),
    ]
}

fn altered(alloc: Global, base: &Base, alteration: Alteration) -> anyhow::Result<MemFile> {
    let mut file = base.file(alloc)?;
    match alteration {
        Alteration::Nothing => {}
        Alteration::Flip(place) => file.flip(place, &[1]),
        Alteration::Cut(place) => {
            let end = place.min(u64::from(u32::MAX));
            file.set_len(end).ok().context("not cut")?;
        }
    }
    Ok(file)
}

// A file that holds other bytes.
fn used(alloc: Global) -> anyhow::Result<MemFile> {
    let mut file = MemFile::new(alloc);
    file.write_at(0, &[7; 2000]).ok().context("not written")?;
    file.write_at(290_000, &[7; 2000])
        .ok()
        .context("not written")?;
    Ok(file)
}

// A copy, after a crash.
fn copied(
    alloc: Global,
    from: &mut MemFile,
    root: RootRef,
    format: u8,
    seed: u64,
) -> anyhow::Result<MemFile>
    requires { root.version < 2 }
{
    let Ok(mut copy) = copy_tree(from, used(alloc)?, root, format) else {
        bail!("not copied");
    };
    copy.crash(seed, 1)?;
    Ok(copy)
}

// A copy of a copy tells what the file tells that was copied.
fn outcome(
    alloc: Global,
    base: &Base,
    alteration: Alteration,
    seed: u64,
) -> anyhow::Result<Outcome> {
    let named = base.named;
    let moved = RootRef {
        hash: named.root.hash,
        version: named.root.version,
        format: 1,
    };
    let mut file = altered(alloc, base, alteration)?;
    let mut between = copied(alloc, &mut file, named.root, 1, seed)?;
    let last = copied(alloc, &mut between, moved, FORMAT, seed)?;
    let told = answer_of(alloc, file, &named, &base.data);
    if answer_of(alloc, last, &named, &base.data) != told {
        return Ok(Outcome::Lost);
    }
    Ok(if told == Told::Opens {
        Outcome::After
    } else {
        Outcome::Refused
    })
}

// A copy of which this call of one file fails. Calls are counted from 1, and none is the call 0.
fn outcome_of_failed(
    alloc: Global,
    base: &Base,
    of_from: u64,
    of_to: u64,
) -> anyhow::Result<Outcome> {
    let named = base.named;
    let (mut from, mut to) = (base.file(alloc)?, used(alloc)?);
    from.fail_call(of_from)?;
    to.fail_call(of_to)?;
    let refused = match copy_tree(&mut from, to, named.root, FORMAT) {
        Ok(_copy) => false,
        Err(broken) => broken.fault == TreeFault::Failed { count: 1 },
    };
    Ok(if refused {
        Outcome::Refused
    } else {
        Outcome::Lost
    })
}

/// Copies altered files, and lets each call of a copy fail.
pub fn tally(alloc: Global) -> anyhow::Result<Tally> {
    let base = Base::new(alloc, SIZE)?;
    let mut tally = Tally::new();
    tally.calls = READS + WRITES;
    tally.seeds = SEEDS;
    for alteration in alterations() {
        for seed in 0..SEEDS {
            tally.add(outcome(alloc, &base, alteration, seed)?);
        }
    }
    for call in 0..READS {
        tally.add(outcome_of_failed(alloc, &base, call + 1, 0)?);
    }
    for call in 0..WRITES {
        tally.add(outcome_of_failed(alloc, &base, 0, call + 1)?);
    }
    Ok(tally)
}
