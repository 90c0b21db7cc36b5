// A file itself: what a crash leaves of changes that were not settled.

use crate::outcome::{Outcome, Tally};
use disk_model::{Span, touched};
use mem_files::MemFile;
use std::alloc::Global;
use tee_ports::{Failed, FileRig, StoreFile};

/// With how many seeds the file is crashed, from 0 on.
const SEEDS: u64 = 41;

/// How many bytes are settled: four sectors, and a part of a fifth.
const LENGTH: u64 = 2200;

/// The spans of the changes. They meet the second sector, and the last one.
const CHANGES: [Span; 3] = [
    Span { at: 600, length: 8 },
    Span {
        at: 2100,
        length: 100,
    },
    Span {
        at: 2104,
        length: 120,
    },
];

/// The settled bytes.
const SETTLED: [u8; LENGTH as usize] = [1; LENGTH as usize];

// Settles the bytes, writes over some of them, cuts the file and writes past its end.
fn change(file: &mut MemFile) -> Result<(), Failed> {
    file.write_at(0, &SETTLED)?;
    file.sync()?;
    file.write_at(600, &[2; 8])?;
    file.set_len(2100)?;
    file.write_at(2104, &[3; 120])
}

// Each place that was not touched stands.
fn is_image(bytes: &[u8]) -> bool {
    for place in 0..LENGTH {
        if !touched(&CHANGES, LENGTH, place) && bytes.get(place as usize) != Some(&1) {
            return false;
        }
    }
    true
}

// What a crash leaves. A second one leaves the same, since nothing is pending.
fn outcome(alloc: Global, seed: u64) -> anyhow::Result<Outcome> {
    let mut file = MemFile::new(alloc);
    if change(&mut file).is_err() {
        return Ok(Outcome::Lost);
    }
    let written = file.save()?;
    file.crash(seed, 7)?;
    let image = file.save()?;
    file.crash(0, 7)?;
    if file.save()?.bytes() != image.bytes() || !is_image(image.bytes()) {
        return Ok(Outcome::Lost);
    }
    Ok(if image.bytes() == SETTLED.as_slice() {
        Outcome::Before
    } else if image.bytes() == written.bytes() {
        Outcome::After
    } else {
        Outcome::InDoubt
    })
}

// What a crash leaves of the sector of the first change, where nothing was written: all of it, or other bytes.
fn outcome_beside(alloc: Global, seed: u64) -> anyhow::Result<Outcome> {
    let mut file = MemFile::new(alloc);
    if change(&mut file).is_err() {
        return Ok(Outcome::Lost);
    }
    file.crash(seed, 7)?;
    let image = file.save()?;
    for place in (512..600u64).chain(608..1024) {
        if image.bytes().get(place as usize) != Some(&1) {
            return Ok(Outcome::After);
        }
    }
    Ok(Outcome::Before)
}

/// Crashes a changed file, and counts the seeds that spoil what stands beside a change.
pub fn tally_beside(alloc: Global) -> anyhow::Result<Tally> {
    let mut tally = Tally::new();
    tally.seeds = SEEDS;
    for seed in 0..SEEDS {
        tally.add(outcome_beside(alloc, seed)?);
    }
    Ok(tally)
}

/// Crashes a changed file with seeds from 0 on: the first leaves the settled bytes, the second all that was written.
pub fn tally(alloc: Global) -> anyhow::Result<Tally> {
    let mut tally = Tally::new();
    tally.seeds = SEEDS;
    for seed in 0..SEEDS {
        tally.add(outcome(alloc, seed)?);
    }
    Ok(tally)
}
