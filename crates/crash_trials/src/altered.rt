// Altered bytes of a file at rest.

ghost use Rattle.std.specs.Prelude.{◌<◌};

use crate::arms::Arm;
use crate::base::Base;
use crate::change::Change;
use crate::named::Named;
use crate::objects;
use crate::outcome::{Outcome, Tally};
use crate::told::{Told, answer_of};
use anyhow::Context;
use node_image::{FORMAT, RootRef, block_offset, head_offset, node_offset};
use std::alloc::Global;
use tee_ports::{FileRig, StoreFile};

/// A part of the file of a made object: its head, a node, a block, or what no reference selects.
#[derive(Clone, Copy, PartialEq, Eq)]
pub enum Part {
    Head,
    Node,
    Block(u32),
    Unselected,
}

// How many blocks the tree of the base has.
const BLOCKS: u32 = 3;

// How many bytes of data.
const SIZE: u16 = 5000;

// Which part a place belongs to, where all parts stand in version 0.
fn part_at(place: u64) -> Part {
    if place < head_offset(FORMAT, 0) + 32 {
        return Part::Head;
    }
    for k in 0..BLOCKS {
        let (node, block) = (node_offset(FORMAT, k + 1, 0), block_offset(FORMAT, k, 0));
        if node <= place && place < node + 66 {
            return Part::Node;
        }
        if block <= place && place < block + 4096 {
            return Part::Block(k);
        }
    }
    Part::Unselected
}

// What is to be told where a byte of the part is altered.
fn outcome_of(part: Part, told: Told) -> Outcome {
    match (part, told) {
        (Part::Head, Told::BadHead) => Outcome::Refused,
        (Part::Head, Told::Damaged) => Outcome::Refused,
        (Part::Node, Told::Damaged) => Outcome::Refused,
        (Part::Block(k), Told::BadTag(block)) if k == block => Outcome::Refused,
        (Part::Unselected, Told::Opens) => Outcome::Before,
        _ => Outcome::Lost,
    }
}

/// Which parts are altered.
#[derive(Clone, Copy)]
pub enum Kind {
    Head,
    Nodes,
    Blocks,
    Unselected,
}

impl Kind {
    fn has(self, part: Part) -> bool {
        match (self, part) {
            (Kind::Head, Part::Head) => true,
            (Kind::Nodes, Part::Node) => true,
            (Kind::Blocks, Part::Block(_)) => true,
            (Kind::Unselected, Part::Unselected) => true,
            _ => false,
        }
    }

    // Each so many places one is altered.
    fn stride(self) -> u64
        ensures { 0 < result }
    {
        match self {
            Kind::Head => 1,
            Kind::Nodes => 1,
            Kind::Blocks => 61,
            Kind::Unselected => 61,
        }
    }
}

/// Alters a bit at places of the parts, one at a time.
pub fn tally(alloc: Global, kind: Kind) -> anyhow::Result<Tally> {
    let base = Base::new(alloc, SIZE)?;
    let mut tally = Tally::new();
    for place in 0..base.file_len() as u64 {
        let part = part_at(place);
        if kind.has(part) && place % kind.stride() == 0 {
            let mut file = base.file(alloc)?;
            file.flip(place, &[1]);
            tally.add(outcome_of(part, answer_of(alloc, file, &base.named, &base.data)));
        }
    }
    Ok(tally)
}

// What is to be told of a file that ends at a place.
fn outcome_of_cut(place: u64, told: Told) -> Outcome {
    match told {
        Told::Short => Outcome::Refused,
        Told::BadHead if place < 32 => Outcome::Refused,
        Told::Damaged if place < block_offset(FORMAT, 0, 0) => Outcome::Refused,
        _ => Outcome::Lost,
    }
}

/// Cuts the file at places.
pub fn tally_cuts(alloc: Global) -> anyhow::Result<Tally> {
    let base = Base::new(alloc, SIZE)?;
    let mut tally = Tally::new();
    let end = base.file_len() as u64;
    for place in 0..end.min(1 << 20) {
        if place < 200 || place % 61 == 0 || place + 200 > end {
            let mut file = base.file(alloc)?;
            file.set_len(place).ok().context("not cut")?;
            let told = answer_of(alloc, file, &base.named, &base.data);
            tally.add(outcome_of_cut(place, told));
        }
    }
    Ok(tally)
}

// A reference or a file that is not the one.
fn outcome_of_other(told: Told) -> Outcome {
    match told {
        Told::BadHead => Outcome::Refused,
        Told::Damaged => Outcome::Refused,
        Told::WrongSize => Outcome::Refused,
        _ => Outcome::Lost,
    }
}

// What the base names, in the other version, with another hash, and with another size.
fn other_names(named: &Named) -> [Option<Named>; 3] {
    let named = *named;
    let (hash, version) = (named.root.hash, named.root.version);
    let mut other = hash;
    other[31] ^= 1;
    let flipped = RootRef {
        hash,
        version: 1 - version.min(1),
        format: FORMAT,
    };
    let hashed = RootRef {
        hash: other,
        version,
        format: FORMAT,
    };
    [
        Named::new(flipped, named.size, named.attributes),
        Named::new(hashed, named.size, named.attributes),
        Named::new(named.root, named.size.saturating_add(1), named.attributes),
    ]
}

/// Loads under references and sizes that are not the object's.
pub fn tally_names(alloc: Global) -> anyhow::Result<Tally> {
    let base = Base::new(alloc, SIZE)?;
    let mut tally = Tally::new();
    for other in other_names(&base.named) {
        let named = other.context("no name")?;
        let told = answer_of(alloc, base.file(alloc)?, &named, &base.data);
        tally.add(outcome_of_other(told));
    }
    Ok(tally)
}

/// Puts the file back as it was before a change, and loads under the new reference.
pub fn tally_older(alloc: Global) -> anyhow::Result<Tally> {
    let base = Base::new(alloc, SIZE)?;
    let mut tally = Tally::new();
    for at in [0, 4095, 5000] {
        let change = Change::Write { at, count: 1 };
        let file = base.file(alloc)?;
        let (_, next) = objects::changed(alloc, file, &base.named, change, Arm::NONE);
        let next = next.context("not changed")?;
        let told = answer_of(alloc, base.file(alloc)?, &next, &base.data);
        tally.add(outcome_of_other(told));
    }
    Ok(tally)
}
