// Files of a closed store that are altered, or are not its own.

use crate::acts::Act;
use crate::altered::{Altered, Outcome};
use crate::bases::store_after;
use crate::objects::{Object, Standing};
use crate::opening::{device_keys, other_keys};
use crate::reopening::{Found, reopen};
use crate::scenarios::{A, B, C, NEW_A};
use crate::world::{Place, World};
use std::alloc::Global;

/// The store: after each of these acts, and the objects then.
const ACTS: [Act; 3] = [Act::Put(A), Act::Put(B), Act::Put(NEW_A)];

const OLDEST: [Object; 1] = [A];

const OLDER: [Object; 2] = [A, B];

const NOW: [Object; 2] = [NEW_A, B];

/// What another store with the same keys did.
const OTHER_ACTS: [Act; 3] = [Act::Put(C), Act::Put(B), Act::Put(A)];

/// The files of the store that have bytes.
const FILES: [Place; 5] = [
    Place::Card,
    Place::DIRECTORY,
    Place::File(1),
    Place::File(2),
    Place::File(3),
];

/// Each so many byte of the card's file is altered where not all are.
const STRIDE: usize = 509;

/// What is altered.
#[derive(Clone, Copy)]
enum Kind {
    /// A bit of each byte of the card's file from one place up to another.
    Bits {
        from: usize,
        upto: usize,
    },
    /// A bit of each so many byte of the card's file from a place on.
    Strides {
        from: usize,
    },
    /// A file has no bytes, each in turn.
    Missing,
    /// A file has zero bytes, as many.
    Zeros,
    /// A file is that of a store with other keys.
    OtherKeys,
    /// A file is that of another store with the same keys.
    OtherStore,
    /// These files are as they were after the first acts.
    Older {
        acts: usize,
        files: &'static [Place],
    },
}

/// A row of alterations.
#[derive(Clone, Copy)]
pub struct Alteration {
    pub name: &'static str,
    kind: Kind,
}

/// All of them, in the order of the table.
pub const ALL: [Alteration; 11] = [
    Alteration {
        name: "bits of the card's header",
        kind: Kind::Bits { from: 0, upto: 48 },
    },
    Alteration {
        name: "bits of block 0 of the card",
        kind: Kind::Bits {
            from: 512,
            upto: 2560,
        },
    },
    Alteration {
        name: "bits of the card elsewhere",
        kind: Kind::Strides { from: 2560 },
    },
    Alteration {
        name: "a file without bytes",
        kind: Kind::Missing,
    },
    Alteration {
        name: "a file of zeros",
        kind: Kind::Zeros,
    },
    Alteration {
        name: "a file of a store with other keys",
        kind: Kind::OtherKeys,
    },
    Alteration {
        name: "a file of another store, same keys",
        kind: Kind::OtherStore,
    },
    Alteration {
        name: "older directory",
        kind: Kind::Older {
            acts: 2,
            files: &[Place::DIRECTORY],
        },
    },
    Alteration {
        name: "older card, by one change",
        kind: Kind::Older {
            acts: 2,
            files: &[Place::Card],
        },
    },
    Alteration {
        name: "older card, by two changes",
        kind: Kind::Older {
            acts: 1,
            files: &[Place::Card],
        },
    },
    Alteration {
        name: "older card and files",
        kind: Kind::Older {
            acts: 1,
            files: &FILES,
        },
    },
];

/// The store, and others whose files are taken in place of its own.
#[derive(Drop)]
pub struct Stores {
    now: World,
    older: World,
    oldest: World,
    nothing: World,
    other_keys: World,
    other_store: World,
}

impl Stores {
    /// All of them.
    pub fn new(alloc: Global) -> anyhow::Result<Stores> {
        let keys = device_keys();
        Ok(Stores {
            now: store_after(alloc, &keys, &ACTS, 1)?,
            older: store_after(alloc, &keys, &ACTS[..2], 1)?,
            oldest: store_after(alloc, &keys, &ACTS[..1], 1)?,
            nothing: World::blank(alloc)?,
            other_keys: store_after(alloc, &other_keys(), &ACTS, 1)?,
            other_store: store_after(alloc, &keys, &OTHER_ACTS, 50)?,
        })
    }

    // The store after the first acts.
    fn after(&self, acts: usize) -> &World {
        match acts {
            1 => &self.oldest,
            2 => &self.older,
            _ => &self.now,
        }
    }
}

// What is told of the store in these files. A store of before is told only where it was put there.
fn outcome_in(alloc: Global, world: &World, is_older: bool) -> anyhow::Result<Outcome> {
    let reopened = reopen(alloc, world)?;
    if !reopened.is_same {
        return Ok(Outcome::Lost);
    }
    let contents = match &reopened.found {
        Found::Refused(_) => return Ok(Outcome::Refused),
        Found::Made => return Ok(Outcome::Lost),
        Found::Store(contents) => contents,
    };
    Ok(match contents.standing(&NOW) {
        Standing::Same => Outcome::Same,
        Standing::Damaged => Outcome::Refused,
        Standing::Other if is_older && (contents.are(&OLDER) || contents.are(&OLDEST)) => {
            Outcome::Older
        }
        Standing::Other => Outcome::Lost,
    })
}

// A bit of a byte of the card's file is altered.
fn try_bit(alloc: Global, now: &World, at: usize, tally: &mut Altered) -> anyhow::Result<()> {
    let world = now.with_bit(alloc, Place::Card, at)?;
    tally.add(outcome_in(alloc, &world, false)?);
    Ok(())
}

// A bit of each byte of the card's file is altered, from one place up to another.
fn tally_bits(alloc: Global, now: &World, from: usize, upto: usize) -> anyhow::Result<Altered> {
    let mut tally = Altered::new();
    for at in from..upto {
        try_bit(alloc, now, at, &mut tally)?;
    }
    Ok(tally)
}

// A bit of each so many byte of the card's file is altered, from a place on.
fn tally_strides(alloc: Global, now: &World, from: usize) -> anyhow::Result<Altered> {
    let mut tally = Altered::new();
    for at in from..now.bytes(Place::Card).len() {
        if at % STRIDE == 0 {
            try_bit(alloc, now, at, &mut tally)?;
        }
    }
    Ok(tally)
}

// Each file in turn has zero bytes, as many.
fn tally_zeros(alloc: Global, now: &World) -> anyhow::Result<Altered> {
    let mut tally = Altered::new();
    for place in FILES {
        let zeros = vec![in alloc; 0u8; now.bytes(place).len()]?;
        let world = now.with(alloc, place, zeros.as_slice())?;
        tally.add(outcome_in(alloc, &world, false)?);
    }
    Ok(tally)
}

// Each file in turn is that of another store.
fn tally_others(alloc: Global, now: &World, other: &World) -> anyhow::Result<Altered> {
    let mut tally = Altered::new();
    for place in FILES {
        let world = now.with(alloc, place, other.bytes(place))?;
        tally.add(outcome_in(alloc, &world, false)?);
    }
    Ok(tally)
}

// These files are older.
fn tally_older(
    alloc: Global,
    now: &World,
    older: &World,
    files: &[Place],
) -> anyhow::Result<Altered> {
    let mut tally = Altered::new();
    let mut world = now.copy(alloc)?;
    for place in files {
        world = world.with(alloc, *place, older.bytes(*place))?;
    }
    tally.add(outcome_in(alloc, &world, true)?);
    Ok(tally)
}

impl Alteration {
    /// Alters the store in each way of the row.
    pub fn tally(&self, alloc: Global, stores: &Stores) -> anyhow::Result<Altered> {
        let now = &stores.now;
        match self.kind {
            Kind::Bits { from, upto } => tally_bits(alloc, now, from, upto),
            Kind::Strides { from } => tally_strides(alloc, now, from),
            Kind::Missing => tally_others(alloc, now, &stores.nothing),
            Kind::Zeros => tally_zeros(alloc, now),
            Kind::OtherKeys => tally_others(alloc, now, &stores.other_keys),
            Kind::OtherStore => tally_others(alloc, now, &stores.other_store),
            Kind::Older { acts, files } => tally_older(alloc, now, stores.after(acts), files),
        }
    }
}
