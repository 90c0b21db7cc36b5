// Single runs, each with one right end.

use crate::acts::{Act, Told};
use crate::arms::Arm;
use crate::bases::{Base, FREE, block_zero, taken};
use crate::devices::Devices;
use crate::objects::Object;
use crate::opening::device_keys;
use crate::reopening::{Found, reopen};
use crate::scenarios::{A, B, C, NEW_A};
use crate::steps::{End, Ended, Step, take};
use crate::wear::is_read_alike;
use crate::world::{Place, World};
use anyhow::bail;
use hmac_keys::rpmb_key;
use host_card::KeptCard;
use kept_store::{Asked, OpenFault};
use mem_files::MemFile;
use std::alloc::Global;
use tee_ports::FileRig;

/// A run.
#[derive(Clone, Copy)]
pub enum Run {
    /// All syncs of the card's file fail behind the opening's, and an object is replaced.
    SyncsFail,
    /// Two calls of the card's file fail, while two objects are put beside one.
    TwoCallsFail,
    /// The card's file loses its bytes, and gets them back.
    CardGone,
    /// An exported store is opened and changed, and the card's file loses its bytes.
    TakenCardGone,
    /// A block that was exported lies beside a store that has its card.
    BlockBeside,
    /// A card that was never written lies beside a directory.
    BlankCard,
    /// The card is written 200,000 times.
    ManyChanges,
}

impl Run {
    /// All runs, in the order of their lines.
    pub const ALL: [Run; 7] = [
        Run::SyncsFail,
        Run::TwoCallsFail,
        Run::CardGone,
        Run::TakenCardGone,
        Run::BlockBeside,
        Run::BlankCard,
        Run::ManyChanges,
    ];

    /// The run in words.
    pub fn name(self) -> &'static str {
        match self {
            Run::SyncsFail => "each sync of the card's file fails behind the opening's",
            Run::TwoCallsFail => "two calls of the card's file fail, while two objects are put",
            Run::CardGone => "the card's file without bytes, and with them again",
            Run::TakenCardGone => "an exported store is changed, and its card's file has no bytes",
            Run::BlockBeside => "an exported block beside a store with its card",
            Run::BlankCard => "a card that was never written beside a directory",
            Run::ManyChanges => "200,000 changes of the card, and how it is read then",
        }
    }

    /// Whether it ends as it is to.
    pub fn ends_well(self, alloc: Global) -> anyhow::Result<bool> {
        match self {
            Run::SyncsFail => syncs_fail(alloc),
            Run::TwoCallsFail => two_calls_fail(alloc),
            Run::CardGone => card_gone(alloc),
            Run::TakenCardGone => taken_card_gone(alloc),
            Run::BlockBeside => block_beside(alloc),
            Run::BlankCard => blank_card(alloc),
            Run::ManyChanges => is_read_alike(alloc),
        }
    }
}

/// A store with one object.
const BASE: Base = Base::Store(&[Act::Put(A)]);

// Opens the store, does acts while these calls of the card's file fail, and closes it.
fn acted(alloc: Global, world: &World, acts: &[Act], failing: &[u64]) -> anyhow::Result<Ended> {
    let step = Step {
        asked: Asked::Open,
        acts,
        number: FREE,
    };
    let mut devices = Devices::of(alloc, world)?;
    for call in failing {
        devices.arm(Place::Card, Arm::Fails(*call))?;
    }
    take(alloc, devices, world.seen(), &device_keys(), &step)
}

// How many calls of the card's file that makes, where none fails.
fn card_calls(alloc: Global, world: &World, acts: &[Act]) -> anyhow::Result<u64> {
    Ok(acted(alloc, world, acts, &[])?.devices.calls(Place::Card))
}

// What was told of the act of that number.
fn told_of(end: &End, number: usize) -> anyhow::Result<Told> {
    let End::Served(told) = end else {
        bail!("no store is opened")
    };
    match told.get(number) {
        Some(told) => Ok(*told),
        None => bail!("nothing is told"),
    }
}

// Whether these objects are found.
fn is_found(alloc: Global, world: &World, objects: &[Object]) -> anyhow::Result<bool> {
    let reopened = reopen(alloc, world)?;
    match &reopened.found {
        Found::Store(contents) => Ok(contents.are(objects)),
        _ => Ok(false),
    }
}

// Whether no store is opened, since the card is missing, and no byte is changed.
fn is_missing_card(alloc: Global, world: &World) -> anyhow::Result<bool> {
    let reopened = reopen(alloc, world)?;
    match &reopened.found {
        Found::Refused(OpenFault::CardMissing) => Ok(reopened.is_same),
        _ => Ok(false),
    }
}

// The last call of a put is the sync of its write. Where it fails, the next calls write and sync again.
fn syncs_fail(alloc: Global) -> anyhow::Result<bool> {
    let world = BASE.world(alloc)?;
    let acts = [Act::Put(NEW_A)];
    let sync = card_calls(alloc, &world, &acts)?;
    let mut failing = Vec::new(alloc);
    for more in 0..20u64 {
        failing.push(sync.saturating_add(2 * more))?;
    }
    let ended = acted(alloc, &world, &acts, failing.as_slice())?;
    let left = ended.devices.world(alloc)?;
    let is_old = is_found(alloc, &left, &[A])?;
    match told_of(&ended.end, 0)? {
        Told::NotDone => Ok(is_old),
        Told::InDoubt => Ok(is_old || is_found(alloc, &left, &[NEW_A])?),
        Told::Done | Told::Wrong => Ok(false),
    }
}

/// Objects beside the first one.
#[derive(Clone, Copy)]
struct Beside {
    b: bool,
    c: bool,
    objects: &'static [Object],
}

const BESIDE: [Beside; 4] = [
    Beside {
        b: false,
        c: false,
        objects: &[A],
    },
    Beside {
        b: true,
        c: false,
        objects: &[A, B],
    },
    Beside {
        b: false,
        c: true,
        objects: &[A, C],
    },
    Beside {
        b: true,
        c: true,
        objects: &[A, B, C],
    },
];

// Whether an object may be there, or not, where its put was told so.
fn may_be(told: Told, is_there: bool) -> bool {
    match told {
        Told::Done => is_there,
        Told::NotDone => !is_there,
        Told::InDoubt => true,
        Told::Wrong => false,
    }
}

// Whether the first object is found, and each of the others as it was told.
fn stands_as_told(alloc: Global, left: &World, b: Told, c: Told) -> anyhow::Result<bool> {
    let reopened = reopen(alloc, left)?;
    let Found::Store(contents) = &reopened.found else {
        return Ok(false);
    };
    for beside in BESIDE {
        if may_be(b, beside.b) && may_be(c, beside.c) && contents.are(beside.objects) {
            return Ok(true);
        }
    }
    Ok(false)
}

// Tries each call behind the opening, and with it each that comes behind it. In some of these tries both puts fail.
fn two_calls_fail(alloc: Global) -> anyhow::Result<bool> {
    let world = BASE.world(alloc)?;
    let acts = [Act::Put(B), Act::Put(C)];
    let first_call = card_calls(alloc, &world, &[])?.saturating_add(1);
    let upto = card_calls(alloc, &world, &acts)?.saturating_add(1);
    let mut both_failed = false;
    for first in first_call..upto {
        for second in first..upto.saturating_add(8) {
            let ended = acted(alloc, &world, &acts, &[first, second])?;
            let b = told_of(&ended.end, 0)?;
            let c = told_of(&ended.end, 1)?;
            if !stands_as_told(alloc, &ended.devices.world(alloc)?, b, c)? {
                return Ok(false);
            }
            both_failed = both_failed || b != Told::Done && c != Told::Done;
        }
    }
    Ok(both_failed)
}

fn card_gone(alloc: Global) -> anyhow::Result<bool> {
    let world = BASE.world(alloc)?;
    let gone = world.with(alloc, Place::Card, &[])?;
    Ok(is_missing_card(alloc, &gone)? && is_found(alloc, &world, &[A])?)
}

fn taken_card_gone(alloc: Global) -> anyhow::Result<bool> {
    let exported = Base::Export(&[Act::Put(A)]).world(alloc)?;
    let step = Step {
        asked: Asked::Open,
        acts: &[Act::Put(NEW_A)],
        number: FREE,
    };
    let world = taken(alloc, &exported, &device_keys(), &step)?;
    let gone = world.with(alloc, Place::Card, &[])?;
    Ok(is_found(alloc, &world, &[NEW_A])? && is_missing_card(alloc, &gone)?)
}

fn block_beside(alloc: Global) -> anyhow::Result<bool> {
    let older = BASE.world(alloc)?;
    let block = block_zero(alloc, &older)?;
    let world = Base::Store(&[Act::Put(A), Act::Put(NEW_A)]).world(alloc)?;
    let beside = world.with(alloc, Place::Block, &block)?;
    let reopened = reopen(alloc, &beside)?;
    match &reopened.found {
        Found::Store(contents) => Ok(reopened.is_same && contents.are(&[NEW_A])),
        _ => Ok(false),
    }
}

fn blank_card(alloc: Global) -> anyhow::Result<bool> {
    let world = BASE.world(alloc)?;
    let key = rpmb_key(&device_keys());
    let Ok(card) = KeptCard::create(alloc, MemFile::new(alloc), key) else {
        bail!("no card is made")
    };
    let image = card.into_file().save()?;
    is_missing_card(alloc, &world.with(alloc, Place::Card, image.bytes())?)
}
