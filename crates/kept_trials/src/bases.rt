// What lies there before a step.

use crate::acts::{Act, Told};
use crate::devices::Devices;
use crate::opening::{device_keys, draws};
use crate::steps::{End, Step, take};
use crate::world::{Place, World};
use anyhow::bail;
use hmac_keys::{Keys, rpmb_key};
use host_card::KeptCard;
use kept_store::Asked;
use object_calls::{Bench, card_block};
use std::alloc::Global;

/// What lies there.
#[derive(Clone, Copy)]
pub enum Base {
    /// Nothing.
    Nothing,
    /// A store in which these acts were done, each in a step of its own.
    Store(&'static [Act]),
    /// The same, exported: its card's block lies beside it, and no card.
    Export(&'static [Act]),
}

// The number of the first step of a base.
const FIRST: u16 = 1;

/// The steps of bases have numbers below this one.
pub const FREE: u16 = 100;

/// Takes a step in which nothing goes wrong, and gives what lies there then.
pub fn taken(alloc: Global, world: &World, keys: &Keys, step: &Step<'_>) -> anyhow::Result<World> {
    let devices = Devices::of(alloc, world)?;
    let ended = take(alloc, devices, world.seen(), keys, step)?;
    match &ended.end {
        End::Served(told) if told.iter().all(|told| *told == Told::Done) => {}
        _ => bail!("a step that was not done"),
    }
    Ok(ended.devices.world(alloc)?)
}

/// A store of these keys after acts, each in a step of its own. The numbers of the steps begin with this one.
pub fn store_after(alloc: Global, keys: &Keys, acts: &[Act], first: u16) -> anyhow::Result<World> {
    let mut number = first;
    let made = Step {
        asked: Asked::Create,
        acts: &[],
        number,
    };
    let mut world = taken(alloc, &World::blank(alloc)?, keys, &made)?;
    for act in acts {
        number = number.wrapping_add(1);
        let step = Step {
            asked: Asked::Open,
            acts: &[*act],
            number,
        };
        world = taken(alloc, &world, keys, &step)?;
    }
    Ok(world)
}

/// The block 0 of the card that is kept there.
pub fn block_zero(alloc: Global, world: &World) -> anyhow::Result<[u8; 256]> {
    let keys = device_keys();
    let Devices { files, card, .. } = Devices::of(alloc, world)?;
    let Ok(card) = KeptCard::open(alloc, card, rpmb_key(&keys)) else {
        bail!("no card")
    };
    match card_block(Bench { files, card }, &keys, &mut draws(0)) {
        Ok(read) => Ok(read.block),
        Err(_) => bail!("no block"),
    }
}

impl Base {
    /// What lies there.
    pub fn world(self, alloc: Global) -> anyhow::Result<World> {
        match self {
            Base::Nothing => Ok(World::blank(alloc)?),
            Base::Store(acts) => store_after(alloc, &device_keys(), acts, FIRST),
            Base::Export(acts) => {
                let world = store_after(alloc, &device_keys(), acts, FIRST)?;
                let block = block_zero(alloc, &world)?;
                let world = world.with(alloc, Place::Block, &block)?;
                Ok(world.with(alloc, Place::Card, &[])?)
            }
        }
    }
}
