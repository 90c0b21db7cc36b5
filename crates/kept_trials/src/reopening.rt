// A store is opened once more, with nothing armed.

use crate::devices::Devices;
use crate::objects::{Contents, read_contents};
use crate::opening::{Opened, closed, device_keys, draws, open};
use crate::world::World;
use kept_store::{Asked, CardPlan, OpenFault, plan_of};
use std::alloc::Global;

/// What is found.
#[derive(Drop)]
pub enum Found {
    /// A store with these objects.
    Store(Contents),
    /// A store that was made by the opening.
    Made,
    /// None is opened.
    Refused(OpenFault),
}

/// What is found, and whether no byte of a file was changed for it.
#[derive(Drop)]
pub struct Reopened {
    pub found: Found,
    pub is_same: bool,
}

// Opens the store and closes it again.
fn reopen_planned(alloc: Global, world: &World, plan: CardPlan) -> anyhow::Result<Reopened> {
    let devices = Devices::of(alloc, world)?;
    match open(alloc, devices, plan, &device_keys(), &mut draws(0)) {
        Ok(Opened { opening, block }) => {
            let mut opening = opening;
            let contents = read_contents(alloc, &mut opening)?;
            let devices = closed(opening.close(), block);
            let found = if devices.directory_written() > 0 {
                Found::Made
            } else {
                Found::Store(contents)
            };
            Ok(Reopened {
                found,
                is_same: devices.world(alloc)?.is(world),
            })
        }
        Err(refused) => Ok(Reopened {
            found: Found::Refused(refused.fault),
            is_same: refused.devices.world(alloc)?.is(world),
        }),
    }
}

/// Opens the store that lies there.
pub fn reopen(alloc: Global, world: &World) -> anyhow::Result<Reopened> {
    match plan_of(Asked::Open, world.seen()) {
        Ok(plan) => reopen_planned(alloc, world, plan),
        Err(fault) => Ok(Reopened {
            found: Found::Refused(fault),
            is_same: true,
        }),
    }
}
