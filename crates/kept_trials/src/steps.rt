// A step in the life of a store: it is opened, acts are done, and it is closed.

ghost use Rattle.std.specs.Prelude.{◌≡◌, vec_len};
ghost use Rattle.tee_types.specs.Limits.{file_count};

use crate::acts::{Act, Told, calls_of, told_of};
use crate::devices::Devices;
use crate::opening::{Opened, closed, draws, open};
use crate::serving::serve_calls;
use hmac_keys::Keys;
use kept_store::{Asked, CardPlan, OpenFault, Seen, plan_of};
use object_calls::Closed;
use std::alloc::Global;

// The sessions draw from streams behind those of the openings.
const SESSIONS: u16 = 1000;

/// A step.
#[derive(Clone, Copy)]
pub struct Step<'a> {
    /// What is asked of the store.
    pub asked: Asked,
    /// What is done then, by one session.
    pub acts: &'a [Act],
    /// Where it draws from: no other step of a store has that number.
    pub number: u16,
}

/// What came of a step.
#[derive(Drop)]
pub enum End {
    /// The store was not opened.
    Refused(OpenFault),
    /// What was told of each act.
    Served(Vec<Told>),
}

/// The devices that a step leaves, and what came of it.
#[derive(Drop)]
pub struct Ended {
    pub devices: Devices,
    pub end: End,
}

// Opens the store, does the acts, and closes it.
fn take_planned(
    alloc: Global,
    devices: Devices,
    plan: CardPlan,
    keys: &Keys,
    step: &Step<'_>,
) -> anyhow::Result<Ended>
    requires { vec_len devices.files ≡ file_count }
{
    let mut entropy = draws(step.number);
    let Opened { opening, block } = match open(alloc, devices, plan, keys, &mut entropy) {
        Ok(opened) => opened,
        Err(refused) => {
            return Ok(Ended {
                devices: refused.devices,
                end: End::Refused(refused.fault),
            });
        }
    };
    let calls = calls_of(alloc, step.acts)?;
    let entropy = draws(step.number.wrapping_add(SESSIONS));
    let Closed { bench, history, .. } = serve_calls(
        alloc,
        opening,
        keys,
        entropy,
        calls.as_slice(),
    )?;
    Ok(Ended {
        devices: closed(bench, block),
        end: End::Served(told_of(alloc, step.acts, &history)?),
    })
}

/// Takes a step, on devices on which this is seen.
pub fn take(
    alloc: Global,
    devices: Devices,
    seen: Seen,
    keys: &Keys,
    step: &Step<'_>,
) -> anyhow::Result<Ended>
    requires { vec_len devices.files ≡ file_count }
{
    match plan_of(step.asked, seen) {
        Ok(plan) => take_planned(alloc, devices, plan, keys, step),
        Err(fault) => Ok(Ended {
            devices,
            end: End::Refused(fault),
        }),
    }
}
