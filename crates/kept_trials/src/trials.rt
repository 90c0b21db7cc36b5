// Tries of a scenario: each call of each file goes wrong.

use crate::acts::Told;
use crate::arms::{Arm, Way};
use crate::bases::FREE;
use crate::causes::is_of;
use crate::devices::Devices;
use crate::opening::device_keys;
use crate::outcome::{Outcome, Tally};
use crate::reopening::{Found, Reopened, reopen};
use crate::scenarios::Scenario;
use crate::steps::{End, Step, take};
use crate::world::{Place, World};
use anyhow::bail;
use kept_store::Seen;
use std::alloc::Global;

/// More calls of a file than a step makes.
const MOST_CALLS: u64 = 2000;

/// An opening reads the card's file by so many calls, and calls one to three are no such reads.
const READS: u64 = 1020;

/// Of these reads each so many one is tried.
const STRIDE: u64 = 15;

/// What goes wrong in a try.
#[derive(Clone, Copy)]
struct Trouble {
    place: Place,
    call: u64,
    arm: Arm,
    seed: u64,
}

// What stands where the step was told so. The next opening writes nothing.
fn outcome_of_told(scenario: &Scenario, told: Told, reopened: &Reopened) -> Outcome {
    if !reopened.is_same {
        return Outcome::Lost;
    }
    let before = scenario.before.is(&reopened.found);
    let after = scenario.after.is(&reopened.found);
    match told {
        Told::Done if after => Outcome::After,
        Told::NotDone if before => Outcome::Before,
        Told::InDoubt if before || after => Outcome::InDoubt,
        _ => Outcome::Lost,
    }
}

// What stands where no store was opened in the step, but something was written.
fn outcome_of_cut(scenario: &Scenario, reopened: &Reopened) -> Outcome {
    if scenario.before.is(&reopened.found) {
        return Outcome::Before;
    }
    if scenario.after.is(&reopened.found) {
        return Outcome::InDoubt;
    }
    match &reopened.found {
        Found::Refused(_) if reopened.is_same => Outcome::Refused,
        _ => Outcome::Lost,
    }
}

// What was told of the step where the store was opened.
fn told_of(told: &[Told]) -> Told {
    match told.first() {
        Some(told) => *told,
        None => Told::Done,
    }
}

// What stands behind a step that left these files.
fn outcome_of(
    alloc: Global,
    scenario: &Scenario,
    base: &World,
    trouble: Trouble,
    end: &End,
    left: &World,
) -> anyhow::Result<Outcome> {
    match end {
        End::Served(told) => {
            let reopened = reopen(alloc, left)?;
            Ok(outcome_of_told(scenario, told_of(told.as_slice()), &reopened))
        }
        End::Refused(fault) if !is_of(*fault, trouble.place) => Ok(Outcome::Lost),
        End::Refused(_) if left.is(base) => Ok(Outcome::Refused),
        End::Refused(_) => Ok(outcome_of_cut(scenario, &reopen(alloc, left)?)),
    }
}

// One try. Says whether the call was made.
fn try_trouble(
    alloc: Global,
    scenario: &Scenario,
    base: &World,
    trouble: Trouble,
) -> anyhow::Result<(bool, Outcome)> {
    let step = Step {
        asked: scenario.asked,
        acts: scenario.acts,
        number: FREE,
    };
    let mut devices = Devices::of(alloc, base)?;
    devices.arm(trouble.place, trouble.arm)?;
    let ended = take(alloc, devices, base.seen(), &device_keys(), &step)?;
    let mut devices = ended.devices;
    let was_made = trouble.call <= devices.calls(trouble.place);
    devices.crash(trouble.seed)?;
    let left = devices.world(alloc)?;
    let outcome = outcome_of(alloc, scenario, base, trouble, &ended.end, &left)?;
    Ok((was_made, outcome))
}

// Tries a call with each seed. Says whether it was made.
fn try_call(
    alloc: Global,
    scenario: &Scenario,
    base: &World,
    way: Way,
    place: Place,
    call: u64,
    tally: &mut Tally,
) -> anyhow::Result<bool> {
    let mut was_made = false;
    for seed in way.seeds().iter().take(way.seed_count()) {
        let trouble = Trouble {
            place,
            call,
            arm: way.arm(call),
            seed: *seed,
        };
        let (made, outcome) = try_trouble(alloc, scenario, base, trouble)?;
        tally.add(outcome);
        was_made = made;
    }
    Ok(was_made)
}

// The call that is tried behind that one. Where a card is opened, some of the reads of its file are left out.
fn next_call(base: &World, place: Place, call: u64) -> u64 {
    let reads = place == Place::Card && base.seen() == Seen::Card;
    let next = call.saturating_add(STRIDE);
    if reads && 3 <= call && next < READS {
        next
    } else {
        call.saturating_add(1)
    }
}

// Tries the calls of a file, until one is not made any more.
fn try_file(
    alloc: Global,
    scenario: &Scenario,
    base: &World,
    way: Way,
    place: Place,
    tally: &mut Tally,
) -> anyhow::Result<()> {
    let mut call = 1;
    for _ in 0..MOST_CALLS {
        if !try_call(alloc, scenario, base, way, place, call, tally)? {
            return Ok(());
        }
        call = next_call(base, place, call);
    }
    bail!("too many calls")
}

/// Tries the calls of all files.
pub fn tally(alloc: Global, scenario: &Scenario, base: &World, way: Way) -> anyhow::Result<Tally> {
    let mut tally = Tally::new();
    for place in Place::USED {
        try_file(alloc, scenario, base, way, place, &mut tally)?;
    }
    Ok(tally)
}
