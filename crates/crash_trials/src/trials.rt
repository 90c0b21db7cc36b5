// Tries of a work, with each call and each draw that may fail.

use crate::arms::Arm;
use crate::base::Base;
use crate::objects;
use crate::outcome::{Outcome, Tally};
use crate::work::Work;
use anyhow::bail;
use mem_files::MemFile;
use std::alloc::Global;
use tee_ports::FileRig;

/// With how many seeds each try is crashed, from 0 on.
const SEEDS: u64 = 8;

/// More calls than anything here makes.
const MOST_CALLS: u64 = 1000;

/// What is tried.
#[derive(Drop)]
pub enum Trial {
    /// An object with these data is made.
    Make {
        data: Vec<u8>,
    },
    /// An object is loaded and read.
    Read {
        base: Base,
    },
    /// A work leaves these bytes.
    Change {
        base: Base,
        work: Work,
        new: Vec<u8>,
    },
}

impl Trial {
    /// A work on an object with so many bytes of data.
    pub fn of_work(alloc: Global, size: u16, work: Work) -> anyhow::Result<Trial> {
        let base = Base::new(alloc, size)?;
        let new = work.change().apply(alloc, work.old(&base))?;
        Ok(Trial::Change { base, work, new })
    }

    /// Whether no step fails with that arm, and what stands after a crash.
    pub fn outcome(&self, alloc: Global, arm: Arm, seed: u64) -> anyhow::Result<(bool, Outcome)> {
        match self {
            Trial::Make { data } => after_making(alloc, data, arm, seed),
            Trial::Read { base } => after_reading(alloc, base, arm, seed),
            Trial::Change { base, work, new } => after_work(alloc, base, *work, new, arm, seed),
        }
    }

    // Whether a step that fails can be taken once more.
    fn takes_steps_again(&self) -> bool {
        matches!(
            self,
            Trial::Change {
                work: Work::Object(_),
                ..
            }
        )
    }

    // Tries an arm with each seed, and tells whether no step failed.
    fn try_seeds(&self, alloc: Global, arm: Arm, tally: &mut Tally) -> anyhow::Result<bool> {
        let mut passed = true;
        for seed in 0..SEEDS {
            let (done, outcome) = self.outcome(alloc, arm, seed)?;
            tally.add(outcome);
            passed = passed && done;
        }
        Ok(passed)
    }

    // How many calls fail a step where they fail. The one behind them is tried too.
    fn count_calls(&self, alloc: Global, tally: &mut Tally) -> anyhow::Result<u64> {
        for calls in 0..MOST_CALLS {
            if self.try_seeds(alloc, Arm::Fails(calls + 1), tally)? {
                return Ok(calls);
            }
        }
        bail!("each call fails");
    }

    // The same of draws.
    fn count_draws(&self, alloc: Global, tally: &mut Tally) -> anyhow::Result<u64> {
        for draws in 0..MOST_CALLS {
            if self.try_seeds(alloc, Arm::Draws(draws + 1), tally)? {
                return Ok(draws);
            }
        }
        bail!("each draw fails");
    }

    /// Tries each call that may fail, in each way, and each draw.
    pub fn tally(&self, alloc: Global) -> anyhow::Result<Tally> {
        let mut tally = Tally::new();
        tally.seeds = SEEDS;
        tally.calls = self.count_calls(alloc, &mut tally)?;
        tally.draws = self.count_draws(alloc, &mut tally)?;
        for call in 0..tally.calls.min(MOST_CALLS) {
            self.try_seeds(alloc, Arm::Stops(call + 1), &mut tally)?;
            if self.takes_steps_again() {
                self.try_seeds(alloc, Arm::Again(call + 1), &mut tally)?;
            }
        }
        Ok(tally)
    }
}

// The device comes back.
fn crash(file: &mut MemFile, seed: u64) -> anyhow::Result<()> {
    file.disarm();
    file.crash(seed, 1)?;
    Ok(())
}

// What stands where nothing else is to: the bytes that did before.
fn before(is_old: bool) -> Outcome {
    if is_old {
        Outcome::Before
    } else {
        Outcome::Lost
    }
}

// Where no object was made, one can be made in the file that is left.
fn after_making(
    alloc: Global,
    data: &[u8],
    arm: Arm,
    seed: u64,
) -> anyhow::Result<(bool, Outcome)> {
    let mut file = MemFile::new(alloc);
    arm.set(&mut file)?;
    let (mut file, named) = objects::made(alloc, file, data, &mut arm.entropy());
    crash(&mut file, seed)?;
    if let Some(named) = named {
        let (_, opens) = objects::opens(alloc, file, &named, data);
        return Ok((true, if opens { Outcome::After } else { Outcome::Lost }));
    }
    let (file, named) = objects::made(alloc, file, data, &mut Arm::NONE.entropy());
    let Some(named) = named else {
        return Ok((false, Outcome::Lost));
    };
    let (_, opens) = objects::opens(alloc, file, &named, data);
    Ok((false, before(opens)))
}

// Bytes that are read are the right ones.
fn after_reading(
    alloc: Global,
    base: &Base,
    arm: Arm,
    seed: u64,
) -> anyhow::Result<(bool, Outcome)> {
    let mut file = base.file(alloc)?;
    arm.set(&mut file)?;
    let (mut file, opens) = objects::opens(alloc, file, &base.named, &base.data);
    crash(&mut file, seed)?;
    let (_, is_old) = objects::opens(alloc, file, &base.named, &base.data);
    Ok((opens, before(is_old)))
}

// After a work the new bytes open, and the old ones; before it, the old ones. A step that is taken once more is to pass.
fn after_work(
    alloc: Global,
    base: &Base,
    work: Work,
    new: &[u8],
    arm: Arm,
    seed: u64,
) -> anyhow::Result<(bool, Outcome)> {
    let mut file = base.file(alloc)?;
    arm.set(&mut file)?;
    let (mut file, next) = work.done(alloc, file, &base.named, arm);
    crash(&mut file, seed)?;
    let (file, is_old) = work.opens(alloc, file, &base.named, work.old(base));
    let Some(next) = next else {
        return Ok((false, before(is_old && !arm.is_again())));
    };
    let (_, is_new) = work.opens(alloc, file, &next, new);
    let stands = is_old && is_new;
    Ok((
        true,
        if stands {
            Outcome::After
        } else {
            Outcome::Lost
        },
    ))
}
