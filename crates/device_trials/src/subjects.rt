// What is tried: an opening or an act, with each call of each device.

use crate::choices::{is_tried, least_tries, seeds_of};
use crate::openings::{Opening, try_opening};
use crate::tally::{Outcome, Tally};
use crate::texts::Texts;
use crate::tries::try_act;
use anyhow::bail;
use std::alloc::Global;
use std::sync::Wait;
use std::thread::Threads;
use trial_runs::{Device, MOST_CALLS, Mishap, Trouble};

/// What is tried.
#[derive(Clone, Copy)]
pub enum Subject<'a> {
    Opening(Opening),
    Act(&'a Texts),
}

impl Subject<'_> {
    /// Its name in the table.
    pub fn name(&self) -> &'static str {
        match self {
            Subject::Opening(opening) => opening.name(),
            Subject::Act(texts) => texts.act.name,
        }
    }

    /// Whether it is tried with that mishap of that device. Behind an opening no call follows, and it has one object at most.
    pub fn has(&self, device: Device, mishap: Mishap) -> bool {
        is_tried(mishap, device)
            && match self {
                Subject::Opening(_) => {
                    mishap != Mishap::Passes
                        && device != Device::File(2)
                        && device != Device::File(3)
                }
                Subject::Act(_) => true,
            }
    }

    // One try.
    fn try_seed<W: Threads + Wait + Sync>(
        &self,
        rt: &W,
        alloc: Global,
        trouble: Trouble,
        seed: u64,
    ) -> anyhow::Result<(bool, Outcome)> {
        match self {
            Subject::Opening(opening) => try_opening(rt, alloc, *opening, trouble, seed),
            Subject::Act(texts) => try_act(rt, alloc, texts, trouble, seed),
        }
    }

    // The tries of one call, one for each seed. Says whether the call was missed.
    fn try_call<W: Threads + Wait + Sync>(
        &self,
        rt: &W,
        alloc: Global,
        trouble: Trouble,
        tally: &mut Tally,
    ) -> anyhow::Result<bool> {
        let mut missed = false;
        for seed in 0..seeds_of(trouble.mishap) {
            let (is_missed, outcome) = self.try_seed(rt, alloc, trouble, seed)?;
            tally.add(outcome);
            missed = is_missed;
        }
        Ok(missed)
    }

    /// Tries each call of a device that may go wrong, until the device makes no more.
    pub fn tally<W: Threads + Wait + Sync>(
        &self,
        rt: &W,
        alloc: Global,
        device: Device,
        mishap: Mishap,
    ) -> anyhow::Result<Tally> {
        let mut tally = Tally::new();
        for call in 0..MOST_CALLS {
            let trouble = Trouble {
                device,
                mishap,
                call,
            };
            if self.try_call(rt, alloc, trouble, &mut tally)? {
                tally.calls = tally.calls.saturating_add(1);
            } else if least_tries(device) <= call.saturating_add(1) {
                return Ok(tally);
            }
        }
        bail!("too many calls")
    }
}
