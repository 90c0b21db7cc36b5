// Bytes that are altered while they are read.

use crate::base::Base;
use crate::outcome::{Outcome, Tally};
use crate::told::{Told, answer_of};
use node_image::{FORMAT, block_offset, head_offset, node_offset};
use std::alloc::Global;
use tee_ports::FileRig;

// What may be told: the right bytes, or that they were altered.
fn outcome_of(told: Told) -> Outcome {
    match told {
        Told::Opens => Outcome::Before,
        Told::BadHead => Outcome::Refused,
        Told::Damaged => Outcome::Refused,
        Told::BadTag(_) => Outcome::Refused,
        _ => Outcome::Lost,
    }
}

// How many calls a load and a read of all data make.
fn calls_of(alloc: Global, base: &Base) -> anyhow::Result<u64> {
    let (file, _) = crate::objects::opens(alloc, base.file(alloc)?, &base.named, &base.data);
    Ok(file.calls())
}

/// Lays a mask over the head, a node and a block, before each call of a load and a read.
pub fn tally(alloc: Global) -> anyhow::Result<Tally> {
    let base = Base::new(alloc, 5000)?;
    let places = [
        head_offset(FORMAT, 0),
        node_offset(FORMAT, 1, 0),
        node_offset(FORMAT, 3, 0),
        block_offset(FORMAT, 0, 0),
        block_offset(FORMAT, 2, 0),
    ];
    let mut tally = Tally::new();
    tally.calls = calls_of(alloc, &base)?;
    for call in 0..tally.calls.min(1000) {
        for place in places {
            let mut file = base.file(alloc)?;
            file.taint_call(call + 1, place, &[1])?;
            tally.add(outcome_of(answer_of(alloc, file, &base.named, &base.data)));
        }
    }
    Ok(tally)
}
