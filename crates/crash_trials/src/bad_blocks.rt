// Changes of an object of which one block of data is bad.

use crate::arms::Arm;
use crate::base::Base;
use crate::change::Change;
use crate::objects;
use crate::outcome::{Outcome, Tally};
use crate::told::{Told, answer_of};
use mem_files::MemFile;
use node_image::{FORMAT, block_offset};
use std::alloc::Global;
use tee_ports::FileRig;

/// A change of two blocks of data, of which one is bad: what it is to answer, and what is to be told of the object then.
#[derive(Clone, Copy)]
struct Case {
    /// The bad block. The data begin with block 1.
    bad: u32,
    change: Change,
    /// The change names the bad block, and nothing is written.
    is_refused: bool,
    after: Told,
}

const CASES: [Case; 9] = [
    // overwritten whole, in part, and cut away
    Case {
        bad: 1,
        change: Change::Write { at: 0, count: 4096 },
        is_refused: false,
        after: Told::Opens,
    },
    Case {
        bad: 1,
        change: Change::Write { at: 0, count: 1 },
        is_refused: true,
        after: Told::BadTag(1),
    },
    Case {
        bad: 1,
        change: Change::Write { at: 4095, count: 9 },
        is_refused: true,
        after: Told::BadTag(1),
    },
    Case {
        bad: 1,
        change: Change::Truncate { size: 1 },
        is_refused: true,
        after: Told::BadTag(1),
    },
    Case {
        bad: 1,
        change: Change::Truncate { size: 0 },
        is_refused: false,
        after: Told::Opens,
    },
    Case {
        bad: 2,
        change: Change::Truncate { size: 4096 },
        is_refused: false,
        after: Told::Opens,
    },
    // not needed: beside a write, before a cut at its edge, and before a growth from its edge
    Case {
        bad: 1,
        change: Change::Write { at: 4096, count: 1 },
        is_refused: false,
        after: Told::BadTag(1),
    },
    Case {
        bad: 1,
        change: Change::Truncate { size: 4096 },
        is_refused: false,
        after: Told::BadTag(1),
    },
    Case {
        bad: 2,
        change: Change::Truncate { size: 9000 },
        is_refused: false,
        after: Told::BadTag(2),
    },
];

// The file of the base, with a bit of a block turned.
fn with_bad_block(alloc: Global, base: &Base, bad: u32) -> anyhow::Result<MemFile> {
    let mut file = base.file(alloc)?;
    file.flip(block_offset(FORMAT, bad.min(255), 0), &[1]);
    Ok(file)
}

// A change that is refused leaves each byte of the file.
fn outcome_of_refused(alloc: Global, base: &Base, case: Case) -> anyhow::Result<Outcome> {
    let file = with_bad_block(alloc, base, case.bad)?;
    let before = file.save()?;
    let (file, next) = objects::changed(alloc, file, &base.named, case.change, Arm::NONE);
    let is_same = file.save()?.bytes() == before.bytes() && file.written() == 0;
    let told = answer_of(alloc, file, &base.named, &base.data);
    if next.is_none() && is_same && told == case.after {
        Ok(Outcome::Refused)
    } else {
        Ok(Outcome::Lost)
    }
}

// A change that is not refused leaves the new bytes, and the bad block where it was not written.
fn outcome_of_done(alloc: Global, base: &Base, case: Case) -> anyhow::Result<Outcome> {
    let file = with_bad_block(alloc, base, case.bad)?;
    let data = case.change.apply(alloc, &base.data)?;
    let (file, next) = objects::changed(alloc, file, &base.named, case.change, Arm::NONE);
    let Some(next) = next else {
        return Ok(Outcome::Lost);
    };
    if answer_of(alloc, file, &next, &data) == case.after {
        Ok(Outcome::After)
    } else {
        Ok(Outcome::Lost)
    }
}

/// Tries each case.
pub fn tally(alloc: Global) -> anyhow::Result<Tally> {
    let base = Base::new(alloc, 8192)?;
    let mut tally = Tally::new();
    for case in CASES {
        let outcome = if case.is_refused {
            outcome_of_refused(alloc, &base, case)?
        } else {
            outcome_of_done(alloc, &base, case)?
        };
        tally.add(outcome);
    }
    Ok(tally)
}
