// The lines of the table.

use crate::tally::Tally;
use std::alloc::{AllocError, Global};
use trial_runs::{Device, Mishap, table_head, table_row};

/// How wide the columns of numbers are.
const NUMBERS: [usize; 5] = [6, 7, 8, 7, 6];

/// The head of the table.
pub fn head_line(alloc: Global) -> Result<String, AllocError> {
    table_head(
        alloc,
        &["act", "device", "mishap"],
        &["calls", "tries", "before", "after", "lost"],
        &NUMBERS,
    )
}

/// A line of the table.
pub fn row_line(
    alloc: Global,
    act: &'static str,
    device: Device,
    mishap: Mishap,
    tally: &Tally,
) -> Result<String, AllocError> {
    table_row(
        alloc,
        &[act, device.name(), mishap.name()],
        &tally.counts(),
        &NUMBERS,
    )
}
