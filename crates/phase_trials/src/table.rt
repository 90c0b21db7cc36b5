// The lines of the table.

use crate::power_cuts::Cuts;
use std::alloc::{AllocError, Global};
use trial_runs::{Device, Mishap, table_head, table_row};

/// How wide the columns of numbers are.
const NUMBERS: [usize; 6] = [6, 7, 8, 7, 6, 9];

/// The head of the table of cuts.
pub fn cut_head_line(alloc: Global) -> Result<String, AllocError> {
    table_head(
        alloc,
        &["power cuts", "device", "mishap"],
        &["calls", "cuts", "told", "landed", "lost", "invented"],
        &NUMBERS,
    )
}

/// A line of the table of cuts.
pub fn cut_line(
    alloc: Global,
    device: Device,
    mishap: Mishap,
    calls: u64,
    cuts: &Cuts,
) -> Result<String, AllocError> {
    let counts = [
        calls,
        cuts.cuts,
        cuts.told,
        cuts.landed,
        cuts.lost,
        cuts.invented,
    ];
    table_row(
        alloc,
        &["phase on threads", device.name(), mishap.name()],
        &counts,
        &NUMBERS,
    )
}
