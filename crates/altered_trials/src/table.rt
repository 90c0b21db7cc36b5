// The lines of the table.

use crate::altered::{Alteration, Answers};
use std::alloc::{AllocError, Global};
use trial_runs::{table_head, table_row};

/// How wide the columns of numbers are.
const NUMBERS: [usize; 5] = [6, 7, 9, 9, 9];

/// The head of the table of alterations.
pub fn altered_head_line(alloc: Global) -> Result<String, AllocError> {
    table_head(
        alloc,
        &["altered files", "file", ""],
        &["tries", "same", "damaged", "refused", "altered"],
        &NUMBERS,
    )
}

/// A line of the table of alterations.
pub fn altered_line(
    alloc: Global,
    file: &'static str,
    alteration: Alteration,
    answers: &Answers,
) -> Result<String, AllocError> {
    let counts = [
        answers.tries,
        answers.same,
        answers.damaged,
        answers.refused,
        answers.altered,
    ];
    table_row(
        alloc,
        &["four files", file, alteration.name()],
        &counts,
        &NUMBERS,
    )
}
