//! Where a run stands between two acts, and how it ends.

use crate::Status;
use crate::saved_files::SavedFiles;
use run_acts::{Bench, Quota};
use script_text::{Arm, Mode};

/// A run between two acts.
#[derive(Drop)]
pub(crate) struct Run<F, R> {
    /// The bench.
    pub bench: Bench<F, R>,
    /// What was saved of its files.
    pub saved: SavedFiles,
    /// The quotas of the phases to come.
    pub quotas: Vec<Quota>,
    /// The arms that wait for the next phase.
    pub arms: Vec<Arm>,
    /// The number of the next phase.
    pub number: u64,
    /// The mode of the next phase.
    pub mode: Mode,
    /// The place of the next step.
    pub at: usize,
    /// Text that was not put yet.
    pub kept: Vec<u8>,
}

/// How a run ended, and the bench as it left it.
#[derive(Drop)]
pub struct RunEnd<F, R> {
    /// How it ended.
    pub status: Status,
    /// The bench.
    pub bench: Bench<F, R>,
}
