//! Where a run of a script of the card stands between two lines, and how it ends.

use crate::Status;
use rpmb_card::RpmbPort;
use rpmb_files::CardStore;
use tee_ports::Entropy;

/// A run between two lines.
#[derive(Drop)]
pub(crate) struct CardRun<R: RpmbPort + Drop, E: Entropy> {
    /// The store.
    pub store: CardStore<R, E>,
    /// The place of the next line.
    pub at: usize,
    /// Text that was not put yet.
    pub kept: Vec<u8>,
}

/// How a run ended, and the port to the card as it left it.
#[derive(Drop)]
pub(crate) struct CardEnd<R> {
    /// How it ended.
    pub status: Status,
    /// The port.
    pub card: R,
}
