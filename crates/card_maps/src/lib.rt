//! Small objects in the blocks of a card of the replay-protected memory block, RPMB (JEDEC eMMC standard JESD84-B51, 6.6.22),
//! in this project's profile of the card store of OP-TEE: which blocks hold them, which map of objects the blocks give, and a
//! table of them.
#![tactic(auto)]

mod change;
mod entry;
mod form;
mod laws;
mod name;
mod table;

pub use change::TableChange;
pub use entry::{BLOCK, CardEntry, data_blocks};
pub use form::{MAX_CARD_BYTES, is_live, map_fault};
pub use laws::{
    course_laws, free_card_writes_keep_maps, free_writes_keep_maps, map_card_writes_clear,
    map_card_writes_flip, map_writes_clear, map_writes_flip, runs_keep_block_zero,
};
pub use name::CardName;
pub use table::CardTable;
