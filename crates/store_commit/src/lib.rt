//! The commit gate of a store, on one thread: the directory in its file, and the card whose block 0 names it.
//!
//! A commit changes one entry of the directory. Its order is fixed: the directory is staged and settled, then the card's block 0 is
//! written with its result read, and where that is not confirmed the card's counter is read. Whichever call of a device fails, and
//! at every moment, each picture of the directory's file and the card mounts to the entries before the commit or after it.
#![tactic(auto)]

mod arms;
mod block;
mod card;
mod change;
mod commit;
mod fault;
mod form;
mod gate;
mod holds;
mod look;
mod marks;
mod mount;
mod names;
mod note;
mod reading;
mod resolve;
mod staging;
mod sync;

pub use block::{directory_at, root_in};
pub use card::{root_block, write_root};
pub use change::{CardEnd, CommitEnd};
pub use commit::{commit_parts, draw_nonce};
pub use crash_core::{DoubtedChange, EntryChange};
pub use dir_index::Held;
pub use fault::{DirectoryRefused, GateBroken, MountFault};
pub use form::format_parts;
pub use gate::Gate;
pub use reading::{CardRead, read_block, read_card};
pub use resolve::Resolved;
pub use staging::prepare;
pub use sync::check_directory;
