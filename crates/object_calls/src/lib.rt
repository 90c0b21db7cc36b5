//! The store on its devices: the card's block is read, a store is formatted and mounted, its objects are shown, and it is served and
//! closed. A store of the old format is migrated first: its trees are copied into files of the current one.
//!
//! A mount reads the card's counter and its block 0, syncs and loads the directory, and syncs each file that the directory names. From
//! then on every picture that a crash may leave mounts to the objects that were found. One object at a time is loaded, and none is
//! copied.
//!
//! A store that is served has a slot of each file of an object. Its phase ends with the seats of all slots and sessions taken in. The slots
//! may come in any order then: a file has one seat, so each file comes once, to the place of its number. What a gate, a slot and a journal
//! have to hold as a phase begins follows from what the mount found (`mount_laws`).
#![tactic(auto)]

mod arms;
mod bench;
mod block_reading;
mod current_gate;
mod directory_moving;
mod file_places;
mod file_syncing;
mod formatting;
mod migrating;
mod mount_laws;
mod mounting;
mod object_data;
mod object_moving;
mod object_walk;
mod opening;
mod phase_end;
mod seat_splitting;
mod service;
mod service_call;
mod service_parts;
mod session;
mod shown_object;
mod whole_phase;

pub use bench::{Bench, BlockRead, Halted};
pub use block_reading::card_block;
pub use core_laws::StoreName;
pub use formatting::format;
pub use migrating::{Migrated, migrate};
pub use mount_laws::{mounted_slots_are_guarded, mounts_begin_gates, mounts_tell_entries};
pub use mounting::mount;
pub use opening::Opening;
pub use phase_end::{Closed, close_slots};
pub use serial_calls::{QuotaOutcome, Session};
pub use service::Service;
pub use service_call::Answer;
pub use service_parts::ServiceParts;
pub use session::SessionFault;
pub use shown_object::{Shown, ShownObject};
pub use store_commit::MountFault;
pub use store_model::ObjectName;
pub use whole_phase::{close_at_once, close_unserved};
