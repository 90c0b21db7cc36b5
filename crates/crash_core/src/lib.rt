//! What a crash may leave of the store, and what that mounts as.
//!
//! It has definitions and laws: the object that an entry of the directory mounts as, over any image of its file, and what changes
//! of the bytes of that file are for the object; the directory that a reference names in an image, and the block of the card that
//! names the directory; the map that a picture of the device set mounts to; and the core machine, whose steps are single writes,
//! syncs and events, with the law that every picture mounts to the map of its history. Of a store whose files move into another format
//! it has what keeps that map at every moment.
#![tactic(auto)]

mod change;
mod core_laws;
mod directory_laws;
mod fault;
mod laws;
mod migration_laws;

pub use change::{DoubtedChange, EntryChange};
pub use core_laws::{every_picture_mounts, honest_pictures_mount, openings_are_starts};
pub use directory_laws::{blocks_are_read_back, directories_are_opened, directories_have_entries};
pub use fault::DirFault;
pub use laws::{lengths_are_sizes, writes_are_of_objects};
pub use migration_laws::{
    calls_migrate, copies_migrate, directories_migrate, entries_migrate, exchanges_migrate,
    migrations_follow, migrations_keep_maps, rests_migrate, stages_migrate,
};
