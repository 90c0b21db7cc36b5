//! Slots: each the file of one number, with the object that is loaded from it and the seat of that file. A slot stands behind a lock
//! of its own.
//!
//! A slot is free, where no tree is loaded, or it has an object: a committed one, with or without a settled stage, or one that was made
//! and is not committed. A stage is settled before its reference is given. The pages of a committed object that were read last are kept in
//! memory; what the calls say is the same with them and without, but for how often a read asks the file. What the calls say of an honest
//! file is said in terms of the object; what they say of any file is marked so.
//!
//! A guarded slot is a slot with what always holds of it while its lock is free: what its seat's view says, it has. So who takes the lock
//! knows it, and who gives the lock back has shown it. `fill`, `read` and those that stage are a slot's calls with what they mean for the
//! versions of its file; `attributes` and `size` are of what `fill` left in memory.
#![tactic(auto)]

mod cached;
mod cached_reads;
mod checking;
mod content;
mod creating;
mod fault;
mod guarded_check;
mod guarded_front;
pub mod guarded_laws;
mod guarded_load;
mod guarded_read;
mod guarded_slot;
mod guarded_stage;
mod loading;
mod page_cache;
mod reading;
mod slot;
pub mod slot_laws;
mod staging;

pub use fault::SlotFault;
pub use guarded_check::{check_truncate, check_write};
pub use guarded_front::{attributes, size};
pub use guarded_load::fill;
pub use guarded_read::read;
pub use guarded_slot::GuardedSlot;
pub use guarded_stage::{stage_new, stage_truncate, stage_write};
pub use slot::{Slot, SlotParts};
