//! The audit of a folder into which a store was exported: the store in it is read under the card's block that stands behind its files, and
//! of each object that its directory names a line is made. The line has the length and the SHA-256 of a certificate of the object, which
//! was checked before; or the numbers of the bad blocks; or it says that the object is damaged as a whole. Neither bench nor card is called.
#![tactic(auto)]

mod block;
mod certifying;
mod directory;
mod entries;
mod fault;
mod finding;
mod folder;
mod laws;
mod lines;
mod objects;
mod order;
mod reading;

pub use block::read_block;
pub use fault::{Audit, AuditFault};
pub use folder::{audit_folder, audit_folder_under};
pub use laws::audited_objects_hold;
