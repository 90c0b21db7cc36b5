//! The open handles of all sessions, each with the number of the file that its object lies in
//! (TEE Internal Core API, Trusted Storage: TEE_OpenPersistentObject, the table of sharing).
#![tactic(auto)]

mod table;

pub use table::{OpenRecord, OpenTable};
