//! A store that threads serve beside each other: the gate, and the slot of each object's file, each behind a lock of its own.
//!
//! A call is validated at the gate, takes the lock of the slot that it needs, and gives the gate's back while the slot's file is at work. It takes the lock
//! of a slot before that of the gate, or, while it has the gate's, only where no other has it.
#![tactic(auto)]

mod store;

pub use shared_calls::{
    DevicesName, GuardedGate, GuardedSlot, PlacedReply, QuotaOutcome, Session, SharedGate,
    SharedSlot, StoreName, forecast,
};
pub use store::SharedStore;
