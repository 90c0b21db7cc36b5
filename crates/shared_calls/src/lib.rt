//! The calls of a store that threads serve beside each other: the gate and the slot of each object's file stand each behind a lock of its
//! own.
//!
//! A call gives the gate's lock back while the object's file is at work. So it is validated at the gate more than once. What it found at one
//! time may be gone at the next: then the call begins again. Nothing is said of the gate and the slots behind a call, since others have
//! changed them by then; of its session, that its event stands in the one history at the place that the answer names.
//!
//! With what always holds of a gate and of a slot stands, behind their locks, what their devices counted since the store was shared, and that
//! the replies in the history carry these counts (`SharedGate`, `SharedSlot`).
#![tactic(auto)]

mod calls;
mod create_call;
mod data_calls;
mod delete_call;
mod devices_name;
mod forecasting;
mod gate_entry;
mod gate_lock;
mod info_call;
mod open_call;
mod read_call;
mod rename_call;
mod shared_gate;
mod shared_slot;
mod slot_catch_up;
mod truncate_call;
mod validation;
mod write_call;

pub use calls::{attempt, attempt_at_once, file_of};
pub use devices_name::DevicesName;
pub use forecasting::forecast;
pub use gate_lock::spin_then_lock;
pub use serial_calls::{GuardedGate, GuardedSlot, PlacedReply, QuotaOutcome, Session, StoreName};
pub use shared_gate::SharedGate;
pub use shared_slot::SharedSlot;
pub use validation::Validation;
