//! One history, seen in prefixes: a table whose word is the history's length, and the seats of the gate, of files and of sessions.
//!
//! A session's seat may be cut in two halves, for its caller and for one who keeps the other: no event of the session is appended but with
//! both, and whoever shows the kept half the history learns that the session has no event past its view.
#![tactic(auto)]

mod gate;
pub mod laws;
mod rule;
mod seats;
mod steps;

pub use gate::{Appended, Halves, Refreshed};
pub use seats::{GateSeat, HalfSeat, HistoryTable, KeptSeat, PassSeat, SlotSeat};
