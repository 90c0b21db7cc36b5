//! Freshness of a run: whatever was done to a bench's files since it was closed, what is mounted or listed next agrees with what it held
//! then, or a collision or a forgery is shown. Definitions and laws alone.
#![tactic(auto)]

mod laws;

pub use laws::{
    courses_are_fresh, lists_are_fresh, mounts_are_fresh, mounts_have_same_entries,
    phases_begin_beside, runs_are_fresh,
};
