//! The gate of a phase behind its lock: the commit gate of the store with the phase's history, and the sessions that call it.
//!
//! What lies behind the lock is tied together: the directory's entries, the card's counter and the commit in doubt are those that the
//! history leaves, and the open handles are those of the machine's sessions, under each tamper scenario on files that are not honest. Every
//! history that the journal has is fair, and the map of objects is in step with it. A session belongs to one caller; it learns what became
//! of its own commit in doubt as it is shown the history. `core_step_laws` says that the gate is the gate's part of the core machine, and
//! what every picture of a finished store mounts to.
#![tactic(auto)]

mod commit_ends;
pub mod commit_laws;
mod core_step_laws;
mod doubt_outcome;
mod doubt_resolution;
mod end_versions;
mod file_answers;
mod file_hints;
mod file_seats;
mod forecast;
mod gate_answers;
mod gate_catalog;
mod gate_commit;
mod guarded_gate;
mod journal;
mod journal_calls;
mod journal_laws;
pub mod machine_laws;
mod own_doubt;
mod placed_reply;
pub mod reply_laws;
mod session;
mod session_catch_up;
mod session_halves;
mod session_moves;
mod versions_name;

pub use core_step_laws::{
    closed_stores_mount, commits_are_steps, directory_runs_keep, finished_phases_mount,
    honest_stores_mount, releases_are_steps, reserves_are_steps, resolves_are_steps,
    resting_gates_hold, resting_gates_move, seals_keep, tampered_files_are_supposed,
    tied_stores_mount, ties_tell, unchanged_events_are_steps,
};
pub use doubt_outcome::Settled;
pub use end_versions::{MadeVersions, UnmadeVersions};
pub use gate_commit::Committed;
pub use guarded_gate::{Closing, GuardedGate};
pub use journal::Journal;
pub use journal_calls::{AppendedCall, answer, append_call, catch_up, retire_session};
pub use journal_laws::{
    doubtful_calls_move, fresh_sessions_are_callers, made_calls_move, openings_are_journals,
    shown_sessions_extend, unchanged_calls_move,
};
pub use own_doubt::{Landing, OwnDoubt};
pub use placed_reply::PlacedReply;
pub use session::Session;
pub use session_moves::SessionMove;
pub use store_commit::{CommitEnd, DoubtedChange, EntryChange, Resolved};
pub use versions_name::VersionsName;
