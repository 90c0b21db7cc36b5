//! What a run does to its devices, act by act: a store is formatted or found, phases are served, files crash or are
//! altered, objects are listed, and a store of an old format is migrated.
//!
//! A phase mounts the devices, opens a session for each application, arms the devices, serves the calls as its mode says, closes the store
//! and disarms. In a serial phase the calls are made one after another (`make_calls`); in a phase on threads each application's on a thread
//! of its own (`serve_shared`). A phase that was run is whole: no call of a file was given up for want of memory, and each call has its event.
//!
//! Under quotas a call that would leave its application more than it may have is refused, and has no event (`make_calls_within`,
//! `serve_shared_within`): with the events, the refused calls are those of the phase, each once. A phase without quotas refuses none.
//!
//! Laws say what a phase leaves for the next mount, after a crash or none (`device_laws`), that files stay honest (`untainted_laws`), that
//! events serve the steps of a script (`phase_laws`), and how quotas isolate applications (`quota_laws`). The lines of objects that are
//! listed, and of a store that is refused, are printed here too (`print_object`, `print_refusal`).
#![tactic(auto)]

mod alterations;
mod arming;
mod bench_moving;
mod commitments;
mod crash;
pub mod device_laws;
mod disarming;
mod done_calls;
mod first_opening;
mod line_laws;
mod memory_failures;
mod mounting;
mod object_line;
mod object_list;
mod own_calls;
mod phase;
mod phase_calls;
pub mod phase_laws;
mod quota_closed;
mod quota_crew;
pub mod quota_laws;
mod quota_phase;
mod quota_threads;
mod quota_worker;
mod refusal_line;
mod refused_call;
mod serial_phase;
mod sessions;
mod shared_slots;
mod threads_phase;
pub mod untainted_laws;

pub use alterations::{file_number, flip_file, restore_file, save_files};
pub use app_quota::Quota;
pub use bench_moving::migrate_bench;
pub use crash::crash_files;
pub use first_opening::open_bench;
pub use line_laws::shown_lines_are_of_objects;
pub use memory_failures::{had_memory, starved_counts};
pub use mounting::mount_bench;
pub use object_calls::{Bench, BlockRead, Halted, Migrated, Shown, ShownObject, card_block};
pub use object_line::print_object;
pub use object_list::{Listing, list_objects};
pub use phase::{Phase, PhaseEnd, PhaseOutcome, run_phase};
pub use phase_calls::{make_calls, make_calls_within};
pub use refusal_line::print_refusal;
pub use refused_call::RefusedCall;
pub use serial_phase::serve_serially;
pub use store_commit::MountFault;
pub use threads_phase::{serve_shared, serve_shared_once};
