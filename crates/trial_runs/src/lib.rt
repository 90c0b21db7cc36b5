//! What trials of `run` share: runs over files in memory and simulated cards, with generators that fail at no draw or at a given one; devices
//! that go wrong and crash; the lines of tables.
#![tactic(auto)]

mod arm_lines;
mod benches;
mod folders;
mod lines;
mod mishaps;
mod runs;

pub use arm_lines::push_arms;
pub use benches::{arm_bench, crash_bench};
pub use folders::new_folder;
pub use lines::{print_line, table_head, table_row};
pub use mishaps::{Device, Mishap, Trouble};
pub use runs::{
    Ended, MOST_CALLS, RanOver, failing, failing_sessions, reliable, run_into, run_script,
    run_words, try_script,
};
pub use script_runner::{
    Bench, CardPort, Excess, FOLDER_FILES, FileFault, FilePlace, RunEnd, Shown, ShownObject,
    SimBench, Status, blank_bench, card_block, print_object, run, simulator_keys, status_number,
    worn,
};
