//! The whole run of trusted storage: a script is read from a source, its acts are done on the files and the card, and the history of calls
//! and replies goes to a sink. Or the script follows from a number, and five lines say what came of it. Or a store of an old format is
//! migrated, and its objects are listed. Or the store that a script leaves is exported into a folder, or such a folder is audited. Or a script
//! of the objects on the card alone is read, and its lines are done.
//!
//! The program `tee_run` is `run` over the standard streams and the simulated devices (`blank_bench`): files in memory, and a card that has
//! its key.
#![tactic(auto)]

mod act_text;
mod acts;
mod audit_run;
mod card_answers;
mod card_laws;
mod card_lines;
mod card_port;
mod card_refusal;
mod card_run;
mod card_state;
mod controls;
mod export_run;
mod forms;
mod migration_run;
mod mount_refusal;
mod phase_act;
mod phase_text;
mod record_laws;
mod refused_lines;
mod run_state;
mod saved_files;
mod script_source;
mod sim_devices;
mod soak_run;
mod source_run;
mod status;
mod text_sink;
mod top_call;

pub use card_laws::{card_runs_are_of_a_map, card_runs_count, quiet_card_runs_end};
pub use card_port::CardPort;
pub use folder_export::{FOLDER_FILES, FileFault, FilePlace};
pub use forms::{Form, folder_of, form_of, words_have_forms};
pub use phase_text::{PhaseText, send_control, send_lines, send_phase};
pub use record_laws::{
    migrations_end, migrations_tell_no_old_file, opened_runs_are_of_machine,
    quiet_runs_are_of_machine, quiet_runs_end, quota_runs_isolate, runs_count_as_armed,
    runs_find_left, runs_hold_left,
};
pub use run_acts::{Bench, Shown, ShownObject, card_block, print_object};
pub use run_state::RunEnd;
pub use script_source::read_text;
pub use sim_devices::{SimBench, blank_bench, simulator_keys, worn};
pub use status::{Excess, Status, status_number, status_text};
pub use text_sink::flush;
pub use top_call::run;
