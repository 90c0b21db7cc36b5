//! Scripts of applications and the text of a run: the grammar both ways.
//!
//! `parse` reads a script. `print_phase`, `print_event`, `print_refused_call`, `print_control` and `print_migration` write the lines of a run,
//! and the `put_` functions the words of a line. Scripts of another kind are read by the same words and values (`words`, `values`).
#![tactic(auto)]

mod append_text;
mod bad_blocks;
mod calls;
mod controls;
pub mod laws;
mod print_call;
mod print_lines;
mod print_reply;
mod reading;
mod script;
pub mod values;
pub mod words;

pub use append_text::{
    put, put_bytes, put_hex, put_number, put_uuid, put_word_bytes, put_word_hex, put_word_number,
};
pub use bad_blocks::put_bad;
pub use print_lines::{
    print_control, print_event, print_migration, print_phase, print_refused_call,
};
pub use reading::{ScriptFault, parse};
pub use script::{Arm, Control, Mode, Script, Step};
