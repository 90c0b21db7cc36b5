//! Scripts of the objects on the card alone: the grammar both ways.
//!
//! `parse` reads a script. `print_answer` and `print_listed` write the lines of its run.
#![tactic(auto)]

mod card_line;
mod laws;
mod printing;
mod reading;

pub use card_line::{CardLine, CardReply, CardScript};
pub use laws::printed_lines_read_again;
pub use printing::{print_answer, print_listed};
pub use reading::{CardScriptFault, parse};
