//! A simulated card whose content outlives the process: a file keeps its blocks, each as the request that wrote it last.
//!
//! It is for trials of a store over files of the host. It protects nothing: whoever can write the file can put an older
//! one in its place, which a real card prevents.
#![tactic(auto)]

mod card_fault;
mod card_file;
mod kept_card;
mod laws;
mod reading;
mod versions;

pub use card_fault::CardFault;
pub use kept_card::{CardBroken, KeptCard};
pub use laws::torn_files_keep_no_more_than_one_write;
pub use reading::read_card;
