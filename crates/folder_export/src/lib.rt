//! A store copied into a folder: each file of the bench into the file of its number, and the card's block 0 into the file behind the last.
#![tactic(auto)]

mod copying;
mod export;
mod fault;

pub use export::{FOLDER_FILES, export_files};
pub use fault::{FileFault, FilePlace};
