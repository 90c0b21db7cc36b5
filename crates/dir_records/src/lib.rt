//! Records of the directory: 128 bytes each, which hold the entry of an object or are free.
//!
//! An entry tells an object's application, identifier and sizes, and which file holds it under which root. Numbers are
//! big-endian, offsets count bytes from 0.
#![tactic(auto)]

mod entry;
mod form;

pub use entry::{BadRecord, DirEntry};
