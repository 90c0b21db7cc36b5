//! Files in memory, whose device can be set to fail and to crash.
#![tactic(auto)]

mod bytes;
mod content;
mod crash;
mod memory;
mod taint;

pub use memory::MemFile;
