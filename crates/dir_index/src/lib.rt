//! The names of the objects in a directory, in order, each with the index of its record.
#![tactic(auto)]

mod held;
mod index;
mod laws;

pub use held::Held;
pub use index::DirIndex;
pub use laws::changes_concern_one_name;
