//! Objects of trusted storage, each in a hash tree of its own.
//!
//! Block 0 of the tree has the object's attributes, and zero bytes behind them. The bytes of its data lie from block 1 on:
//! data byte p stands in byte 4,096 + p of the tree.
#![tactic(auto)]

mod change;
mod check;
mod fault;
mod loading;
mod making;
mod object;

pub use fault::{ObjectBroken, ObjectFault};
pub use object::ObjectFile;
