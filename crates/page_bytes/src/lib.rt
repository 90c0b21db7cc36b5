//! Bytes that lie in blocks of 4,096: which blocks a change of bytes meets, which of them it needs to know, and the pages
//! that it leaves.
#![tactic(auto)]

mod page;
mod range;

pub use range::ByteRange;
