//! Which bytes a crash may leave of a file.
//!
//! A file has settled bytes, which a crash leaves, and spans that changed since its last successful sync. A disk writes whole
//! sectors of 512 bytes, so in each sector that such a span meets a crash may leave anything. An image is a list of bytes that a
//! crash may leave.
#![tactic(auto)]

mod file_laws;
mod span;

pub use file_laws::{masks_undo_themselves, more_spans_leave_more, runs_read_masked};
pub use span::{Change, Span, touched};
