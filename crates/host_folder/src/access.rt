// What a file is opened for.

/// What a file of a folder is opened for.
#[derive(Clone, Copy, Debug, PartialEq, Eq)]
pub enum Access {
    /// Reading alone: each write fails, and the file is never made.
    Read,
    /// The same, but a file that is not there reads as one of no bytes.
    ReadIfThere,
    /// Reading and writing.
    Write,
}
