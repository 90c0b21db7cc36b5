//! Which file failed while a store was copied or read.

/// A file of the bench, or of the folder.
#[derive(Clone, Copy, Debug, PartialEq, Eq)]
pub enum FilePlace {
    /// The file of the bench that has this number.
    Bench(u16),
    /// The file of the folder that has this number.
    Folder(u16),
}

/// A call of a file failed.
#[derive(Clone, Copy, Debug, PartialEq, Eq)]
pub struct FileFault {
    /// The file.
    pub place: FilePlace,
    /// Its count of faults, this one included.
    pub count: u64,
}
