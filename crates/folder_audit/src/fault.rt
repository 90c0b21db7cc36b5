//! How an audit ends.

ghost use Rattle.std.specs.Prelude.{◌≡◌};
ghost use Rattle.folder_audit.specs.Objects.{failed_at};

use folder_export::{FileFault, FilePlace};
use store_commit::MountFault;

/// Why an audit ended before its last line.
#[derive(Clone, Copy, Debug, PartialEq, Eq)]
pub enum AuditFault {
    /// There is no store in the folder that could be mounted: why a mount would refuse it.
    Refused(MountFault),
    /// A call of a file of the folder failed.
    Failed(FileFault),
    /// Memory ran out.
    NoMemory,
}

/// The lines of an audit, and how it ended.
#[derive(Drop)]
pub struct Audit {
    /// A line for each object, in the order of their names, up to the end.
    pub lines: Vec<u8>,
    /// Whether each object has its line, or why not.
    pub end: Result<(), AuditFault>,
}

/// A call of the folder's file of that number failed.
pub(crate) fn failed_at(file: u16, count: u64) -> AuditFault
    ensures { result ≡ failed_at file count }
{
    AuditFault::Failed(FileFault {
        place: FilePlace::Folder(file),
        count,
    })
}
