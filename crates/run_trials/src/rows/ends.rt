// How a run ends, in the words of a row.

use std::alloc::{AllocError, Global};
use trial_runs::{Excess, FilePlace, Status};

/// A status in the words of a row.
pub fn status_text(alloc: Global, status: &Status) -> Result<String, AllocError> {
    match status {
        Status::Done => String::from_str(alloc, "status 0"),
        Status::Usage => String::from_str(alloc, "status 2"),
        Status::BadLine(line) => format!(in alloc; "status 3 line {line}"),
        Status::ReadFault => String::from_str(alloc, "status 4"),
        Status::WriteFault => String::from_str(alloc, "status 5"),
        Status::MountRefused(_) => String::from_str(alloc, "status 6"),
        Status::DeviceFault(_) => String::from_str(alloc, "status 7"),
        Status::TooLong(Excess::Bytes) => String::from_str(alloc, "status 8 bytes"),
        Status::TooLong(Excess::Apps(apps)) => format!(in alloc; "status 8 apps {apps}"),
        Status::NoMemory => String::from_str(alloc, "status 9"),
        Status::FileFault(fault) => place_text(alloc, fault.place),
        Status::CardMapRefused { block, offset } => {
            format!(in alloc; "status 6 card-map {block} {offset}")
        }
        Status::OverCommitted(sum) => format!(in alloc; "status 10 sum {sum}"),
    }
}

// The status of a file that failed in an export or an audit.
fn place_text(alloc: Global, place: FilePlace) -> Result<String, AllocError> {
    match place {
        FilePlace::Bench(number) => format!(in alloc; "status 7 bench {number}"),
        FilePlace::Folder(number) => format!(in alloc; "status 7 folder {number}"),
    }
}
