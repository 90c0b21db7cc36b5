// The names of a folder's files.
ghost use Rattle.std.specs.Prelude.{◌≡◌, string_bytes, IfOk};
ghost use Rattle.host_folder.specs.Folder.{file_path};

use std::alloc::Global;
use std::fs::{File, Files};
use std::io;
use std::path::Path;
use tee_ports::NoMemory;

/// The number of the file that keeps the card of a store in a folder: behind those of the store, and of the block that an export
/// puts there.
pub const CARD_FILE: u16 = 275;

// Where the file of this number stands.
pub(crate) fn file_name(alloc: Global, folder: &str, number: u16) -> Result<String, NoMemory>
    ensures { IfOk result (λ path. string_bytes path ≡ file_path folder.now number) }
{
    Ok(format!(in alloc; "{folder}/{number:03}.bin")?)
}

// The folder that a file stands in.
pub(crate) fn folder_of(path: &str) -> &str {
    match Path::new(path).parent() {
        Some(folder) => folder.as_str(),
        None => "/",
    }
}

/// Settles the names of a folder's files: which of them are there after a power cut.
///
/// It settles neither their bytes nor the folder's own name.
///
/// # Errors
///
/// The system refused to open the folder, or to settle it.
pub fn sync_folder<R: Files<File = File>>(rt: &R, folder: &str) -> io::Result<()> {
    File::open(rt, folder)?.sync_all()
}
