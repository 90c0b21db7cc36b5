//! Folders of files in memory.

ghost use Rattle.std.specs.Prelude.{◌≡◌, vec_len, IfOk};
ghost use Rattle.folder_export.specs.Folders.{folder_count};

use mem_files::MemFile;
use script_runner::FOLDER_FILES;
use std::alloc::{AllocError, Global};

/// A folder of empty files.
///
/// # Errors
///
/// Memory ran out.
pub fn new_folder(alloc: Global) -> Result<Vec<MemFile>, AllocError>
    ensures { IfOk result (λ folder. vec_len folder ≡ folder_count) }
{
    let mut folder = Vec::with_capacity(alloc, FOLDER_FILES)?;
    for _ in 0..FOLDER_FILES {
        folder.push(MemFile::new(alloc))?;
    }
    Ok(folder)
}
