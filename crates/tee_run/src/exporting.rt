//! What an export asks of its folder first.

use host_folder::{CARD_FILE, FolderFile, FolderLock, LockFault, Sharing, lock_folder};
use std::alloc::Global;
use std::fs::{File, Files};
use thiserror::Error;

/// Why nothing is exported into a folder.
#[derive(Clone, Copy, Debug, PartialEq, Eq, Error)]
pub enum FolderTaken {
    #[error("the folder has a store with its card (275.bin), which an export would write over")]
    HasCard,
    #[error("the system does not tell what is in the folder")]
    Unreadable,
    #[error("{0}")]
    Locked(LockFault),
}

// Whether the folder has the card of a store that is served from it.
fn has_card<W: Files<File = File>>(rt: &W, alloc: Global, path: &str) -> Result<bool, FolderTaken> {
    let Ok(file) = FolderFile::read_only(rt, alloc, path, CARD_FILE) else {
        return Err(FolderTaken::Unreadable);
    };
    match file.len_there() {
        Ok(length) => Ok(length > 0),
        Err(_) => Err(FolderTaken::Unreadable),
    }
}

/// Locks the folder of an export, if it is there, and sees to it that no store is served from it.
///
/// # Errors
///
/// Somebody else has it locked; it has a card; or the system did not tell that.
pub fn lock_export<W: Files<File = File>>(
    rt: &W,
    alloc: Global,
    path: &str,
) -> Result<Option<FolderLock>, FolderTaken> {
    match lock_folder(rt, path, Sharing::Alone) {
        Ok(lock) => {
            if has_card(rt, alloc, path)? {
                return Err(FolderTaken::HasCard);
            }
            Ok(Some(lock))
        }
        Err(LockFault::Missing) => Ok(None),
        Err(fault) => Err(FolderTaken::Locked(fault)),
    }
}
