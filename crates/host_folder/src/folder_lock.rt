// The lock on a folder.
ghost use Rattle.std.specs.Prelude.{◌≡◌, [], Err};
ghost use Rattle.host_folder.specs.declared.folder_lock.LockFault.TheVariants.{Missing};

use std::fs::{File, Files, TryLockError};
use std::io::ErrorKind;
use std::{fs, io};
use thiserror::Error;

/// Who else may have a folder locked.
#[derive(Clone, Copy, Debug, PartialEq, Eq)]
pub enum Sharing {
    /// Nobody: for who writes in it.
    Alone,
    /// Whoever shares it too: for who only reads in it.
    Shared,
}

/// Why a folder was not locked.
#[derive(Clone, Copy, Debug, PartialEq, Eq, Error)]
pub enum LockFault {
    #[error("there is no such folder")]
    Missing,
    #[error("the folder is locked by somebody else")]
    Busy,
    #[error("the system did not lock the folder")]
    Refused,
}

/// A folder that is locked for as long as this lives.
///
/// It keeps out those alone who ask for a lock of the folder, too.
#[derive(Drop)]
pub struct FolderLock {
    folder: File,
}

/// Locks a folder, without waiting.
///
/// # Errors
///
/// `Missing` where there is no such folder, or its name is empty; `Busy` where somebody else has it locked, unless both
/// share it; `Refused` where the system did not open or lock it.
pub fn lock_folder<R: Files<File = File>>(
    rt: &R,
    folder: &str,
    sharing: Sharing,
) -> Result<FolderLock, LockFault>
    ensures unnamed { folder.now ≡ [] → result ≡ Err Missing }
{
    if folder.is_empty() {
        return Err(LockFault::Missing);
    }
    match open_folder(rt, folder) {
        Ok(folder) => lock_opened(folder, sharing),
        Err(error) => Err(fault_of(error.kind())),
    }
}

fn open_folder<R: Files<File = File>>(rt: &R, folder: &str) -> io::Result<File> {
    if fs::metadata(rt, folder)?.is_dir() {
        File::open(rt, folder)
    } else {
        Err(io::Error::from(ErrorKind::NotADirectory))
    }
}

fn fault_of(kind: ErrorKind) -> LockFault {
    match kind {
        ErrorKind::NotFound | ErrorKind::NotADirectory => LockFault::Missing,
        _ => LockFault::Refused,
    }
}

fn lock_opened(folder: File, sharing: Sharing) -> Result<FolderLock, LockFault> {
    let locked = match sharing {
        Sharing::Alone => folder.try_lock(),
        Sharing::Shared => folder.try_lock_shared(),
    };
    match locked {
        Ok(()) => Ok(FolderLock { folder }),
        Err(TryLockError::WouldBlock) => Err(LockFault::Busy),
        Err(TryLockError::Error(_)) => Err(LockFault::Refused),
    }
}
