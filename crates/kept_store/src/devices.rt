//! The devices of a store in a folder.

ghost use Rattle.std.specs.Prelude.{◌≡◌, vec_len, IfErr, IfOk};
ghost use Rattle.tee_types.specs.Limits.{file_count};
ghost use Rattle.kept_store.specs.Kept.{TellsNoTag};

use crate::fault::{OpenFault, no_memory};
use crate::planning::{CardPlan, Seen, seen_of};
use crate::taking_over::BLOCK_FILE;
use hmac_keys::{Keys, rpmb_key};
use host_card::KeptCard;
use host_folder::{CARD_FILE, FolderFile, FolderLock, LockFault, Sharing, lock_folder};
use object_calls::Bench;
use std::alloc::Global;
use std::fs::{File, Files};
use tee_ports::NoMemory;
use tee_types::{BENCH_FILES, DIRECTORY_FILE};

/// The files of a folder, and a card that another file of it keeps.
pub type FolderDevices<'a, W> = Bench<FolderFile<'a, W>, KeptCard<FolderFile<'a, W>>>;

/// Locks a folder for as long as the lock lives.
///
/// # Errors
///
/// `NoFolder`, `Busy`, `Unlocked`.
pub(crate) fn locked<W: Files<File = File>>(
    rt: &W,
    folder: &str,
    sharing: Sharing,
) -> Result<FolderLock, OpenFault>
    ensures { IfErr result TellsNoTag }
{
    match lock_folder(rt, folder, sharing) {
        Ok(lock) => Ok(lock),
        Err(LockFault::Missing) => Err(OpenFault::NoFolder),
        Err(LockFault::Busy) => Err(OpenFault::Busy),
        Err(LockFault::Refused) => Err(OpenFault::Unlocked),
    }
}

// Whether the file of that number is there and has bytes.
fn has_bytes<W: Files<File = File>>(
    rt: &W,
    alloc: Global,
    folder: &str,
    number: u16,
) -> Result<bool, OpenFault>
    ensures { IfErr result TellsNoTag }
{
    let Ok(file) = FolderFile::read_only(rt, alloc, folder, number) else {
        return Err(no_memory());
    };
    match file.len_there() {
        Ok(length) => Ok(length > 0),
        Err(_) => Err(OpenFault::Unreadable),
    }
}

/// Whether an exported block lies in a folder.
///
/// # Errors
///
/// `Unreadable` where the system did not tell it; memory ran out.
pub(crate) fn has_block<W: Files<File = File>>(
    rt: &W,
    alloc: Global,
    folder: &str,
) -> Result<bool, OpenFault>
    ensures { IfErr result TellsNoTag }
{
    has_bytes(rt, alloc, folder, BLOCK_FILE)
}

/// Looks at a folder. No file is opened or made.
///
/// # Errors
///
/// `Unreadable` where the system did not tell a length; memory ran out.
pub(crate) fn look_at<W: Files<File = File>>(
    rt: &W,
    alloc: Global,
    folder: &str,
) -> Result<Seen, OpenFault>
    ensures { IfErr result TellsNoTag }
{
    let card = has_bytes(rt, alloc, folder, CARD_FILE)?;
    let block = has_block(rt, alloc, folder)?;
    let directory = has_bytes(rt, alloc, folder, DIRECTORY_FILE)?;
    Ok(seen_of(card, block, directory))
}

// The files of a folder that have the numbers of a bench. None is opened.
fn folder_files<'a, W: Files<File = File>>(
    rt: &'a W,
    alloc: Global,
    folder: &str,
) -> Result<Vec<FolderFile<'a, W>>, NoMemory>
    ensures { IfOk result (λ files. vec_len files ≡ file_count) }
{
    let mut files = Vec::with_capacity(alloc, BENCH_FILES)?;
    for number in 0..BENCH_FILES {
        files.push(FolderFile::new(rt, alloc, folder, number as u16)?)?;
    }
    Ok(files)
}

// The card of a folder, in its file, which keeps the folder's lock.
fn folder_card<'a, W: Files<File = File>>(
    alloc: Global,
    file: FolderFile<'a, W>,
    keys: &Keys,
    plan: CardPlan,
) -> Result<KeptCard<FolderFile<'a, W>>, OpenFault>
    ensures { IfErr result TellsNoTag }
{
    let key = rpmb_key(keys);
    let card = match plan {
        CardPlan::MakeCard => KeptCard::create(alloc, file, key),
        CardPlan::OpenCard => KeptCard::open(alloc, file, key),
    };
    match card {
        Ok(card) => Ok(card),
        Err(broken) => Err(OpenFault::Card(broken.fault)),
    }
}

/// The devices of the store in a folder. A file of the store is opened at the first call that needs it, and made
/// by the first that writes it. The card is made, or read from its file, and has the key that these keys give. The
/// folder stays locked for as long as the devices live.
///
/// # Errors
///
/// `Card` where no card was made in its file, or read from it; `Store` where memory ran out.
pub(crate) fn folder_devices<'a, W: Files<File = File>>(
    rt: &'a W,
    alloc: Global,
    folder: &str,
    lock: FolderLock,
    keys: &Keys,
    plan: CardPlan,
) -> Result<FolderDevices<'a, W>, OpenFault>
    ensures whole { IfOk result (λ devices. vec_len devices.files ≡ file_count) }
    ensures untagged { IfErr result TellsNoTag }
{
    let Ok(files) = folder_files(rt, alloc, folder) else {
        return Err(no_memory());
    };
    let Ok(file) = FolderFile::new(rt, alloc, folder, CARD_FILE) else {
        return Err(no_memory());
    };
    match folder_card(alloc, file.holding(lock), keys, plan) {
        Ok(card) => Ok(Bench { files, card }),
        Err(fault) => Err(fault),
    }
}
