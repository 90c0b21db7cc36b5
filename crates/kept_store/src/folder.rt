//! The store of a folder.

ghost use Rattle.std.specs.Prelude.{◌≡◌, [], Err, IfErr, IfOk};
ghost use Rattle.object_calls.specs.Opening.{IsKeyed};
ghost use Rattle.kept_store.specs.declared.fault.OpenFault.TheVariants.{NoName};
ghost use Rattle.kept_store.specs.Kept.{TellsNoTag};

use crate::devices::{folder_devices, has_block, locked, look_at};
use crate::fault::{OpenFault, no_memory, why};
use crate::opening::open_devices;
use crate::planning::{Asked, plan_of};
use crate::taking_over::BLOCK_FILE;
use hmac_keys::Keys;
use host_card::KeptCard;
use host_folder::{FolderFile, Sharing, sync_folder};
use mem_files::MemFile;
use object_calls::Opening;
use std::alloc::Global;
use std::fs::{File, Files};
use tee_ports::Entropy;

/// A store in a folder that is mounted.
pub type FolderOpening<'a, W> = Opening<FolderFile<'a, W>, KeptCard<FolderFile<'a, W>>>;

// Opens the store in a folder, or makes one, as is asked.
fn open_folder<'a, W: Files<File = File>, E: Entropy>(
    rt: &'a W,
    alloc: Global,
    folder: &str,
    asked: Asked,
    keys: &Keys,
    entropy: &mut E,
) -> Result<FolderOpening<'a, W>, OpenFault>
    ensures keyed { IfOk result (λ o. IsKeyed keys.now o) }
    ensures unopened { IfOk result (λ o. o.applications ≡ []) }
    ensures untagged { IfErr result TellsNoTag }
    ensures unnamed { folder.now ≡ [] → result ≡ Err NoName }
{
    if folder.is_empty() {
        return Err(OpenFault::NoName);
    }
    let lock = locked(rt, folder, Sharing::Alone)?;
    let plan = plan_of(asked, look_at(rt, alloc, folder)?)?;
    // A file that an earlier process made may not be settled in the folder yet.
    if sync_folder(rt, folder).is_err() {
        return Err(OpenFault::Unreadable);
    }
    let devices = folder_devices(rt, alloc, folder, lock, keys, plan)?;
    let opened = if has_block(rt, alloc, folder)? {
        let Ok(mut exported) = FolderFile::new(rt, alloc, folder, BLOCK_FILE) else {
            return Err(no_memory());
        };
        open_devices(alloc, devices, &mut exported, keys, entropy)
    } else {
        open_devices(alloc, devices, &mut MemFile::new(alloc), keys, entropy)
    };
    match opened {
        Ok(opening) => Ok(opening),
        Err(unopened) => Err(why(unopened)),
    }
}

/// Opens the store in a folder: one that was closed, or one that was exported into it.
///
/// # Errors
///
/// The first that holds: `NoName`; `NoFolder`; `Busy` where somebody else has the store open; `Unlocked`;
/// `Unreadable`; `NoStore`; `CardMissing` where there is a directory without a card: up to here nothing is
/// changed, and no file is made; `Card` where no card was read from its file; else as `open_devices` says.
pub fn open_folder_store<'a, W: Files<File = File>, E: Entropy>(
    rt: &'a W,
    alloc: Global,
    folder: &str,
    keys: &Keys,
    entropy: &mut E,
) -> Result<FolderOpening<'a, W>, OpenFault>
    ensures keyed { IfOk result (λ o. IsKeyed keys.now o) }
    ensures unopened { IfOk result (λ o. o.applications ≡ []) }
    ensures untagged { IfErr result TellsNoTag }
    ensures unnamed { folder.now ≡ [] → result ≡ Err NoName }
{
    open_folder(rt, alloc, folder, Asked::Open, keys, entropy)
}

/// Makes a store in a folder that is there and has none.
///
/// # Errors
///
/// As `open_folder_store`, but in place of `NoStore` and `CardMissing` there is `Exists`, where a card, an
/// exported block or a directory is there.
pub fn create_folder_store<'a, W: Files<File = File>, E: Entropy>(
    rt: &'a W,
    alloc: Global,
    folder: &str,
    keys: &Keys,
    entropy: &mut E,
) -> Result<FolderOpening<'a, W>, OpenFault>
    ensures keyed { IfOk result (λ o. IsKeyed keys.now o) }
    ensures unopened { IfOk result (λ o. o.applications ≡ []) }
    ensures untagged { IfErr result TellsNoTag }
    ensures unnamed { folder.now ≡ [] → result ≡ Err NoName }
{
    open_folder(rt, alloc, folder, Asked::Create, keys, entropy)
}

/// Opens the store in a folder that is there, or makes one where there is none.
///
/// # Errors
///
/// As `open_folder_store`, without `NoStore`.
pub fn open_or_create_folder_store<'a, W: Files<File = File>, E: Entropy>(
    rt: &'a W,
    alloc: Global,
    folder: &str,
    keys: &Keys,
    entropy: &mut E,
) -> Result<FolderOpening<'a, W>, OpenFault>
    ensures keyed { IfOk result (λ o. IsKeyed keys.now o) }
    ensures unopened { IfOk result (λ o. o.applications ≡ []) }
    ensures untagged { IfErr result TellsNoTag }
    ensures unnamed { folder.now ≡ [] → result ≡ Err NoName }
{
    open_folder(rt, alloc, folder, Asked::OpenOrCreate, keys, entropy)
}
