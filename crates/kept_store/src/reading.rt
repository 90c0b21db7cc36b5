//! The store of a folder, opened only to be read.

ghost use Rattle.std.specs.Prelude.{◌≡◌, ◌≤◌, [], vec_len, Err, IfErr, IfOk};
ghost use Rattle.std.specs.Vec.{vec_capacity};
ghost use Rattle.tee_types.specs.Limits.{file_count};
ghost use Rattle.object_calls.specs.Opening.{IsKeyed};
ghost use Rattle.kept_store.specs.declared.fault.OpenFault.TheVariants.{NoName};
ghost use Rattle.kept_store.specs.Kept.{TellsNoTag};

use crate::devices::{locked, look_at};
use crate::fault::{OpenFault, given_up, no_memory, why};
use crate::finding::{Found, find_store};
use crate::planning::Seen;
use crate::taking_over::BLOCK_FILE;
use folder_audit::read_block;
use hmac_keys::{Keys, rpmb_key};
use host_card::read_card;
use host_folder::{CARD_FILE, FolderFile, FolderLock, Sharing};
use object_calls::{Bench, Opening, mount};
use rpmb_card::{SimCard, SimPort};
use std::alloc::Global;
use std::fs::{File, Files};
use tee_ports::{Entropy, NoMemory};
use tee_types::BENCH_FILES;

/// A store in a folder that is mounted only to be read: its files are opened without the right to write, and its
/// card is a copy in memory. A call that would change it fails.
pub type ReadOpening<'a, W> = Opening<FolderFile<'a, W>, SimPort>;

/// The files of such a store, and the copy of its card.
pub(crate) type ReadDevices<'a, W> = Bench<FolderFile<'a, W>, SimPort>;

// The files of a folder that have the numbers of a bench, to be read. The first keeps the folder's lock.
fn read_files<'a, W: Files<File = File>>(
    rt: &'a W,
    alloc: Global,
    folder: &str,
    lock: FolderLock,
) -> Result<Vec<FolderFile<'a, W>>, NoMemory>
    ensures { IfOk result (λ files. vec_len files ≡ file_count) }
{
    let mut files = Vec::with_capacity(alloc, BENCH_FILES + 1)?;
    let first = FolderFile::read_only(rt, alloc, folder, 0)?;
    files.push(first.holding(lock))?;
    for number in 1..BENCH_FILES {
        files.push(FolderFile::read_only(rt, alloc, folder, number as u16)?)?;
    }
    Ok(files)
}

// The card that a file of the folder keeps.
fn kept_card<W: Files<File = File>>(
    rt: &W,
    alloc: Global,
    folder: &str,
    keys: &Keys,
) -> Result<SimCard, OpenFault>
    ensures { IfErr result TellsNoTag }
{
    let Ok(mut file) = FolderFile::read_only(rt, alloc, folder, CARD_FILE) else {
        return Err(no_memory());
    };
    match read_card(alloc, &mut file, &rpmb_key(keys)) {
        Ok(card) => Ok(Box::into_inner(card)),
        Err(fault) => Err(OpenFault::Card(fault)),
    }
}

// The card that a store which was exported will have.
fn exported_card<W: Files<File = File>>(
    rt: &W,
    alloc: Global,
    folder: &str,
    keys: &Keys,
) -> Result<SimCard, OpenFault>
    ensures { IfErr result TellsNoTag }
{
    let Ok(mut file) = FolderFile::read_only(rt, alloc, folder, BLOCK_FILE) else {
        return Err(no_memory());
    };
    let block = match read_block(&mut file) {
        Ok(block) => block,
        Err(failed) => {
            return Err(OpenFault::Block {
                count: failed.count,
            });
        }
    };
    let mut card = SimCard::with_key(rpmb_key(keys).bytes());
    card.restore(0, &block, 1);
    Ok(card)
}

/// The devices of the store in a folder, to be read. Nothing is changed, and no file is made. The folder is locked
/// for as long as they live; others may read it, too.
///
/// # Errors
///
/// The first that holds: `NoName`; `NoFolder`; `Busy` where somebody has the store open to write; `Unlocked`;
/// `Unreadable`; `NoStore`; `CardMissing` where there is a directory without a card; `Card` where no card was read
/// from its file; `Block` where the file of an exported block failed.
pub(crate) fn read_devices<'a, W: Files<File = File>>(
    rt: &'a W,
    alloc: Global,
    folder: &str,
    keys: &Keys,
) -> Result<ReadDevices<'a, W>, OpenFault>
    ensures whole { IfOk result (λ devices. vec_len devices.files ≡ file_count) }
    ensures untagged { IfErr result TellsNoTag }
    ensures unnamed { folder.now ≡ [] → result ≡ Err NoName }
{
    if folder.is_empty() {
        return Err(OpenFault::NoName);
    }
    let lock = locked(rt, folder, Sharing::Shared)?;
    let card = match look_at(rt, alloc, folder)? {
        Seen::Nothing => return Err(OpenFault::NoStore),
        Seen::Directory => return Err(OpenFault::CardMissing),
        Seen::Export => exported_card(rt, alloc, folder, keys)?,
        Seen::Card => kept_card(rt, alloc, folder, keys)?,
    };
    match read_files(rt, alloc, folder, lock) {
        Ok(files) => Ok(Bench {
            files,
            card: SimPort::new(alloc, card),
        }),
        Err(_) => Err(no_memory()),
    }
}

/// Opens the store in a folder only to be read: each file is opened without the right to write, no file is made, and
/// a card that no block of an export was put into has it in memory alone.
///
/// # Errors
///
/// The first that holds: `NoName`; `NoFolder`; `Busy` where somebody has the store open to write; `Unlocked`;
/// `Unreadable`; `NoStore`, also where the card names none; `CardMissing` where there is a directory and its card is
/// missing or names no store; `Card`; `Block`; `Store` as the mount says, without a computed tag.
pub fn read_folder_store<'a, W: Files<File = File>, E: Entropy>(
    rt: &'a W,
    alloc: Global,
    folder: &str,
    keys: &Keys,
    entropy: &mut E,
) -> Result<ReadOpening<'a, W>, OpenFault>
    ensures keyed { IfOk result (λ o. IsKeyed keys.now o) }
    ensures unopened { IfOk result (λ o. o.applications ≡ []) }
    ensures untagged { IfErr result TellsNoTag }
    ensures unnamed { folder.now ≡ [] → result ≡ Err NoName }
{
    let devices = read_devices(rt, alloc, folder, keys)?;
    let Found { devices, is_new } = match find_store(devices, keys, entropy) {
        Ok(found) => found,
        Err(unopened) => return Err(why(unopened)),
    };
    if is_new {
        return Err(OpenFault::NoStore);
    }
    match mount(alloc, devices, keys, entropy) {
        Ok(opening) => Ok(opening),
        Err(halted) => Err(why(given_up(halted))),
    }
}
