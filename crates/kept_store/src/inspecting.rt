//! What the store of a folder has in it, for who looks after it.

ghost use Rattle.std.specs.Prelude.{◌≡◌, ◌<◌, [], vec_len, Err, IfErr, IfOk};
ghost use Rattle.tee_types.specs.Limits.{file_count};
ghost use Rattle.kept_store.specs.declared.fault.OpenFault.TheVariants.{NoName};
ghost use Rattle.kept_store.specs.Kept.{EndsUntagged, TellsNoTag};

use crate::fault::{OpenFault, no_memory};
use crate::reading::{ReadDevices, read_devices};
use crate::taking_over::BLOCK_FILE;
use dir_file::{DirBroken, DirFile};
use dir_records::DirEntry;
use folder_audit::{Audit, AuditFault, audit_folder_under};
use hmac_keys::{Keys, dir_tsk, rpmb_key, ssk};
use host_folder::FolderFile;
use node_image::RootRef;
use object_calls::Bench;
use rpmb_card::RpmbPort;
use rpmb_host::Host;
use std::alloc::Global;
use std::fs::{File, Files};
use store_commit::{CardRead, MountFault, read_card, root_in};
use tee_ports::{Entropy, StoreFile};
use tee_types::DIRECTORY_FILE;

/// What the store of a folder has in it. It carries no secret.
#[derive(Drop)]
pub struct Report {
    /// The card's write counter.
    pub counter: u32,
    /// The directory that the card names: its root hash, and which version of the root is good.
    pub root: RootRef,
    /// The entries of the directory.
    pub entries: Vec<Option<DirEntry>>,
    /// A line for each object, in the order of their names, up to the end of the audit: as `audit_folder` of
    /// `folder_audit` makes them.
    pub lines: Vec<u8>,
    /// Whether each object has its line, or why not.
    pub end: Result<(), AuditFault>,
}

// What the card of some devices has: its counter, and its block 0. The files are given back.
fn read_block_zero<'a, W: Files<File = File>, E: Entropy>(
    devices: ReadDevices<'a, W>,
    keys: &Keys,
    entropy: &mut E,
) -> Result<(Vec<FolderFile<'a, W>>, CardRead), OpenFault>
    requires { vec_len devices.files ≡ file_count }
    ensures whole { IfOk result (λ r. vec_len r.0 ≡ file_count) }
    ensures untagged { IfErr result TellsNoTag }
{
    let Bench { files, card } = devices;
    let mut host = Host::new(card, rpmb_key(keys));
    match read_card(&mut host, entropy) {
        Ok(read) => Ok((files, read)),
        Err(fault) => Err(OpenFault::Store(fault.without_computed_tag())),
    }
}

// The entries of the directory that a reference names in its file.
fn read_entries<W: Files<File = File>>(
    rt: &W,
    alloc: Global,
    folder: &str,
    keys: &Keys,
    root: RootRef,
) -> Result<Vec<Option<DirEntry>>, OpenFault>
    requires { root.version < 2 }
    ensures { IfErr result TellsNoTag }
{
    let Ok(file) = FolderFile::read_only(rt, alloc, folder, DIRECTORY_FILE) else {
        return Err(no_memory());
    };
    match DirFile::load(alloc, file, &dir_tsk(&ssk(keys)), root) {
        Ok(dir) => match Vec::from_slice(alloc, dir.entries()) {
            Ok(entries) => Ok(entries),
            Err(_) => Err(no_memory()),
        },
        Err(broken) => Err(directory_fault(broken)),
    }
}

// Why a directory was not loaded, without a computed tag. Its file is let go.
fn directory_fault<F: StoreFile + Drop>(broken: DirBroken<F>) -> OpenFault
    ensures { TellsNoTag result }
{
    let DirBroken { fault, .. } = broken;
    OpenFault::Store(MountFault::Directory(fault).without_computed_tag())
}

// How an audit ended, without a computed tag.
fn untagged_end(end: Result<(), AuditFault>) -> Result<(), AuditFault>
    ensures { EndsUntagged result }
{
    match end {
        Ok(()) => Ok(()),
        Err(AuditFault::Refused(fault)) => Err(AuditFault::Refused(fault.without_computed_tag())),
        Err(fault) => Err(fault),
    }
}

/// Reads the store in a folder: what its card and its directory say, and of each object whether a certificate of it
/// was made and checked. Nothing is changed, and no file is made.
///
/// # Errors
///
/// As `read_folder_store` up to the card; then `Store` where the card's block 0 is of no store, or the directory is
/// not the one that it names.
pub fn inspect_folder_store<W: Files<File = File>, E: Entropy>(
    rt: &W,
    alloc: Global,
    folder: &str,
    keys: &Keys,
    entropy: &mut E,
) -> Result<Report, OpenFault>
    ensures untagged { IfErr result TellsNoTag }
    ensures end { IfOk result (λ r. EndsUntagged r.end) }
    ensures unnamed { folder.now ≡ [] → result ≡ Err NoName }
{
    let devices = read_devices(rt, alloc, folder, keys)?;
    let (mut files, CardRead { counter, block }) = read_block_zero(devices, keys, entropy)?;
    let root = match root_in(&block) {
        Ok(root) => root,
        Err(fault) => return Err(OpenFault::Store(fault.without_computed_tag())),
    };
    let entries = read_entries(rt, alloc, folder, keys, root)?;
    let Ok(last) = FolderFile::read_only(rt, alloc, folder, BLOCK_FILE) else {
        return Err(no_memory());
    };
    if files.push(last).is_err() {
        return Err(no_memory());
    }
    let Audit { lines, end } = audit_folder_under(alloc, keys, &block, &mut files);
    Ok(Report {
        counter,
        root,
        entries,
        lines,
        end: untagged_end(end),
    })
}
