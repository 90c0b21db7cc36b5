//! Auditing a folder.

ghost use Rattle.std.specs.Prelude.{◌≡◌, ◌≤◌, [], vec_len};
ghost use Rattle.std.specs.Vec.{vec_capacity};
ghost use Rattle.disk_model.specs.State.{FileState};
ghost use Rattle.tee_types.specs.Limits.{file_count};
ghost use Rattle.folder_export.specs.Folders.{folder_count};
ghost use Rattle.folder_audit.specs.Audit.{AuditsFolder, EndsUnder, OnlyReads, folder_states, with_directory};
ghost use Rattle.folder_audit.specs.Whole.{NamesRoot, RootAnswer};

use crate::block::read_block;
use crate::certifying::Under;
use crate::directory::{Directory, Unread, open_directory};
use crate::entries::audit_entries;
use crate::fault::{Audit, AuditFault, failed_at};
use crate::order::names_of;
use hmac_keys::Keys;
use node_image::{FORMAT, RootRef};
use std::alloc::Global;
use store_commit::{MountFault, root_in};
use tee_ports::StoreFile;
use tee_types::{BENCH_FILES, DIRECTORY_FILE, OLD_DIRECTORY_FILE};

// The reference that the card's block names, of the current format.
fn root_served(block: &[u8; 256]) -> Result<RootRef, AuditFault>
    ensures { RootAnswer block.now result }
{
    match root_in(block) {
        Ok(root) => {
            if root.format == FORMAT {
                Ok(root)
            } else {
                let file = OLD_DIRECTORY_FILE;
                Err(AuditFault::Refused(MountFault::OldFormat { file }))
            }
        }
        Err(fault) => Err(AuditFault::Refused(fault)),
    }
}

// Audits the objects of the directory that a reference names in its file, which is given back.
fn audit_directory<G: StoreFile + Drop>(
    under: &Under,
    root: RootRef,
    files: &mut Vec<G>,
    dir: G,
    lines: &mut Vec<u8>,
) -> (G, Result<(), AuditFault>)
    requires files { vec_len files.old ≡ file_count }
    requires named { NamesRoot under.now.block root }
    requires empty { lines.old.items ≡ [] }
    ensures ends { EndsUnder under.now.keys under.now.block
        (folder_states G.state (with_directory files.old.items dir)) (folder_states G.state (with_directory files.new.items result.0)) lines.new.items result.1 }
    ensures rests { OnlyReads (folder_states G.state (with_directory files.old.items dir)) (folder_states G.state (with_directory files.new.items result.0)) }
    ensures last { (none : FileState) → folder_states G.state (with_directory files.new.items result.0) none file_count
        ≡ folder_states G.state (with_directory files.old.items dir) none file_count }
    ensures whole { vec_len files.new ≡ file_count }
    ensures capacity { vec_capacity files.old ≤ vec_capacity files.new }
{
    let Directory { mut tree, entries } = match open_directory(
        under.alloc,
        &under.keys,
        root,
        dir,
    ) {
        Ok(directory) => directory,
        Err(Unread { file, fault }) => return (file, Err(fault)),
    };
    let Ok(names) = names_of(under.alloc, &entries) else {
        return (tree.into_file(), Err(AuditFault::NoMemory));
    };
    let end = audit_entries(under, files, &mut tree, &entries, &names, lines);
    (tree.into_file(), end)
}

// Audits a folder whose block was read. The directory's file is taken out of its place and put back, for which no memory is taken.
fn audit_under<G: StoreFile + Drop>(
    under: &Under,
    folder: &mut Vec<G>,
    lines: &mut Vec<u8>,
) -> Result<(), AuditFault>
    requires folder { vec_len folder.old ≡ folder_count }
    requires empty { lines.old.items ≡ [] }
    ensures ends { EndsUnder under.now.keys under.now.block (folder_states G.state folder.old.items) (folder_states G.state folder.new.items) lines.new.items result }
    ensures rests { OnlyReads (folder_states G.state folder.old.items) (folder_states G.state folder.new.items) }
    ensures last { (none : FileState) → folder_states G.state folder.new.items none file_count ≡ folder_states G.state folder.old.items none file_count }
    ensures whole { vec_len folder.new ≡ folder_count }
{
    let root = match root_served(&under.block) {
        Ok(root) => root,
        Err(fault) => return Err(fault),
    };
    let place = DIRECTORY_FILE as usize;
    let dir = folder.remove(place);
    let (dir, end) = audit_directory(under, root, folder, dir, lines);
    match folder.insert(place, dir) {
        Ok(()) => end,
        Err(_) => unreachable!(),
    }
}

// Audits a folder, and puts the lines into a text that is empty.
fn audit_into<G: StoreFile + Drop>(
    alloc: Global,
    keys: &Keys,
    folder: &mut Vec<G>,
    lines: &mut Vec<u8>,
) -> Result<(), AuditFault>
    requires folder { vec_len folder.old ≡ folder_count }
    requires empty { lines.old.items ≡ [] }
    ensures audit { AuditsFolder keys.now (folder_states G.state folder.old.items) (folder_states G.state folder.new.items) lines.new.items result }
    ensures whole { vec_len folder.new ≡ folder_count }
{
    let block = match read_block(&mut folder[BENCH_FILES]) {
        Ok(block) => block,
        Err(failed) => return Err(failed_at(BENCH_FILES as u16, failed.count)),
    };
    let under = Under {
        alloc,
        keys: keys.copy(),
        block,
    };
    audit_under(&under, folder, lines)
}

/// Audits the store in a folder whose card has this block 0, as `audit_folder` does. The last file, in
/// which an export puts the block, is not called.
///
/// # Errors
///
/// As `audit_folder`, but that no block is read.
pub fn audit_folder_under<G: StoreFile + Drop>(
    alloc: Global,
    keys: &Keys,
    block: &[u8; 256],
    folder: &mut Vec<G>,
) -> Audit
    requires folder { vec_len folder.old ≡ folder_count }
    ensures ends { EndsUnder keys.now block.now (folder_states G.state folder.old.items) (folder_states G.state folder.new.items) result.lines.items result.end }
    ensures rests { OnlyReads (folder_states G.state folder.old.items) (folder_states G.state folder.new.items) }
    ensures last { (none : FileState) → folder_states G.state folder.new.items none file_count ≡ folder_states G.state folder.old.items none file_count }
    ensures whole { vec_len folder.new ≡ folder_count }
{
    let under = Under {
        alloc,
        keys: keys.copy(),
        block: *block,
    };
    let mut lines = Vec::new(alloc);
    let end = audit_under(&under, folder, &mut lines);
    Audit { lines, end }
}

/// Audits a folder into which a store was exported: reads the card's block from its last file, with zero behind the end, loads the directory
/// that the block names, and makes a line of each object that it names, in the order of their names: `# UUID ID SIZE cert LENGTH HEX` with the
/// length and the SHA-256 of a certificate that was made and checked; or, where blocks of the data are bad, their numbers behind `bad:` in
/// the place of `cert` and all behind it; or there `damaged`. Memory is taken for one object at a time. The files are only read.
///
/// # Errors
///
/// Where the block or the directory is refused, as a mount refuses it, there is no line. A call of a file failed, or memory ran out: the
/// lines so far stay.
pub fn audit_folder<G: StoreFile + Drop>(alloc: Global, keys: &Keys, folder: &mut Vec<G>) -> Audit
    requires folder { vec_len folder.old ≡ folder_count }
    ensures audit { AuditsFolder keys.now (folder_states G.state folder.old.items) (folder_states G.state folder.new.items) result.lines.items result.end }
    ensures whole { vec_len folder.new ≡ folder_count }
{
    let mut lines = Vec::new(alloc);
    let end = audit_into(alloc, keys, folder, &mut lines);
    Audit { lines, end }
}
