//! The directory in a folder.

ghost use Rattle.std.specs.Prelude.{◌≡◌, ◌<◌, length, IfErr, IfOk, Result};
ghost use Rattle.disk_model.specs.Calls.{Rests};
ghost use Rattle.crash_core.specs.EntryLists.{AreCurrent};
ghost use Rattle.crash_core.specs.OldFormats.{first_old};
ghost use Rattle.htree_file.specs.Answers.{FilePassed};
ghost use Rattle.htree_file.specs.Opening.{load_of};
ghost use Rattle.htree_file.specs.Standing.{Told};
ghost use Rattle.folder_audit.specs.Objects.{DirectoryStops, directory_answer};
ghost use Rattle.folder_audit.specs.Reading.{ReadsDirectory};

use crate::fault::{AuditFault, failed_at};
use crash_core::DirFault;
use dir_file::{DirBroken, DirFile};
use dir_records::DirEntry;
use hmac_keys::{Keys, dir_tsk, ssk};
use htree_file::{Broken, Tree, TreeFault};
use node_image::RootRef;
use std::alloc::Global;
use store_commit::MountFault;
use tee_ports::StoreFile;
use tee_types::DIRECTORY_FILE;

/// A directory that was read: its tree, in its file, and its entries.
#[derive(Drop)]
pub(crate) struct Directory<G: StoreFile> {
    pub(crate) tree: Tree<G>,
    pub(crate) entries: Vec<Option<DirEntry>>,
}

/// A directory's file that gave no directory, and why.
#[derive(Drop)]
pub(crate) struct Unread<G> {
    pub(crate) file: G,
    pub(crate) fault: AuditFault,
}

// A directory's file, and the entries in it.
#[derive(Drop)]
struct Entries<G> {
    file: G,
    entries: Vec<Option<DirEntry>>,
}

// What a fault in loading the directory is.
#[tactic(auto, unfolding(tee_types::specs::Limits::directory_file))]
fn directory_answer(fault: DirFault) -> AuditFault
    ensures { result ≡ directory_answer fault }
{
    match fault {
        DirFault::Tree(TreeFault::Failed { count }) => failed_at(DIRECTORY_FILE, count),
        DirFault::Tree(TreeFault::NoMemory) => AuditFault::NoMemory,
        _ => AuditFault::Refused(MountFault::Directory(fault)),
    }
}

// The file of the first entry whose file is of the old format, if there is one.
fn first_old(entries: &[Option<DirEntry>]) -> Option<u16>
    requires { length entries.now ≡ 256 }
    ensures { result ≡ first_old entries.now }
{
    for index in 0..256u16 {
        if let Some(entry) = &entries[index as usize] {
            if entry.format == 1 {
                return Some(entry.file);
            }
        }
    }
    None
}

// The entries of the directory that a reference names in its file.
fn read_entries<G: StoreFile>(
    alloc: Global,
    keys: &Keys,
    root: RootRef,
    file: G,
) -> Result<Entries<G>, Unread<G>>
    requires { root.version < 2 }
    ensures read { IfOk result (λ d. ReadsDirectory keys.now root (G.state file) (G.state d.file) d.entries.items) }
    ensures rests { IfOk result (λ d. Rests (G.state file) (G.state d.file)) }
    ensures passed { IfOk result (λ d. FilePassed (G.state file) (G.state d.file)) }
    ensures rests_err { IfErr result (λ u. Rests (G.state file) (G.state u.file)) }
    ensures stops { IfErr result (λ u. DirectoryStops keys.now root (G.state file) (G.state u.file) u.fault) }
{
    match DirFile::load(alloc, file, &dir_tsk(&ssk(keys)), root) {
        Ok(dir) => {
            let copied = Vec::from_slice(alloc, dir.entries());
            let file = dir.into_file();
            match copied {
                Ok(entries) => Ok(Entries { file, entries }),
                Err(_) => Err(Unread {
                    file,
                    fault: AuditFault::NoMemory,
                }),
            }
        }
        Err(DirBroken { file, fault }) => Err(Unread {
            file,
            fault: directory_answer(fault),
        }),
    }
}

// The tree that a reference names in the directory's file.
fn load_tree<G: StoreFile>(
    alloc: Global,
    keys: &Keys,
    root: RootRef,
    file: G,
) -> Result<Tree<G>, Unread<G>>
    requires { root.version < 2 }
    ensures loaded { IfOk result (λ t. Told (G.state file) (G.state t.file) → load_of (G.state t.file).reads root ≡ Result.Ok t.tree) }
    ensures rests { IfOk result (λ t. Rests (G.state file) (G.state t.file)) }
    ensures passed { IfOk result (λ t. FilePassed (G.state file) (G.state t.file)) }
    ensures rests_err { IfErr result (λ u. Rests (G.state file) (G.state u.file)) }
    ensures stops { IfErr result (λ u. DirectoryStops keys.now root (G.state file) (G.state u.file) u.fault) }
{
    match Tree::load(alloc, file, &dir_tsk(&ssk(keys)), root) {
        Ok(tree) => Ok(tree),
        Err(Broken { file, fault }) => Err(Unread {
            file,
            fault: directory_answer(DirFault::Tree(fault)),
        }),
    }
}

/// Reads the directory that a reference names in its file, all of whose entries name files of the current format.
///
/// # Errors
///
/// `Directory` where the directory's image is refused; `OldFormat` of the file of the first entry that names one of the old format; a call of
/// the file failed; memory ran out.
pub(crate) fn open_directory<G: StoreFile>(
    alloc: Global,
    keys: &Keys,
    root: RootRef,
    file: G,
) -> Result<Directory<G>, Unread<G>>
    requires { root.version < 2 }
    ensures read { IfOk result (λ d. ReadsDirectory keys.now root (G.state file) (G.state d.tree.file) d.entries.items) }
    ensures current { IfOk result (λ d. AreCurrent d.entries.items) }
    ensures loaded { IfOk result (λ d. Told (G.state file) (G.state d.tree.file) → load_of (G.state d.tree.file).reads root ≡ Result.Ok d.tree.tree) }
    ensures rests { IfOk result (λ d. Rests (G.state file) (G.state d.tree.file)) }
    ensures passed { IfOk result (λ d. FilePassed (G.state file) (G.state d.tree.file)) }
    ensures rests_err { IfErr result (λ u. Rests (G.state file) (G.state u.file)) }
    ensures stops { IfErr result (λ u. DirectoryStops keys.now root (G.state file) (G.state u.file) u.fault) }
{
    let Entries { file, entries } = match read_entries(alloc, keys, root, file) {
        Ok(read) => read,
        Err(unread) => return Err(unread),
    };
    if let Some(old) = first_old(&entries) {
        let fault = AuditFault::Refused(MountFault::OldFormat { file: old });
        return Err(Unread { file, fault });
    }
    match load_tree(alloc, keys, root, file) {
        Ok(tree) => Ok(Directory { tree, entries }),
        Err(unread) => Err(unread),
    }
}
