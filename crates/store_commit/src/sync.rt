//! Opening the directory's file.

ghost use Rattle.std.specs.Prelude.{◌≡◌, ◌⊎◌, ◌<◌, [], None, IfErr, IfOk, IsTrue, Result};
ghost use Rattle.disk_model.specs.State.{pending};
ghost use Rattle.disk_model.specs.Calls.{Known};
ghost use Rattle.disk_model.specs.Keeps.{Anywhere, Keeps};
ghost use Rattle.htree_file.specs.Answers.{FilePassed};
ghost use Rattle.htree_file.specs.Making.{IsSynced};
ghost use Rattle.htree_file.specs.Opening.{IsVerified};
ghost use Rattle.htree_file.specs.Standing.{Told};
ghost use Rattle.crash_core.specs.Directory.{directory_of};
ghost use Rattle.dir_file.specs.EntryForms.{AreEntriesOf};
ghost use Rattle.dir_file.specs.Held.{IsDurable};
ghost use Rattle.dir_file.specs.Loading.{DirCause, IsDirFault, IsOutsideDir, SeesDirectory};
ghost use Rattle.dir_file.specs.Refusals.{DirDiffers};
ghost use Rattle.store_commit.specs.Leaving.{LeavesNoMore};
ghost use Rattle.store_commit.specs.DirectoryLooks.{HasDirectory, HasNoDirectory, Looks};
ghost use Rattle.store_commit.specs.Mounts.{directory_answer};

use crate::fault::{DirectoryRefused, MountFault};
use crash_core::DirFault;
use dir_file::{DirBroken, DirFile};
use hmac_keys::{Keys, dir_tsk, ssk};
use htree_file::TreeFault;
use node_image::RootRef;
use std::alloc::Global;
use tee_ports::StoreFile;
use tee_types::{Cause, Device};

/// Syncs the directory's file, and loads the directory that a reference names in it. After the sync what the file reads as is all that
/// a crash may leave, so the directory that is loaded stands in every image.
///
/// # Errors
///
/// The sync failed, or what `DirFile::load` answers.
pub(crate) fn open_directory<F: StoreFile>(
    alloc: Global,
    mut file: F,
    tsk: &[u8; 32],
    root: RootRef,
) -> Result<DirFile<F>, DirBroken<F>>
    requires { root.version < 2 }
    ensures root { IfOk result (λ d. d.dir.root ≡ root) }
    ensures idle { IfOk result (λ d. d.dir.stage ≡ None) }
    ensures tsk { IfOk result (λ d. d.dir.tsk ≡ tsk.now) }
    ensures verified { IfOk result (λ d. IsVerified root d.dir.tree) }
    ensures entries { IfOk result (λ d. AreEntriesOf d.dir.entries) }
    ensures synced { IfOk result (λ d. IsSynced (F.state d.file)) }
    ensures unwritten { IfOk result (λ d. pending (F.state d.file) ≡ []) }
    ensures held { IfOk result (λ d. IsTrue (F.state d.file).honest →
        IsDurable (F.state d.file) tsk.now root d.dir.tree d.dir.entries) }
    ensures directory { IfOk result (λ d. Told (F.state file) (F.state d.file) →
        directory_of tsk.now (F.state d.file).reads root ≡ Result.Ok d.dir.entries) }
    ensures fault { IfErr result (λ b. IsOutsideDir b.fault ⊎ (Told (F.state file) (F.state b.file) →
        directory_of tsk.now (F.state b.file).reads root ≡ Result.Err b.fault)) }
    ensures reads { IfOk result (λ d. Known (F.state file) (F.state d.file) → (F.state d.file).reads ≡ (F.state file).reads) }
    ensures reads_err { IfErr result (λ b. Known (F.state file) (F.state b.file) → (F.state b.file).reads ≡ (F.state file).reads) }
    ensures keeps { IfOk result (λ d. Keeps Anywhere (F.state file) (F.state d.file)) }
    ensures keeps_err { IfErr result (λ b. Keeps Anywhere (F.state file) (F.state b.file)) }
    ensures left { IfOk result (λ d. LeavesNoMore (F.state file) (F.state d.file)) }
    ensures left_err { IfErr result (λ b. LeavesNoMore (F.state file) (F.state b.file)) }
    ensures kind { IfErr result (λ b. IsDirFault b.fault) }
    // Of any file.
    ensures seen { IfOk result (λ d. SeesDirectory (F.state file) (F.state d.file) tsk.now root d.dir.tree (Result.Ok d.dir.entries)) }
    ensures differs { IfErr result (λ b. DirDiffers tsk.now (F.state b.file) root b.fault) }
    ensures looks { IfOk result (λ d. Looks (F.state file) (F.state d.file)) }
    ensures looks_err { IfErr result (λ b. Looks (F.state file) (F.state b.file)) }
    ensures passed { IfOk result (λ d. FilePassed (F.state file) (F.state d.file)) }
    ensures cause { IfErr result (λ b. DirCause (F.state file) (F.state b.file) b.fault) }
{
    match file.sync() {
        Ok(()) => DirFile::load(alloc, file, tsk, root),
        Err(failed) => {
            let fault = DirFault::Tree(TreeFault::Failed {
                count: failed.count,
            });
            Err(DirBroken { file, fault })
        }
    }
}

// What a fault of the directory is for a mount.
pub(crate) fn directory_answer(fault: DirFault) -> MountFault
    ensures { result ≡ directory_answer fault }
{
    match fault {
        DirFault::Tree(TreeFault::Failed { count }) => MountFault::Failed(Cause::Fault {
            device: Device::Dir,
            count,
        }),
        DirFault::Tree(TreeFault::NoMemory) => MountFault::NoMemory,
        _ => MountFault::Directory(fault),
    }
}

/// Opens the directory that a reference names in a file, as a mount does, and gives the file back. It is not written.
///
/// # Errors
///
/// `Directory` where the directory's image is refused; `Failed` where a call of the file failed; `NoMemory`.
pub fn check_directory<F: StoreFile>(
    alloc: Global,
    file: F,
    keys: &Keys,
    root: RootRef,
) -> Result<F, DirectoryRefused<F>>
    requires { root.version < 2 }
    ensures has { IfOk result (λ f. HasDirectory keys.now (F.state file) (F.state f) root) }
    ensures refused { IfErr result (λ r. HasNoDirectory keys.now (F.state file) (F.state r.file) root r.fault) }
    ensures looks { IfOk result (λ f. Looks (F.state file) (F.state f)) }
    ensures looks_err { IfErr result (λ r. Looks (F.state file) (F.state r.file)) }
    ensures passed { IfOk result (λ f. FilePassed (F.state file) (F.state f)) }
{
    let tsk = dir_tsk(&ssk(keys));
    match open_directory(alloc, file, &tsk, root) {
        Ok(dir) => Ok(dir.into_file()),
        Err(DirBroken { file, fault }) => Err(DirectoryRefused {
            file,
            fault: directory_answer(fault),
        }),
    }
}
