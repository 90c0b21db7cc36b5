// Loading a directory.
ghost use Rattle.std.specs.Prelude.{◌≡◌, ◌⊎◌, ◌<◌, length, IfErr, IfOk, OnOk, None, Result};
ghost use Rattle.disk_model.specs.Calls.{Rests};
ghost use Rattle.htree_file.specs.Answers.{FilePassed};
ghost use Rattle.htree_file.specs.Opening.{IsVerified, load_of};
ghost use Rattle.htree_file.specs.Standing.{Told};
ghost use Rattle.crash_core.specs.Directory.{directory_of, tree_directory};
ghost use Rattle.dir_file.specs.Calls.{ReadsBlocks};
ghost use Rattle.dir_file.specs.EntryForms.{AreEntriesOf};
ghost use Rattle.dir_file.specs.Loading.{DirCause, HasDirCause, HasDirWidths, IsDirFault, IsOutsideDir, SeesDirectory, SeesPages};
ghost use Rattle.dir_file.specs.Pages.{ReadsEntries};
ghost use Rattle.dir_file.specs.Refusals.{DirDiffers, EntriesDiffer};

use crate::file::DirFile;
use crate::pages::read_pages;
use crate::records::{first_double, parse};
use crash_core::DirFault;
use dir_records::DirEntry;
use htree_file::{Broken, Page, Tree};
use node_image::RootRef;
use std::alloc::Global;
use tee_ports::StoreFile;

/// A file that holds no directory, and why.
#[derive(Drop)]
pub struct DirBroken<F: StoreFile> {
    pub file: F,
    pub fault: DirFault,
}

// The entries in pages, of which no two have the same name or file.
fn read_entries(alloc: Global, pages: &[Page]) -> Result<Vec<Option<DirEntry>>, DirFault>
    requires { length pages.now ≡ 8 }
    ensures { ReadsEntries pages.now (λ v. v.items) result }
{
    let entries = parse(alloc, pages)?;
    match first_double(&entries) {
        Some((index, first)) => Err(DirFault::Double { index, first }),
        None => Ok(entries),
    }
}

// The entries of a directory in a tree.
fn read_directory<F: StoreFile>(
    alloc: Global,
    tree: &mut Tree<F>,
) -> Result<Vec<Option<DirEntry>>, DirFault>
    ensures directory { IfOk result (λ v. Told (F.state tree.old.file) (F.state tree.new.file) →
        tree_directory (F.state tree.old.file).reads tree.old.key tree.old.tree ≡ Result.Ok v.items) }
    ensures entries { IfOk result (λ v. AreEntriesOf v.items) }
    ensures seen { IfOk result (λ v. SeesPages (F.state tree.old.file) (F.state tree.new.file) tree.old.key tree.old.tree (Result.Ok v.items)) }
    ensures bytes { OnOk result (tree.old.tree.head.length ≡ 32768) }
    ensures once { OnOk result (ReadsBlocks (F.state tree.old.file) (F.state tree.new.file) 8) }
    ensures fault { IfErr result (λ f. IsOutsideDir f ⊎ (Told (F.state tree.old.file) (F.state tree.new.file) →
        tree_directory (F.state tree.old.file).reads tree.old.key tree.old.tree ≡ Result.Err f)) }
    ensures differs { IfErr result (EntriesDiffer tree.old.key tree.old.tree (F.state tree.new.file)) }
    ensures widths { IfErr result HasDirWidths }
    ensures verified { IsVerified tree.old.root tree.old.tree }
    ensures same { tree.new ≡ record tree.old { file = tree.new.file } }
    ensures rests { Rests (F.state tree.old.file) (F.state tree.new.file) }
    ensures cause { HasDirCause (F.state tree.old.file) (F.state tree.new.file) result }
{
    let bytes = tree.length();
    let pages = read_pages(alloc, tree)?;
    if bytes != 32_768 {
        return Err(DirFault::WrongLength(bytes));
    }
    read_entries(alloc, &pages)
}

impl<F: StoreFile> DirFile<F> {
    /// Loads the directory that a reference names in its file. `tsk` is the directory's key, which wraps the file's.
    ///
    /// It loads the tree, and reads each block that holds bytes once, before it looks at the tree's length.
    ///
    /// # Errors
    ///
    /// The first that holds: the tree's fault, where it does not load or a block of it is bad; `WrongLength` where it has not
    /// 32,768 bytes; `Record` names the first entry that is outside its form; `Double` the first entry that has the name or the file of
    /// an earlier one, and the first such. On a file that is neither honest nor steady, each of these says what the file reads as when
    /// the call ends, or what a tree holds that was read from it and is verified under the reference. Besides `Failed`, where a call
    /// of the file failed, and `NoMemory`.
    pub fn load(
        alloc: Global,
        file: F,
        tsk: &[u8; 32],
        root: RootRef,
    ) -> Result<DirFile<F>, DirBroken<F>>
        requires { root.version < 2 }
        ensures root { IfOk result (λ d. d.dir.root ≡ root) }
        ensures idle { IfOk result (λ d. d.dir.stage ≡ None) }
        ensures tsk { IfOk result (λ d. d.dir.tsk ≡ tsk.now) }
        ensures loaded { IfOk result (λ d. Told (F.state file) (F.state d.file) →
            load_of (F.state d.file).reads root ≡ Result.Ok d.dir.tree) }
        ensures directory { IfOk result (λ d. Told (F.state file) (F.state d.file) →
            directory_of tsk.now (F.state d.file).reads root ≡ Result.Ok d.dir.entries) }
        ensures fault { IfErr result (λ b. IsOutsideDir b.fault ⊎ (Told (F.state file) (F.state b.file) →
            directory_of tsk.now (F.state b.file).reads root ≡ Result.Err b.fault)) }
        // Of any file.
        ensures kind { IfErr result (λ b. IsDirFault b.fault) }
        ensures verified { IfOk result (λ d. IsVerified root d.dir.tree) }
        ensures entries { IfOk result (λ d. AreEntriesOf d.dir.entries) }
        // The tree and each of its blocks are what the file read as, each at one moment of the call.
        ensures seen { IfOk result (λ d. SeesDirectory (F.state file) (F.state d.file) tsk.now root d.dir.tree (Result.Ok d.dir.entries)) }
        ensures differs { IfErr result (λ b. DirDiffers tsk.now (F.state b.file) root b.fault) }
        ensures widths { IfErr result (λ b. HasDirWidths b.fault) }
        ensures rests { IfOk result (λ d. Rests (F.state file) (F.state d.file)) }
        ensures rests_err { IfErr result (λ b. Rests (F.state file) (F.state b.file)) }
        // The tree loads with two calls, and each of its eight blocks is read with one.
        ensures once { IfOk result (λ d. ReadsBlocks (F.state file) (F.state d.file) 10) }
        ensures passed { IfOk result (λ d. FilePassed (F.state file) (F.state d.file)) }
        ensures cause { IfErr result (λ b. DirCause (F.state file) (F.state b.file) b.fault) }
    {
        let mut tree = match Tree::load(alloc, file, tsk, root) {
            Ok(tree) => tree,
            Err(Broken { file, fault }) => {
                let fault = DirFault::Tree(fault);
                return Err(DirBroken { file, fault });
            }
        };
        match read_directory(alloc, &mut tree) {
            Ok(entries) => Ok(DirFile {
                tree,
                tsk: *tsk,
                entries,
                next: None,
            }),
            Err(fault) => {
                let file = tree.into_file();
                Err(DirBroken { file, fault })
            }
        }
    }
}
