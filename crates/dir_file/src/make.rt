// Making a directory without objects.
ghost use Rattle.std.specs.Prelude.{◌≡◌, length, IfErr, IfOk, IsTrue, None, Result};
ghost use Rattle.disk_model.specs.Keeps.{Keeps};
ghost use Rattle.htree_file.specs.Answers.{FaultCause, FilePassed};
ghost use Rattle.htree_file.specs.Making.{DrawFault, IsDrawFault, IsMakeFault, NamesVersionZero, NotEntropy, Nowhere};
ghost use Rattle.htree_file.specs.Opening.{IsVerified};
ghost use Rattle.dir_file.specs.EntryForms.{no_entries};
ghost use Rattle.dir_file.specs.Held.{IsDurable};
ghost use Rattle.dir_file.specs.Loading.{IsReadDirectory};
ghost use Rattle.dir_file.specs.Making.{AreBlank};

use crate::file::DirFile;
use dir_records::DirEntry;
use htree_file::{Broken, Page, Tree, TreeFault};
use node_image::{FORMAT, RootRef};
use std::alloc::Global;
use tee_ports::{Entropy, NoMemory, StoreFile};

// The pages of a directory without objects.
fn blank_pages() -> [Page; 8]
    ensures { AreBlank result }
{
    [[0; 4096]; 8]
}

// The entries of a directory without objects.
fn free_entries(alloc: Global) -> Result<Vec<Option<DirEntry>>, NoMemory>
    ensures { IfOk result (λ v. v.items ≡ no_entries) }
{
    let mut entries = Vec::new(alloc);
    for _ in 0..256u16 {
        entries.push(None)?;
    }
    Ok(entries)
}

// A reference, whose hash has 32 bytes.
fn whole(root: RootRef) -> RootRef
    ensures is { result ≡ root }
    ensures long { length result.hash ≡ 32 }
{
    root
}

impl<F: StoreFile> DirFile<F> {
    /// Makes a directory without objects in a file, and settles it. `tsk` is the directory's key, which wraps the file's. Gives the
    /// directory and the reference that names it.
    ///
    /// # Errors
    ///
    /// `NoEntropy` where a draw failed; the file is as it was. `Failed` where a call of the file failed; the file then may hold anything in
    /// version 0. Besides `NoMemory`.
    pub fn make<E: Entropy>(
        alloc: Global,
        file: F,
        tsk: &[u8; 32],
        entropy: &mut E,
    ) -> Result<(DirFile<F>, RootRef), Broken<F>>
        ensures root { IfOk result (λ made. (made.1 ≡ made.0.dir.root) × (made.1.version ≡ 0) × (length made.1.hash ≡ 32)) }
        ensures format { IfOk result (λ made. made.1.format ≡ 2) }
        ensures idle { IfOk result (λ made. made.0.dir.stage ≡ None) }
        ensures tsk { IfOk result (λ made. made.0.dir.tsk ≡ tsk.now) }
        ensures entries { IfOk result (λ made. made.0.dir.entries ≡ no_entries) }
        ensures verified { IfOk result (λ made. IsVerified made.1 made.0.dir.tree) }
        ensures flags { IfOk result (λ made. NamesVersionZero made.0.dir.tree) }
        // Of any file: the tree's nodes seal the pages of the directory without objects.
        ensures pages { IfOk result (λ made. IsReadDirectory tsk.now made.0.dir.tree (Result.Ok no_entries)) }
        // In every image that the file may leave, the reference names the directory without objects.
        ensures held { IfOk result (λ made. IsTrue (F.state made.0.file).honest →
            IsDurable (F.state made.0.file) tsk.now made.1 made.0.dir.tree no_entries) }
        ensures keeps { IfOk result (λ made. Keeps Nowhere (F.state file) (F.state made.0.file)) }
        ensures keeps_err { IfErr result (λ b. Keeps Nowhere (F.state file) (F.state b.file)) }
        ensures fault { IfErr result (λ b. IsMakeFault b.fault) }
        ensures untouched { IfErr result (λ b. IsDrawFault b.fault → b.file ≡ file) }
        ensures passed { IfOk result (λ made. FilePassed (F.state file) (F.state made.0.file)) }
        ensures cause { IfErr result (λ b. FaultCause (F.state file) (F.state b.file) b.fault) }
        ensures drew { IfOk result (λ _. E.faults entropy.new ≡ E.faults entropy.old) }
        ensures draw_cause { IfErr result (λ b. DrawFault (E.faults entropy.old) (E.faults entropy.new) b.fault) }
        ensures reliable { E.is_reliable entropy.old → E.is_reliable entropy.new }
        ensures drawn { E.is_reliable entropy.old → IfErr result (λ b. NotEntropy b.fault) }
    {
        let entries = match free_entries(alloc) {
            Ok(entries) => entries,
            Err(_) => {
                return Err(Broken {
                    file,
                    fault: TreeFault::NoMemory,
                });
            }
        };
        let pages = blank_pages();
        match Tree::make(alloc, file, FORMAT, tsk, 32_768, &pages, entropy) {
            Ok((tree, root)) => {
                let root = whole(root);
                let dir = DirFile {
                    tree,
                    tsk: *tsk,
                    entries,
                    next: None,
                };
                Ok((dir, root))
            }
            Err(broken) => Err(broken),
        }
    }
}
