// Reading the pages of a directory's tree.
ghost use Rattle.std.specs.Prelude.{◌≡◌, ◌⊎◌, ◌≤◌, length, min, IfErr, IfOk, IsTrue, OnOk, Result};
ghost use Rattle.disk_model.specs.Calls.{Rests};
ghost use Rattle.htree_file.specs.Answers.{HasCause, HasFaultWidths, IsOutside};
ghost use Rattle.htree_file.specs.Opening.{IsVerified};
ghost use Rattle.htree_file.specs.Standing.{Told};
ghost use Rattle.crash_core.specs.declared.fault.DirFault.TheVariants.{Tree as TreeRefusal};
ghost use Rattle.crash_core.specs.Directory.{blocks_of, tree_directory};
ghost use Rattle.dir_file.specs.Calls.{ReadsBlocks};
ghost use Rattle.dir_file.specs.Pages.{ArePages, AreSeen, kept};
ghost use Rattle.dir_file.specs.Refusals.{EntriesDiffer};

use htree_file::{Page, Tree, TreeFault};
use std::alloc::Global;
use tee_ports::{NoMemory, StoreFile};

// How many blocks hold so many bytes.
fn block_count(bytes: u64) -> u32
    requires { bytes ≤ 1048576 }
    ensures { result ≡ blocks_of bytes }
{
    ((bytes + 4095) / 4096) as u32
}

// Keeps the page of block k, where it is one of the first eight.
fn keep_page(pages: &mut Vec<Page>, k: u32, page: Page) -> Result<(), NoMemory>
    ensures { OnOk result (pages.new.items ≡ kept pages.old.items k page) }
{
    if k < 8 {
        pages.push(page)?;
    }
    Ok(())
}

/// Reads each block of a tree that holds bytes, once, and keeps the pages of the first eight.
pub(crate) fn read_pages<F: StoreFile>(
    alloc: Global,
    tree: &mut Tree<F>,
) -> Result<Vec<Page>, TreeFault>
    ensures count { IfOk result (λ v. length v.items ≡ min 8 (blocks_of tree.old.tree.head.length)) }
    ensures pages { IfOk result (λ v. Told (F.state tree.old.file) (F.state tree.new.file) →
        ArePages (F.state tree.old.file).reads tree.old.key tree.old.tree v.items (blocks_of tree.old.tree.head.length)) }
    ensures seen { IfOk result (λ v. AreSeen (F.state tree.old.file) (F.state tree.new.file) tree.old.key tree.old.tree v.items) }
    ensures once { OnOk result (ReadsBlocks (F.state tree.old.file) (F.state tree.new.file) (blocks_of tree.old.tree.head.length)) }
    ensures fault { IfErr result (λ f. IsOutside f ⊎ (Told (F.state tree.old.file) (F.state tree.new.file) →
        tree_directory (F.state tree.old.file).reads tree.old.key tree.old.tree ≡ Result.Err (TreeRefusal f))) }
    ensures differs { IfErr result (λ f. EntriesDiffer tree.old.key tree.old.tree (F.state tree.new.file) (TreeRefusal f)) }
    ensures widths { IfErr result HasFaultWidths }
    ensures verified { IsVerified tree.old.root tree.old.tree }
    ensures same { tree.new ≡ record tree.old { file = tree.new.file } }
    ensures rests { Rests (F.state tree.old.file) (F.state tree.new.file) }
    ensures cause { HasCause (F.state tree.old.file) (F.state tree.new.file) result }
{
    let count = block_count(tree.length());
    let mut pages = Vec::new(alloc);
    for k in 0..count {
        let mut page = [0; 4096];
        tree.read_block(k, &mut page)?;
        match keep_page(&mut pages, k, page) {
            Ok(()) => {}
            Err(_) => return Err(TreeFault::NoMemory),
        }
    }
    Ok(pages)
}
