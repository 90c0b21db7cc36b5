//! Objects that are made.

ghost use Rattle.std.specs.Prelude.{◌≡◌, ◌+◌, ◌<◌, ◌≤◌, ℕ, List, [], length, map, None, Some, IfErr, IfOk, IsTrue, Result};
ghost use Rattle.htree_file.specs.Changes.{Seals};
ghost use Rattle.htree_file.specs.Pages.{opened_of};
ghost use Rattle.aes_block.specs.WrappedKey.{unwrapped_of};
ghost use Rattle.disk_model.specs.Calls.{Known};
ghost use Rattle.disk_model.specs.Keeps.{Keeps};
ghost use Rattle.node_image.specs.Layout.{greatest_of};
ghost use Rattle.htree_file.specs.Answers.{FaultCause, FilePassed};
ghost use Rattle.htree_file.specs.Making.{DrawFault, IsDrawFault, IsMakeFault, NamesVersionZero, NotEntropy, Nowhere};
ghost use Rattle.htree_file.specs.Opening.{IsVerified, load_of};
ghost use Rattle.htree_file.specs.Standing.{IsFirm};
ghost use Rattle.store_model.specs.Object.{Sound};
ghost use Rattle.crash_core.specs.MountedObject.{object_in};
ghost use Rattle.object_file.specs.Making.{AreObjectPages, IsObjectPage};

use crate::object::{FIRST_BLOCK, ObjectFile};
use block_file::BlockFile;
use htree_file::{Broken, Page, Tree, TreeFault};
use node_image::{FORMAT, RootRef, greatest_node};
use page_bytes::ByteRange;
use std::alloc::Global;
use tee_ports::{Entropy, NoMemory, StoreFile};

// The page with the attributes.
fn first_page(attributes: &[u8]) -> Page
    requires { length attributes.now ≤ 4096 }
    ensures { IsObjectPage attributes.now [] 0 result }
{
    let mut page = [0; 4096];
    let range = ByteRange {
        size: 0,
        first: 0,
        last: FIRST_BLOCK,
    };
    range.rewrite(0, 0, attributes, &mut page);
    page
}

// The page of data block k, where k is at least 1.
fn data_page(bytes: &[u8], k: u32) -> Page
    requires few { length bytes.now ≤ 1044480 }
    requires data { 1 ≤ k }
    ensures { IsObjectPage [] bytes.now k result }
{
    let mut page = [0; 4096];
    let range = ByteRange {
        size: 0,
        first: 0,
        last: FIRST_BLOCK + bytes.len() as u64,
    };
    range.rewrite(k, FIRST_BLOCK, bytes, &mut page);
    page
}

// The page of block k.
fn object_page(attributes: &[u8], bytes: &[u8], k: u32) -> Page
    requires attributes { length attributes.now ≤ 4096 }
    requires few { length bytes.now ≤ 1044480 }
    ensures { IsObjectPage attributes.now bytes.now k result }
{
    if k == 0 {
        first_page(attributes)
    } else {
        data_page(bytes, k)
    }
}

// The pages of an object.
fn object_pages(alloc: Global, attributes: &[u8], bytes: &[u8]) -> Result<Vec<Page>, NoMemory>
    requires attributes { length attributes.now ≤ 4096 }
    requires few { length bytes.now ≤ 1044480 }
    ensures count { IfOk result (λ pages. length pages.items ≡ greatest_of (4096 + length bytes.now)) }
    ensures pages { IfOk result (λ pages. AreObjectPages attributes.now bytes.now pages.items (length pages.items)) }
{
    let count = greatest_node(FIRST_BLOCK + bytes.len() as u64);
    let mut pages = Vec::new(alloc);
    for k in 0..count {
        pages.reserve(1)?;
        pages.push_reserved(object_page(attributes, bytes, k));
    }
    Ok(pages)
}

impl<F: StoreFile> ObjectFile<F> {
    /// Makes an object in a file, with these attributes and data: draws the file's key and an initialization vector for each
    /// block, writes all in version 0, and settles it. `tsk` is the application's key, which wraps the file's. Gives the object
    /// and the reference that names it.
    ///
    /// # Errors
    ///
    /// `Failed` where a call of the file failed, `NoEntropy` where a draw failed, and `NoMemory`. The file may then hold
    /// anything.
    pub fn make<E: Entropy>(
        alloc: Global,
        file: F,
        tsk: &[u8; 32],
        attributes: &[u8],
        bytes: &[u8],
        entropy: &mut E,
    ) -> Result<(ObjectFile<F>, RootRef), Broken<F>>
        requires attributes { length attributes.now ≤ 2048 }
        requires few { length bytes.now ≤ 1044480 }
        ensures root { IfOk result (λ made. (made.1 ≡ made.0.tree.root) × (made.1.version ≡ 0) × (made.1.format ≡ 2)) }
        ensures idle { IfOk result (λ made. made.0.tree.stage ≡ None) }
        ensures attributes { IfOk result (λ made. made.0.attributes ≡ attributes.now) }
        ensures size { IfOk result (λ made. made.0.tree.tree.head.length ≡ 4096 + length bytes.now) }
        ensures loaded { IfOk result (λ made. Known (F.state file) (F.state made.0.tree.file) →
            load_of (F.state made.0.tree.file).reads made.1 ≡ Result.Ok made.0.tree.tree) }
        ensures object { IfOk result (λ made. Known (F.state file) (F.state made.0.tree.file) →
            object_in tsk.now (F.state made.0.tree.file).reads made.1 (length bytes.now) (length attributes.now)
            ≡ Sound (record { attributes = attributes.now; bytes = bytes.now; bad = [] })) }
        ensures pages { IfOk result (λ made. Known (F.state file) (F.state made.0.tree.file) →
            (pages : List (List ℕ)) × (opened_of tsk.now (F.state made.0.tree.file).reads made.1
            ≡ Result.Ok (record { bytes = 4096 + length bytes.now; pages = map (λ page. Some page) pages }))
            × AreObjectPages attributes.now bytes.now pages (length pages)) }
        // Of any file.
        ensures seals { IfOk result (λ made. (k : ℕ) → k < length made.0.tree.tree.nodes →
            (page : List ℕ) × IsObjectPage attributes.now bytes.now k page × Seals made.0.tree.key made.0.tree.tree k page) }
        ensures flags { IfOk result (λ made. NamesVersionZero made.0.tree.tree) }
        ensures firm { IfOk result (λ made. IsTrue (F.state made.0.tree.file).honest →
            IsFirm (F.state made.0.tree.file) made.1 made.0.tree.tree) }
        ensures verified { IfOk result (λ made. IsVerified made.1 made.0.tree.tree) }
        ensures key { IfOk result (λ made. made.0.tree.key ≡ unwrapped_of tsk.now made.0.tree.tree.head.wrapped) }
        ensures keeps { IfOk result (λ made. Keeps Nowhere (F.state file) (F.state made.0.tree.file)) }
        ensures keeps_err { IfErr result (λ b. Keeps Nowhere (F.state file) (F.state b.file)) }
        ensures fault { IfErr result (λ b. IsMakeFault b.fault) }
        ensures untouched { IfErr result (λ b. IsDrawFault b.fault → b.file ≡ file) }
        ensures passed { IfOk result (λ made. FilePassed (F.state file) (F.state made.0.tree.file)) }
        ensures cause { IfErr result (λ b. FaultCause (F.state file) (F.state b.file) b.fault) }
        ensures drew { IfOk result (λ _. E.faults entropy.new ≡ E.faults entropy.old) }
        ensures draw_cause { IfErr result (λ b. DrawFault (E.faults entropy.old) (E.faults entropy.new) b.fault) }
        ensures reliable { E.is_reliable entropy.old → E.is_reliable entropy.new }
        ensures drawn { E.is_reliable entropy.old → IfErr result (λ b. NotEntropy b.fault) }
    {
        let size = FIRST_BLOCK + bytes.len() as u64;
        let kept = match attributes.to_vec(alloc) {
            Ok(kept) => kept,
            Err(_) => {
                return Err(Broken {
                    file,
                    fault: TreeFault::NoMemory,
                });
            }
        };
        let pages = match object_pages(alloc, attributes, bytes) {
            Ok(pages) => pages,
            Err(_) => {
                return Err(Broken {
                    file,
                    fault: TreeFault::NoMemory,
                });
            }
        };
        match Tree::make(alloc, file, FORMAT, tsk, size, &pages, entropy) {
            Ok((tree, root)) => {
                let object = ObjectFile {
                    file: BlockFile::new(tree),
                    attributes: kept,
                };
                Ok((object, root))
            }
            Err(broken) => Err(broken),
        }
    }
}
