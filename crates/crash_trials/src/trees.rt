// Whole blocks of a tree, step by step.

ghost use Rattle.std.specs.Prelude.{◌≡◌, ◌≤◌, None, IsSome, OnOk};

use crate::arms::Arm;
use crate::blocks::load;
use crate::change::{Change, new_byte};
use crate::named::Named;
use block_file::BlockFile;
use htree_file::{BlockChange, Page, TreeFault};
use mem_files::MemFile;
use node_image::{RootRef, greatest_node};
use std::alloc::Global;
use tee_ports::ListEntropy;

// The page whose first byte has this number in a write.
fn new_page(first: usize) -> Page {
    let mut page = [0; 4096];
    for (place, byte) in page.iter_mut().enumerate() {
        *byte = new_byte(first.saturating_add(place));
    }
    page
}

// The change of a block that a write from block 1 on covers.
fn change(block: u32) -> BlockChange
    requires { 1 ≤ block }
    ensures { result.block ≡ block }
{
    BlockChange {
        block,
        page: new_page(4096 * (block - 1) as usize),
    }
}

/// What a stage of whole blocks does.
#[derive(Clone, Copy)]
pub enum Step {
    /// Block 1 of five gets a new page.
    Page,
    /// A tree of three blocks grows to five, and its blocks 1 and 2 change.
    Growth,
    /// Of five blocks 100 bytes are left.
    Cut,
}

impl Step {
    /// The same as a change of bytes.
    pub fn change(self) -> Change {
        match self {
            Step::Page => Change::Write {
                at: 4096,
                count: 4096,
            },
            Step::Growth => Change::Write {
                at: 4096,
                count: 16_384,
            },
            Step::Cut => Change::Truncate { size: 100 },
        }
    }
}

fn stage_page(tree: &mut BlockFile<MemFile>, entropy: &mut ListEntropy) -> Result<(), TreeFault>
    requires { (tree.old.stage ≡ None) × (tree.old.root.format ≡ 2) × (tree.old.tree.head.greatest ≡ 5) }
    ensures open { OnOk result (IsSome tree.new.stage) }
{
    let changes = [change(1)];
    tree.stage_pages(20_480, &changes, entropy)
}

fn stage_growth(tree: &mut BlockFile<MemFile>, entropy: &mut ListEntropy) -> Result<(), TreeFault>
    requires { (tree.old.stage ≡ None) × (tree.old.root.format ≡ 2) × (tree.old.tree.head.greatest ≡ 3) }
    ensures open { OnOk result (IsSome tree.new.stage) }
{
    let changes = [change(1), change(2), change(3), change(4)];
    tree.stage_pages(20_480, &changes, entropy)
}

fn stage_cut(tree: &mut BlockFile<MemFile>, entropy: &mut ListEntropy) -> Result<(), TreeFault>
    requires { (tree.old.stage ≡ None) × (tree.old.root.format ≡ 2) × (tree.old.tree.head.greatest ≡ 5) }
    ensures open { OnOk result (IsSome tree.new.stage) }
{
    tree.stage_pages(100, &[], entropy)
}

// How many blocks the tree has.
fn block_count(tree: &BlockFile<MemFile>) -> u32
    ensures { result ≡ tree.now.tree.head.greatest }
{
    greatest_node(tree.length())
}

// Stages a step. A tree with another number of blocks is refused as if memory ran out.
fn stage(
    tree: &mut BlockFile<MemFile>,
    step: Step,
    entropy: &mut ListEntropy,
) -> Result<(), TreeFault>
    requires { (tree.old.stage ≡ None) × (tree.old.root.format ≡ 2) }
    ensures open { OnOk result (IsSome tree.new.stage) }
{
    let blocks = block_count(tree);
    match step {
        Step::Page if blocks == 5 => stage_page(tree, entropy),
        Step::Growth if blocks == 3 => stage_growth(tree, entropy),
        Step::Cut if blocks == 5 => stage_cut(tree, entropy),
        _ => Err(TreeFault::NoMemory),
    }
}

// Stages a step, settles it, and makes it what is committed.
fn commit(tree: &mut BlockFile<MemFile>, step: Step, arm: Arm) -> Result<RootRef, TreeFault>
    requires { (tree.old.stage ≡ None) × (tree.old.root.format ≡ 2) }
{
    let mut entropy = arm.entropy();
    stage(tree, step, &mut entropy)?;
    let root = tree.settle()?;
    tree.adopt();
    Ok(root)
}

/// The file after a step of an object's tree, and what names the tree then. None where something failed.
pub fn changed(
    alloc: Global,
    file: MemFile,
    named: &Named,
    step: Step,
    arm: Arm,
) -> (MemFile, Option<Named>) {
    let mut tree = match load(alloc, file, named) {
        Ok(tree) => tree,
        Err(broken) => return (broken.file, None),
    };
    let next = match commit(&mut tree, step, arm) {
        Ok(root) => Named::new(root, 0, 0),
        Err(_) => None,
    };
    (tree.into_file(), next)
}
