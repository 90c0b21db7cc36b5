// Bytes over a tree, step by step.

ghost use Rattle.std.specs.Prelude.{◌≡◌, ◌≤◌, None, IfOk, IsSome, OnOk};

use crate::arms::Arm;
use crate::change::{Change, new_bytes};
use crate::named::Named;
use crate::objects::TSK;
use block_file::BlockFile;
use htree_file::{Broken, Tree, TreeFault};
use mem_files::MemFile;
use node_image::RootRef;
use std::alloc::Global;
use tee_ports::ListEntropy;

/// Loads the tree of an object.
pub fn load_tree(
    alloc: Global,
    file: MemFile,
    named: &Named,
) -> Result<Tree<MemFile>, Broken<MemFile>>
    ensures idle { IfOk result (λ tree. tree.stage ≡ None) }
    ensures few { IfOk result (λ tree. 1 ≤ tree.tree.head.greatest) }
    ensures format { IfOk result (λ tree. tree.root.format ≡ 2) }
{
    let named = *named;
    Tree::load(alloc, file, &TSK, named.root)
}

/// Loads the bytes of a tree.
pub fn load(
    alloc: Global,
    file: MemFile,
    named: &Named,
) -> Result<BlockFile<MemFile>, Broken<MemFile>>
    ensures idle { IfOk result (λ file. file.stage ≡ None) }
    ensures format { IfOk result (λ file. file.root.format ≡ 2) }
{
    let named = *named;
    match Tree::load(alloc, file, &TSK, named.root) {
        Ok(tree) => Ok(BlockFile::new(tree)),
        Err(broken) => Err(broken),
    }
}

// Stages a change.
fn stage(
    alloc: Global,
    file: &mut BlockFile<MemFile>,
    change: Change,
    entropy: &mut ListEntropy,
) -> Result<(), TreeFault>
    requires { (file.old.stage ≡ None) × (file.old.root.format ≡ 2) }
    ensures open { OnOk result (IsSome file.new.stage) }
{
    match change {
        Change::Write { at, count } => {
            let bytes = new_bytes(alloc, count)?;
            file.stage_write(alloc, u64::from(at), &bytes, entropy)
        }
        Change::Truncate { size } => file.stage_truncate(alloc, u64::from(size), entropy),
    }
}

// Stages a change, settles it, and makes it what is committed.
fn commit(
    alloc: Global,
    file: &mut BlockFile<MemFile>,
    change: Change,
    arm: Arm,
) -> Result<RootRef, TreeFault>
    requires { (file.old.stage ≡ None) × (file.old.root.format ≡ 2) }
{
    let mut entropy = arm.entropy();
    stage(alloc, file, change, &mut entropy)?;
    let root = file.settle()?;
    file.adopt();
    Ok(root)
}

/// The file after a change of its tree's bytes, and what names the tree then. None where a step failed.
pub fn changed(
    alloc: Global,
    file: MemFile,
    named: &Named,
    change: Change,
    arm: Arm,
) -> (MemFile, Option<Named>) {
    let mut file = match load(alloc, file, named) {
        Ok(file) => file,
        Err(broken) => return (broken.file, None),
    };
    let next = match commit(alloc, &mut file, change, arm) {
        Ok(root) => Named::new(root, 0, 0),
        Err(_) => None,
    };
    (file.into_file(), next)
}

/// All bytes, as a read of some more gives them.
pub fn all_of(alloc: Global, file: &mut BlockFile<MemFile>) -> Result<Vec<u8>, TreeFault> {
    let mut bytes = vec![in alloc; 0xee; file.length() as usize + 5]?;
    let count = file.read(0, &mut bytes)?;
    bytes.truncate(count);
    Ok(bytes)
}

/// Whether the file has a tree with these bytes, and the file.
pub fn opens(alloc: Global, file: MemFile, named: &Named, bytes: &[u8]) -> (MemFile, bool) {
    let mut file = match load(alloc, file, named) {
        Ok(file) => file,
        Err(broken) => return (broken.file, false),
    };
    let is_same = match all_of(alloc, &mut file) {
        Ok(found) => found.as_slice() == bytes,
        Err(_) => false,
    };
    (file.into_file(), is_same)
}
