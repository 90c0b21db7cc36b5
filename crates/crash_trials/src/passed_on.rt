// Arms that a tree passes on to its file.

ghost use Rattle.std.specs.Prelude.{◌<◌};

use crate::base::Base;
use crate::blocks::{load, load_tree};
use crate::outcome::{Outcome, Tally};
use anyhow::Context;
use block_file::BlockFile;
use htree_file::Tree;
use mem_files::MemFile;
use node_image::{FORMAT, block_offset};
use std::alloc::Global;

// Whether a read of block 0 passes.
fn reads_tree(tree: &mut Tree<MemFile>) -> bool
    requires { 0 < tree.old.tree.head.greatest }
    ensures { 0 < tree.new.tree.head.greatest }
{
    tree.read_block(0, &mut [0; 4096]).is_ok()
}

// A tree is read where nothing is armed, and is not where its file is stopped, fails, or is struck.
fn tree_passes_arms_on(alloc: Global, base: &Base) -> anyhow::Result<bool> {
    let mut tree = load_tree(alloc, base.file(alloc)?, &base.named)
        .ok()
        .context("not loaded")?;
    tree.stop_after(0);
    let stopped = !reads_tree(&mut tree);
    tree.disarm();
    let passed = reads_tree(&mut tree);
    tree.fail_call(1)?;
    let failed = !reads_tree(&mut tree);
    tree.disarm();
    tree.taint_call(1, block_offset(FORMAT, 0, 0), &[1])?;
    let struck = !reads_tree(&mut tree);
    Ok(stopped && passed && failed && struck)
}

// Whether a read of the first byte passes.
fn reads_bytes(file: &mut BlockFile<MemFile>) -> bool {
    file.read(0, &mut [0]).is_ok()
}

// The same of the bytes of a tree.
fn bytes_pass_arms_on(alloc: Global, base: &Base) -> anyhow::Result<bool> {
    let mut file = load(alloc, base.file(alloc)?, &base.named)
        .ok()
        .context("not loaded")?;
    file.stop_after(0);
    let stopped = !reads_bytes(&mut file);
    file.disarm();
    let passed = reads_bytes(&mut file);
    file.fail_call(1)?;
    let failed = !reads_bytes(&mut file);
    file.disarm();
    file.taint_call(1, block_offset(FORMAT, 0, 0), &[1])?;
    let struck = !reads_bytes(&mut file);
    Ok(stopped && passed && failed && struck)
}

/// Arms a tree, and the bytes of one.
pub fn tally(alloc: Global) -> anyhow::Result<Tally> {
    let base = Base::new(alloc, 904)?;
    let mut tally = Tally::new();
    for is_as_armed in [
        tree_passes_arms_on(alloc, &base)?,
        bytes_pass_arms_on(alloc, &base)?,
    ] {
        tally.add(if is_as_armed {
            Outcome::Refused
        } else {
            Outcome::Lost
        });
    }
    Ok(tally)
}
