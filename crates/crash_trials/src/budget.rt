// How many bytes a change writes.

ghost use Rattle.std.specs.Prelude.{◌≡◌, None};

use crate::change::old_bytes;
use crate::named::Named;
use crate::objects::{load, made};
use anyhow::Context;
use htree_file::TreeFault;
use mem_files::MemFile;
use object_file::ObjectFile;
use std::alloc::Global;
use tee_ports::{FileRig, ListEntropy};

/// A change of an object with so many bytes of data, and the most bytes that it may write.
struct Row {
    name: &'static str,
    size: u32,
    change: Change,
    most: u64,
}

/// A change of its last bytes.
#[derive(Clone, Copy)]
enum Change {
    /// The last byte is written.
    LastByte,
    /// The last block goes.
    LastBlock,
}

const ROWS: [Row; 3] = [
    Row {
        name: "block 255 of a tree of 256 blocks",
        size: 1_044_480,
        change: Change::LastByte,
        most: 4722,
    },
    Row {
        name: "block 7 of a tree of 8 blocks",
        size: 28_672,
        change: Change::LastByte,
        most: 4392,
    },
    Row {
        name: "a tree's bytes cut from 36,864 to 32,768",
        size: 32_768,
        change: Change::LastBlock,
        most: 4392,
    },
];

// Stages a change.
fn stage(alloc: Global, object: &mut ObjectFile<MemFile>, change: Change) -> Result<(), TreeFault>
    requires { (object.old.tree.stage ≡ None) × (object.old.tree.root.format ≡ 2) }
{
    let mut entropy = ListEntropy::new([0; 16]);
    let size = object.size();
    match change {
        Change::LastByte => object.stage_write(alloc, size.saturating_sub(1), &[9], &mut entropy),
        Change::LastBlock => object.stage_truncate(alloc, size.saturating_sub(4096), &mut entropy),
    }
}

// How many calls a load makes.
fn calls_of_load(alloc: Global, file: MemFile, named: &Named) -> anyhow::Result<(MemFile, u64)> {
    let object = load(alloc, file, named).ok().context("not loaded")?;
    let mut file = object.into_file();
    let calls = file.calls();
    file.disarm();
    Ok((file, calls))
}

// How many bytes a stage of the row writes, and with how many calls.
fn written_by(alloc: Global, row: &Row) -> anyhow::Result<(u64, u64)> {
    let data = old_bytes(alloc, row.size as usize)?;
    let mut entropy = ListEntropy::new([0; 16]);
    let (mut file, named) = made(alloc, MemFile::new(alloc), &data, &mut entropy);
    let named = named.context("not made")?;
    file.disarm();
    let (file, loading) = calls_of_load(alloc, file, &named)?;
    let before = file.written();
    let mut object = load(alloc, file, &named).ok().context("not loaded")?;
    stage(alloc, &mut object, row.change)
        .ok()
        .context("not staged")?;
    let file = object.into_file();
    Ok((
        file.written().saturating_sub(before),
        file.calls().saturating_sub(loading),
    ))
}

/// Prints a line for each row.
pub fn print(rt: &(impl Print + AllocGlobal)) -> anyhow::Result<()> {
    for row in &ROWS {
        let (bytes, calls) = written_by(rt.alloc(), row)?;
        println!(rt;
            "{}: {bytes} bytes written in {calls} calls, at most {}",
            row.name, row.most
        )?;
    }
    Ok(())
}
