// A tree is copied, part by part, into a file of another format.
ghost use Rattle.std.specs.Prelude.{◌≡◌, ◌+◌, ◌*◌, ◌<◌, ◌≤◌, ◌^◌, [], cond, length, nat_le, IfErr, IfOk, OnOk};
ghost use Rattle.disk_model.specs.Bytes.{after_write};
ghost use Rattle.disk_model.specs.Calls.{Known, Rests};
ghost use Rattle.disk_model.specs.Keeps.{Keeps};
ghost use Rattle.disk_model.specs.State.{pending};
ghost use Rattle.node_image.specs.Selection.{bytes_at};
ghost use Rattle.htree_file.specs.Answers.{FilePassed, IsFailed};
ghost use Rattle.htree_file.specs.Copies.{AreFlags, CopyCause, CopyOpens, CopyRun, IsCopy, IsCopyOf, OneFailed, copied_nodes, version_by_flags};
ghost use Rattle.htree_file.specs.Making.{IsSynced, Nowhere};
ghost use Rattle.htree_file.specs.Standing.{Told};

use crate::device::read_padded;
use crate::fault::{Broken, Page, TreeFault};
use crate::table::{LEFT_BIT, MOST_NODES, RIGHT_BIT};
use node_image::{Head, NodeImage, RootRef, block_offset, head_offset, node_offset};
use tee_ports::StoreFile;

// The version of node `n`, by the flags of the nodes before it.
fn version_by_flags(flags: &[u16], root: u8, n: u32) -> u8
    requires { (1 ≤ n) × (n ≤ 2 * length flags.now + 1) }
    ensures value { result ≡ version_by_flags flags.now root n }
    ensures bit { root < 2 → result < 2 }
{
    if n <= 1 {
        return root;
    }
    let flags = flags[n as usize / 2 - 1];
    if n % 2 == 0 {
        (flags / LEFT_BIT % 2) as u8
    } else {
        (flags / RIGHT_BIT % 2) as u8
    }
}

// Copies bytes from one place to another, by one call of each file. Past the old file's end they are zero.
fn copy_bytes<F: StoreFile>(
    from: &mut F,
    to: &mut F,
    at: u64,
    there: u64,
    bytes: &mut [u8],
) -> Result<(), TreeFault>
    requires { (at + length bytes.old < 2 ^ 32) × (there + length bytes.old < 2 ^ 32) }
    ensures read { OnOk result (Told (F.state from.old) (F.state from.new) →
        bytes.new ≡ bytes_at (F.state from.old).reads at (length bytes.old)) }
    ensures copied { OnOk result (Told (F.state from.old) (F.state from.new) → Known (F.state to.old) (F.state to.new) →
        (F.state to.new).reads ≡ after_write (F.state to.old).reads there (bytes_at (F.state from.old).reads at (length bytes.old))) }
    ensures run { CopyRun (F.state from.old) (F.state from.new) (F.state to.old) (F.state to.new) }
    ensures cause { CopyCause (F.state from.old) (F.state from.new) (F.state to.old) (F.state to.new) result }
    ensures failed { IfErr result IsFailed }
{
    read_padded(from, at, bytes)?;
    to.write_at(there, bytes)?;
    Ok(())
}

// Copies a block, if it ends within the old file.
fn copy_block<F: StoreFile>(
    from: &mut F,
    to: &mut F,
    at: u64,
    there: u64,
    end: u64,
) -> Result<(), TreeFault>
    requires { (at + 4096 < 2 ^ 32) × (there + 4096 < 2 ^ 32) }
    ensures copied { OnOk result (Told (F.state from.old) (F.state from.new) → Known (F.state to.old) (F.state to.new) →
        (F.state to.new).reads ≡ cond (nat_le (at + 4096) end)
        (after_write (F.state to.old).reads there (bytes_at (F.state from.old).reads at 4096)) (F.state to.old).reads) }
    ensures run { CopyRun (F.state from.old) (F.state from.new) (F.state to.old) (F.state to.new) }
    ensures cause { CopyCause (F.state from.old) (F.state from.new) (F.state to.old) (F.state to.new) result }
    ensures failed { IfErr result IsFailed }
{
    if end < at + 4096 {
        return Ok(());
    }
    let mut page: Page = [0; 4096];
    copy_bytes(from, to, at, there, &mut page)?;
    Ok(())
}

// Copies the head into an empty file. Gives how many nodes it has, or none where it has not its form.
#[tactic(auto, using(crate::proofs::SameTable::head_low, crate::proofs::SameTable::nodes_low))]
fn copy_head<F: StoreFile>(
    from: &mut F,
    to: &mut F,
    root: RootRef,
    format: u8,
) -> Result<usize, TreeFault>
    requires { root.version < 2 }
    ensures copied { OnOk result (Told (F.state from.old) (F.state from.new) → Known (F.state to.old) (F.state to.new) →
        (F.state to.old).reads ≡ [] → IsCopyOf (F.state from.old).reads (F.state to.new).reads root format 0 0) }
    ensures count { IfOk result (λ count. Told (F.state from.old) (F.state from.new) →
        count ≡ copied_nodes (F.state from.old).reads root) }
    ensures few { IfOk result (λ count. count ≤ 256) }
    ensures run { CopyRun (F.state from.old) (F.state from.new) (F.state to.old) (F.state to.new) }
    ensures cause { CopyCause (F.state from.old) (F.state from.new) (F.state to.old) (F.state to.new) result }
    ensures failed { IfErr result IsFailed }
{
    let at = head_offset(root.format, root.version);
    let there = head_offset(format, root.version);
    let mut bytes = [0; 32];
    copy_bytes(from, to, at, there, &mut bytes)?;
    match Head::from_bytes(&bytes) {
        Ok(head) => Ok(head.greatest as usize),
        Err(_) => Ok(0),
    }
}

// Copies the selected nodes behind a head, and gives their flags.
#[tactic(auto, using(crate::proofs::SameTable::node_low, crate::proofs::SameTable::nodes_low))]
fn copy_nodes<F: StoreFile>(
    from: &mut F,
    to: &mut F,
    root: RootRef,
    format: u8,
    flags: &mut [u16],
) -> Result<(), TreeFault>
    requires { (root.version < 2) × (length flags.old ≤ 256) }
    ensures copied { OnOk result (Told (F.state from.old) (F.state from.new) → Known (F.state to.old) (F.state to.new) →
        IsCopyOf (F.state from.old).reads (F.state to.old).reads root format 0 0 →
        IsCopyOf (F.state from.old).reads (F.state to.new).reads root format (length flags.old) 0) }
    ensures flags { OnOk result (Told (F.state from.old) (F.state from.new) →
        AreFlags (F.state from.old).reads root flags.new (length flags.old)) }
    ensures run { CopyRun (F.state from.old) (F.state from.new) (F.state to.old) (F.state to.new) }
    ensures cause { CopyCause (F.state from.old) (F.state from.new) (F.state to.old) (F.state to.new) result }
    ensures failed { IfErr result IsFailed }
{
    for k in 0..flags.len() {
        let n = k as u32 + 1;
        let version = version_by_flags(flags, root.version, n);
        let at = node_offset(root.format, n, version);
        let there = node_offset(format, n, version);
        let mut bytes = [0; 66];
        copy_bytes(from, to, at, there, &mut bytes)?;
        flags[k] = NodeImage::from_bytes(&bytes).flags;
    }
    Ok(())
}

// Copies each block on these nodes that the old file wholly holds.
#[tactic(auto, using(crate::proofs::SameTable::block_low))]
fn copy_blocks<F: StoreFile>(
    from: &mut F,
    to: &mut F,
    root: RootRef,
    format: u8,
    flags: &[u16],
) -> Result<(), TreeFault>
    requires { (root.version < 2) × (length flags.now ≤ 256) }
    ensures copied { OnOk result (Told (F.state from.old) (F.state from.new) → Known (F.state to.old) (F.state to.new) →
        AreFlags (F.state from.old).reads root flags.now (length flags.now) →
        IsCopyOf (F.state from.old).reads (F.state to.old).reads root format (length flags.now) 0 →
        IsCopyOf (F.state from.old).reads (F.state to.new).reads root format (length flags.now) (length flags.now)) }
    ensures run { CopyRun (F.state from.old) (F.state from.new) (F.state to.old) (F.state to.new) }
    ensures cause { CopyCause (F.state from.old) (F.state from.new) (F.state to.old) (F.state to.new) result }
    ensures failed { IfErr result IsFailed }
{
    let end = from.len()?;
    for k in 0..flags.len() {
        let version = (flags[k] % 2) as u8;
        let at = block_offset(root.format, k as u32, version);
        let there = block_offset(format, k as u32, version);
        copy_block(from, to, at, there, end)?;
    }
    Ok(())
}

// Copies all parts into an empty file.
fn copy_parts<F: StoreFile>(
    from: &mut F,
    to: &mut F,
    root: RootRef,
    format: u8,
) -> Result<(), TreeFault>
    requires { root.version < 2 }
    ensures copied { OnOk result (Told (F.state from.old) (F.state from.new) → Known (F.state to.old) (F.state to.new) →
        (F.state to.old).reads ≡ [] → IsCopy (F.state from.old).reads (F.state to.new).reads root format) }
    ensures run { CopyRun (F.state from.old) (F.state from.new) (F.state to.old) (F.state to.new) }
    ensures cause { CopyCause (F.state from.old) (F.state from.new) (F.state to.old) (F.state to.new) result }
    ensures failed { IfErr result IsFailed }
{
    let mut room = [0; MOST_NODES];
    let count = copy_head(from, to, root, format)?;
    let flags = &mut room[..count];
    copy_nodes(from, to, root, format, flags)?;
    copy_blocks(from, to, root, format, flags)?;
    Ok(())
}

// Empties the file, copies all parts into it, and settles it.
fn make_copy<F: StoreFile>(
    from: &mut F,
    to: &mut F,
    root: RootRef,
    format: u8,
) -> Result<(), TreeFault>
    requires { root.version < 2 }
    ensures copied { OnOk result (Told (F.state from.old) (F.state from.new) → Known (F.state to.old) (F.state to.new) →
        IsCopy (F.state from.old).reads (F.state to.new).reads root format) }
    ensures synced { OnOk result (IsSynced (F.state to.new)) }
    ensures pending { OnOk result (pending (F.state to.new) ≡ []) }
    ensures run { CopyRun (F.state from.old) (F.state from.new) (F.state to.old) (F.state to.new) }
    ensures cause { CopyCause (F.state from.old) (F.state from.new) (F.state to.old) (F.state to.new) result }
    ensures failed { IfErr result IsFailed }
{
    to.set_len(0)?;
    copy_parts(from, to, root, format)?;
    to.sync()?;
    Ok(())
}

/// Copies the tree that a reference names in a file into another file, each part in its own version where the format has it,
/// and settles the copy. Under the same hash and version the copy opens as the old file does. Takes no memory.
///
/// The other file is cut to no bytes first. The head and each selected node are copied, and each selected block that the old
/// file wholly holds; where the head has not the form of one, the head alone. No hash and no tag is looked at: what is bad is
/// copied as it is.
///
/// # Errors
///
/// `Failed` where a call of one of the files failed. The other file then may hold anything.
pub fn copy_tree<F: StoreFile>(
    from: &mut F,
    mut to: F,
    root: RootRef,
    format: u8,
) -> Result<F, Broken<F>>
    requires { root.version < 2 }
    ensures copied { IfOk result (λ copy. Told (F.state from.old) (F.state from.new) → Known (F.state to) (F.state copy) →
        IsCopy (F.state from.new).reads (F.state copy).reads root format) }
    // Bad blocks and faults are the old file's, but for the two numbers of a file that is too short.
    ensures opens { IfOk result (λ copy. Told (F.state from.old) (F.state from.new) → Known (F.state to) (F.state copy) →
        CopyOpens (F.state from.new).reads (F.state copy).reads root format) }
    ensures synced { IfOk result (λ copy. IsSynced (F.state copy)) }
    ensures pending { IfOk result (λ copy. pending (F.state copy) ≡ []) }
    ensures rests { Rests (F.state from.old) (F.state from.new) }
    ensures keeps { IfOk result (λ copy. Keeps Nowhere (F.state to) (F.state copy)) }
    ensures keeps_err { IfErr result (λ b. Keeps Nowhere (F.state to) (F.state b.file)) }
    ensures passed { IfOk result (λ copy. FilePassed (F.state from.old) (F.state from.new) × FilePassed (F.state to) (F.state copy)) }
    ensures fault { IfErr result (λ b. IsFailed b.fault) }
    ensures cause { IfErr result (λ b. OneFailed (F.state from.old) (F.state from.new) (F.state to) (F.state b.file) b.fault) }
{
    match make_copy(from, &mut to, root, format) {
        Ok(()) => Ok(to),
        Err(fault) => Err(Broken { file: to, fault }),
    }
}
