//! The directory's part of a commit.

ghost use Rattle.std.specs.Prelude.{◌≡◌, length, IfErr, IfOk, IfSome, None, true, false};
ghost use Rattle.htree_file.specs.Making.{HasCauses, IsDeviceFault, IsDrawFault};
ghost use Rattle.store_commit.specs.Changes.{FitsIn};
ghost use Rattle.store_commit.specs.Causes.{IsDrawn, NotDrawn};
ghost use Rattle.store_commit.specs.Prepared.{PrepareCause, Prepares, StagesChange, TreeCause};

use crash_core::EntryChange;
use dir_file::DirFile;
use htree_file::TreeFault;
use node_image::RootRef;
use tee_ports::{Entropy, StoreFile};
use tee_types::{Cause, Device};

// What a fault of the directory's file, or of a draw, means.
fn cause_of_tree(fault: TreeFault) -> Cause
    requires { IsDeviceFault fault }
    ensures { TreeCause fault result }
{
    match fault {
        TreeFault::Failed { count } => Cause::Fault {
            device: Device::Dir,
            count,
        },
        TreeFault::NoEntropy { count } => Cause::Fault {
            device: Device::Entropy,
            count,
        },
        _ => unreachable!(),
    }
}

// Stages the entry, or none, that a change puts.
fn stage_entry<F: StoreFile, E: Entropy>(
    dir: &mut DirFile<F>,
    change: &EntryChange,
    entropy: &mut E,
) -> Result<(), TreeFault>
    requires idle { dir.old.dir.stage ≡ None }
    requires format { dir.old.dir.root.format ≡ 2 }
    requires fits { FitsIn dir.old.dir.entries change.now }
    ensures answer { StagesChange (F.state dir.old.file) (F.state dir.new.file) dir.old.dir dir.new.dir change.now result }
    ensures untouched { IfErr result (λ fault. IsDrawFault fault → dir.new ≡ dir.old) }
    ensures causes { HasCauses IsDeviceFault (F.state dir.old.file) (F.state dir.new.file) (E.faults entropy.old) (E.faults entropy.new)
        (E.is_reliable entropy.old) (E.is_reliable entropy.new) result }
{
    match change {
        EntryChange::Put { index, entry } => dir.stage_put(*index, entry, entropy),
        EntryChange::Clear { index } => dir.stage_clear(*index, entropy),
    }
}

// Stages the change.
fn stage_change<F: StoreFile, E: Entropy>(
    dir: &mut DirFile<F>,
    change: &EntryChange,
    entropy: &mut E,
) -> Result<(), Cause>
    requires idle { dir.old.dir.stage ≡ None }
    requires format { dir.old.dir.root.format ≡ 2 }
    requires fits { FitsIn dir.old.dir.entries change.now }
    ensures answer { Prepares false (F.state dir.old.file) (F.state dir.new.file) dir.old.dir dir.new.dir change.now result }
    ensures reliable { E.is_reliable entropy.old → E.is_reliable entropy.new }
    ensures drawn { E.is_reliable entropy.old → IfErr result NotDrawn }
    ensures untouched { IfErr result (λ cause. IsDrawn cause → dir.new ≡ dir.old) }
    ensures cause { PrepareCause (F.state dir.old.file) (F.state dir.new.file) (E.faults entropy.old) (E.faults entropy.new) result }
{
    match stage_entry(dir, change, entropy) {
        Ok(()) => Ok(()),
        Err(fault) => Err(cause_of_tree(fault)),
    }
}

/// Stages and settles the directory with one entry changed. After a failure no stage is open. It takes no memory, and all draws
/// come before the first call of the directory's file.
///
/// # Errors
///
/// A call of the directory's file or a draw failed.
pub fn prepare<F: StoreFile, E: Entropy>(
    dir: &mut DirFile<F>,
    change: &EntryChange,
    entropy: &mut E,
) -> Result<RootRef, Cause>
    requires idle { dir.old.dir.stage ≡ None }
    requires format { dir.old.dir.root.format ≡ 2 }
    requires fits { FitsIn dir.old.dir.entries change.now }
    ensures answer { Prepares true (F.state dir.old.file) (F.state dir.new.file) dir.old.dir dir.new.dir change.now result }
    ensures root { IfOk result (λ root. IfSome dir.new.dir.stage (λ s. root ≡ s.root)) }
    ensures formed { IfOk result (λ root. length root.hash ≡ 32) }
    ensures reliable { E.is_reliable entropy.old → E.is_reliable entropy.new }
    ensures drawn { E.is_reliable entropy.old → IfErr result NotDrawn }
    ensures untouched { IfErr result (λ cause. IsDrawn cause → dir.new ≡ dir.old) }
    ensures cause { PrepareCause (F.state dir.old.file) (F.state dir.new.file) (E.faults entropy.old) (E.faults entropy.new) result }
{
    stage_change(dir, change, entropy)?;
    match dir.settle() {
        Ok(root) => Ok(root),
        Err(fault) => {
            dir.drop_stage();
            Err(cause_of_tree(fault))
        }
    }
}
