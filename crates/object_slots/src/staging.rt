// Changes of an object's data, settled in the same call.
ghost use Rattle.node_image.specs.References.{IsCurrent};
ghost use Rattle.std.specs.Prelude.{◌≡◌, ◌+◌, ◌<◌, ◌≤◌, length, IfSome, IsSome, None};
ghost use Rattle.block_file.specs.Reads.{IsChangeFault};
ghost use Rattle.htree_file.specs.Making.{HasCauses as HasTreeCauses};
ghost use Rattle.object_slots.specs.SlotFaults.{HasCauses};
ghost use Rattle.object_slots.specs.SlotInside.{IsContent, file_in, holding_in};
ghost use Rattle.object_slots.specs.SlotStages.{OpensStage, SettlesObject, StagesObject, resize_change, write_change};
ghost use Rattle.object_slots.specs.SlotValues.{apart};

use crate::cached::CachedObject;
use crate::content::Content;
use crate::fault::{SlotFault, slot_fault};
use htree_file::TreeFault;
use node_image::RootRef;
use object_file::ObjectFile;
use std::alloc::Global;
use tee_ports::{Entropy, StoreFile};

// Stages a write.
fn open_write<F: StoreFile, E: Entropy>(
    alloc: Global,
    object: &mut ObjectFile<F>,
    at: u32,
    bytes: &[u8],
    entropy: &mut E,
) -> Result<(), TreeFault>
    requires idle { object.old.tree.stage ≡ None }
    requires format { object.old.tree.root.format ≡ 2 }
    requires few { at + length bytes.now ≤ 1044480 }
    ensures same { object.new ≡ record object.old { tree = record object.old.tree { file = object.new.tree.file; stage = object.new.tree.stage } } }
    ensures opens { OpensStage (F.state object.old.tree.file) (F.state object.new.tree.file) (apart object.old)
        (write_change (apart object.old) at bytes.now) object.new.tree.stage (entropy.new ≡ entropy.old) result }
    ensures causes { HasTreeCauses IsChangeFault (F.state object.old.tree.file) (F.state object.new.tree.file)
        (E.faults entropy.old) (E.faults entropy.new) (E.is_reliable entropy.old) (E.is_reliable entropy.new) result }
{
    // For the clauses: the tree is verified.
    let _ = object.size();
    object.stage_write(alloc, at, bytes, entropy)
}

// Stages another size.
fn open_truncate<F: StoreFile, E: Entropy>(
    alloc: Global,
    object: &mut ObjectFile<F>,
    size: u32,
    entropy: &mut E,
) -> Result<(), TreeFault>
    requires idle { object.old.tree.stage ≡ None }
    requires format { object.old.tree.root.format ≡ 2 }
    requires few { size ≤ 1044480 }
    ensures same { object.new ≡ record object.old { tree = record object.old.tree { file = object.new.tree.file; stage = object.new.tree.stage } } }
    ensures opens { OpensStage (F.state object.old.tree.file) (F.state object.new.tree.file) (apart object.old)
        (resize_change (apart object.old) size) object.new.tree.stage (entropy.new ≡ entropy.old) result }
    ensures causes { HasTreeCauses IsChangeFault (F.state object.old.tree.file) (F.state object.new.tree.file)
        (E.faults entropy.old) (E.faults entropy.new) (E.is_reliable entropy.old) (E.is_reliable entropy.new) result }
{
    // For the clauses: the tree is verified.
    let _ = object.size();
    object.stage_truncate(alloc, size, entropy)
}

// Settles the stage, or gives it up.
fn settle_object<F: StoreFile + Drop>(
    alloc: Global,
    mut object: ObjectFile<F>,
) -> (Content<F>, Result<RootRef, SlotFault>)
    requires open { IsSome object.tree.stage }
    requires current { IsCurrent object.tree.root }
    requires next_current { IfSome object.tree.stage (λ s. IsCurrent s.root) }
    ensures content { IsContent result.0 }
    ensures settles { SettlesObject (F.state object.tree.file) (file_in F.state result.0) (apart object) object.tree.stage (holding_in result.0) result.1 }
{
    match object.settle() {
        Ok(root) => (Content::Staged(CachedObject::new(alloc, object)), Ok(root)),
        Err(fault) => {
            object.drop_stage();
            (
                Content::Live(CachedObject::new(alloc, object)),
                Err(slot_fault(fault)),
            )
        }
    }
}

/// Stages a write of data, and settles it. After a refusal no stage is open.
pub(crate) fn write_object<F: StoreFile + Drop, E: Entropy>(
    alloc: Global,
    mut object: ObjectFile<F>,
    at: u32,
    bytes: &[u8],
    entropy: &mut E,
) -> (Content<F>, Result<RootRef, SlotFault>)
    requires idle { object.tree.stage ≡ None }
    requires current { IsCurrent object.tree.root }
    requires few { at + length bytes.now ≤ 1044480 }
    ensures content { IsContent result.0 }
    ensures stages { StagesObject (F.state object.tree.file) (file_in F.state result.0) (apart object)
        (write_change (apart object) at bytes.now) (holding_in result.0) (entropy.new ≡ entropy.old) result.1 }
    ensures causes { HasCauses (F.state object.tree.file) (file_in F.state result.0) (E.faults entropy.old) (E.faults entropy.new)
        (E.is_reliable entropy.old) (E.is_reliable entropy.new) result.1 }
{
    match open_write(alloc, &mut object, at, bytes, entropy) {
        Ok(()) => settle_object(alloc, object),
        Err(fault) => (
            Content::Live(CachedObject::new(alloc, object)),
            Err(slot_fault(fault)),
        ),
    }
}

/// Stages another size of the data, and settles it. After a refusal no stage is open.
pub(crate) fn truncate_object<F: StoreFile + Drop, E: Entropy>(
    alloc: Global,
    mut object: ObjectFile<F>,
    size: u32,
    entropy: &mut E,
) -> (Content<F>, Result<RootRef, SlotFault>)
    requires idle { object.tree.stage ≡ None }
    requires current { IsCurrent object.tree.root }
    requires few { size ≤ 1044480 }
    ensures content { IsContent result.0 }
    ensures stages { StagesObject (F.state object.tree.file) (file_in F.state result.0) (apart object)
        (resize_change (apart object) size) (holding_in result.0) (entropy.new ≡ entropy.old) result.1 }
    ensures causes { HasCauses (F.state object.tree.file) (file_in F.state result.0) (E.faults entropy.old) (E.faults entropy.new)
        (E.is_reliable entropy.old) (E.is_reliable entropy.new) result.1 }
{
    match open_truncate(alloc, &mut object, size, entropy) {
        Ok(()) => settle_object(alloc, object),
        Err(fault) => (
            Content::Live(CachedObject::new(alloc, object)),
            Err(slot_fault(fault)),
        ),
    }
}
