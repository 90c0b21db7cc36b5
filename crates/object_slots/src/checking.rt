// What a change of an object's data needs, read without the change.
ghost use Rattle.node_image.specs.References.{IsCurrent};
ghost use Rattle.std.specs.Prelude.{◌≡◌, ◌+◌, ◌<◌, ◌≤◌, length, None};
ghost use Rattle.object_slots.specs.SlotChecks.{ChecksObject};
ghost use Rattle.object_slots.specs.SlotInside.{IsContent, file_in, holding_in};
ghost use Rattle.object_slots.specs.SlotStages.{resize_change, write_change};
ghost use Rattle.object_slots.specs.SlotValues.{apart};

use crate::cached::CachedObject;
use crate::content::Content;
use crate::fault::{SlotFault, slot_fault};
use object_file::ObjectFile;
use std::alloc::Global;
use tee_ports::StoreFile;

/// Reads the blocks that a write of data needs.
pub(crate) fn check_written<F: StoreFile + Drop>(
    alloc: Global,
    mut object: ObjectFile<F>,
    at: u32,
    bytes: &[u8],
) -> (Content<F>, Result<(), SlotFault>)
    requires idle { object.tree.stage ≡ None }
    requires current { IsCurrent object.tree.root }
    requires few { at + length bytes.now ≤ 1044480 }
    ensures content { IsContent result.0 }
    ensures checks { ChecksObject (F.state object.tree.file) (file_in F.state result.0) (apart object)
        (write_change (apart object) at bytes.now) (holding_in result.0) result.1 }
{
    match object.check_write(at, bytes.len() as u32) {
        Ok(()) => (Content::Live(CachedObject::new(alloc, object)), Ok(())),
        Err(fault) => (
            Content::Live(CachedObject::new(alloc, object)),
            Err(slot_fault(fault)),
        ),
    }
}

/// Reads the block that another size of the data needs.
pub(crate) fn check_resized<F: StoreFile + Drop>(
    alloc: Global,
    mut object: ObjectFile<F>,
    size: u32,
) -> (Content<F>, Result<(), SlotFault>)
    requires idle { object.tree.stage ≡ None }
    requires current { IsCurrent object.tree.root }
    requires few { size ≤ 1044480 }
    ensures content { IsContent result.0 }
    ensures checks { ChecksObject (F.state object.tree.file) (file_in F.state result.0) (apart object)
        (resize_change (apart object) size) (holding_in result.0) result.1 }
{
    match object.check_truncate(size) {
        Ok(()) => (Content::Live(CachedObject::new(alloc, object)), Ok(())),
        Err(fault) => (
            Content::Live(CachedObject::new(alloc, object)),
            Err(slot_fault(fault)),
        ),
    }
}
