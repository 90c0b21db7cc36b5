// Objects that are loaded.
ghost use Rattle.std.specs.Prelude.{◌≡◌};
ghost use Rattle.node_image.specs.References.{current_format};
ghost use Rattle.dir_records.specs.Form.{HasForm};
ghost use Rattle.object_slots.specs.SlotInside.{IsContent, file_in, holding_in};
ghost use Rattle.object_slots.specs.Loads.{LoadsObject};

use crate::cached::CachedObject;
use crate::content::Content;
use crate::fault::{SlotFault, load_fault};
use dir_records::DirEntry;
use object_file::{ObjectBroken, ObjectFile};
use std::alloc::Global;
use tee_ports::StoreFile;

/// Loads the object that an entry names in a file. After a refusal the file is free.
pub(crate) fn load_object<F: StoreFile + Drop>(
    alloc: Global,
    file: F,
    tsk: &[u8; 32],
    entry: &DirEntry,
) -> (Content<F>, Result<(), SlotFault>)
    requires form { HasForm entry.now }
    requires current { entry.now.format ≡ current_format }
    ensures content { IsContent result.0 }
    ensures loads { LoadsObject (F.state file) (file_in F.state result.0) tsk.now entry.now (holding_in result.0) result.1 }
{
    match ObjectFile::load(alloc, file, tsk, entry) {
        Ok(object) => (Content::Live(CachedObject::new(alloc, object)), Ok(())),
        Err(ObjectBroken { file, fault }) => (Content::Free(file), Err(load_fault(fault))),
    }
}
