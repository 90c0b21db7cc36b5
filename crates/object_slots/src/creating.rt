// Objects that are made.
ghost use Rattle.std.specs.Prelude.{◌≡◌, ◌≤◌, length, IfErr, OnOk};
ghost use Rattle.disk_model.specs.Keeps.{Keeps};
ghost use Rattle.htree_file.specs.Making.{Nowhere};
ghost use Rattle.object_slots.specs.SlotFaults.{HasCause, HasCauses, IsFileFault};
ghost use Rattle.object_slots.specs.SlotInside.{IsContent, file_in, holding_in};
ghost use Rattle.object_slots.specs.Makes.{IsCut, MakesObject};

use crate::cached::CachedObject;
use crate::content::Content;
use crate::fault::{SlotFault, slot_fault};
use htree_file::Broken;
use node_image::RootRef;
use object_file::ObjectFile;
use std::alloc::Global;
use tee_ports::{Entropy, StoreFile};

// Cuts a file to no bytes.
fn cut_file<F: StoreFile>(file: &mut F) -> Result<(), SlotFault>
    ensures cut { OnOk result (IsCut (F.state file.old) (F.state file.new)) }
    ensures keeps { Keeps Nowhere (F.state file.old) (F.state file.new) }
    ensures cause { HasCause (F.state file.old) (F.state file.new) result }
    ensures kind { IfErr result IsFileFault }
{
    match file.set_len(0) {
        Ok(()) => Ok(()),
        Err(failed) => Err(SlotFault::Failed {
            count: failed.count,
        }),
    }
}

/// Cuts a file to no bytes, and makes an object in it, all of which is settled. After a refusal the file is free.
pub(crate) fn make_object<F: StoreFile + Drop, E: Entropy>(
    alloc: Global,
    mut file: F,
    tsk: &[u8; 32],
    attributes: &[u8],
    bytes: &[u8],
    entropy: &mut E,
) -> (Content<F>, Result<RootRef, SlotFault>)
    requires attributes { length attributes.now ≤ 2048 }
    requires few { length bytes.now ≤ 1044480 }
    ensures content { IsContent result.0 }
    ensures makes { MakesObject (F.state file) (file_in F.state result.0) tsk.now attributes.now bytes.now (holding_in result.0) result.1 }
    ensures causes { HasCauses (F.state file) (file_in F.state result.0) (E.faults entropy.old) (E.faults entropy.new)
        (E.is_reliable entropy.old) (E.is_reliable entropy.new) result.1 }
{
    match cut_file(&mut file) {
        Ok(()) => match ObjectFile::make(alloc, file, tsk, attributes, bytes, entropy) {
            Ok((object, root)) => (Content::Made(CachedObject::new(alloc, object)), Ok(root)),
            Err(Broken { file, fault }) => (Content::Free(file), Err(slot_fault(fault))),
        },
        Err(fault) => (Content::Free(file), Err(fault)),
    }
}
