// Reads of an object's data.
ghost use Rattle.std.specs.Prelude.{◌≡◌};
ghost use Rattle.object_slots.specs.SlotReads.{ReadsObject};
ghost use Rattle.object_slots.specs.SlotValues.{apart};

use crate::cached::CachedObject;
use crate::fault::{SlotFault, slot_fault};
use tee_ports::StoreFile;

/// Reads data of an object into the front of `into`, and says how many bytes.
pub(crate) fn read_object<F: StoreFile + Drop>(
    object: &mut CachedObject<F>,
    at: u32,
    into: &mut [u8],
) -> Result<usize, SlotFault>
    ensures same { object.new ≡ record object.old { tree = record object.old.tree { file = object.new.tree.file } } }
    ensures reads { ReadsObject (F.state object.old.tree.file) (F.state object.new.tree.file) (apart object.old) at into.old into.new result }
{
    match object.read(at, into) {
        Ok(count) => Ok(count),
        Err(fault) => Err(slot_fault(fault)),
    }
}
