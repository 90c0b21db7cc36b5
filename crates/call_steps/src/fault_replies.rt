//! What a call is answered where its object's file gives nothing.

ghost use Rattle.std.specs.Prelude.{◌≡◌};
ghost use Rattle.call_steps.specs.FileFaults.{reply_of_fault};

use object_slots::SlotFault;
use tee_types::{Cause, Device, Reply};

/// What a call on the object of that file is answered where the file gives nothing. None where memory ran out. A call that draws nothing
/// has no fault of the entropy.
pub fn fault_reply(file: u16, fault: SlotFault) -> Option<Reply>
    ensures { result ≡ reply_of_fault file fault }
{
    match fault {
        SlotFault::Corrupt => Some(Reply::Corrupt),
        SlotFault::Failed { count } => Some(Reply::NotAvailable(Cause::Fault {
            device: Device::File(file),
            count,
        })),
        SlotFault::NoEntropy { .. } => None,
        SlotFault::NoMemory => None,
    }
}
