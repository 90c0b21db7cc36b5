//! What became of a change that was to be staged in an object's file.

ghost use Rattle.std.specs.Prelude.{◌≡◌};
ghost use Rattle.serial_calls.specs.ChangeReplies.{reply_of_stage};
ghost use Rattle.serial_calls.specs.ChangeStaging.{staged_of};

use call_steps::SlotFault;
use node_image::RootRef;
use tee_types::{Cause, Device, Reply};

/// What became of a change of an object's data that was to be staged in the object's file.
#[derive(Debug, Drop)]
pub enum Staged {
    /// It is staged, and settled: the reference names the changed object. Nothing is committed yet.
    Root(RootRef),
    /// It is not, and this is the reply to the call.
    Unstaged(Reply),
}

// What a call on the object of that file is answered whose change was not staged. None where memory ran out.
fn stage_reply(file: u16, fault: SlotFault) -> Option<Reply>
    ensures { result ≡ reply_of_stage file fault }
{
    match fault {
        SlotFault::Corrupt => Some(Reply::Corrupt),
        SlotFault::Failed { count } => Some(Reply::NotAvailable(Cause::Fault {
            device: Device::File(file),
            count,
        })),
        SlotFault::NoEntropy { count } => Some(Reply::NotAvailable(Cause::Fault {
            device: Device::Entropy,
            count,
        })),
        SlotFault::NoMemory => None,
    }
}

// What the stage of a change in that file gave. None where memory ran out.
pub(crate) fn staged_by(file: u16, given: Result<RootRef, SlotFault>) -> Option<Staged>
    ensures { result ≡ staged_of file given }
{
    match given {
        Ok(root) => Some(Staged::Root(root)),
        Err(fault) => {
            let reply = stage_reply(file, fault)?;
            Some(Staged::Unstaged(reply))
        }
    }
}
