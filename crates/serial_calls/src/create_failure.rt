//! Why no object is made.

ghost use Rattle.std.specs.Prelude.{◌≡◌};
ghost use Rattle.call_steps.specs.SlotFaults.{IsSound};
ghost use Rattle.serial_calls.specs.CreateFailure.{reply_unmade, unmade_by};

use call_steps::SlotFault;
use tee_types::{Cause, Device, Reply};

/// Why no object is made.
#[derive(Clone, Copy, PartialEq, Eq, Debug)]
pub enum CreateFailure {
    /// A device failed while it was made.
    Failed(Cause),
    /// The card's write counter is at its end, so that no commit can follow.
    Spent,
}

impl CreateFailure {
    /// What the create is answered.
    pub(crate) fn reply(self) -> Reply
        ensures { result ≡ reply_unmade self }
    {
        match self {
            CreateFailure::Failed(cause) => Reply::NotAvailable(cause),
            CreateFailure::Spent => Reply::CounterSpent(u32::MAX),
        }
    }

    /// Why it is not made in the file of that number, where making it ended so; none where memory ran out.
    pub(crate) fn by_fault(file: u16, fault: SlotFault) -> Option<CreateFailure>
        requires { IsSound fault }
        ensures { result ≡ unmade_by file fault }
    {
        let (device, count) = match fault {
            SlotFault::Failed { count } => (Device::File(file), count),
            SlotFault::NoEntropy { count } => (Device::Entropy, count),
            SlotFault::NoMemory => return None,
            SlotFault::Corrupt => unreachable!(),
        };
        Some(CreateFailure::Failed(Cause::Fault { device, count }))
    }
}
