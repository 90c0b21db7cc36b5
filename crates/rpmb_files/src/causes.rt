//! Why an exchange or a draw gave nothing.

ghost use Rattle.std.specs.Prelude.{◌≡◌, ◌≢◌};
ghost use Rattle.rpmb_host.specs.declared.fault.HostFault.TheVariants.{Spent};
ghost use Rattle.rpmb_files.specs.Links.{FaultIs};

use rpmb_host::HostFault;
use tee_types::{Cause, Device};

/// What a fault of the host means, which is not that the counter is spent.
pub(crate) fn cause_of(fault: HostFault) -> Cause
    requires { fault ≢ Spent }
    ensures { FaultIs fault result }
{
    match fault {
        HostFault::Failed { count } => Cause::Fault {
            device: Device::Card,
            count,
        },
        HostFault::BadFrame(fault) => Cause::Frame(fault),
        HostFault::CardResult(result) => Cause::CardResult(result),
        HostFault::Spent => unreachable!(),
    }
}
