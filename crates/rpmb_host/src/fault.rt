// Why a call of the host is refused.

use tee_ports::Failed;
use tee_types::FrameFault;

/// Why a call of the host gave no answer of the card.
#[derive(Clone, Copy, Debug, PartialEq, Eq)]
pub enum HostFault {
    /// An exchange failed. Whether the card took its frame is not known.
    Failed {
        /// The port's count of faults, this one included.
        count: u64,
    },
    /// The frame that came is not the wanted answer: its first field that is another, in the order MAC, nonce, kind,
    /// counter, address.
    BadFrame(FrameFault),
    /// The card refused: the result of the frame that came, whose MAC, nonce and kind are right. Its low seven bits are
    /// not 0.
    CardResult(u16),
    /// The write counter is at its end. Nothing was sent.
    Spent,
}

impl From<Failed> for HostFault {
    ghost use Rattle.std.specs.Prelude.{◌≡◌};
    ghost use Rattle.rpmb_host.specs.declared.fault.HostFault.TheVariants.{Failed as HostFailed};

    ghost from_gives = { λ failed fault. fault ≡ HostFailed failed.count };

    fn from(failed: Failed) -> HostFault {
        HostFault::Failed {
            count: failed.count,
        }
    }
}
