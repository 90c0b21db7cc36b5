//! Why a store is not mounted or formatted.

use crash_core::DirFault;
use rpmb_card::RpmbPort;
use tee_ports::StoreFile;
use tee_types::{Cause, FrameFault};

/// Why a store is not mounted or formatted.
#[derive(Clone, Copy, PartialEq, Eq, Debug)]
pub enum MountFault {
    /// The card's block 0 is all zero.
    NoStore,
    /// The card's block 0 has not the form of one.
    CardBlock {
        /// The first byte that is outside the form.
        byte: u16,
    },
    /// A file of the store is of the old format: that of an old directory, or the first that an entry names. It has to be migrated first.
    OldFormat {
        /// The file's number.
        file: u16,
    },
    /// The card's block 0 names no directory.
    Directory(DirFault),
    /// A frame that came is not the wanted answer.
    Frame(FrameFault),
    /// A verified frame carries this result.
    CardResult(u16),
    /// A device failed.
    Failed(Cause),
    /// The card's counter is at its end.
    Spent,
    /// Memory ran out.
    NoMemory,
}

impl MountFault {
    ghost use Rattle.std.specs.Prelude.{◌≡◌};
    ghost use Rattle.store_commit.specs.Untagged.{IsUntagged, untagged};

    /// The fault without the computed tag of a block, for who must not learn it: the owner of the
    /// folder, and the log.
    #[tactic(auto, using(crate::proofs::Untagged::untagged_is))]
    pub fn without_computed_tag(self) -> MountFault
        ensures fault { result ≡ untagged self }
        ensures none { IsUntagged result }
    {
        match self {
            MountFault::Directory(DirFault::Tree(fault)) => {
                MountFault::Directory(DirFault::Tree(fault.without_computed_tag()))
            }
            fault => fault,
        }
    }
}

/// A file whose directory is refused, and why.
#[derive(Drop)]
pub struct DirectoryRefused<F: StoreFile> {
    /// The file.
    pub file: F,
    /// Why.
    pub fault: MountFault,
}

/// The directory's file and the card of a store that is not mounted or formatted, and why.
#[derive(Drop)]
pub struct GateBroken<F: StoreFile, R: RpmbPort> {
    /// The directory's file.
    pub dir: F,
    /// The port to the card.
    pub card: R,
    /// Why.
    pub fault: MountFault,
}
