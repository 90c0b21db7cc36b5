//! Why a store in a folder is not opened.

ghost use Rattle.std.specs.Prelude.{◌≡◌};
ghost use Rattle.store_commit.specs.Untagged.{untagged};
ghost use Rattle.kept_store.specs.declared.fault.OpenFault.TheVariants.{Store};
ghost use Rattle.kept_store.specs.Kept.{TellsNoTag};

use host_card::CardFault;
use object_calls::{Bench, Halted};
use std::error::Error;
use std::fmt;
use store_commit::MountFault;
use tee_types::{Cause, Device};

/// Why a store in a folder is not opened.
#[derive(Clone, Copy, Debug, PartialEq, Eq)]
pub enum OpenFault {
    /// The folder's name is empty.
    NoName,
    /// There is no such folder.
    NoFolder,
    /// The system did not tell what lies in the folder, or did not settle it.
    Unreadable,
    /// The folder has no store.
    NoStore,
    /// The folder has a store, or a part of one.
    Exists,
    /// Somebody else has the store open.
    Busy,
    /// The system gave no lock on the folder.
    Unlocked,
    /// No card was read from the file that keeps it, or none was made in it.
    Card(CardFault),
    /// The card has no store, but the directory's file has bytes: so there was a store, and its
    /// card is not this one.
    CardMissing,
    /// The file of an exported block failed.
    Block {
        /// Its count of faults.
        count: u64,
    },
    /// The card failed, or the store was not formatted or mounted.
    Store(MountFault),
}

impl fmt::Display for OpenFault {
    fn fmt<W: fmt::Write>(&self, f: &mut fmt::Formatter<W>) -> fmt::Result {
        match self {
            OpenFault::NoName => f.write_str("the folder has no name"),
            OpenFault::NoFolder => f.write_str("there is no such folder"),
            OpenFault::Unreadable => f.write_str("the system does not tell what is in the folder"),
            OpenFault::NoStore => f.write_str("the folder has no store"),
            OpenFault::Exists => f.write_str("the folder has a store, or a part of one"),
            OpenFault::Busy => f.write_str("somebody else has the store open"),
            OpenFault::Unlocked => f.write_str("the system gives no lock on the folder"),
            OpenFault::Card(fault) => write!(f, "275.bin: {fault}"),
            OpenFault::CardMissing => {
                f.write_str("there is a directory (273.bin), but its card (275.bin) is missing")
            }
            OpenFault::Block { .. } => f.write_str("a call of 274.bin failed"),
            OpenFault::Store(fault) => write_mount_fault(f, fault),
        }
    }
}

impl Error for OpenFault {}

// Why a mount was refused, in words.
fn write_mount_fault<W: fmt::Write>(f: &mut fmt::Formatter<W>, fault: &MountFault) -> fmt::Result {
    match fault {
        MountFault::NoStore => f.write_str("the card names no store"),
        MountFault::CardBlock { byte } => write!(f, "byte {byte} of the card's block 0 is damaged"),
        MountFault::OldFormat { file } => write!(f, "file {file} is of the old format"),
        MountFault::Directory(_) => {
            f.write_str("the directory (273.bin) is not the one that the card names")
        }
        MountFault::Frame(_) => f.write_str("an answer of the card is not authentic"),
        MountFault::CardResult(result) => write!(f, "the card answered with result {result}"),
        MountFault::Failed(cause) => write_cause(f, cause),
        MountFault::Spent => f.write_str("the card's counter is at its end"),
        MountFault::NoMemory => f.write_str("memory ran out"),
    }
}

// What a device did, in words.
fn write_cause<W: fmt::Write>(f: &mut fmt::Formatter<W>, cause: &Cause) -> fmt::Result {
    match cause {
        Cause::Fault { device, .. } => match device {
            Device::Dir => f.write_str("a call of the directory's file (273.bin) failed"),
            Device::File(number) => write!(f, "a call of an object's file ({number}) failed"),
            Device::Card => f.write_str("a call of the card's file (275.bin) failed"),
            Device::Entropy => f.write_str("no random bytes came"),
        },
        Cause::Frame(_) => f.write_str("an answer of the card is not authentic"),
        Cause::CardResult(result) => write!(f, "the card answered with result {result}"),
    }
}

/// Devices on which no store was opened, and why.
#[derive(Drop)]
pub struct Unopened<F, R> {
    /// The devices.
    pub devices: Bench<F, R>,
    /// Why.
    pub fault: OpenFault,
}

/// The devices of a call that was given up, and why, without a computed tag.
pub(crate) fn given_up<F: Drop, R: Drop>(halted: Halted<F, R>) -> Unopened<F, R>
    ensures devices { result.devices ≡ halted.bench }
    ensures fault { result.fault ≡ Store (untagged halted.fault) }
    ensures untagged { TellsNoTag result.fault }
{
    let Halted { bench, fault } = halted;
    Unopened {
        devices: bench,
        fault: OpenFault::Store(fault.without_computed_tag()),
    }
}

/// Why no store was opened. The devices are let go.
pub(crate) fn why<F: Drop, R: Drop>(unopened: Unopened<F, R>) -> OpenFault
    ensures { result ≡ unopened.fault }
{
    let Unopened { fault, .. } = unopened;
    fault
}

/// Memory ran out.
pub(crate) fn no_memory() -> OpenFault
    ensures { TellsNoTag result }
{
    OpenFault::Store(MountFault::NoMemory)
}
