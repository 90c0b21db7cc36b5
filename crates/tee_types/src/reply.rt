//! The replies of Trusted Storage, and the causes that a reply may carry.

use crate::{Bytes, Flags, NoMemory, ObjectId};
use std::alloc::Global;

/// Return codes by which a call is refused (TEE Internal Core API, return codes).
#[derive(Clone, Copy, Debug, PartialEq, Eq)]
pub enum Code {
    /// TEE_ERROR_ACCESS_CONFLICT, 0xFFFF0003.
    AccessConflict,
    /// TEE_ERROR_BAD_PARAMETERS, 0xFFFF0006.
    BadParameters,
    /// TEE_ERROR_ITEM_NOT_FOUND, 0xFFFF0008.
    ItemNotFound,
    /// TEE_ERROR_OVERFLOW, 0xFFFF300F.
    Overflow,
    /// TEE_ERROR_STORAGE_NO_SPACE, 0xFFFF3041.
    NoSpace,
}

/// Why a call is a misuse, where the standard ends the application. It changes nothing here.
#[derive(Clone, Copy, Debug, PartialEq, Eq)]
pub enum Reason {
    /// The session has no handle of that number.
    BadHandle,
    /// The session has no enumerator of that number.
    BadEnumerator,
    /// A flag that the call doesn't take is set.
    BadFlags,
    /// The handle lacks the right that the call needs.
    NoRight,
    /// The session has as many handles, or enumerators, as it may have.
    TooMany,
}

/// A device of the store.
#[derive(Clone, Copy, Debug, PartialEq, Eq)]
pub enum Device {
    /// The directory's file.
    Dir,
    /// An object's file, 1 to 272.
    File(u16),
    /// The RPMB card.
    Card,
    /// The session's entropy.
    Entropy,
}

/// The first field of an answer of the card that isn't as it was wanted, with both values. Of the MAC
/// none is told: that which the key gives of a frame signs this frame.
#[derive(Clone, Copy, Debug, PartialEq, Eq)]
pub enum FrameFault {
    /// The MAC of the frame.
    Mac,
    /// The nonce.
    Nonce {
        /// The nonce that was sent.
        want: [u8; 16],
        /// The nonce that came.
        found: [u8; 16],
    },
    /// The kind of response.
    Kind {
        /// The kind of the request's response.
        want: u16,
        /// The kind that came.
        found: u16,
    },
    /// The write counter.
    Counter {
        /// The counter after the write.
        want: u32,
        /// The counter that came.
        found: u32,
    },
    /// The block's address.
    Address {
        /// The address that was asked.
        want: u16,
        /// The address that came.
        found: u16,
    },
}

/// Why the storage is not available.
#[derive(Clone, Copy, Debug, PartialEq, Eq)]
pub enum Cause {
    /// A device failed.
    Fault {
        /// The device.
        device: Device,
        /// Its count of faults, this one included.
        count: u64,
    },
    /// An answer of the card doesn't verify.
    Frame(FrameFault),
    /// A verified answer of the card carries this result.
    CardResult(u16),
}

/// The reply to a call.
#[derive(Debug, Drop)]
pub enum Reply {
    /// Done; nothing to give.
    Done,
    /// Done: the number of a new handle, or of a new enumerator.
    Handle(u32),
    /// Done: these bytes were read.
    Content(Bytes),
    /// Done: what is known of an open object.
    Info {
        /// Bytes of data.
        size: u32,
        /// The handle's position.
        position: u32,
        /// The handle's flags.
        flags: Flags,
        /// The object's attributes.
        attributes: Bytes,
    },
    /// Done: an enumerator found this object.
    Found {
        /// Its identifier.
        id: ObjectId,
        /// Its bytes of data.
        size: u32,
    },
    /// Refused with a return code; nothing changed.
    Refused(Code),
    /// A misuse; nothing changed.
    Misuse(Reason),
    /// TEE_ERROR_CORRUPT_OBJECT, 0xF0100001.
    Corrupt,
    /// TEE_ERROR_STORAGE_NOT_AVAILABLE, 0xF0100003.
    NotAvailable(Cause),
    /// The card's write counter is spent, at this last value.
    CounterSpent(u32),
    /// TEE_ERROR_OUT_OF_MEMORY, 0xFFFF000C; nothing changed.
    NoMemory,
}

impl Reply {
    ghost use Rattle.std.specs.Prelude.{◌≡◌, IfOk};

    /// An equal reply.
    pub fn copy(&self, alloc: Global) -> Result<Reply, NoMemory>
        ensures { IfOk result (λ reply. reply ≡ self.now) }
    {
        match self {
            Reply::Done => Ok(Reply::Done),
            Reply::Handle(number) => Ok(Reply::Handle(*number)),
            Reply::Content(bytes) => Ok(Reply::Content(bytes.copy(alloc)?)),
            Reply::Info {
                size,
                position,
                flags,
                attributes,
            } => Ok(Reply::Info {
                size: *size,
                position: *position,
                flags: *flags,
                attributes: attributes.copy(alloc)?,
            }),
            Reply::Found { id, size } => Ok(Reply::Found {
                id: *id,
                size: *size,
            }),
            Reply::Refused(code) => Ok(Reply::Refused(*code)),
            Reply::Misuse(reason) => Ok(Reply::Misuse(*reason)),
            Reply::Corrupt => Ok(Reply::Corrupt),
            Reply::NotAvailable(cause) => Ok(Reply::NotAvailable(*cause)),
            Reply::CounterSpent(counter) => Ok(Reply::CounterSpent(*counter)),
            Reply::NoMemory => Ok(Reply::NoMemory),
        }
    }
}
