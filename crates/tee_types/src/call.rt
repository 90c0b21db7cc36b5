//! The calls of Trusted Storage.

use crate::{Bytes, Flags, NoMemory, ObjectId};
use std::alloc::Global;

/// One call of an application on the store (TEE Internal Core API, Trusted Storage).
#[derive(Debug, Drop)]
pub enum Call {
    /// Make an object, whole and at once, and open it: TEE_CreatePersistentObject.
    Create {
        /// The object's name.
        id: ObjectId,
        /// The rights of the new handle, and whether an object of that name may be replaced.
        flags: Flags,
        /// Attributes, one opaque string.
        attributes: Bytes,
        /// The object's data.
        bytes: Bytes,
    },
    /// Open an object: TEE_OpenPersistentObject.
    Open {
        /// The object's name.
        id: ObjectId,
        /// The rights of the new handle.
        flags: Flags,
    },
    /// Close a handle: TEE_CloseObject.
    Close {
        /// The handle's number.
        handle: u32,
    },
    /// Read from the handle's position on: TEE_ReadObjectData.
    Read {
        /// The handle's number.
        handle: u32,
        /// At most so many bytes.
        size: u32,
    },
    /// Write from the handle's position on: TEE_WriteObjectData.
    Write {
        /// The handle's number.
        handle: u32,
        /// What is written.
        bytes: Bytes,
    },
    /// Set how many bytes of data the object has: TEE_TruncateObjectData.
    Truncate {
        /// The handle's number.
        handle: u32,
        /// So many bytes.
        size: u32,
    },
    /// Move the handle's position: TEE_SeekObjectData.
    Seek {
        /// The handle's number.
        handle: u32,
        /// By so many bytes, forward or back.
        offset: i64,
        /// From this place on.
        whence: Whence,
    },
    /// Give the object another identifier: TEE_RenamePersistentObject.
    Rename {
        /// The handle's number.
        handle: u32,
        /// The new identifier.
        id: ObjectId,
    },
    /// Close the handle and delete its object: TEE_CloseAndDeletePersistentObject1.
    Delete {
        /// The handle's number.
        handle: u32,
    },
    /// Tell what is known of an open object: TEE_GetObjectInfo1.
    Info {
        /// The handle's number.
        handle: u32,
    },
    /// Make an enumerator: TEE_AllocatePersistentObjectEnumerator.
    EnumNew,
    /// Begin an enumeration: TEE_StartPersistentObjectEnumerator.
    EnumStart {
        /// The enumerator's number.
        number: u32,
    },
    /// Tell the next object: TEE_GetNextPersistentObject.
    EnumNext {
        /// The enumerator's number.
        number: u32,
    },
    /// End an enumeration: TEE_ResetPersistentObjectEnumerator.
    EnumReset {
        /// The enumerator's number.
        number: u32,
    },
    /// Take an enumerator away: TEE_FreePersistentObjectEnumerator.
    EnumFree {
        /// The enumerator's number.
        number: u32,
    },
}

/// The place from which a seek counts (TEE_Whence).
#[derive(Clone, Copy, Debug, PartialEq, Eq)]
pub enum Whence {
    /// The start of the data: TEE_DATA_SEEK_SET.
    Set,
    /// The handle's position: TEE_DATA_SEEK_CUR.
    Cur,
    /// The end of the data: TEE_DATA_SEEK_END.
    End,
}

impl Call {
    ghost use Rattle.std.specs.Prelude.{◌≡◌, IfOk};

    /// An equal call.
    pub fn copy(&self, alloc: Global) -> Result<Call, NoMemory>
        ensures { IfOk result (λ call. call ≡ self.now) }
    {
        match self {
            Call::Create {
                id,
                flags,
                attributes,
                bytes,
            } => Ok(Call::Create {
                id: *id,
                flags: *flags,
                attributes: attributes.copy(alloc)?,
                bytes: bytes.copy(alloc)?,
            }),
            Call::Open { id, flags } => Ok(Call::Open {
                id: *id,
                flags: *flags,
            }),
            Call::Close { handle } => Ok(Call::Close { handle: *handle }),
            Call::Read { handle, size } => Ok(Call::Read {
                handle: *handle,
                size: *size,
            }),
            Call::Write { handle, bytes } => Ok(Call::Write {
                handle: *handle,
                bytes: bytes.copy(alloc)?,
            }),
            Call::Truncate { handle, size } => Ok(Call::Truncate {
                handle: *handle,
                size: *size,
            }),
            Call::Seek {
                handle,
                offset,
                whence,
            } => Ok(Call::Seek {
                handle: *handle,
                offset: *offset,
                whence: *whence,
            }),
            Call::Rename { handle, id } => Ok(Call::Rename {
                handle: *handle,
                id: *id,
            }),
            Call::Delete { handle } => Ok(Call::Delete { handle: *handle }),
            Call::Info { handle } => Ok(Call::Info { handle: *handle }),
            Call::EnumNew => Ok(Call::EnumNew),
            Call::EnumStart { number } => Ok(Call::EnumStart { number: *number }),
            Call::EnumNext { number } => Ok(Call::EnumNext { number: *number }),
            Call::EnumReset { number } => Ok(Call::EnumReset { number: *number }),
            Call::EnumFree { number } => Ok(Call::EnumFree { number: *number }),
        }
    }
}
