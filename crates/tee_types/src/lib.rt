//! The values of the Trusted Storage calls: names, flags, byte strings, calls and replies
//! (GlobalPlatform TEE Internal Core API, chapter Trusted Storage).
#![tactic(auto)]

mod app_id;
mod bytes;
mod call;
mod flags;
mod laws;
mod limits;
mod object_id;
mod reply;

pub use app_id::AppId;
pub use bytes::Bytes;
pub use call::{Call, Whence};
pub use flags::{Flags, OVERWRITE, READ, SHARE_READ, SHARE_WRITE, WRITE, WRITE_META};
pub use laws::{flags_have_their_bits, limits_have_their_values};
pub use limits::{
    BENCH_FILES, DIRECTORY_FILE, MAX_APPLICATIONS, MAX_ATTRIBUTES, MAX_DATA, MAX_ENUMERATORS,
    MAX_FILE, MAX_HANDLES, MAX_IDENTIFIER, MAX_OBJECTS, MAX_POSITION, MAX_SCRIPT, MAX_SESSIONS,
    OLD_DIRECTORY_FILE,
};
pub use object_id::{BadId, ObjectId};
pub use reply::{Cause, Code, Device, FrameFault, Reason, Reply};

/// A growth was refused: there is no memory for what the call had to keep.
pub type NoMemory = std::alloc::AllocError;
