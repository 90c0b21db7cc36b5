//! How large a part of an object may be, how many there are of each thing, and how far numbers go.

/// The greatest number of bytes of an identifier (TEE_OBJECT_ID_MAX_LEN).
pub const MAX_IDENTIFIER: usize = 64;

/// The greatest number of bytes of an object's attributes.
pub const MAX_ATTRIBUTES: usize = 2_048;

/// The greatest number of bytes of an object's data, 255 blocks of 4,096.
pub const MAX_DATA: usize = 1_044_480;

/// The number of the last file of an object; the first is 1.
pub const MAX_FILE: u16 = 272;

/// The number of the directory's file.
pub const DIRECTORY_FILE: u16 = 273;

/// The number of the file of a directory of the old format.
pub const OLD_DIRECTORY_FILE: u16 = 0;

/// How many files a bench has: that of an old directory, those of objects, and the directory's.
pub const BENCH_FILES: usize = 274;

/// The greatest number of objects of a store.
pub const MAX_OBJECTS: usize = 256;

/// The greatest number of sessions of a store that is mounted.
pub const MAX_SESSIONS: usize = 16;

/// The greatest number of handles that a session may have open.
pub const MAX_HANDLES: usize = 1_024;

/// The greatest number of enumerators that a session may have.
pub const MAX_ENUMERATORS: usize = 64;

/// The greatest position of a handle (TEE_DATA_MAX_POSITION).
pub const MAX_POSITION: u64 = 0xffff_ffff;

/// The greatest number of bytes of a script.
pub const MAX_SCRIPT: usize = 16_777_216;

/// The greatest number of applications that a script may declare.
pub const MAX_APPLICATIONS: u32 = 16;
