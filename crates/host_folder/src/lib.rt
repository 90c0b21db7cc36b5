//! Files in a folder of the host, as the files of a store: what is written in them outlives the process.
//!
//! Make the folder first. `FolderFile::new(&rt, rt.alloc(), "store", 7)` is then the file `store/007.bin`, and
//! `FolderFile::read_only` the same file, which nothing is written to. Only a write makes a file that is not there.
//!
//! Proved of each call: it fails only where it counted a fault, it counts the bytes that it wrote, and a write to a file
//! that is read alone fails. What such a file holds, and what a power cut leaves of it, no contract here says: it tells no
//! bytes, since nobody can prove what the host does.
//!
//! `lock_folder` keeps out whoever asks for a lock, too: take it before the first file, and let a file hold it. A file that
//! a call made has its name settled by its first sync. `sync_folder` settles the names of all files of a folder, as of
//! those that an earlier process made.
#![tactic(auto)]

mod access;
mod folder_file;
mod folder_lock;
mod names;

pub use access::Access;
pub use folder_file::FolderFile;
pub use folder_lock::{FolderLock, LockFault, Sharing, lock_folder};
pub use names::{CARD_FILE, sync_folder};
