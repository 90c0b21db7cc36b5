//! Files and folders beside the store's own.

use std::fs::{DirBuilder, File, Files};
use std::io::{ErrorKind, Read};
use std::os::unix::fs::DirBuilderExt;
use std::path::Path;
use std::{fs, io};

// The folder that a path lies in.
fn parent_of(path: &str) -> &str {
    match Path::new(path).parent() {
        Some(folder) if !folder.as_str().is_empty() => folder.as_str(),
        Some(_) => ".",
        None => "/",
    }
}

/// Settles the name of a file or a folder: whether it is there after a power cut.
pub fn sync_name<W: Files<File = File>>(rt: &W, path: &str) -> io::Result<()> {
    File::open(rt, parent_of(path))?.sync_all()
}

/// Makes a folder for its owner alone, where it is missing.
pub fn make_folder<W: Files<File = File>>(rt: &W, folder: &str) -> io::Result<()> {
    match DirBuilder::new().mode(0o700).create(rt, folder) {
        Ok(()) => sync_name(rt, folder),
        Err(error) if error.kind() == ErrorKind::AlreadyExists => Ok(()),
        Err(error) => Err(error),
    }
}

/// Random bytes of the system.
pub fn draw<W: Files<File = File>>(rt: &W, into: &mut [u8]) -> io::Result<()> {
    File::open(rt, "/dev/urandom")?.read_exact(into)
}

/// Whether a file or a folder of that name is there.
pub fn is_there<W: Files<File = File>>(rt: &W, path: &str) -> io::Result<bool> {
    fs::exists(rt, path)
}
