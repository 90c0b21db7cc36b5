//! The file of the keys.

ghost use Rattle.std.specs.Prelude.{◌≡◌, ◌≤◌, length};
ghost use Rattle.byte_fields.specs.Field.{field};

use crate::files::{draw, sync_name};
use byte_fields::{field, wipe};
use hmac_keys::Keys;
use std::fs::{File, Files, OpenOptions};
use std::io::{ErrorKind, Read, Write};
use std::os::unix::fs::OpenOptionsExt;
use std::{fs, io};
use thiserror::Error;

// The bytes of the hardware unique key, and those of the chip's identity behind it.
const KEYS_LENGTH: usize = 48;

/// Why there are no keys.
#[derive(Debug, Drop, Error)]
pub enum KeysFault {
    #[error("there is no such file of keys")]
    Missing,
    #[error("a file of keys has 48 bytes, and this one has not")]
    WrongLength,
    #[error("{0}")]
    System(io::Error),
}

impl From<io::Error> for KeysFault {
    fn from(error: io::Error) -> KeysFault {
        match error.kind() {
            ErrorKind::NotFound => KeysFault::Missing,
            _ => KeysFault::System(error),
        }
    }
}

// The keys that bytes are.
fn keys_of(bytes: &[u8]) -> Keys
    requires { 48 ≤ length bytes.now }
    ensures huk { result.huk ≡ field 0 16 bytes.now }
    ensures chip { result.chip ≡ field 16 32 bytes.now }
{
    Keys {
        huk: field(bytes, 0),
        chip: field(bytes, 16),
    }
}

/// Overwrites keys. Call it where they lie.
pub fn forget(keys: &mut Keys) {
    wipe(&mut keys.huk);
    wipe(&mut keys.chip);
}

// Reads a file to its end, or until there is no more room, and tells how many bytes there were.
fn read_front<W: Files<File = File>>(rt: &W, path: &str, into: &mut [u8]) -> io::Result<usize> {
    let mut file = File::open(rt, path)?;
    let mut done = 0;
    for _ in 0..u64::MAX {
        if done >= into.len() {
            return Ok(into.len());
        }
        match file.read(&mut into[done..]) {
            Ok(0) => return Ok(done),
            Ok(count) => done += count,
            Err(error) if error.kind() == ErrorKind::Interrupted => {}
            Err(error) => return Err(error),
        }
    }
    Err(io::Error::from(ErrorKind::Interrupted))
}

/// The keys in a file.
///
/// # Errors
///
/// There is no such file, it has not 48 bytes, or the system did not read it.
pub fn read_keys<W: Files<File = File>>(rt: &W, path: &str) -> Result<Keys, KeysFault> {
    let mut bytes = [0; KEYS_LENGTH + 1];
    let read = read_front(rt, path, &mut bytes);
    let keys = keys_of(&bytes);
    wipe(&mut bytes);
    match read {
        Ok(KEYS_LENGTH) => Ok(keys),
        Ok(_) => Err(KeysFault::WrongLength),
        Err(error) => Err(KeysFault::from(error)),
    }
}

// Settles a file, and its name.
fn settle<W: Files<File = File>>(rt: &W, path: &str) -> io::Result<()> {
    File::open(rt, path)?.sync_all()?;
    sync_name(rt, path)
}

// Draws bytes, and writes them into a new file.
fn fill<W: Files<File = File>>(rt: &W, file: &mut File, bytes: &mut [u8]) -> io::Result<()> {
    draw(rt, bytes)?;
    file.write_all(bytes)
}

// Draws keys into a new file. Where that fails the file is taken away again.
fn draw_keys<W: Files<File = File>>(rt: &W, path: &str, file: File) -> io::Result<Keys> {
    let mut file = file;
    let mut bytes = [0; KEYS_LENGTH];
    let filled = fill(rt, &mut file, &mut bytes);
    let keys = keys_of(&bytes);
    wipe(&mut bytes);
    match filled {
        Ok(()) => Ok(keys),
        Err(error) => {
            let _ = fs::remove_file(rt, path);
            Err(error)
        }
    }
}

// A new file, for its owner alone.
fn new_file<W: Files<File = File>>(rt: &W, path: &str) -> io::Result<File> {
    OpenOptions::new()
        .write(true)
        .create_new(true)
        .mode(0o600)
        .open(rt, path)
}

/// The keys in a file: those that it has, or new ones where it is not there. A file that is there is never written. The file
/// is settled before this returns.
///
/// # Errors
///
/// A file that is there has not 48 bytes; or the system did not read, make or settle it.
pub fn keys_in<W: Files<File = File>>(rt: &W, path: &str) -> Result<Keys, KeysFault> {
    let keys = match new_file(rt, path) {
        Ok(file) => draw_keys(rt, path, file).map_err(KeysFault::System)?,
        Err(error) if error.kind() == ErrorKind::AlreadyExists => read_keys(rt, path)?,
        Err(error) => return Err(KeysFault::from(error)),
    };
    settle(rt, path).map_err(KeysFault::System)?;
    Ok(keys)
}
