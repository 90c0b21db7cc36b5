//! `create`: a new store.

use crate::faults::Fault;
use crate::files::{is_there, make_folder};
use crate::keys::{forget, keys_in};
use crate::stores::fresh_entropy;
use crate::words::Place;
use hmac_keys::Keys;
use kept_store::{CARD_FILE, OpenFault, create_folder_store};
use std::io::ErrorKind;
use tee_types::{BENCH_FILES, DIRECTORY_FILE};

// The files that show a store: those of the directory, of an exported block, and of the card.
const TELLING_FILES: [u16; 3] = [DIRECTORY_FILE, BENCH_FILES as u16, CARD_FILE];

// Whether a file of a folder is there that shows a store.
fn has_store(rt: &HostRuntime, folder: &str) -> Result<bool, Fault> {
    for number in TELLING_FILES {
        let path = format!(in rt.alloc(); "{folder}/{number:03}.bin")?;
        match is_there(rt, path.as_str()) {
            Ok(true) => return Ok(true),
            Ok(false) => {}
            Err(error) => return Err(Fault::Folder(error)),
        }
    }
    Ok(false)
}

// The folder of a new store, which is made where it is missing.
fn prepare_folder(rt: &HostRuntime, folder: &str) -> Result<(), Fault> {
    match make_folder(rt, folder) {
        Ok(()) => {}
        Err(error) if error.kind() == ErrorKind::NotFound => {
            return Err(Fault::Open(OpenFault::NoFolder));
        }
        Err(error) => return Err(Fault::Folder(error)),
    }
    // Else keys would be made beside a store that has others.
    if has_store(rt, folder)? {
        return Err(Fault::Open(OpenFault::Exists));
    }
    Ok(())
}

// Makes an empty store under these keys.
fn make_store(rt: &HostRuntime, folder: &str, keys: &Keys) -> Result<(), Fault> {
    let mut entropy = fresh_entropy(rt)?;
    let opening = match create_folder_store(rt, rt.alloc(), folder, keys, &mut entropy) {
        Ok(opening) => opening,
        Err(fault) => return Err(Fault::Open(fault)),
    };
    let _devices = opening.close();
    Ok(())
}

/// Makes an empty store, and its folder and the file of its keys where they are missing. The keys are settled before.
pub fn create(rt: &HostRuntime, place: &Place) -> Result<(), Fault> {
    prepare_folder(rt, place.folder.as_str())?;
    let mut keys = keys_in(rt, place.keys.as_str())?;
    let made = make_store(rt, place.folder.as_str(), &keys);
    forget(&mut keys);
    made
}
