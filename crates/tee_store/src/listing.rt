//! `list`: the objects of an application.

use crate::faults::Fault;
use crate::keys::{forget, read_keys};
use crate::names::Name;
use crate::serving::{Caller, serve_calls};
use crate::stores::fresh_entropy;
use crate::words::Place;
use hmac_keys::Keys;
use kept_store::read_folder_store;
use std::alloc::{AllocError, Global};
use tee_types::{Call, Reply};

// The number of the first enumerator of a session.
const FIRST_ENUMERATOR: u32 = 0;

// The calls that name so many objects, one or more.
fn list_calls(alloc: Global, count: u16) -> Result<Vec<Call>, AllocError> {
    let number = FIRST_ENUMERATOR;
    let mut calls = Vec::new(alloc);
    calls.push(Call::EnumNew)?;
    calls.push(Call::EnumStart { number })?;
    for _ in 0..count {
        calls.push(Call::EnumNext { number })?;
    }
    Ok(calls)
}

// Writes the line of an object that an enumerator found.
fn write_found(rt: &HostRuntime, reply: &Reply) -> Result<(), Fault> {
    let Reply::Found { id, size } = reply else {
        return Ok(());
    };
    let name = Name { id: *id };
    println!(rt; "{name}\t{size}").map_err(Fault::Output)
}

// What an enumerator finds of the objects of the application, in a store that is opened to be read.
fn found_under(rt: &HostRuntime, place: &Place, keys: &Keys) -> Result<Vec<Reply>, Fault> {
    let mut entropy = fresh_entropy(rt)?;
    let app = place.app;
    let alloc = rt.alloc();
    let opening = match read_folder_store(rt, alloc, place.folder.as_str(), keys, &mut entropy) {
        Ok(opening) => opening,
        Err(fault) => return Err(Fault::Open(fault)),
    };
    let count = opening.held(app);
    if count == 0 {
        return Ok(Vec::new(alloc));
    }
    let calls = list_calls(alloc, count)?;
    serve_calls(
        alloc,
        opening,
        keys,
        &Caller { app, entropy },
        calls.as_slice(),
    )
}

/// Writes a line of each object of the application: its name, a tab, and its size.
pub fn list(rt: &HostRuntime, place: &Place) -> Result<(), Fault> {
    let mut keys = read_keys(rt, place.keys.as_str())?;
    let found = found_under(rt, place, &keys);
    forget(&mut keys);
    for reply in found?.as_slice() {
        write_found(rt, reply)?;
    }
    Ok(())
}
