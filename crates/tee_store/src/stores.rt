//! The store of a place, opened to be read or to be changed.

use crate::faults::Fault;
use crate::files::draw;
use crate::keys::{forget, read_keys};
use crate::serving::{Caller, serve_calls};
use crate::words::Place;
use hmac_keys::{Keys, wipe};
use kept_store::{Report, inspect_folder_store, open_folder_store, read_folder_store};
use seed_words::SeedEntropy;
use tee_types::{Call, Reply};

/// Random bytes of the system, as the seed of a generator. A seed is never used twice.
pub fn fresh_entropy(rt: &HostRuntime) -> Result<SeedEntropy, Fault> {
    let mut seed = [0; 32];
    if let Err(error) = draw(rt, &mut seed) {
        return Err(Fault::Random(error));
    }
    let entropy = SeedEntropy::from_seed(&seed);
    wipe(&mut seed);
    Ok(entropy)
}

// Makes calls in a store that is opened to be changed.
fn change_under(
    rt: &HostRuntime,
    place: &Place,
    keys: &Keys,
    calls: &[Call],
) -> Result<Vec<Reply>, Fault> {
    let mut entropy = fresh_entropy(rt)?;
    let app = place.app;
    match open_folder_store(rt, rt.alloc(), place.folder.as_str(), keys, &mut entropy) {
        Ok(opening) => serve_calls(rt.alloc(), opening, keys, &Caller { app, entropy }, calls),
        Err(fault) => Err(Fault::Open(fault)),
    }
}

// Makes calls in a store that is opened to be read.
fn read_under(
    rt: &HostRuntime,
    place: &Place,
    keys: &Keys,
    calls: &[Call],
) -> Result<Vec<Reply>, Fault> {
    let mut entropy = fresh_entropy(rt)?;
    let app = place.app;
    match read_folder_store(rt, rt.alloc(), place.folder.as_str(), keys, &mut entropy) {
        Ok(opening) => serve_calls(rt.alloc(), opening, keys, &Caller { app, entropy }, calls),
        Err(fault) => Err(Fault::Open(fault)),
    }
}

// What the audit of a store finds.
fn inspect_under(rt: &HostRuntime, place: &Place, keys: &Keys) -> Result<Report, Fault> {
    let mut entropy = fresh_entropy(rt)?;
    match inspect_folder_store(rt, rt.alloc(), place.folder.as_str(), keys, &mut entropy) {
        Ok(report) => Ok(report),
        Err(fault) => Err(Fault::Open(fault)),
    }
}

/// Makes calls that change the store of a place. Gives their replies, where all were done.
pub fn change(rt: &HostRuntime, place: &Place, calls: &[Call]) -> Result<Vec<Reply>, Fault> {
    let mut keys = read_keys(rt, place.keys.as_str())?;
    let replies = change_under(rt, place, &keys, calls);
    forget(&mut keys);
    replies
}

/// Makes calls that only read the store of a place. Gives their replies, where all were done.
pub fn read(rt: &HostRuntime, place: &Place, calls: &[Call]) -> Result<Vec<Reply>, Fault> {
    let mut keys = read_keys(rt, place.keys.as_str())?;
    let replies = read_under(rt, place, &keys, calls);
    forget(&mut keys);
    replies
}

/// What the audit of the store of a place finds. Nothing is changed.
pub fn inspect(rt: &HostRuntime, place: &Place) -> Result<Report, Fault> {
    let mut keys = read_keys(rt, place.keys.as_str())?;
    let report = inspect_under(rt, place, &keys);
    forget(&mut keys);
    report
}
