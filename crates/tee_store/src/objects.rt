//! `put`, `get`, `info`, `remove` and `rename`: one object.

use crate::amounts::Amount;
use crate::faults::Fault;
use crate::stores::{change, read};
use crate::words::Place;
use std::io::Read;
use tee_types::{Bytes, Call, Code, Flags, MAX_DATA, OVERWRITE, ObjectId, READ, Reply, WRITE_META};

// The handle of the first object that a session opens.
const FIRST_HANDLE: u32 = 0;

// Reads standard input to its end. More bytes than an object has are refused at once.
fn read_object(rt: &HostRuntime) -> Result<Vec<u8>, Fault> {
    let mut bytes = Vec::new(rt.alloc());
    if let Err(error) = rt
        .reader()
        .take(MAX_DATA as u64 + 1)
        .read_to_end(&mut bytes)
    {
        return Err(Fault::Input(error));
    }
    if MAX_DATA < bytes.len() {
        return Err(Fault::Call {
            reply: Reply::Refused(Code::NoSpace),
            in_doubt: false,
        });
    }
    Ok(bytes)
}

// An object is opened, with these rights.
fn open_call(id: ObjectId, rights: u32) -> Call {
    Call::Open {
        id,
        flags: Flags { bits: rights },
    }
}

/// Makes an object of the bytes of standard input, or replaces it.
pub fn put(rt: &HostRuntime, place: &Place, id: ObjectId) -> Result<(), Fault> {
    let bytes = read_object(rt)?;
    let create = Call::Create {
        id,
        flags: Flags { bits: OVERWRITE },
        attributes: Bytes::empty(rt.alloc()),
        bytes: Bytes::from_vec(bytes),
    };
    let calls = vec![in rt.alloc(); create]?;
    change(rt, place, calls.as_slice())?;
    Ok(())
}

/// Writes the bytes of an object to standard output, and nothing else.
pub fn get(rt: &HostRuntime, place: &Place, id: ObjectId) -> Result<(), Fault> {
    let open = open_call(id, READ);
    let data = Call::Read {
        handle: FIRST_HANDLE,
        size: MAX_DATA as u32,
    };
    let calls = vec![in rt.alloc(); open, data]?;
    let replies = read(rt, place, calls.as_slice())?;
    match replies.last() {
        Some(Reply::Content(bytes)) => { rt.write_all(bytes.as_slice()).map_err(Fault::Output) }
        _ => Ok(()),
    }
}

/// Tells the size of an object.
pub fn info(rt: &HostRuntime, place: &Place, id: ObjectId) -> Result<(), Fault> {
    let open = open_call(id, READ);
    let info = Call::Info {
        handle: FIRST_HANDLE,
    };
    let calls = vec![in rt.alloc(); open, info]?;
    let replies = read(rt, place, calls.as_slice())?;
    match replies.last() {
        Some(
            Reply::Info {
                size,
                attributes,
                ..
            },
        ) => {
            let size = Amount {
                bytes: u64::from(*size),
            };
            let attributes = Amount {
                bytes: attributes.len() as u64,
            };
            println!(rt; "size {size}, attributes {attributes}").map_err(Fault::Output)
        }
        _ => Ok(()),
    }
}

/// Removes an object.
pub fn remove(rt: &HostRuntime, place: &Place, id: ObjectId) -> Result<(), Fault> {
    let open = open_call(id, WRITE_META);
    let delete = Call::Delete {
        handle: FIRST_HANDLE,
    };
    let calls = vec![in rt.alloc(); open, delete]?;
    change(rt, place, calls.as_slice())?;
    Ok(())
}

/// Gives an object another identifier.
pub fn rename(rt: &HostRuntime, place: &Place, id: ObjectId, new: ObjectId) -> Result<(), Fault> {
    let open = open_call(id, WRITE_META);
    let rename = Call::Rename {
        handle: FIRST_HANDLE,
        id: new,
    };
    let calls = vec![in rt.alloc(); open, rename]?;
    change(rt, place, calls.as_slice())?;
    Ok(())
}
