//! Replies in words.

use std::fmt;
use tee_types::{Cause, Code, Device, MAX_DATA, MAX_OBJECTS, Reply};

/// Writes a reply in words.
pub fn write_reply<W: fmt::Write>(f: &mut fmt::Formatter<W>, reply: &Reply) -> fmt::Result {
    match reply {
        Reply::Done
        | Reply::Handle(_)
        | Reply::Content(_)
        | Reply::Info { .. }
        | Reply::Found { .. } => f.write_str("it was done"),
        Reply::Refused(code) => write_code(f, *code),
        Reply::Misuse(_) => f.write_str("such a call is not allowed"),
        Reply::Corrupt => f.write_str("the object is damaged"),
        Reply::NotAvailable(cause) => write_cause(f, *cause),
        Reply::CounterSpent(_) => f.write_str("the card's write counter is at its end"),
        Reply::NoMemory => f.write_str("memory ran out"),
    }
}

fn write_code<W: fmt::Write>(f: &mut fmt::Formatter<W>, code: Code) -> fmt::Result {
    match code {
        Code::AccessConflict => f.write_str("there is an object of that name"),
        Code::BadParameters => f.write_str("a value is outside its limits"),
        Code::ItemNotFound => f.write_str("there is no such object"),
        Code::Overflow => f.write_str("a number is too large"),
        Code::NoSpace => write!(
            f,
            "there is no space: an object has at most {MAX_DATA} bytes, and a store {MAX_OBJECTS} objects"
        ),
    }
}

fn write_cause<W: fmt::Write>(f: &mut fmt::Formatter<W>, cause: Cause) -> fmt::Result {
    match cause {
        Cause::Fault { device, .. } => write_device(f, device),
        Cause::Frame(_) => f.write_str("an answer of the card does not verify"),
        Cause::CardResult(result) => write!(f, "the card answered with result 0x{result:04x}"),
    }
}

fn write_device<W: fmt::Write>(f: &mut fmt::Formatter<W>, device: Device) -> fmt::Result {
    match device {
        Device::Dir => f.write_str("the system refused a call of the directory's file"),
        Device::File(number) => write!(f, "the system refused a call of {number:03}.bin"),
        Device::Card => f.write_str("the system refused a call of the card's file"),
        Device::Entropy => f.write_str("there were no random bytes"),
    }
}
