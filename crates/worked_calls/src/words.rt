// Byte strings, and copies of calls and replies.

use crate::report::Report;
use std::alloc::Global;
use std::fmt::Debug;
use tee_types::{
    Bytes, Call, Cause, Code, Device, Flags, NoMemory, ObjectId, READ, Reason, Reply, Whence,
};

const FLAGS: Flags = Flags { bits: READ };

fn add_lengths(report: &mut Report, bytes: &Bytes) {
    report.line("tee_types: length of three bytes", &bytes.len());
    report.line("tee_types: are they empty", &bytes.is_empty());
}

fn add_copy(report: &mut Report, copy: Bytes) {
    report.line("tee_types: their copy", &copy.as_slice());
    let again = Bytes::from_vec(copy.into_vec());
    report.line(
        "tee_types: the copy as a vector and back",
        &again.as_slice(),
    );
}

fn add_bytes(report: &mut Report, alloc: Global) -> Result<(), NoMemory> {
    let bytes = Bytes::from_slice(alloc, &[1, 2, 3])?;
    add_lengths(report, &bytes);
    add_copy(report, bytes.copy(alloc)?);
    let is_empty = Bytes::empty(alloc).is_empty();
    report.line("tee_types: are no bytes empty", &is_empty);
    Ok(())
}

fn prints_alike(alloc: Global, one: &impl Debug, other: &impl Debug) -> Result<bool, NoMemory> {
    let one = format!(in alloc; "{one:?}")?;
    let other = format!(in alloc; "{other:?}")?;
    Ok(one == other)
}

/// Adds a line where there is no copy, or it prints otherwise.
fn compare<T: Debug + Drop>(
    report: &mut Report,
    alloc: Global,
    copy: Result<T, NoMemory>,
    original: &T,
) {
    let is_alike = match &copy {
        Ok(copy) => prints_alike(alloc, copy, original).unwrap_or(false),
        Err(_) => false,
    };
    if !is_alike {
        report.line("tee_types: a copy in place of another", &copy);
    }
}

fn compare_call(report: &mut Report, alloc: Global, call: Call) {
    compare(report, alloc, call.copy(alloc), &call);
}

fn compare_reply(report: &mut Report, alloc: Global, reply: Reply) {
    compare(report, alloc, reply.copy(alloc), &reply);
}

fn create(alloc: Global, id: ObjectId) -> Result<Call, NoMemory> {
    Ok(Call::Create {
        id,
        flags: FLAGS,
        attributes: Bytes::from_slice(alloc, b"a")?,
        bytes: Bytes::from_slice(alloc, b"bc")?,
    })
}

fn write(alloc: Global) -> Result<Call, NoMemory> {
    let bytes = Bytes::from_slice(alloc, b"bc")?;
    Ok(Call::Write { handle: 7, bytes })
}

/// Copies the calls that name an object or bring bytes.
fn compare_long_calls(report: &mut Report, alloc: Global, id: ObjectId) -> Result<(), NoMemory> {
    compare_call(report, alloc, create(alloc, id)?);
    compare_call(report, alloc, write(alloc)?);
    compare_call(report, alloc, Call::Open { id, flags: FLAGS });
    compare_call(report, alloc, Call::Rename { handle: 7, id });
    Ok(())
}

/// Copies the calls of a handle.
fn compare_handle_calls(report: &mut Report, alloc: Global) {
    let seek = Call::Seek {
        handle: 7,
        offset: -3,
        whence: Whence::End,
    };
    compare_call(report, alloc, seek);
    compare_call(report, alloc, Call::Close { handle: 7 });
    compare_call(report, alloc, Call::Read { handle: 7, size: 9 });
    compare_call(report, alloc, Call::Truncate { handle: 7, size: 9 });
    compare_call(report, alloc, Call::Delete { handle: 7 });
    compare_call(report, alloc, Call::Info { handle: 7 });
}

/// Copies the calls of an enumerator.
fn compare_walks(report: &mut Report, alloc: Global) {
    compare_call(report, alloc, Call::EnumNew);
    compare_call(report, alloc, Call::EnumStart { number: 4 });
    compare_call(report, alloc, Call::EnumNext { number: 4 });
    compare_call(report, alloc, Call::EnumReset { number: 4 });
    compare_call(report, alloc, Call::EnumFree { number: 4 });
}

fn info(alloc: Global) -> Result<Reply, NoMemory> {
    Ok(Reply::Info {
        size: 5,
        position: 2,
        flags: FLAGS,
        attributes: Bytes::from_slice(alloc, b"a")?,
    })
}

fn content(alloc: Global) -> Result<Reply, NoMemory> {
    Ok(Reply::Content(Bytes::from_slice(alloc, b"bc")?))
}

/// Copies the replies that have bytes, and those of calls that were done.
fn compare_done(report: &mut Report, alloc: Global, id: ObjectId) -> Result<(), NoMemory> {
    compare_reply(report, alloc, info(alloc)?);
    compare_reply(report, alloc, content(alloc)?);
    compare_reply(report, alloc, Reply::Done);
    compare_reply(report, alloc, Reply::Handle(3));
    compare_reply(report, alloc, Reply::Found { id, size: 5 });
    Ok(())
}

/// Copies the replies of calls that were not done.
fn compare_refusals(report: &mut Report, alloc: Global) {
    let fault = Cause::Fault {
        device: Device::File(3),
        count: 4,
    };
    compare_reply(report, alloc, Reply::NotAvailable(fault));
    compare_reply(report, alloc, Reply::Refused(Code::Overflow));
    compare_reply(report, alloc, Reply::Misuse(Reason::NoRight));
    compare_reply(report, alloc, Reply::Corrupt);
    compare_reply(report, alloc, Reply::CounterSpent(6));
    compare_reply(report, alloc, Reply::NoMemory);
}

fn add_copies(report: &mut Report, alloc: Global, id: ObjectId) -> Result<(), NoMemory> {
    compare_long_calls(report, alloc, id)?;
    compare_handle_calls(report, alloc);
    compare_walks(report, alloc);
    report.add(&"tee_types: copies of 15 calls -> print as the calls do");
    compare_done(report, alloc, id)?;
    compare_refusals(report, alloc);
    report.add(&"tee_types: copies of 11 replies -> print as the replies do");
    Ok(())
}

/// Adds the calls of `tee_types`.
pub fn add_calls(report: &mut Report, alloc: Global) -> Result<(), NoMemory> {
    add_bytes(report, alloc)?;
    add_copies(report, alloc, ObjectId::new(b"k").unwrap())
}
