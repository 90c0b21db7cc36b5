//! Writing a reply.

ghost use Rattle.std.specs.Prelude.{◌≡◌, ◌++◌, length, take, codes, decimal, OnOk};
ghost use Rattle.hex.specs.Hex.{encode_lower};
ghost use Rattle.script_text.specs.Forms.{code_text, reason_text, device_text, cause_text, info_text, reply_text};

use crate::append_text::{
    put, put_two, put_word_bytes, put_word_flags, put_word_hex, put_word_number,
};
use tee_types::{Cause, Code, Device, Flags, NoMemory, ObjectId, Reason, Reply};

/// The name of a code.
fn code_name(code: Code) -> &'static [u8]
    ensures { result.now ≡ code_text code }
{
    match code {
        Code::AccessConflict => b"ACCESS_CONFLICT",
        Code::BadParameters => b"BAD_PARAMETERS",
        Code::ItemNotFound => b"ITEM_NOT_FOUND",
        Code::Overflow => b"OVERFLOW",
        Code::NoSpace => b"STORAGE_NO_SPACE",
    }
}

/// The name of a reason.
fn reason_name(reason: Reason) -> &'static [u8]
    ensures { result.now ≡ reason_text reason }
{
    match reason {
        Reason::BadHandle => b"BAD_HANDLE",
        Reason::BadEnumerator => b"BAD_ENUMERATOR",
        Reason::BadFlags => b"BAD_FLAGS",
        Reason::NoRight => b"NO_RIGHT",
        Reason::TooMany => b"TOO_MANY",
    }
}

/// Appends a device.
fn put_device(out: &mut Vec<u8>, device: Device) -> Result<(), NoMemory>
    ensures ok { OnOk result (out.new.items ≡ out.old.items ++ device_text device) }
    ensures kept { take (length out.old.items) out.new.items ≡ out.old.items }
{
    match device {
        Device::Dir => put(out, b"dir"),
        Device::File(number) => put_word_number(out, b"file ", number as u64),
        Device::Card => put(out, b"card"),
        Device::Entropy => put(out, b"entropy"),
    }
}

/// Appends a cause.
fn put_cause(out: &mut Vec<u8>, cause: &Cause) -> Result<(), NoMemory>
    ensures ok { OnOk result (out.new.items ≡ out.old.items ++ cause_text cause.now) }
    ensures kept { take (length out.old.items) out.new.items ≡ out.old.items }
{
    match cause {
        Cause::Fault { device, count } => {
            put_device(out, *device)?;
            put_word_number(out, b" ", *count)
        }
        Cause::Frame(_) => put(out, b"frame"),
        Cause::CardResult(value) => put_word_hex(out, b"result 0x", &value.to_be_bytes()),
    }
}

/// Appends what `info` answers.
fn put_info(
    out: &mut Vec<u8>,
    size: u32,
    position: u32,
    flags: Flags,
    attributes: &[u8],
) -> Result<(), NoMemory>
    ensures ok { OnOk result (out.new.items ≡ out.old.items ++ info_text size position flags attributes.now) }
    ensures kept { take (length out.old.items) out.new.items ≡ out.old.items }
{
    put_word_number(out, b"ok ", size as u64)?;
    put_word_number(out, b" ", position as u64)?;
    put_word_flags(out, b" ", flags)?;
    put_word_bytes(out, b" ", attributes)
}

/// Appends what an enumerator finds.
fn put_found(out: &mut Vec<u8>, id: &ObjectId, size: u32) -> Result<(), NoMemory>
    ensures ok { OnOk result (out.new.items ≡ out.old.items ++ codes "ok " ++ encode_lower id.now ++ codes " " ++ decimal size) }
    ensures kept { take (length out.old.items) out.new.items ≡ out.old.items }
{
    put_word_hex(out, b"ok ", id.bytes())?;
    put_word_number(out, b" ", size as u64)
}

/// Appends that a device failed, or was not believed.
fn put_fault(out: &mut Vec<u8>, cause: &Cause) -> Result<(), NoMemory>
    ensures ok { OnOk result (out.new.items ≡ out.old.items ++ codes "STORAGE_NOT_AVAILABLE " ++ cause_text cause.now) }
    ensures kept { take (length out.old.items) out.new.items ≡ out.old.items }
{
    put(out, b"STORAGE_NOT_AVAILABLE ")?;
    put_cause(out, cause)
}

/// Appends a reply.
#[tactic(auto, unfolding(crate::specs::Forms::reply_text))]
pub(crate) fn put_reply(out: &mut Vec<u8>, reply: &Reply) -> Result<(), NoMemory>
    ensures ok { OnOk result (out.new.items ≡ out.old.items ++ reply_text reply.now) }
    ensures kept { take (length out.old.items) out.new.items ≡ out.old.items }
{
    match reply {
        Reply::Done => put(out, b"ok"),
        Reply::Handle(number) => put_word_number(out, b"ok ", *number as u64),
        Reply::Content(bytes) => put_word_bytes(out, b"ok ", bytes.as_slice()),
        Reply::Info {
            size,
            position,
            flags,
            attributes,
        } => put_info(out, *size, *position, *flags, attributes.as_slice()),
        Reply::Found { id, size } => put_found(out, id, *size),
        Reply::Refused(code) => put(out, code_name(*code)),
        Reply::Misuse(reason) => put_two(out, b"misuse ", reason_name(*reason)),
        Reply::Corrupt => put(out, b"CORRUPT_OBJECT"),
        Reply::NotAvailable(cause) => put_fault(out, cause),
        Reply::CounterSpent(counter) => put_word_number(out, b"counter-spent ", *counter as u64),
        Reply::NoMemory => put(out, b"no-memory"),
    }
}
