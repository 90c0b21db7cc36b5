//! Writing a call and a control.

ghost use Rattle.std.specs.Prelude.{◌≡◌, ◌++◌, length, take, codes, decimal, OnOk};
ghost use Rattle.tee_types.specs.declared.call.Call.TheVariants.{Create, Open, Rename, Seek, Write};
ghost use Rattle.script_text.specs.declared.script.Arm.TheVariants.{Taint};
ghost use Rattle.script_text.specs.declared.script.Control.TheVariants.{Flip, Quota, Restore};
ghost use Rattle.script_text.specs.Forms.{arm_text, call_text, control_text, device_word, mode_text, whence_text};

use crate::append_text::{
    put, put_number, put_two, put_uuid, put_word_bytes, put_word_flags, put_word_hex,
    put_word_number, put_word_numbers, put_word_signed,
};
use crate::{Arm, Control, Mode};
use tee_types::{AppId, Bytes, Call, Device, Flags, NoMemory, ObjectId, Whence};

/// The name of the place from which a seek counts.
fn whence_name(whence: Whence) -> &'static [u8]
    ensures { result.now ≡ whence_text whence }
{
    match whence {
        Whence::Set => b"set",
        Whence::Cur => b"cur",
        Whence::End => b"end",
    }
}

/// Appends a create.
#[tactic(auto, unfolding(crate::specs::Forms::call_text))]
fn put_create(
    out: &mut Vec<u8>,
    id: &ObjectId,
    flags: Flags,
    attributes: &Bytes,
    bytes: &Bytes,
) -> Result<(), NoMemory>
    ensures ok { OnOk result (out.new.items ≡ out.old.items ++ call_text (Create id.now flags attributes.now bytes.now)) }
    ensures kept { take (length out.old.items) out.new.items ≡ out.old.items }
{
    put_word_hex(out, b"create ", id.bytes())?;
    put_word_flags(out, b" ", flags)?;
    put_word_bytes(out, b" ", attributes.as_slice())?;
    put_word_bytes(out, b" ", bytes.as_slice())
}

/// Appends an open.
#[tactic(auto, unfolding(crate::specs::Forms::call_text))]
fn put_open(out: &mut Vec<u8>, id: &ObjectId, flags: Flags) -> Result<(), NoMemory>
    ensures ok { OnOk result (out.new.items ≡ out.old.items ++ call_text (Open id.now flags)) }
    ensures kept { take (length out.old.items) out.new.items ≡ out.old.items }
{
    put_word_hex(out, b"open ", id.bytes())?;
    put_word_flags(out, b" ", flags)
}

/// Appends a write.
#[tactic(auto, unfolding(crate::specs::Forms::call_text))]
fn put_write(out: &mut Vec<u8>, handle: u32, bytes: &Bytes) -> Result<(), NoMemory>
    ensures ok { OnOk result (out.new.items ≡ out.old.items ++ call_text (Write handle bytes.now)) }
    ensures kept { take (length out.old.items) out.new.items ≡ out.old.items }
{
    put_word_number(out, b"write ", handle as u64)?;
    put_word_bytes(out, b" ", bytes.as_slice())
}

/// Appends a rename.
#[tactic(auto, unfolding(crate::specs::Forms::call_text))]
fn put_rename(out: &mut Vec<u8>, handle: u32, id: &ObjectId) -> Result<(), NoMemory>
    ensures ok { OnOk result (out.new.items ≡ out.old.items ++ call_text (Rename handle id.now)) }
    ensures kept { take (length out.old.items) out.new.items ≡ out.old.items }
{
    put_word_number(out, b"rename ", handle as u64)?;
    put_word_hex(out, b" ", id.bytes())
}

/// Appends a seek.
#[tactic(auto, unfolding(crate::specs::Forms::call_text))]
fn put_seek(out: &mut Vec<u8>, handle: u32, offset: i64, whence: Whence) -> Result<(), NoMemory>
    ensures ok { OnOk result (out.new.items ≡ out.old.items ++ call_text (Seek handle offset whence)) }
    ensures kept { take (length out.old.items) out.new.items ≡ out.old.items }
{
    put_word_number(out, b"seek ", handle as u64)?;
    put_word_signed(out, b" ", offset)?;
    put_two(out, b" ", whence_name(whence))
}

/// Appends a call.
#[tactic(auto, unfolding(crate::specs::Forms::call_text))]
pub(crate) fn put_call(out: &mut Vec<u8>, call: &Call) -> Result<(), NoMemory>
    ensures ok { OnOk result (out.new.items ≡ out.old.items ++ call_text call.now) }
    ensures kept { take (length out.old.items) out.new.items ≡ out.old.items }
{
    match call {
        Call::Create {
            id,
            flags,
            attributes,
            bytes,
        } => put_create(out, id, *flags, attributes, bytes),
        Call::Open { id, flags } => put_open(out, id, *flags),
        Call::Close { handle } => put_word_number(out, b"close ", *handle as u64),
        Call::Read { handle, size } => put_word_numbers(out, b"read ", *handle, *size),
        Call::Write { handle, bytes } => put_write(out, *handle, bytes),
        Call::Truncate { handle, size } => put_word_numbers(out, b"truncate ", *handle, *size),
        Call::Seek {
            handle,
            offset,
            whence,
        } => put_seek(out, *handle, *offset, *whence),
        Call::Rename { handle, id } => put_rename(out, *handle, id),
        Call::Delete { handle } => put_word_number(out, b"delete ", *handle as u64),
        Call::Info { handle } => put_word_number(out, b"info ", *handle as u64),
        Call::EnumNew => put(out, b"enum"),
        Call::EnumStart { number } => put_word_number(out, b"start ", *number as u64),
        Call::EnumNext { number } => put_word_number(out, b"next ", *number as u64),
        Call::EnumReset { number } => put_word_number(out, b"reset ", *number as u64),
        Call::EnumFree { number } => put_word_number(out, b"free ", *number as u64),
    }
}

/// Appends a device as controls name it.
fn put_device_word(out: &mut Vec<u8>, device: Device) -> Result<(), NoMemory>
    ensures ok { OnOk result (out.new.items ≡ out.old.items ++ device_word device) }
    ensures kept { take (length out.old.items) out.new.items ≡ out.old.items }
{
    match device {
        Device::Dir => put(out, b"dir"),
        Device::File(number) => put_number(out, number as u64),
        Device::Card => put(out, b"card"),
        Device::Entropy => put(out, b"entropy"),
    }
}

/// Appends a word, a device and a number.
fn put_device_number(
    out: &mut Vec<u8>,
    word: &[u8],
    device: Device,
    number: u32,
) -> Result<(), NoMemory>
    ensures ok { OnOk result (out.new.items ≡ out.old.items ++ word.now ++ device_word device ++ codes " " ++ decimal number) }
    ensures kept { take (length out.old.items) out.new.items ≡ out.old.items }
{
    put(out, word)?;
    put_device_word(out, device)?;
    put_word_number(out, b" ", number as u64)
}

/// Appends the words of a taint.
fn put_taint(
    out: &mut Vec<u8>,
    file: Device,
    call: u32,
    at: u32,
    mask: &Bytes,
) -> Result<(), NoMemory>
    ensures ok { OnOk result (out.new.items ≡ out.old.items ++ arm_text (Taint file call at mask.now)) }
    ensures kept { take (length out.old.items) out.new.items ≡ out.old.items }
{
    put_device_number(out, b"taint ", file, call)?;
    put_word_number(out, b" ", at as u64)?;
    put_word_bytes(out, b" ", mask.as_slice())
}

/// Appends the words of a control that arms a device.
fn put_arm(out: &mut Vec<u8>, arm: &Arm) -> Result<(), NoMemory>
    ensures ok { OnOk result (out.new.items ≡ out.old.items ++ arm_text arm.now) }
    ensures kept { take (length out.old.items) out.new.items ≡ out.old.items }
{
    match arm {
        Arm::Stop { device, calls } => put_device_number(out, b"stop ", *device, *calls),
        Arm::Fail { device, call } => put_device_number(out, b"fail ", *device, *call),
        Arm::Lose { call } => put_word_number(out, b"lose card ", *call as u64),
        Arm::Taint {
            file,
            call,
            at,
            mask,
        } => put_taint(out, *file, *call, *at, mask),
    }
}

/// The word of a mode.
pub(crate) fn mode_name(mode: Mode) -> &'static [u8]
    ensures { result.now ≡ mode_text mode }
{
    match mode {
        Mode::Serial => b"serial",
        Mode::Threads => b"threads",
    }
}

/// Appends the words that put a saved file back.
fn put_restore(out: &mut Vec<u8>, file: Device, mark: &Bytes) -> Result<(), NoMemory>
    ensures ok { OnOk result (out.new.items ≡ out.old.items ++ control_text (Restore file mark.now)) }
    ensures kept { take (length out.old.items) out.new.items ≡ out.old.items }
{
    put(out, b"restore ")?;
    put_device_word(out, file)?;
    put_two(out, b" ", mark.as_slice())
}

/// Appends the words of a flip.
fn put_flip(out: &mut Vec<u8>, file: Device, at: u32, mask: &Bytes) -> Result<(), NoMemory>
    ensures ok { OnOk result (out.new.items ≡ out.old.items ++ control_text (Flip file at mask.now)) }
    ensures kept { take (length out.old.items) out.new.items ≡ out.old.items }
{
    put_device_number(out, b"flip ", file, at)?;
    put_word_bytes(out, b" ", mask.as_slice())
}

/// Appends the words of a quota.
fn put_quota(out: &mut Vec<u8>, app: AppId, objects: u16, bytes: u32) -> Result<(), NoMemory>
    ensures ok { OnOk result (out.new.items ≡ out.old.items ++ control_text (Quota app objects bytes)) }
    ensures kept { take (length out.old.items) out.new.items ≡ out.old.items }
{
    put(out, b"quota ")?;
    put_uuid(out, app)?;
    put_word_numbers(out, b" ", u32::from(objects), bytes)
}

/// Appends a control.
pub(crate) fn put_control(out: &mut Vec<u8>, control: &Control) -> Result<(), NoMemory>
    ensures ok { OnOk result (out.new.items ≡ out.old.items ++ control_text control.now) }
    ensures kept { take (length out.old.items) out.new.items ≡ out.old.items }
{
    match control {
        Control::Mode(mode) => put(out, mode_name(*mode)),
        Control::Phase => put(out, b"phase"),
        Control::Arm(arm) => put_arm(out, arm),
        Control::Crash { seed } => put_word_number(out, b"crash ", *seed),
        Control::Save { mark } => put_two(out, b"save ", mark.as_slice()),
        Control::Restore { file, mark } => put_restore(out, *file, mark),
        Control::Flip { file, at, mask } => put_flip(out, *file, *at, mask),
        Control::Quota {
            app,
            objects,
            bytes,
        } => put_quota(out, *app, *objects, *bytes),
        Control::List => put(out, b"list"),
    }
}
