//! Writing the text of a run, line by line.

ghost use Rattle.std.specs.Prelude.{◌≡◌, ◌++◌, length, take, codes, decimal, OnOk, OnErr};
ghost use Rattle.script_text.specs.Forms.{reply_text};
ghost use Rattle.script_text.specs.Text.{event_text, phase_line, control_line, migration_line, name_at, refused_call_line};

use crate::append_text::{put, put_number, put_two, put_word_number};
use crate::print_call::{mode_name, put_call, put_control};
use crate::print_reply::put_reply;
use crate::{Control, Mode, Script};
use store_model::Event;
use tee_types::{Call, Code, NoMemory, Reply};

/// Appends the name of a session's application.
fn put_name(out: &mut Vec<u8>, names: &Script, session: u32) -> Result<(), NoMemory>
    ensures ok { OnOk result (out.new.items ≡ out.old.items ++ name_at names.now session) }
    ensures kept { take (length out.old.items) out.new.items ≡ out.old.items }
{
    match names.name(session) {
        Some(name) => put(out, name),
        None => Ok(()),
    }
}

/// Appends the place of an event, and the application that called.
fn put_caller(out: &mut Vec<u8>, names: &Script, place: u64, session: u32) -> Result<(), NoMemory>
    ensures ok { OnOk result (out.new.items ≡ out.old.items ++ decimal place ++ codes " " ++ name_at names.now session ++ codes " ") }
    ensures kept { take (length out.old.items) out.new.items ≡ out.old.items }
{
    put_number(out, place)?;
    put(out, b" ")?;
    put_name(out, names, session)?;
    put(out, b" ")
}

/// Appends the answer of a call, and the end of its line.
fn put_answer(out: &mut Vec<u8>, reply: &Reply) -> Result<(), NoMemory>
    ensures ok { OnOk result (out.new.items ≡ out.old.items ++ codes " -> " ++ reply_text reply.now ++ codes "\n") }
    ensures kept { take (length out.old.items) out.new.items ≡ out.old.items }
{
    put(out, b" -> ")?;
    put_reply(out, reply)?;
    put(out, b"\n")
}

/// Appends the line of an event. A refusal may leave a part of it behind the old text.
#[tactic(auto, unfolding(crate::specs::Text::event_text))]
fn put_event(out: &mut Vec<u8>, names: &Script, place: u64, event: &Event) -> Result<(), NoMemory>
    ensures ok { OnOk result (out.new.items ≡ out.old.items ++ event_text names.now place event.now) }
    ensures kept { take (length out.old.items) out.new.items ≡ out.old.items }
{
    match event {
        Event::Call {
            session,
            call,
            reply,
            ..
        } => {
            put_caller(out, names, place, *session)?;
            put_call(out, call)?;
            put_answer(out, reply)
        }
        Event::Landed { commit } => {
            put_number(out, place)?;
            put_word_number(out, b" - landed ", *commit as u64)?;
            put(out, b"\n")
        }
    }
}

/// Appends the line of the event at that place of a phase. A refusal leaves the text as it was.
pub fn print_event(
    place: u64,
    names: &Script,
    event: &Event,
    out: &mut Vec<u8>,
) -> Result<(), NoMemory>
    ensures ok { OnOk result (out.new.items ≡ out.old.items ++ event_text names.now place event.now) }
    ensures err { OnErr result (out.new.items ≡ out.old.items) }
{
    let before = out.len();
    let printed = put_event(out, names, place, event);
    if printed.is_err() {
        out.truncate(before);
    }
    printed
}

/// Appends the line of a refused call. A refusal may leave a part of it behind the old text.
#[tactic(auto, unfolding(crate::specs::Text::refused_call_line))]
fn put_refused_call(
    out: &mut Vec<u8>,
    names: &Script,
    place: u64,
    session: u32,
    number: u64,
    call: &Call,
) -> Result<(), NoMemory>
    ensures ok { OnOk result (out.new.items ≡ out.old.items ++ refused_call_line names.now place session number call.now) }
    ensures kept { take (length out.old.items) out.new.items ≡ out.old.items }
{
    put(out, b"# quota ")?;
    put_caller(out, names, place, session)?;
    put_number(out, number)?;
    put(out, b" ")?;
    put_call(out, call)?;
    put_answer(out, &Reply::Refused(Code::NoSpace))
}

/// Appends the line of a call that was refused under quotas: the place tells how many events stood, and the number which call of its
/// application in the phase it is. A refusal leaves the text as it was.
pub fn print_refused_call(
    place: u64,
    names: &Script,
    session: u32,
    number: u64,
    call: &Call,
    out: &mut Vec<u8>,
) -> Result<(), NoMemory>
    ensures ok { OnOk result (out.new.items ≡ out.old.items ++ refused_call_line names.now place session number call.now) }
    ensures err { OnErr result (out.new.items ≡ out.old.items) }
{
    let before = out.len();
    let printed = put_refused_call(out, names, place, session, number, call);
    if printed.is_err() {
        out.truncate(before);
    }
    printed
}

/// Appends the line before a phase's history. A refusal may leave a part of it behind the old text.
#[tactic(auto, unfolding(crate::specs::Text::phase_line))]
fn put_phase(out: &mut Vec<u8>, number: u64, mode: Mode, objects: u16) -> Result<(), NoMemory>
    ensures ok { OnOk result (out.new.items ≡ out.old.items ++ phase_line number mode objects) }
    ensures kept { take (length out.old.items) out.new.items ≡ out.old.items }
{
    put_word_number(out, b"# phase ", number)?;
    put_two(out, b" ", mode_name(mode))?;
    put_word_number(out, b" objects ", objects as u64)?;
    put(out, b"\n")?;
    Ok(())
}

/// Appends the line before a phase's history. A refusal leaves the text as it was.
pub fn print_phase(number: u64, mode: Mode, objects: u16, out: &mut Vec<u8>) -> Result<(), NoMemory>
    ensures ok { OnOk result (out.new.items ≡ out.old.items ++ phase_line number mode objects) }
    ensures err { OnErr result (out.new.items ≡ out.old.items) }
    ensures kept { take (length out.old.items) out.new.items ≡ out.old.items }
{
    let before = out.len();
    let printed = put_phase(out, number, mode, objects);
    if printed.is_err() {
        out.truncate(before);
    }
    printed
}

/// Appends the line of a migration. A refusal may leave a part of it behind the old text.
#[tactic(auto, unfolding(crate::specs::Text::migration_line))]
fn put_migration(out: &mut Vec<u8>, directory: bool, objects: u16) -> Result<(), NoMemory>
    ensures ok { OnOk result (out.new.items ≡ out.old.items ++ migration_line directory objects) }
    ensures kept { take (length out.old.items) out.new.items ≡ out.old.items }
{
    put_word_number(out, b"# migrated directory ", u64::from(directory))?;
    put_word_number(out, b" objects ", u64::from(objects))?;
    put(out, b"\n")
}

/// Appends the line of a migration. A refusal leaves the text as it was.
pub fn print_migration(directory: bool, objects: u16, out: &mut Vec<u8>) -> Result<(), NoMemory>
    ensures ok { OnOk result (out.new.items ≡ out.old.items ++ migration_line directory objects) }
    ensures err { OnErr result (out.new.items ≡ out.old.items) }
{
    let before = out.len();
    let printed = put_migration(out, directory, objects);
    if printed.is_err() {
        out.truncate(before);
    }
    printed
}

/// Appends the line of a control. A refusal may leave a part of it behind the old text.
fn put_control_line(out: &mut Vec<u8>, control: &Control) -> Result<(), NoMemory>
    ensures ok { OnOk result (out.new.items ≡ out.old.items ++ control_line control.now) }
    ensures kept { take (length out.old.items) out.new.items ≡ out.old.items }
{
    put(out, b"# ")?;
    put_control(out, control)?;
    put(out, b"\n")
}

/// Appends the line of a control that is done. A refusal leaves the text as it was.
pub fn print_control(control: &Control, out: &mut Vec<u8>) -> Result<(), NoMemory>
    ensures ok { OnOk result (out.new.items ≡ out.old.items ++ control_line control.now) }
    ensures err { OnErr result (out.new.items ≡ out.old.items) }
    ensures kept { take (length out.old.items) out.new.items ≡ out.old.items }
{
    let before = out.len();
    let printed = put_control_line(out, control);
    if printed.is_err() {
        out.truncate(before);
    }
    printed
}
