//! Writing the lines of a run.

ghost use Rattle.std.specs.Prelude.{◌≡◌, ◌++◌, length, take, OnOk, OnErr};
ghost use Rattle.card_script.specs.CardText.{answer_line, line_text, listed_line, name_text, reply_text};

use crate::card_line::{CardLine, CardReply};
use script_text::{put, put_hex, put_number, put_uuid, put_word_bytes, put_word_number};
use tee_types::{AppId, NoMemory, ObjectId};

/// Appends the name of an object.
fn put_name(out: &mut Vec<u8>, app: AppId, id: &ObjectId) -> Result<(), NoMemory>
    ensures ok { OnOk result (out.new.items ≡ out.old.items ++ name_text app id.now) }
    ensures kept { take (length out.old.items) out.new.items ≡ out.old.items }
{
    put_uuid(out, app)?;
    put(out, b" ")?;
    put_hex(out, id.bytes())
}

/// Appends a word, and the name of an object behind it.
fn put_word_name(out: &mut Vec<u8>, word: &[u8], app: AppId, id: &ObjectId) -> Result<(), NoMemory>
    ensures ok { OnOk result (out.new.items ≡ out.old.items ++ word.now ++ name_text app id.now) }
    ensures kept { take (length out.old.items) out.new.items ≡ out.old.items }
{
    put(out, word)?;
    put_name(out, app, id)
}

/// Appends the words of a line.
fn put_line(out: &mut Vec<u8>, line: &CardLine) -> Result<(), NoMemory>
    ensures ok { OnOk result (out.new.items ≡ out.old.items ++ line_text line.now) }
    ensures kept { take (length out.old.items) out.new.items ≡ out.old.items }
{
    match line {
        CardLine::Put { app, id, bytes } => {
            put_word_name(out, b"put ", *app, id)?;
            put_word_bytes(out, b" ", bytes.as_slice())
        }
        CardLine::Get { app, id } => put_word_name(out, b"get ", *app, id),
        CardLine::Remove { app, id } => put_word_name(out, b"remove ", *app, id),
        CardLine::List => put(out, b"list"),
        CardLine::Stop(exchanges) => put_word_number(out, b"stop ", *exchanges as u64),
        CardLine::Remount => put(out, b"remount"),
    }
}

/// Appends a reply.
fn put_reply(out: &mut Vec<u8>, reply: &CardReply) -> Result<(), NoMemory>
    ensures ok { OnOk result (out.new.items ≡ out.old.items ++ reply_text reply.now) }
    ensures kept { take (length out.old.items) out.new.items ≡ out.old.items }
{
    match reply {
        CardReply::Done => put(out, b"ok"),
        CardReply::Content(bytes) => put_word_bytes(out, b"ok ", bytes.as_slice()),
        CardReply::NotFound => put(out, b"NOT_FOUND"),
        CardReply::TooLarge { size } => put_word_number(out, b"TOO_LARGE ", *size),
        CardReply::Full { need, free } => {
            put_word_number(out, b"FULL ", *need as u64)?;
            put_word_number(out, b" ", *free as u64)
        }
        CardReply::Spent => put(out, b"SPENT"),
        CardReply::Device => put(out, b"DEVICE"),
    }
}

/// Appends the line of an answer. A refusal may leave a part of it behind the old text.
fn put_answer(
    out: &mut Vec<u8>,
    place: u64,
    line: &CardLine,
    reply: &CardReply,
) -> Result<(), NoMemory>
    ensures ok { OnOk result (out.new.items ≡ out.old.items ++ answer_line place line.now reply.now) }
    ensures kept { take (length out.old.items) out.new.items ≡ out.old.items }
{
    put_number(out, place)?;
    put(out, b" ")?;
    put_line(out, line)?;
    put(out, b" -> ")?;
    put_reply(out, reply)?;
    put(out, b"\n")
}

/// Appends the line of the reply to a line of the script, which has that place among the lines that are not skipped, from 0. A refusal leaves the
/// text as it was.
pub fn print_answer(
    place: u64,
    line: &CardLine,
    reply: &CardReply,
    out: &mut Vec<u8>,
) -> Result<(), NoMemory>
    ensures ok { OnOk result (out.new.items ≡ out.old.items ++ answer_line place line.now reply.now) }
    ensures err { OnErr result (out.new.items ≡ out.old.items) }
{
    let before = out.len();
    let printed = put_answer(out, place, line, reply);
    if printed.is_err() {
        out.truncate(before);
    }
    printed
}

/// Appends the line of an object that `list` shows. A refusal may leave a part of it behind the old text.
fn put_listed(out: &mut Vec<u8>, app: AppId, id: &ObjectId, size: u16) -> Result<(), NoMemory>
    ensures ok { OnOk result (out.new.items ≡ out.old.items ++ listed_line app id.now size) }
    ensures kept { take (length out.old.items) out.new.items ≡ out.old.items }
{
    put_word_name(out, b"# ", app, id)?;
    put_word_number(out, b" ", size as u64)?;
    put(out, b"\n")
}

/// Appends the line of an object that `list` shows. A refusal leaves the text as it was.
pub fn print_listed(app: AppId, id: &ObjectId, size: u16, out: &mut Vec<u8>) -> Result<(), NoMemory>
    ensures ok { OnOk result (out.new.items ≡ out.old.items ++ listed_line app id.now size) }
    ensures err { OnErr result (out.new.items ≡ out.old.items) }
{
    let before = out.len();
    let printed = put_listed(out, app, id, size);
    if printed.is_err() {
        out.truncate(before);
    }
    printed
}
