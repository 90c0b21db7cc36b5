//! The text of a soak's script.

ghost use Rattle.std.specs.Prelude.{◌≡◌, ◌≤◌, ◌<◌, ◌+◌, ◌^◌, ◌++◌, ◌%◌, vec_len, IfOk, OnOk};
ghost use Rattle.std.specs.List.{flat_map};
ghost use Rattle.seed_words.specs.Joined.{joined};
ghost use Rattle.seed_words.specs.SoakWords.{words_at};
ghost use Rattle.seed_words.specs.Rounds.{create_of, fourth_of, last_of, rising, round_calls, seek_of, write_of};
ghost use Rattle.seed_words.specs.Scripts.{soak_name, soak_script};
ghost use Rattle.seed_words.specs.Texts.{app_text, declaration_line, line_of_call, soak_text};

use crate::soak_words::{RoundWords, app_words, round_words};
use script_text::{
    Script, ScriptFault, parse, put, put_bytes, put_word_bytes, put_word_hex, put_word_number,
};
use std::alloc::{AllocError, Global};
use tee_types::{MAX_SCRIPT, NoMemory};

/// How many applications a soak has.
const APPS: u32 = 8;

/// How many rounds of calls each of them makes.
const ROUNDS: u32 = 100;

/// So many bytes are read at a time.
const READ: u32 = 4_096;

/// So many bytes that rise by one from the first on.
fn rising(alloc: Global, first: u64, count: u32) -> Result<Vec<u8>, NoMemory>
    requires { first + count < 2 ^ 64 }
    ensures { IfOk result (λ bytes. bytes.items ≡ rising first count) }
{
    let mut bytes = Vec::new(alloc);
    for j in 0..count {
        bytes.push(((first + j as u64) % 256) as u8)?;
    }
    Ok(bytes)
}

/// Appends the name of an application.
fn put_app(out: &mut Vec<u8>, app: u32) -> Result<(), NoMemory>
    ensures { OnOk result (out.new.items ≡ out.old.items ++ soak_name app) }
{
    put_word_number(out, b"a", app as u64)
}

/// Appends the line that declares an application.
fn put_declaration(out: &mut Vec<u8>, app: u32) -> Result<(), NoMemory>
    requires { app < APPS }
    ensures { OnOk result (out.new.items ≡ out.old.items ++ declaration_line app) }
{
    put(out, b"app ")?;
    put_app(out, app)?;
    put_word_number(out, b" 00000000-0000-0000-0000-00000000000", app as u64 + 1)?;
    put(out, b"\n")
}

/// Appends the line of a create.
#[tactic(auto, unfolding(crate::specs::Texts::line_of_call, script_text::specs::Forms::call_text, script_text::specs::Forms::flags_text))]
fn put_create(
    out: &mut Vec<u8>,
    app: u32,
    words: RoundWords,
    i: u32,
    bytes: &[u8],
) -> Result<(), NoMemory>
    requires { bytes.now ≡ rising words.first (1 + words.created % 4096) }
    ensures { OnOk result (out.new.items ≡ out.old.items ++ line_of_call app (create_of words i)) }
{
    put_app(out, app)?;
    put_word_hex(out, b" create ", &[(i % 16) as u8])?;
    put_word_bytes(out, b" rwmo - ", bytes)?;
    put(out, b"\n")
}

/// Appends the line of a seek.
#[tactic(auto, unfolding(crate::specs::Texts::line_of_call, script_text::specs::Forms::call_text))]
fn put_seek(out: &mut Vec<u8>, app: u32, words: RoundWords, i: u32) -> Result<(), NoMemory>
    ensures { OnOk result (out.new.items ≡ out.old.items ++ line_of_call app (seek_of words i)) }
{
    put_app(out, app)?;
    put_word_number(out, b" seek ", i as u64)?;
    put_word_number(out, b" ", (words.offset % 16_384) as u64)?;
    put(out, b" set\n")
}

/// Appends the line of a write.
#[tactic(auto, unfolding(crate::specs::Texts::line_of_call, script_text::specs::Forms::call_text))]
fn put_write(
    out: &mut Vec<u8>,
    app: u32,
    words: RoundWords,
    i: u32,
    bytes: &[u8],
) -> Result<(), NoMemory>
    requires { bytes.now ≡ rising (words.first + 128) (1 + words.written % 1024) }
    ensures { OnOk result (out.new.items ≡ out.old.items ++ line_of_call app (write_of words i)) }
{
    put_app(out, app)?;
    put_word_number(out, b" write ", i as u64)?;
    put_word_bytes(out, b" ", bytes)?;
    put(out, b"\n")
}

/// Appends the line of a rename in every fifth round, else of a read.
#[tactic(auto, unfolding(crate::specs::Texts::line_of_call, script_text::specs::Forms::call_text))]
fn put_fourth(out: &mut Vec<u8>, app: u32, i: u32) -> Result<(), NoMemory>
    ensures { OnOk result (out.new.items ≡ out.old.items ++ line_of_call app (fourth_of i)) }
{
    put_app(out, app)?;
    if i % 5 == 4 {
        put_word_number(out, b" rename ", i as u64)?;
        put_word_hex(out, b" ", &[(i % 16) as u8])?;
    } else {
        put_word_number(out, b" read ", i as u64)?;
        put_word_number(out, b" ", READ as u64)?;
    }
    put(out, b"\n")
}

/// Appends the line of a delete in every fourth round, else of a close.
#[tactic(auto, unfolding(crate::specs::Texts::line_of_call, script_text::specs::Forms::call_text))]
fn put_last(out: &mut Vec<u8>, app: u32, i: u32) -> Result<(), NoMemory>
    ensures { OnOk result (out.new.items ≡ out.old.items ++ line_of_call app (last_of i)) }
{
    put_app(out, app)?;
    if i % 4 == 3 {
        put_word_number(out, b" delete ", i as u64)?;
    } else {
        put_word_number(out, b" close ", i as u64)?;
    }
    put(out, b"\n")
}

/// Appends the lines of a round.
#[tactic(auto, unfolding(crate::specs::Rounds::round_calls))]
fn put_round(
    alloc: Global,
    out: &mut Vec<u8>,
    app: u32,
    words: RoundWords,
    i: u32,
) -> Result<(), NoMemory>
    ensures { OnOk result (out.new.items ≡ out.old.items ++ flat_map (line_of_call app) (round_calls words i)) }
{
    let created = rising(alloc, words.first as u64, 1 + words.created % 4_096)?;
    put_create(out, app, words, i, created.as_slice())?;
    put_seek(out, app, words, i)?;
    let written = rising(alloc, words.first as u64 + 128, 1 + words.written % 1_024)?;
    put_write(out, app, words, i, written.as_slice())?;
    put_fourth(out, app, i)?;
    put_last(out, app, i)
}

/// Appends the lines of an application's calls.
#[tactic(auto, unfolding(crate::specs::Scripts::app_calls))]
fn put_calls(alloc: Global, out: &mut Vec<u8>, number: u32, app: u32) -> Result<(), NoMemory>
    ensures { OnOk result (out.new.items ≡ out.old.items ++ app_text number app) }
{
    let mut words = app_words(number, app);
    for i in 0..ROUNDS {
        put_round(alloc, out, app, round_words(&mut words), i)?;
    }
    Ok(())
}

/// The text of the soak of that number.
pub fn soak_text(alloc: Global, number: u32) -> Result<Vec<u8>, NoMemory>
    ensures text { IfOk result (λ text. text.items ≡ soak_text number) }
    ensures short { IfOk result (λ text. vec_len text ≤ MAX_SCRIPT) }
{
    let mut text = Vec::new(alloc);
    'declarations: for app in 0..APPS {
        put_declaration(&mut text, app)?;
    }
    put(&mut text, b"threads\n")?;
    'calls: for app in 0..APPS {
        put_calls(alloc, &mut text, number, app)?;
    }
    Ok(text)
}

/// The script of the soak of that number.
pub fn soak_script(alloc: Global, number: u32) -> Result<Script, NoMemory>
    ensures { IfOk result (λ script. script ≡ soak_script number) }
{
    let text = soak_text(alloc, number)?;
    match parse(alloc, text.as_slice()) {
        Ok(script) => Ok(script),
        Err(ScriptFault::NoMemory) => Err(AllocError),
        Err(ScriptFault::BadLine(_)) => unreachable!(),
        Err(ScriptFault::TooManyApps(_)) => unreachable!(),
    }
}
