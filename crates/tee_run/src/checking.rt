//! `tee_run check`: whether a script is in the grammar, and if not, which line is not and why. Nothing is run.

use script_text::values::{same, uuid};
use script_text::words::{cut_line, cut_word, is_ascii, two};
use script_text::{ScriptFault, parse};
use std::alloc::{AllocError, Global};
use std::io;
use std::io::Read;

// The most bytes of a script.
const MOST: usize = 16_777_216;

// The words that begin a control.
const CONTROLS: [&[u8]; 13] = [
    b"serial", b"threads", b"phase", b"stop", b"fail", b"lose", b"taint", b"crash", b"save",
    b"restore", b"flip", b"quota", b"list",
];

// The words that name a call.
const CALLS: [&[u8]; 15] = [
    b"create",
    b"open",
    b"close",
    b"read",
    b"write",
    b"truncate",
    b"seek",
    b"rename",
    b"delete",
    b"info",
    b"enum",
    b"start",
    b"next",
    b"reset",
    b"free",
];

/// What the check of a script found.
#[derive(Drop)]
pub enum Checked {
    /// Each line is in the grammar.
    Good,
    /// The line of this number, from 1, is the first that is not, for this reason.
    Bad { line: u32, reason: String },
    /// So many applications are declared, more than 16.
    TooManyApplications(u32),
    /// There are more than 16,777,216 bytes.
    TooLong,
}

// Why a line is outside the grammar.
#[derive(Clone, Copy)]
enum Reason<'a> {
    NotAscii,
    NoDeclaration,
    Declared(&'a [u8]),
    NoUuid(&'a [u8]),
    NotHere(&'a [u8]),
    NoControl(&'a [u8]),
    NoApplication(&'a [u8]),
    NothingCalled(&'a [u8]),
    NoCall(&'a [u8]),
    OtherWords(&'a [u8]),
}

impl<'a> Reason<'a> {
    // In words.
    fn text(&self, alloc: Global) -> Result<String, AllocError> {
        match self {
            Reason::NotAscii => String::from_str(alloc, "a byte that is not ASCII"),
            Reason::NoDeclaration => String::from_str(alloc, "not of the form: app NAME UUID"),
            Reason::Declared(name) => named(alloc, "declared already", name),
            Reason::NoUuid(word) => named(alloc, "no UUID", word),
            Reason::NotHere(name) => named(alloc, "may not be declared, or not here", name),
            Reason::NoControl(word) => {
                named(
                    alloc,
                    "other words are wanted, or it may not stand here",
                    word,
                )
            }
            Reason::NoApplication(name) => named(alloc, "no such application", name),
            Reason::NothingCalled(name) => named(alloc, "no call behind the application", name),
            Reason::NoCall(word) => named(alloc, "no such call", word),
            Reason::OtherWords(word) => named(alloc, "other words are wanted behind", word),
        }
    }
}

// A reason with the word that it is about.
fn named(alloc: Global, reason: &str, word: &[u8]) -> Result<String, AllocError> {
    let word = String::from_utf8_lossy(alloc, word)?;
    format!(in alloc; "{reason}: {word}")
}

// Whether a word is one of these.
fn is_one_of(word: &[u8], words: &[&[u8]]) -> bool {
    words.iter().any(|known| same(word, known))
}

// Whether a line declares an application of this name.
fn is_declaration_of(line: &[u8], name: &[u8]) -> bool {
    match cut_word(line) {
        Some((word, words)) if same(word, b"app") => match two(words) {
            Some((declared, _)) => same(declared, name),
            None => false,
        },
        _ => false,
    }
}

// Whether one of the first lines declares an application of this name.
fn declares(text: &[u8], lines: u32, name: &[u8]) -> bool {
    let mut rest = text;
    for _ in 0..lines {
        let Some((line, behind)) = cut_line(rest) else {
            return false;
        };
        if is_declaration_of(line, name) {
            return true;
        }
        rest = behind;
    }
    false
}

// The line behind so many others.
fn line_behind(text: &[u8], lines: u32) -> &[u8] {
    let mut rest = text;
    for _ in 0..lines {
        match cut_line(rest) {
            Some((_, behind)) => rest = behind,
            None => return rest,
        }
    }
    match cut_line(rest) {
        Some((line, _)) => line,
        None => rest,
    }
}

// Why the words behind `app` declare no application.
fn why_no_declaration<'a>(text: &[u8], before: u32, words: &'a [u8]) -> Reason<'a> {
    match two(words) {
        None => Reason::NoDeclaration,
        Some((name, _)) if declares(text, before, name) => Reason::Declared(name),
        Some((_, word)) if uuid(word).is_none() => Reason::NoUuid(word),
        Some((name, _)) => Reason::NotHere(name),
    }
}

// Why the words behind an application are no call of it.
fn why_no_call<'a>(name: &'a [u8], words: &'a [u8]) -> Reason<'a> {
    match cut_word(words) {
        None => Reason::NothingCalled(name),
        Some((word, _)) if is_one_of(word, &CALLS) => Reason::OtherWords(word),
        Some((word, _)) => Reason::NoCall(word),
    }
}

// Why a line is outside the grammar, where so many stand before it.
fn why<'a>(text: &[u8], before: u32, line: &'a [u8]) -> Reason<'a> {
    if !is_ascii(line) {
        return Reason::NotAscii;
    }
    match cut_word(line) {
        None => Reason::NotAscii,
        Some((word, words)) if same(word, b"app") => why_no_declaration(text, before, words),
        Some((word, words)) if declares(text, before, word) => why_no_call(word, words),
        Some((word, _)) if is_one_of(word, &CONTROLS) => Reason::NoControl(word),
        Some((word, _)) => Reason::NoApplication(word),
    }
}

/// Checks the text of a script.
///
/// # Errors
///
/// Memory ran out.
pub fn check(alloc: Global, text: &[u8]) -> Result<Checked, AllocError> {
    if text.len() > MOST {
        return Ok(Checked::TooLong);
    }
    match parse(alloc, text) {
        Ok(_) => Ok(Checked::Good),
        Err(ScriptFault::BadLine(line)) => {
            let before = line.saturating_sub(1);
            let reason = why(text, before, line_behind(text, before)).text(alloc)?;
            Ok(Checked::Bad { line, reason })
        }
        Err(ScriptFault::TooManyApps(count)) => Ok(Checked::TooManyApplications(count)),
        Err(ScriptFault::NoMemory) => Err(AllocError),
    }
}

// The bytes of standard input, one more than a script may have at most.
fn read_script<W: Input + AllocGlobal>(rt: &W) -> io::Result<Vec<u8>> {
    let mut text = Vec::new(rt.alloc());
    rt.reader().take(MOST as u64 + 1).read_to_end(&mut text)?;
    Ok(text)
}

/// Checks the script on standard input, and writes what was found of it. Gives the exit status, which is that of
/// `tee_run run` for a script that is read and not run.
pub fn check_standard<W: Input + Print + AllocGlobal>(rt: &W) -> u8 {
    let Ok(text) = read_script(rt) else {
        return 4;
    };
    let (status, written) = match check(rt.alloc(), &text) {
        Ok(Checked::Good) => (0, Ok(())),
        Ok(Checked::Bad { line, reason }) => (3, println!(rt; "line {line}: {reason}")),
        Ok(Checked::TooManyApplications(count)) => {
            (
                8,
                println!(rt; "{count} applications are declared, and 16 may be"),
            )
        }
        Ok(Checked::TooLong) => (8, println!(rt; "a script has at most {MOST} bytes")),
        Err(_) => (9, Ok(())),
    };
    if written.is_err() { 5 } else { status }
}
