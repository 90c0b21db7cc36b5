// Entries of the directory.

ghost use Rattle.std.specs.Prelude.{◌≡◌, ◌++◌, IfOk, OnOk, codes, decimal, string_bytes};
ghost use Rattle.known_answers.specs.Entries.{entry_line, entry_words, name_words, place_words, size_words};

use crate::words::{push_number, push_word, two_words};
use dir_records::DirEntry;
use std::alloc::{AllocError, Global};

// One more number, behind a space.
fn push_field(line: &mut String, number: u64) -> Result<(), AllocError>
    ensures { OnOk result (string_bytes line.new ≡ string_bytes line.old ++ (codes " " ++ decimal number)) }
{
    line.push_str(" ")?;
    push_number(line, number)
}

// Whose object it is.
fn name_words(alloc: Global, entry: &DirEntry) -> Result<String, AllocError>
    ensures { IfOk result (λ words. string_bytes words ≡ name_words entry.now) }
{
    let id = entry.id.bytes();
    let mut words = two_words(alloc, &entry.app.bytes(), id)?;
    push_field(&mut words, id.len() as u64)?;
    Ok(words)
}

// Where it is.
fn push_place(alloc: Global, line: &mut String, entry: &DirEntry) -> Result<(), AllocError>
    ensures { OnOk result (string_bytes line.new ≡ string_bytes line.old ++ place_words entry.now) }
{
    push_field(line, u64::from(entry.version))?;
    push_field(line, u64::from(entry.file))?;
    push_word(alloc, line, &entry.hash)
}

// How large it is, and of which generation.
fn push_sizes(line: &mut String, entry: &DirEntry) -> Result<(), AllocError>
    ensures { OnOk result (string_bytes line.new ≡ string_bytes line.old ++ size_words entry.now) }
{
    push_field(line, u64::from(entry.size))?;
    push_field(line, u64::from(entry.attributes))?;
    push_field(line, u64::from(entry.format))?;
    push_field(line, u64::from(entry.generation))
}

fn entry_words(alloc: Global, entry: &DirEntry) -> Result<String, AllocError>
    ensures { IfOk result (λ line. string_bytes line ≡ entry_words entry.now) }
{
    let mut line = name_words(alloc, entry)?;
    push_place(alloc, &mut line, entry)?;
    push_sizes(&mut line, entry)?;
    Ok(line)
}

/// That a record is none, by its first offset that is wrong.
pub fn bad_line(alloc: Global, offset: u8) -> Result<String, AllocError>
    ensures { IfOk result (λ line. string_bytes line ≡ codes "record " ++ decimal offset) }
{
    let mut line = String::from_str(alloc, "record ")?;
    push_number(&mut line, u64::from(offset))?;
    Ok(line)
}

/// The line that tells which entry 128 bytes hold.
pub fn entry_line(alloc: Global, bytes: &[u8; 128]) -> Result<String, AllocError>
    ensures { IfOk result (λ line. string_bytes line ≡ entry_line bytes.now) }
{
    match DirEntry::from_bytes(bytes) {
        Ok(Some(entry)) => entry_words(alloc, &entry),
        Ok(None) => String::from_str(alloc, "free"),
        Err(bad) => bad_line(alloc, bad.offset),
    }
}
