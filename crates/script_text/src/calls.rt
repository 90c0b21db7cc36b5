//! Reading a call, behind the name of its application.

ghost use Rattle.std.specs.Prelude.{◌≡◌, IfOk};
ghost use Rattle.script_text.specs.Lines.{words_of};
ghost use Rattle.script_text.specs.Calls.{create_words, open_words, write_words, seek_words, rename_words, one_number, two_numbers, verb_of, call_of, call_words};

use crate::values::{bytes, flags, id, number, offset, same, whence};
use crate::words::{cut_word, four, one, three, two};
use std::alloc::Global;
use tee_types::{Call, NoMemory};

/// The word of a call.
#[derive(Clone, Copy)]
pub(crate) enum Verb {
    Create,
    Open,
    Close,
    Read,
    Write,
    Truncate,
    Seek,
    Rename,
    Delete,
    Info,
    Enumerate,
    Start,
    Next,
    Reset,
    Free,
}

/// The call that a word names.
#[tactic(auto, unfolding(crate::specs::Calls::verb_of))]
fn verb_of(word: &[u8]) -> Option<Verb>
    ensures { result ≡ verb_of word.now }
{
    if same(word, b"create") {
        Some(Verb::Create)
    } else if same(word, b"open") {
        Some(Verb::Open)
    } else if same(word, b"close") {
        Some(Verb::Close)
    } else if same(word, b"read") {
        Some(Verb::Read)
    } else if same(word, b"write") {
        Some(Verb::Write)
    } else if same(word, b"truncate") {
        Some(Verb::Truncate)
    } else if same(word, b"seek") {
        Some(Verb::Seek)
    } else if same(word, b"rename") {
        Some(Verb::Rename)
    } else if same(word, b"delete") {
        Some(Verb::Delete)
    } else if same(word, b"info") {
        Some(Verb::Info)
    } else if same(word, b"enum") {
        Some(Verb::Enumerate)
    } else if same(word, b"start") {
        Some(Verb::Start)
    } else if same(word, b"next") {
        Some(Verb::Next)
    } else if same(word, b"reset") {
        Some(Verb::Reset)
    } else if same(word, b"free") {
        Some(Verb::Free)
    } else {
        None
    }
}

/// `ID FLAGS BYTES BYTES`: attributes, then data.
#[tactic(auto, unfolding(crate::specs::Calls::create_words))]
fn create(alloc: Global, words: &[u8]) -> Result<Option<Call>, NoMemory>
    ensures { IfOk result (λ call. call ≡ create_words (words_of words.now)) }
{
    let Some((id_word, flags_word, attributes_word, bytes_word)) = four(words) else {
        return Ok(None);
    };
    let Some(id) = id(id_word) else {
        return Ok(None);
    };
    let Some(flags) = flags(flags_word) else {
        return Ok(None);
    };
    let Some(attributes) = bytes(alloc, attributes_word)? else {
        return Ok(None);
    };
    let Some(bytes) = bytes(alloc, bytes_word)? else {
        return Ok(None);
    };
    Ok(Some(Call::Create {
        id,
        flags,
        attributes,
        bytes,
    }))
}

/// `ID FLAGS`
#[tactic(auto, unfolding(crate::specs::Calls::open_words))]
fn open(words: &[u8]) -> Option<Call>
    ensures { result ≡ open_words (words_of words.now) }
{
    let (id_word, flags_word) = two(words)?;
    let id = id(id_word)?;
    let flags = flags(flags_word)?;
    Some(Call::Open { id, flags })
}

/// `N BYTES`
#[tactic(auto, unfolding(crate::specs::Calls::write_words))]
fn write(alloc: Global, words: &[u8]) -> Result<Option<Call>, NoMemory>
    ensures { IfOk result (λ call. call ≡ write_words (words_of words.now)) }
{
    let Some((handle_word, bytes_word)) = two(words) else {
        return Ok(None);
    };
    let Some(handle) = number(handle_word) else {
        return Ok(None);
    };
    let Some(bytes) = bytes(alloc, bytes_word)? else {
        return Ok(None);
    };
    Ok(Some(Call::Write { handle, bytes }))
}

/// `N OFFSET set`, `cur` or `end`
#[tactic(auto, unfolding(crate::specs::Calls::seek_words))]
fn seek(words: &[u8]) -> Option<Call>
    ensures { result ≡ seek_words (words_of words.now) }
{
    let (handle_word, offset_word, whence_word) = three(words)?;
    let handle = number(handle_word)?;
    let offset = offset(offset_word)?;
    let whence = whence(whence_word)?;
    Some(Call::Seek {
        handle,
        offset,
        whence,
    })
}

/// `N ID`
#[tactic(auto, unfolding(crate::specs::Calls::rename_words))]
fn rename(words: &[u8]) -> Option<Call>
    ensures { result ≡ rename_words (words_of words.now) }
{
    let (handle_word, id_word) = two(words)?;
    let handle = number(handle_word)?;
    let id = id(id_word)?;
    Some(Call::Rename { handle, id })
}

/// `N`
#[tactic(auto, unfolding(crate::specs::Calls::one_number))]
fn one_number(words: &[u8]) -> Option<u32>
    ensures { result ≡ one_number (words_of words.now) }
{
    number(one(words)?)
}

/// `N N`
#[tactic(auto, unfolding(crate::specs::Calls::two_numbers))]
fn two_numbers(words: &[u8]) -> Option<(u32, u32)>
    ensures { result ≡ two_numbers (words_of words.now) }
{
    let (first_word, second_word) = two(words)?;
    let first = number(first_word)?;
    let second = number(second_word)?;
    Some((first, second))
}

/// The call of these words behind the verb.
fn call_of(alloc: Global, verb: Verb, words: &[u8]) -> Result<Option<Call>, NoMemory>
    ensures { IfOk result (λ call. call ≡ call_of verb (words_of words.now)) }
{
    match verb {
        Verb::Create => create(alloc, words),
        Verb::Open => Ok(open(words)),
        Verb::Close => Ok(one_number(words).map(|handle| Call::Close { handle })),
        Verb::Read => Ok(two_numbers(words).map(|(handle, size)| Call::Read { handle, size })),
        Verb::Write => write(alloc, words),
        Verb::Truncate => {
            Ok(two_numbers(words).map(|(handle, size)| Call::Truncate { handle, size }))
        }
        Verb::Seek => Ok(seek(words)),
        Verb::Rename => Ok(rename(words)),
        Verb::Delete => Ok(one_number(words).map(|handle| Call::Delete { handle })),
        Verb::Info => Ok(one_number(words).map(|handle| Call::Info { handle })),
        Verb::Enumerate => match cut_word(words) {
            None => Ok(Some(Call::EnumNew)),
            Some(_) => Ok(None),
        },
        Verb::Start => Ok(one_number(words).map(|number| Call::EnumStart { number })),
        Verb::Next => Ok(one_number(words).map(|number| Call::EnumNext { number })),
        Verb::Reset => Ok(one_number(words).map(|number| Call::EnumReset { number })),
        Verb::Free => Ok(one_number(words).map(|number| Call::EnumFree { number })),
    }
}

/// The call of these words.
#[tactic(auto, unfolding(crate::specs::Calls::call_words))]
pub(crate) fn call(alloc: Global, words: &[u8]) -> Result<Option<Call>, NoMemory>
    ensures { IfOk result (λ call. call ≡ call_words (words_of words.now)) }
{
    let Some((verb_word, words)) = cut_word(words) else {
        return Ok(None);
    };
    let Some(verb) = verb_of(verb_word) else {
        return Ok(None);
    };
    call_of(alloc, verb, words)
}
