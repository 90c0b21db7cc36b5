//! Reading a script.

ghost use Rattle.std.specs.Prelude.{◌≡◌, ◌^◌, ◌<◌, ◌≤◌, ◌+◌, length, IfOk, OnOk};
ghost use Rattle.std.specs.Option.{option_map};
ghost use Rattle.script_text.specs.Lines.{lines_of, words_of};
ghost use Rattle.card_script.specs.CardLines.{alone, line_words, name_words, put_words, stop_words, verb_of, verb_words};
ghost use Rattle.card_script.specs.CardScripts.{IsParsed, IsRead, line_of, script_from, script_of, words_line};

use crate::card_line::{CardLine, CardScript};
use script_text::values::{bytes, id, number, same, uuid};
use script_text::words::{cut_line, cut_word, is_ascii, one, three, two};
use std::alloc::{AllocError, Global};
use tee_types::{AppId, NoMemory, ObjectId};

/// Why a text is not read as a script.
#[derive(Clone, Copy, Debug, PartialEq, Eq)]
pub enum CardScriptFault {
    /// The line of this number, from 1, is the first outside the grammar.
    BadLine(u32),
    /// There is no memory for the script.
    NoMemory,
}

impl From<AllocError> for CardScriptFault {
    ghost use Rattle.std.specs.Prelude.{◌≡◌};
    ghost use Rattle.card_script.specs.declared.reading.CardScriptFault.TheVariants.{NoMemory as NoMemoryFault};

    ghost from_gives = { λ _ e. e ≡ NoMemoryFault };

    fn from(_: AllocError) -> CardScriptFault {
        CardScriptFault::NoMemory
    }
}

/// The first word of a line.
#[derive(Clone, Copy)]
pub(crate) enum CardVerb {
    Put,
    Get,
    Remove,
    List,
    Stop,
    Remount,
}

/// What the first word of a line says to do.
#[tactic(auto, unfolding(crate::specs::CardLines::verb_of))]
fn verb_of(word: &[u8]) -> Option<CardVerb>
    ensures { result ≡ verb_of word.now }
{
    if same(word, b"put") {
        Some(CardVerb::Put)
    } else if same(word, b"get") {
        Some(CardVerb::Get)
    } else if same(word, b"remove") {
        Some(CardVerb::Remove)
    } else if same(word, b"list") {
        Some(CardVerb::List)
    } else if same(word, b"stop") {
        Some(CardVerb::Stop)
    } else if same(word, b"remount") {
        Some(CardVerb::Remount)
    } else {
        None
    }
}

/// `UUID ID`: the name of an object.
#[tactic(auto, unfolding(crate::specs::CardLines::name_words))]
fn name(words: &[u8]) -> Option<(AppId, ObjectId)>
    ensures { result ≡ name_words (words_of words.now) }
{
    let (uuid_word, id_word) = two(words)?;
    let app = uuid(uuid_word)?;
    let id = id(id_word)?;
    Some((app, id))
}

/// `UUID ID BYTES`
#[tactic(auto, unfolding(crate::specs::CardLines::put_words))]
fn put(alloc: Global, words: &[u8]) -> Result<Option<CardLine>, NoMemory>
    ensures { IfOk result (λ line. line ≡ put_words (words_of words.now)) }
{
    let Some((uuid_word, id_word, bytes_word)) = three(words) else {
        return Ok(None);
    };
    let Some(app) = uuid(uuid_word) else {
        return Ok(None);
    };
    let Some(id) = id(id_word) else {
        return Ok(None);
    };
    let Some(bytes) = bytes(alloc, bytes_word)? else {
        return Ok(None);
    };
    Ok(Some(CardLine::Put { app, id, bytes }))
}

/// `N`
#[tactic(auto, unfolding(crate::specs::CardLines::stop_words))]
fn stop(words: &[u8]) -> Option<CardLine>
    ensures { result ≡ stop_words (words_of words.now) }
{
    let exchanges = number(one(words)?)?;
    Some(CardLine::Stop(exchanges))
}

/// The line, where no word stands behind its first.
fn alone(line: CardLine, words: &[u8]) -> Option<CardLine>
    ensures { result ≡ alone line (words_of words.now) }
{
    match cut_word(words) {
        None => Some(line),
        Some(_) => None,
    }
}

/// The line of these words behind the first.
fn line_of(alloc: Global, verb: CardVerb, words: &[u8]) -> Result<Option<CardLine>, NoMemory>
    ensures { IfOk result (λ line. line ≡ verb_words verb (words_of words.now)) }
{
    match verb {
        CardVerb::Put => put(alloc, words),
        CardVerb::Get => Ok(name(words).map(|(app, id)| CardLine::Get { app, id })),
        CardVerb::Remove => Ok(name(words).map(|(app, id)| CardLine::Remove { app, id })),
        CardVerb::List => Ok(alone(CardLine::List, words)),
        CardVerb::Stop => Ok(stop(words)),
        CardVerb::Remount => Ok(alone(CardLine::Remount, words)),
    }
}

/// The line of these words.
#[tactic(auto, unfolding(crate::specs::CardLines::line_words))]
fn card_line(alloc: Global, word: &[u8], words: &[u8]) -> Result<Option<CardLine>, NoMemory>
    ensures { IfOk result (λ line. line ≡ line_words word.now (words_of words.now)) }
{
    let Some(verb) = verb_of(word) else {
        return Ok(None);
    };
    line_of(alloc, verb, words)
}

/// Adds what the words of a line mean, and tells whether the line is in the grammar.
#[tactic(auto, unfolding(crate::specs::CardScripts::words_line))]
fn add_words(alloc: Global, script: &mut CardScript, line: &[u8]) -> Result<bool, NoMemory>
    ensures { IfOk result (λ good. IsRead good script.old script.new (words_line script.old (words_of line.now))) }
{
    let Some((word, words)) = cut_word(line) else {
        return Ok(true);
    };
    if word.starts_with(b"#") {
        return Ok(true);
    }
    let Some(line) = card_line(alloc, word, words)? else {
        return Ok(false);
    };
    script.add(line)?;
    Ok(true)
}

/// Adds what one line means, and tells whether the line is in the grammar.
#[tactic(auto, unfolding(crate::specs::CardScripts::line_of))]
fn add_line(alloc: Global, script: &mut CardScript, line: &[u8]) -> Result<bool, NoMemory>
    ensures { IfOk result (λ good. IsRead good script.old script.new (line_of script.old line.now)) }
{
    if !is_ascii(line) {
        return Ok(false);
    }
    add_words(alloc, script, line)
}

/// Reads a script. `BadLine` comes exactly where that line is the first outside the grammar.
pub fn parse(alloc: Global, text: &[u8]) -> Result<CardScript, CardScriptFault>
    requires { length text.now < 2 ^ 32 }
    ensures { IsParsed result (script_of text.now) }
{
    let mut script = CardScript::new(alloc);
    let mut rest = text;
    let mut number = 0;
    while let Some((line, behind)) = cut_line(rest) {
        number += 1;
        if !add_line(alloc, &mut script, line)? {
            return Err(CardScriptFault::BadLine(number));
        }
        rest = behind;
    }
    Ok(script)
}
