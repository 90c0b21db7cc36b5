//! The words of the command line, and what they ask.

ghost use Rattle.std.specs.Prelude.{◌≡◌, map, string_bytes};
ghost use Rattle.tee_store.specs.Verbs.{folder_verb, object_verb, pair_verb, verb_of};

use crate::line::Line;
use crate::words_fault::WordsFault;
use std::alloc::{AllocError, Global};
use tee_types::{AppId, ObjectId};
use uuid::Uuid;

// The UUID of the application where no other is named: 7465655f-7374-4f72-8500-000000000001.
const OWN_APPLICATION: u128 = 0x7465_655f_7374_4f72_8500_0000_0000_0001;

// The file of the keys, in the folder of the store where no other is named.
const KEYS_FILE: &str = "keys.bin";

/// A command, without its objects.
#[derive(Clone, Copy, Debug, PartialEq, Eq)]
pub enum Verb {
    Create,
    List,
    Put,
    Get,
    Info,
    Remove,
    Rename,
    Check,
    Dump,
}

/// What is done with a store.
#[derive(Clone, Copy)]
pub enum Task {
    Create,
    List,
    Put(ObjectId),
    Get(ObjectId),
    Info(ObjectId),
    Remove(ObjectId),
    Rename { id: ObjectId, new: ObjectId },
    Check,
    Dump,
}

/// The store that is meant: its folder, the file of its keys, and the application whose objects they are.
#[derive(Drop)]
pub struct Place {
    pub folder: String,
    pub keys: String,
    pub app: AppId,
}

/// What the words ask.
#[derive(Drop)]
pub enum Command {
    Help,
    Version,
    Store { place: Place, task: Task },
}

// The command of that name, of those that take a folder alone.
#[tactic(auto, unfolding(crate::specs::Verbs::folder_verb))]
fn folder_verb(verb: &str) -> Option<Verb>
    ensures { result ≡ folder_verb verb.now }
{
    let verb = verb.as_bytes();
    if verb == b"create".as_slice() {
        Some(Verb::Create)
    } else if verb == b"list".as_slice() {
        Some(Verb::List)
    } else if verb == b"check".as_slice() {
        Some(Verb::Check)
    } else if verb == b"dump".as_slice() {
        Some(Verb::Dump)
    } else {
        None
    }
}

// The command of that name, of those that take a folder and an object.
#[tactic(auto, unfolding(crate::specs::Verbs::object_verb))]
fn object_verb(verb: &str) -> Option<Verb>
    ensures { result ≡ object_verb verb.now }
{
    let verb = verb.as_bytes();
    if verb == b"put".as_slice() {
        Some(Verb::Put)
    } else if verb == b"get".as_slice() {
        Some(Verb::Get)
    } else if verb == b"info".as_slice() {
        Some(Verb::Info)
    } else if verb == b"remove".as_slice() {
        Some(Verb::Remove)
    } else {
        None
    }
}

// The command of that name, of those that take a folder and two identifiers.
#[tactic(auto, unfolding(crate::specs::Verbs::pair_verb))]
fn pair_verb(verb: &str) -> Option<Verb>
    ensures { result ≡ pair_verb verb.now }
{
    if verb.as_bytes() == b"rename".as_slice() {
        Some(Verb::Rename)
    } else {
        None
    }
}

/// The command that these words name, by the first of them and by how many there are. The second is the folder.
pub fn verb_of(words: &[String]) -> Option<Verb>
    ensures { result ≡ verb_of (map string_bytes words.now) }
{
    match words {
        [verb, _] => folder_verb(verb.as_str()),
        [verb, _, _] => object_verb(verb.as_str()),
        [verb, _, _, _] => pair_verb(verb.as_str()),
        _ => None,
    }
}

// The identifier that a word is.
fn identifier(word: Option<&String>) -> Result<ObjectId, WordsFault> {
    let Some(word) = word else {
        return Err(WordsFault::NoCommand);
    };
    match ObjectId::new(word.as_bytes()) {
        Ok(id) => Ok(id),
        Err(_) => Err(WordsFault::NoIdentifier),
    }
}

// What the words of a command ask of a store.
fn task_of(words: &[String]) -> Result<Task, WordsFault> {
    let Some(verb) = verb_of(words) else {
        return Err(WordsFault::NoCommand);
    };
    let first = words.get(2);
    match verb {
        Verb::Create => Ok(Task::Create),
        Verb::List => Ok(Task::List),
        Verb::Check => Ok(Task::Check),
        Verb::Dump => Ok(Task::Dump),
        Verb::Put => Ok(Task::Put(identifier(first)?)),
        Verb::Get => Ok(Task::Get(identifier(first)?)),
        Verb::Info => Ok(Task::Info(identifier(first)?)),
        Verb::Remove => Ok(Task::Remove(identifier(first)?)),
        Verb::Rename => Ok(Task::Rename {
            id: identifier(first)?,
            new: identifier(words.get(3))?,
        }),
    }
}

// The application that `--app` names.
fn application(app: Option<&String>) -> Result<AppId, WordsFault> {
    let Some(text) = app else {
        return Ok(AppId::from_uuid(Uuid::from_u128(OWN_APPLICATION)));
    };
    match Uuid::parse_str(text.as_str()) {
        Ok(uuid) => Ok(AppId::from_uuid(uuid)),
        Err(_) => Err(WordsFault::NoUuid),
    }
}

// The file of the keys, of a store in this folder.
fn keys_file(alloc: Global, folder: &str, keys: Option<String>) -> Result<String, AllocError> {
    match keys {
        Some(keys) => Ok(keys),
        None => format!(in alloc; "{folder}/{KEYS_FILE}"),
    }
}

// What a line asks of a store.
fn store_command(alloc: Global, line: Line) -> Result<Command, WordsFault> {
    let task = task_of(line.plain.as_slice())?;
    let app = application(line.app.as_ref())?;
    let Some(folder) = line.plain.get(1) else {
        return Err(WordsFault::NoCommand);
    };
    let folder = folder.clone()?;
    let keys = keys_file(alloc, folder.as_str(), line.keys)?;
    let place = Place { folder, keys, app };
    Ok(Command::Store { place, task })
}

/// What the words behind the program's name ask. Options stand before, between or behind the others, up to a word `--`.
pub fn command_of(alloc: Global, words: Vec<String>) -> Result<Command, WordsFault> {
    let mut line = Line::new(alloc);
    for word in words {
        line.take(word)?;
    }
    if line.helps {
        Ok(Command::Help)
    } else if line.tells_version {
        Ok(Command::Version)
    } else if line.is_whole() {
        store_command(alloc, line)
    } else {
        Err(WordsFault::NoValue)
    }
}
