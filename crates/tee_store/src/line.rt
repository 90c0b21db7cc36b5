//! The words of a line, with the options taken out.

use crate::words_fault::WordsFault;
use std::alloc::Global;

// What the next word is.
#[derive(Clone, Copy)]
enum Next {
    // An option, or a word of the command.
    Any,
    // A word of the command, whatever it begins with.
    Plain,
    // The value of `--keys`.
    Keys,
    // The value of `--app`.
    App,
}

/// The words of a command, with the options taken out.
#[derive(Drop)]
pub(crate) struct Line {
    pub(crate) plain: Vec<String>,
    pub(crate) keys: Option<String>,
    pub(crate) app: Option<String>,
    pub(crate) helps: bool,
    pub(crate) tells_version: bool,
    next: Next,
}

impl Line {
    pub(crate) fn new(alloc: Global) -> Line {
        Line {
            plain: Vec::new(alloc),
            keys: None,
            app: None,
            helps: false,
            tells_version: false,
            next: Next::Any,
        }
    }

    /// Takes the next word.
    pub(crate) fn take(&mut self, word: String) -> Result<(), WordsFault> {
        match self.next {
            Next::Any => return self.take_any(word),
            Next::Plain => self.plain.push(word)?,
            Next::Keys => {
                self.keys = Some(word);
                self.next = Next::Any;
            }
            Next::App => {
                self.app = Some(word);
                self.next = Next::Any;
            }
        }
        Ok(())
    }

    // Takes an option, or a word of the command.
    fn take_any(&mut self, word: String) -> Result<(), WordsFault> {
        match word.as_str() {
            "-h" | "--help" => self.helps = true,
            "--version" => self.tells_version = true,
            "--keys" => self.next = Next::Keys,
            "--app" => self.next = Next::App,
            "--" => self.next = Next::Plain,
            text if text.starts_with('-') => return Err(WordsFault::NoOption),
            _ => self.plain.push(word)?,
        }
        Ok(())
    }

    /// Whether no option lacks the word behind it.
    pub(crate) fn is_whole(&self) -> bool {
        matches!(self.next, Next::Any | Next::Plain)
    }
}
