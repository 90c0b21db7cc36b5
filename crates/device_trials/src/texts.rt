// The lines of an act, with all bytes of its data.

use crate::acts::Act;
use std::alloc::{AllocError, Global};

/// The texts of an act.
#[derive(Drop)]
pub struct Texts {
    pub act: Act,
    /// The lines before it.
    pub before: String,
    /// The lines of the run in which something goes wrong.
    pub calls: String,
    /// What the line of its reply holds where it was done.
    done: String,
    /// The same where the card did not confirm it.
    doubted: String,
}

// Two-byte numbers in hex, from 0 on: data that differ from place to place and from block to block.
fn numbers(alloc: Global) -> Result<String, AllocError> {
    let mut text = String::new(alloc);
    for number in 0..2_500u32 {
        text.push_str(format!(in alloc; "{number:04x}")?.as_str())?;
    }
    Ok(text)
}

// So many times the byte `ee` in hex.
fn repeated(alloc: Global, count: u32) -> Result<String, AllocError> {
    let mut text = String::new(alloc);
    for _ in 0..count {
        text.push_str("ee")?;
    }
    Ok(text)
}

// The text, with the other one where the mark stands, if it does.
fn with_mark(alloc: Global, text: &str, mark: &str, other: &str) -> Result<String, AllocError> {
    match text.split_once(mark) {
        Some((front, behind)) => {
            let mut whole = String::from_str(alloc, front)?;
            whole.push_str(other)?;
            whole.push_str(behind)?;
            Ok(whole)
        }
        None => String::from_str(alloc, text),
    }
}

// The lines with their data.
fn with_data(alloc: Global, text: &str) -> Result<String, AllocError> {
    let numbered = with_mark(alloc, text, "{data}", numbers(alloc)?.as_str())?;
    with_mark(
        alloc,
        numbered.as_str(),
        "{written}",
        repeated(alloc, 1_000)?.as_str(),
    )
}

// Two texts and a third one, joined.
fn joined(alloc: Global, parts: [&str; 3]) -> Result<String, AllocError> {
    let mut text = String::new(alloc);
    for part in parts {
        text.push_str(part)?;
    }
    Ok(text)
}

impl Texts {
    /// The texts of that act.
    pub fn new(alloc: Global, act: Act) -> Result<Texts, AllocError> {
        let commits = with_data(alloc, act.commits)?;
        let call = joined(alloc, [" a ", commits.as_str(), " -> "])?;
        Ok(Texts {
            act,
            before: with_data(alloc, act.before)?,
            calls: joined(alloc, [act.opens, "a ", commits.as_str()])?,
            done: joined(alloc, [call.as_str(), "ok", ""])?,
            doubted: joined(alloc, [call.as_str(), "STORAGE_NOT_AVAILABLE card", ""])?,
        })
    }

    /// Whether the call that commits was done, by the replies; None where nobody can tell.
    pub fn told(&self, replies: &str) -> Option<bool> {
        if replies.contains(self.done.as_str()) || replies.contains(" - landed ") {
            Some(true)
        } else if replies.contains(self.doubted.as_str()) {
            None
        } else {
            Some(false)
        }
    }
}
