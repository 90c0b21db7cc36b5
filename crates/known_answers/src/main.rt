//! Answers questions about the ciphers, the keys, the card, tree files, entries of the directory and their objects, for
//! comparison with answers from elsewhere: a line of standard input is one question, and a line of standard output its answer.
//!
//! A line is a word and its arguments, one space apart. Each argument is bytes in hex, in either case, or `-` for none; a version, a format,
//! a length and a counter are numbers in decimal. Empty lines and lines that begin with `#` are passed over. A line that cannot be read ends the
//! program with status 1, and its number on standard error.
#![tactic(auto)]

mod answers;
mod arguments;
mod entries;
mod objects;
mod question_lines;
mod questions;
mod subjects;
mod trees;
mod words;

use anyhow::Context;
use question_lines::parse;

fn main(rt: HostRuntime) -> anyhow::Result<()> {
    let mut number = 0u64;
    for line in rt.lines(rt.alloc()) {
        number = number.saturating_add(1);
        let line = line.context(format_args!("line {number}"))?;
        if line.is_empty() || line.starts_with("#") {
            continue;
        }
        let question = parse(rt.alloc(), &line).context(format_args!("line {number}"))?;
        let answer = answers::answer(rt.alloc(), question)?;
        println!(rt; "{answer}")?;
    }
    Ok(())
}
