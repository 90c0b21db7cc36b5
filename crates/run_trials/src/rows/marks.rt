// What the marks in a line stand for.

use anyhow::{Context, bail};
use std::alloc::Global;

/// The lines that a line of the rows stands for, pushed on the text.
pub fn push_lines(alloc: Global, text: &mut Vec<u8>, line: &str) -> anyhow::Result<()> {
    let Some((range, each)) = repeated(line) else {
        return push_line(alloc, text, line, 0);
    };
    let (first, last) = range.split_once(" to ").context("not A to B")?;
    let first = first.parse::<u32>().context("not a number")?;
    let last = last.parse::<u32>().context("not a number")?;
    for number in first..=last {
        push_line(alloc, text, each, number)?;
    }
    Ok(())
}

// The two parts of `for A to B: TEXT`.
fn repeated(line: &str) -> Option<(&str, &str)> {
    line.strip_prefix("for ")?.split_once(": ")
}

fn push_line(alloc: Global, text: &mut Vec<u8>, line: &str, number: u32) -> anyhow::Result<()> {
    match line.strip_suffix("{end}") {
        Some(line) => push_marked(alloc, text, line, number),
        None => {
            push_marked(alloc, text, line, number)?;
            text.push(b'\n')?;
            Ok(())
        }
    }
}

fn push_marked(alloc: Global, text: &mut Vec<u8>, line: &str, number: u32) -> anyhow::Result<()> {
    for (place, piece) in line.split("{").enumerate() {
        if place == 0 {
            text.extend_from_slice(piece.as_bytes())?;
        } else {
            let (mark, behind) = piece.split_once("}").context("a mark has no end")?;
            push_mark(alloc, text, mark, number)?;
            text.extend_from_slice(behind.as_bytes())?;
        }
    }
    Ok(())
}

fn push_mark(alloc: Global, text: &mut Vec<u8>, mark: &str, number: u32) -> anyhow::Result<()> {
    if let Some((repeated, times)) = mark.split_once("*") {
        let times = times.parse::<u32>().context("not a number")?;
        for _ in 0..times {
            text.extend_from_slice(repeated.as_bytes())?;
        }
    } else if let Some(digits) = mark.strip_prefix("x") {
        text.push(u8::from_str_radix(digits, 16).context("not a byte")?)?;
    } else if mark == "n" {
        text.extend_from_slice(format!(in alloc; "{number}")?.as_bytes())?;
    } else if mark == "n:04x" {
        text.extend_from_slice(format!(in alloc; "{number:04x}")?.as_bytes())?;
    } else {
        bail!("not a mark");
    }
    Ok(())
}
