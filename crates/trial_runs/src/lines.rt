//! The lines of tables, and how a line is printed.

use std::alloc::{AllocError, Global};

/// How wide the columns of words are, which stand at the left of a table.
const WORDS: [usize; 3] = [22, 8, 14];

// Pushes so many spaces.
fn push_spaces(line: &mut String, count: usize) -> Result<(), AllocError> {
    for _ in 0..count {
        line.push_str(" ")?;
    }
    Ok(())
}

// Pushes a word, at the left of its column.
fn push_word(line: &mut String, word: &str, width: usize) -> Result<(), AllocError> {
    line.push_str(word)?;
    push_spaces(line, width.saturating_sub(word.len()))
}

// Pushes a number, at the right of its column.
fn push_number(line: &mut String, number: &str, width: usize) -> Result<(), AllocError> {
    push_spaces(line, width.saturating_sub(number.len()))?;
    line.push_str(number)
}

// A line with these words.
fn words_line(alloc: Global, words: &[&str]) -> Result<String, AllocError> {
    let mut line = String::new(alloc);
    for (word, width) in words.iter().zip(WORDS.iter()) {
        push_word(&mut line, word, *width)?;
    }
    Ok(line)
}

/// The head of a table: three words, and behind them the names of columns that are so wide.
///
/// # Errors
///
/// Memory ran out.
pub fn table_head(
    alloc: Global,
    words: &[&str],
    names: &[&str],
    widths: &[usize],
) -> Result<String, AllocError> {
    let mut line = words_line(alloc, words)?;
    for (name, width) in names.iter().zip(widths.iter()) {
        push_number(&mut line, name, *width)?;
    }
    Ok(line)
}

/// A row of a table: three words, and behind them a count in each of the columns that are so wide.
///
/// # Errors
///
/// Memory ran out.
pub fn table_row(
    alloc: Global,
    words: &[&str],
    counts: &[u64],
    widths: &[usize],
) -> Result<String, AllocError> {
    let mut line = words_line(alloc, words)?;
    for (count, width) in counts.iter().zip(widths.iter()) {
        push_number(&mut line, format!(in alloc; "{count}")?.as_str(), *width)?;
    }
    Ok(line)
}

/// Prints a line.
///
/// # Errors
///
/// The line could not be written.
pub fn print_line(rt: &impl Print, line: &str) -> anyhow::Result<()> {
    println!(rt; "{line}")?;
    Ok(())
}
