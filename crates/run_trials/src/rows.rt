// Runs rows. Each row is a script, how its run must end, and what it must put. Prints what differs, one line for each row
// that does, and how many rows there are.
//
// The rows are read from standard input. A row begins with a line `== NAME status NUMBER`, where behind status 3 stands
// `line N`, behind status 8 `bytes` or `apps N`, behind status 10 `sum N`, and behind status 6 of a card's objects `card-map BLOCK OFFSET`. Lines
// of settings may follow, then the script, then a line `--`, and then what must be put, where empty lines are passed over. What stands before the first row is passed over, too.
//
// A setting is `= words WORD..` (the command line, else `run`), `= source fails N` (its call N), `= sink holds N` (so many bytes),
// `= padded to N` (empty lines behind the script, up to so many bytes), `= card fails N` (its exchange N), `= same bench` (the one that the row
// before left, else devices that were never used), `= old store` (a store of the old format, with three objects, one of which has a bad block
// and one is damaged), `= worn` (the card's write counter is at its end), `= exchanged` (files 1 and 2 of the bench are exchanged), or
// `= map block NN` (block 1 of a new card is the byte of these hex digits, and zeros).
//
// In a line `{TEXT*N}` stands for N times that text, `{xNN}` for the byte of two hex digits, and `{end}` at its end says that no
// newline follows. A line `for A to B: TEXT` stands for one line for each number, where `{n}` is the number and `{n:04x}` its
// four hex digits.
//
// Behind the count stand the lines of replies that no row has.

use anyhow::Context;
use row::Row;
use std::sync::Wait;
use std::thread::Threads;
use trial::{difference, run_row};
use trial_runs::SimBench;

mod bench;
mod ends;
mod marks;
mod replies;
mod row;
mod settings;
mod trial;

/// How many rows were run, how many of them differ, and the bench that the last one left.
#[derive(Drop)]
struct Count {
    rows: u64,
    differ: u64,
    bench: Option<SimBench>,
}

/// Runs a row, and prints its line where it differs.
fn try_row<W: Print + AllocGlobal + Threads + Wait + Sync>(
    rt: &W,
    count: &mut Count,
    row: &Row,
) -> anyhow::Result<()> {
    count.rows = count.rows.saturating_add(1);
    let ran = run_row(rt, rt.alloc(), row, count.bench.take())?;
    if let Some(text) = difference(rt.alloc(), row, &ran)? {
        count.differ = count.differ.saturating_add(1);
        println!(rt; "{}: {text}", row.name.as_str())?;
    }
    count.bench = Some(ran.bench);
    Ok(())
}

/// Takes the next line: it belongs to the row, or begins another, and the row before it is run.
fn take_line<W: Print + AllocGlobal + Threads + Wait + Sync>(
    rt: &W,
    count: &mut Count,
    row: &mut Option<Row>,
    line: &str,
) -> anyhow::Result<()> {
    if let Some(head) = line.strip_prefix("== ") {
        if let Some(ended) = row.replace(Row::new(rt.alloc(), head)?) {
            try_row(rt, count, &ended)?;
        }
    } else if let Some(row) = row.as_mut() {
        row.push_line(rt.alloc(), line)?;
    }
    Ok(())
}

/// Runs the rows of standard input, and prints what differs and how many there are, then the lines of replies that no row has.
pub fn run_rows<W: Print + Input + AllocGlobal + Threads + Wait + Sync>(
    rt: &W,
) -> anyhow::Result<()> {
    let mut count = Count {
        rows: 0,
        differ: 0,
        bench: None,
    };
    let mut row = None;
    let mut number = 0u64;
    for line in rt.lines(rt.alloc()) {
        number = number.saturating_add(1);
        take_line(rt, &mut count, &mut row, line?.as_str()).context(format_args!("line {number}"))?;
    }
    if let Some(last) = row {
        try_row(rt, &mut count, &last)?;
    }
    println!(rt; "{} rows, {} differ", count.rows, count.differ)?;
    let lines = replies::lines(rt.alloc())?;
    print!(rt; "{}", str::from_utf8(&lines).context("no text")?)?;
    if count.differ > 0 {
        anyhow::bail!("some rows differ");
    }
    Ok(())
}
