// Tables: which handles share, enumerators, and open handles.

use crate::report::Report;
use enumerators::{Cursor, Enumerators};
use open_table::OpenTable;
use sharing_rules::compatible;
use std::alloc::Global;
use std::fmt::Debug;
use tee_types::{Flags, NoMemory, ObjectId, READ, SHARE_READ, SHARE_WRITE, WRITE, WRITE_META};

// READ and WRITE with what they share, of two handles. The expected answers go by the words of the rule.
const PAIRS: [(u32, u32); 16] = [
    (READ, READ),
    (READ | SHARE_READ, READ),
    (READ | SHARE_READ, READ | SHARE_READ),
    (READ | SHARE_READ, SHARE_READ),
    (READ | SHARE_READ, 0),
    (READ, SHARE_READ),
    (WRITE, WRITE),
    (WRITE | SHARE_WRITE, WRITE | SHARE_WRITE),
    (WRITE | SHARE_WRITE, SHARE_WRITE),
    (WRITE | SHARE_WRITE, SHARE_READ),
    (
        READ | SHARE_READ | SHARE_WRITE,
        WRITE | SHARE_READ | SHARE_WRITE,
    ),
    (READ | SHARE_READ | SHARE_WRITE, WRITE | SHARE_WRITE),
    (READ | SHARE_READ, WRITE | SHARE_READ | SHARE_WRITE),
    (
        WRITE_META | SHARE_READ | SHARE_WRITE,
        SHARE_READ | SHARE_WRITE,
    ),
    (0, 0),
    (SHARE_READ, SHARE_WRITE),
];

fn flags(bits: u32) -> Flags {
    Flags { bits }
}

fn add_sharing(report: &mut Report) {
    for (left, right) in PAIRS {
        let there = compatible(flags(left), flags(right));
        let back = compatible(flags(right), flags(left));
        report.add(&format_args!(
            "sharing_rules: {left:#04x} beside {right:#04x}, and the other way round -> {there}, {back}"
        ));
    }
}

/// Adds what was called, and where enumerator 1 then stands.
fn add_step(report: &mut Report, call: &str, answer: &impl Debug, table: &Enumerators) {
    let cursor = table.cursor(1);
    report.add(&format_args!("enumerators: {call} -> {answer:?}, {cursor:?}"));
}

/// Enumerator 1 gives an identifier, where it is at its start; whether it then stands behind that.
fn gives(table: &mut Enumerators, id: ObjectId) -> bool {
    let Ok(Cursor::First) = table.cursor(1) else {
        return false;
    };
    table.given(1, id);
    table.cursor(1) == Ok(Cursor::After(id))
}

/// Starts, resets and ends enumerator 1, also where it is gone.
fn add_changes(report: &mut Report, table: &mut Enumerators) {
    add_step(report, "start of 1", &table.start(1), table);
    add_step(report, "reset of 1", &table.reset(1), table);
    add_step(report, "end of 1", &table.free(1), table);
}

fn add_enumerators(report: &mut Report, table: &mut Enumerators) {
    report.line("enumerators: 0 of none", &table.cursor(0));
    report.line("enumerators: a new one", &table.add());
    add_step(report, "a new one", &table.add(), table);
    add_step(report, "start of 1", &table.start(1), table);
    let is_behind = gives(table, ObjectId::new(b"key").unwrap());
    report.line("enumerators: is 1 behind what it gave", &is_behind);
    report.line("enumerators: 0", &table.cursor(0));
    add_changes(report, table);
    add_changes(report, table);
    report.line("enumerators: 0", &table.cursor(0));
}

fn open(table: &mut OpenTable, file: u16, session: u32) -> Result<usize, NoMemory> {
    table.reserve()?;
    Ok(table.add(file, session, 7, flags(READ)))
}

fn close(table: &mut OpenTable, session: u32) {
    if let Some(key) = table.find(session, 7) {
        table.remove(key);
    }
}

/// Whether handle 7 of a session is found under its key.
fn is_found(table: &OpenTable, session: u32, key: usize) -> bool {
    table.find(session, 7) == Some(key)
}

fn add_two(report: &mut Report, table: &OpenTable, first: usize, second: usize) {
    report.line("open_table: are two handles apart", &(first != second));
    let found = (is_found(table, 0, first), is_found(table, 1, second));
    report.line("open_table: are both found", &found);
    report.line("open_table: handle 0 of session 7", &table.find(7, 0));
}

fn add_closed(report: &mut Report, table: &mut OpenTable, second: usize) {
    close(table, 0);
    report.line("open_table: the first, once closed", &table.find(0, 7));
    let found = is_found(table, 1, second);
    report.line("open_table: is the second found", &found);
}

fn add_third(report: &mut Report, table: &OpenTable, second: usize, third: usize) {
    report.line(
        "open_table: is a third apart from the second",
        &(third != second),
    );
    report.line("open_table: is it found", &is_found(table, 0, third));
}

fn add_open(report: &mut Report, table: &mut OpenTable) -> Result<(), NoMemory> {
    let first = open(table, 1, 0)?;
    let second = open(table, 1, 1)?;
    add_two(report, table, first, second);
    add_closed(report, table, second);
    let third = open(table, 9, 0)?;
    add_third(report, table, second, third);
    Ok(())
}

/// Adds the calls of `sharing_rules`, `enumerators` and `open_table`.
pub fn add_calls(report: &mut Report, alloc: Global) -> Result<(), NoMemory> {
    add_sharing(report);
    add_enumerators(report, &mut Enumerators::new(alloc));
    add_open(report, &mut OpenTable::new(alloc))
}
