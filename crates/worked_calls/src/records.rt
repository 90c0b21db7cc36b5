// Entries of the directory, and the index of their names.

use crate::report::Report;
use dir_index::DirIndex;
use dir_records::DirEntry;
use std::alloc::Global;
use tee_types::{AppId, NoMemory, ObjectId};
use uuid::Uuid;

fn app(number: u8) -> AppId {
    AppId::from_uuid(Uuid::from_bytes([number; 16]))
}

// The identifier of one byte.
fn id(byte: u8) -> ObjectId {
    ObjectId::new(&[byte]).unwrap()
}

fn example(id: ObjectId) -> DirEntry {
    DirEntry {
        app: app(0xab),
        id,
        version: 1,
        file: 272,
        hash: [0xcd; 32],
        size: 1_044_480,
        attributes: 2_048,
        format: 2,
        generation: 0x0102_0304,
    }
}

// Whether the bytes of an entry are that entry again.
fn is_again(entry: DirEntry) -> bool {
    DirEntry::from_bytes(&entry.to_bytes()) == Ok(Some(entry))
}

/// Entries as bytes, and these as entries again. What other bytes are is asked in `known_answers`.
fn add_entries(report: &mut Report) {
    let entry = example(ObjectId::new(b"key").unwrap());
    report.hex("dir_records: bytes of an entry", &entry.to_bytes());
    report.line("dir_records: are they the entry", &is_again(entry));
    let longest = example(ObjectId::new(&[0xee; 64]).unwrap());
    report.line(
        "dir_records: with 64 bytes in the identifier, are they the entry",
        &is_again(longest),
    );
}

fn insert(index: &mut DirIndex, number: u8, id: ObjectId, record: u16) -> Result<(), NoMemory> {
    index.reserve(1)?;
    let app = app(number);
    if index.find(app, id).is_none() {
        index.insert(app, id, record);
    }
    Ok(())
}

fn double_a() -> ObjectId {
    ObjectId::new(b"aa").unwrap()
}

// The names a, aa and b of one application, put in out of order, among those of others.
fn fill(index: &mut DirIndex) -> Result<(), NoMemory> {
    insert(index, 2, id(b'b'), 7)?;
    insert(index, 3, id(b'a'), 1)?;
    insert(index, 2, id(b'a'), 9)?;
    insert(index, 1, id(b'c'), 2)?;
    insert(index, 2, double_a(), 8)
}

/// Adds the name above another, and its record.
fn add_next(
    report: &mut Report,
    alloc: Global,
    index: &DirIndex,
    number: u8,
    after: Option<ObjectId>,
) -> Result<(), NoMemory> {
    let Some((id, record)) = index.next_above(app(number), after) else {
        report.add(&format_args!("dir_index: next name of application {number} -> none"));
        return Ok(());
    };
    let name = hex::encode(alloc, id.bytes())?;
    report.add(&format_args!(
        "dir_index: next name of application {number} -> {name}, record {record}"
    ));
    Ok(())
}

fn add_names(report: &mut Report, alloc: Global, index: &DirIndex) -> Result<(), NoMemory> {
    for (number, after) in [
        (2, None),
        (2, Some(id(b'a'))),
        (2, Some(double_a())),
        (2, Some(id(b'b'))),
        (4, None),
    ] {
        add_next(report, alloc, index, number, after)?;
    }
    Ok(())
}

fn rename(index: &mut DirIndex, from: ObjectId, to: ObjectId) {
    let app = app(2);
    if index.find(app, to).is_none() {
        index.rename(app, from, to);
    }
}

fn add_moved(report: &mut Report, index: &mut DirIndex) {
    let (a, z) = (id(b'a'), id(b'z'));
    rename(index, a, z);
    report.line("dir_index: a, renamed to z", &index.find(app(2), a));
    report.line("dir_index: a of another", &index.find(app(3), a));
    report.line("dir_index: z", &index.find(app(2), z));
    index.remove(app(2), z);
    report.line("dir_index: z, removed", &index.find(app(2), z));
    report.line("dir_index: names", &index.len());
    report.line("dir_index: entries", &index.entries().len());
}

/// Adds the calls of `dir_records` and `dir_index`.
pub fn add_calls(report: &mut Report, alloc: Global) -> Result<(), NoMemory> {
    add_entries(report);
    let mut index = DirIndex::new(alloc);
    fill(&mut index)?;
    add_names(report, alloc, &index)?;
    add_moved(report, &mut index);
    Ok(())
}
