// Changes at the edges of blocks, worked out by hand.

use crate::report::Report;
use page_bytes::ByteRange;

type Page = [u8; 4096];

/// A page of sevens.
const SEVENS: Page = [7; 4096];

/// What a write of so many bytes at a place changes.
fn add_write(report: &mut Report, size: u32, at: u32, count: u32) {
    let range = ByteRange::of_write(u64::from(size), u64::from(at), u64::from(count));
    report.add(&format_args!("page_bytes: {count} bytes written at {at} of {size} -> {range:?}"));
}

/// What another length changes.
fn add_resize(report: &mut Report, size: u64, length: u64) {
    let range = ByteRange::of_resize(size, length);
    report.add(&format_args!("page_bytes: {length} bytes in place of {size} -> {range:?}"));
}

/// The blocks that have bytes of a range.
fn add_blocks(report: &mut Report, first: u16, last: u16) {
    let range = ByteRange {
        size: 6_000,
        first: u64::from(first),
        last: u64::from(last),
    };
    let (start, end) = (range.first_block(), range.end_block());
    report.add(&format_args!("page_bytes: blocks of {first}..{last} -> {start}..{end}"));
}

/// Whether blocks 0, 1 and 2 are needed for a change.
fn add_needs(report: &mut Report, size: u64, first: u64, last: u64) {
    let range = ByteRange { size, first, last };
    let (zero, one, two) = (range.needs(0), range.needs(1), range.needs(2));
    report.add(&format_args!(
        "page_bytes: {size} bytes, {first}..{last} change; needs blocks 0, 1, 2 -> {zero}, {one}, {two}"
    ));
}

/// The length, a place and how many bytes are written there.
const WRITES: [(u32, u32, u32); 5] = [
    (0, 0, 0),
    (100, 40, 10),
    (100, 95, 10),
    (100, 200, 10),
    (100, 200, 0),
];

/// The length, and the one that it gets.
const LENGTHS: [(u64, u64); 4] = [(100, 40), (100, 300), (100, 100), (0, 9)];

/// Where ranges begin and end.
const RANGES: [(u16, u16); 8] = [
    (0, 4_096),
    (0, 4_097),
    (4_095, 4_096),
    (4_095, 4_097),
    (4_096, 4_097),
    (4_096, 4_096),
    (5_000, 5_000),
    (10_000, 20_000),
];

/// How many bytes there are, and where a change begins and ends.
const CHANGES: [(u64, u64, u64); 16] = [
    // a write of the whole block, of all of it but a byte, and of all that it has
    (8_192, 0, 4_096),
    (8_192, 0, 4_095),
    (8_192, 1, 4_096),
    (60, 0, 60),
    (61, 0, 60),
    // across two edges, with the end of the bytes at the second, and a byte behind it
    (8_192, 4_000, 9_000),
    (9_001, 4_000, 9_000),
    // from the end on, into the next block
    (100, 100, 5_010),
    (0, 0, 60),
    // nothing
    (100, 50, 50),
    // a cut at an edge, and on each side of it
    (10_000, 4_096, 10_000),
    (10_000, 4_097, 10_000),
    (10_000, 4_095, 10_000),
    // a growth from an edge, and from each side of it
    (4_096, 4_096, 10_000),
    (4_097, 4_097, 10_000),
    (4_095, 4_095, 10_000),
];

fn add_ranges(report: &mut Report) {
    for (size, at, count) in WRITES {
        add_write(report, size, at, count);
    }
    for (size, length) in LENGTHS {
        add_resize(report, size, length);
    }
    for (first, last) in RANGES {
        add_blocks(report, first, last);
    }
    for (size, first, last) in CHANGES {
        add_needs(report, size, first, last);
    }
}

/// The first bytes of a page, and its last four.
fn add_page(report: &mut Report, call: &str, page: &Page) {
    report.add(&format_args!(
        "page_bytes: {call} -> {:?} .. {:?}",
        &page[..9],
        &page[4_092..]
    ));
}

/// Two bytes behind the end of three.
fn add_gap(report: &mut Report) {
    let mut page = SEVENS;
    ByteRange::of_write(3, 5, 2).rewrite(0, 5, &[1, 2], &mut page);
    add_page(report, "block 0 of 3 bytes, 1 and 2 written at 5", &page);
}

/// Five bytes across the edge of blocks 0 and 1.
fn add_written(report: &mut Report, call: &str, block: u32) {
    let mut page = SEVENS;
    ByteRange::of_write(8_195, 4_094, 5).rewrite(block, 4_094, &[1, 2, 3, 4, 5], &mut page);
    add_page(report, call, &page);
}

/// Another length, in block 1.
fn add_resized(report: &mut Report, call: &str, size: u16, length: u16) {
    let (size, length) = (u64::from(size), u64::from(length));
    let mut page = SEVENS;
    ByteRange::of_resize(size, length).rewrite(1, length, &[], &mut page);
    add_page(report, call, &page);
}

/// Adds the calls of `page_bytes`.
pub fn add_calls(report: &mut Report) {
    add_ranges(report);
    add_gap(report);
    for (block, call) in [
        (0, "block 0 of 8195 bytes, 1 to 5 written at 4094"),
        (1, "block 1 of 8195 bytes, 1 to 5 written at 4094"),
        (2, "block 2 of 8195 bytes, 1 to 5 written at 4094"),
    ] {
        add_written(report, call, block);
    }
    let cut = "block 1 of 10000 bytes that are cut to 4098";
    add_resized(report, cut, 10_000, 4_098);
    let grown = "block 1 of 4098 bytes that grow to 10000";
    add_resized(report, grown, 4_098, 10_000);
}
