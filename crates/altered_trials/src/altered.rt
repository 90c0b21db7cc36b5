// Files that are altered between two phases and in one, and what is answered then.

use crate::table::{altered_head_line, altered_line};
use anyhow::Context;
use node_image::{FORMAT, block_offset, head_offset, node_offset};
use std::alloc::{AllocError, Global};
use std::sync::Wait;
use std::thread::Threads;
use trial_runs::{blank_bench, reliable, try_script};

/// The files that are altered, each with how many blocks it has: the directory's, those of two objects, and the one that a create takes.
const FILES: [(&str, u32); 4] = [("dir", 8), ("1", 3), ("2", 2), ("3", 2)];

/// The lines in front. Each object has an application that calls nothing else.
const APPLICATIONS: &str =
    "app a 00000000-0000-0000-0000-000000000001\napp b 00000000-0000-0000-0000-000000000001\napp c 00000000-0000-0000-0000-000000000001\n";

/// The lines that leave the states under the marks s0 to s4.
const CHANGES: [&str; 5] = [
    "a create 6b rw a0 {data}\nb create 6c rw - 55",
    "a open 6b rw\na write 0 22\nb open 6c rw\nb write 0 66",
    "a open 6b rw\na seek 0 4096 set\na write 0 3333\nb open 6c rw\nb write 0 77",
    "a open 6b rw\na truncate 0 4097\na write 0 44\nb open 6c rw\nb write 0 88",
    "a open 6b rw\na write 0 55\nb open 6c rw\nb write 0 99",
];

/// The calls behind the alteration. What they write is what stands there.
const CALLS: &str = "a open 6b rw
a info 0
a read 0 4096
a seek 0 4096 set
a read 0 4096
a seek 0 0 set
a write 0 55
a seek 0 4096 set
a write 0 33
a seek 0 0 set
a read 0 8192
b open 6c rw
b read 0 1
b seek 0 0 set
b write 0 99
b seek 0 0 set
b read 0 1
c create 6d rw - 05
c read 0 1
c seek 0 0 set
c write 0 05
c seek 0 0 set
c read 0 1
list
";

/// Where the fields of a head begin: the wrapped file key, the length, the greatest node, and zeros.
const HEAD_FIELDS: [u64; 4] = [0, 16, 24, 28];

/// Those of a node: its hash, the vector, the tag, and both bytes of the flags.
const NODE_FIELDS: [u64; 5] = [0, 32, 48, 64, 65];

/// The first byte of a block, and its last.
const BLOCK_ENDS: [u64; 2] = [0, 4_095];

/// The calls of a file in the phase before which it is struck.
const CALLS_STRUCK: u64 = 20;

/// How a file is altered.
#[derive(Clone, Copy)]
pub enum Alteration {
    /// It is put back as it was at this mark.
    Restored,
    /// A byte is changed before the phase.
    Flipped,
    /// A byte is changed before a call of the file in the phase.
    Tainted,
}

impl Alteration {
    const ALL: [Alteration; 3] = [
        Alteration::Restored,
        Alteration::Flipped,
        Alteration::Tainted,
    ];

    /// Its name in the table.
    pub fn name(self) -> &'static str {
        match self {
            Alteration::Restored => "restored",
            Alteration::Flipped => "flipped",
            Alteration::Tainted => "tainted",
        }
    }
}

/// What was answered behind alterations of a file.
#[derive(Clone, Copy)]
pub struct Answers {
    /// How often the file was altered.
    pub tries: u64,
    /// How often all answers were those of the file that was not altered.
    pub same: u64,
    /// How often the object, or a block of it, was damaged.
    pub damaged: u64,
    /// How often the store was refused.
    pub refused: u64,
    /// How often other bytes were answered as data.
    pub altered: u64,
}

impl Answers {
    fn new() -> Answers {
        Answers {
            tries: 0,
            same: 0,
            damaged: 0,
            refused: 0,
            altered: 0,
        }
    }

    // Counts what was answered, beside what is answered where nothing is altered.
    fn add(&mut self, told: &str, wanted: &str) {
        self.tries = self.tries.saturating_add(1);
        if told == wanted {
            self.same = self.same.saturating_add(1);
        } else if !are_answers(told, wanted) {
            self.altered = self.altered.saturating_add(1);
        } else if told.contains("# refused ") {
            self.refused = self.refused.saturating_add(1);
        } else {
            self.damaged = self.damaged.saturating_add(1);
        }
    }
}

// Whether a line is the one that is wanted, or tells of damage.
fn is_answer(told: &str, wanted: &str) -> bool {
    told == wanted
        || told.ends_with(" CORRUPT_OBJECT")
        || told.ends_with(" misuse BAD_HANDLE")
        || told.ends_with(" damaged")
        || told.contains(" bad:")
        || told.starts_with("# refused ")
}

// Whether each line is so.
fn are_answers(told: &str, wanted: &str) -> bool {
    told.lines()
        .zip(wanted.lines())
        .all(|(told, wanted)| is_answer(told, wanted))
        && told.lines().count() <= wanted.lines().count()
}

// The lines up to the alteration.
fn lines_before(alloc: Global) -> Result<String, AllocError> {
    let mut text = String::from_str(alloc, APPLICATIONS)?;
    let data = "11".repeat(alloc, 4_098)?;
    for (number, change) in CHANGES.iter().enumerate() {
        text.push_str(change.replace(alloc, "{data}", data.as_str())?.as_str())?;
        text.push_str(format!(in alloc; "\nsave s{number}\n")?.as_str())?;
    }
    Ok(text)
}

// What is put behind the line of the alteration, `serial` where nothing is altered.
fn told_behind<W: Threads + Wait + Sync>(
    rt: &W,
    alloc: Global,
    before: &str,
    control: &str,
) -> anyhow::Result<String> {
    let script = format!(in alloc; "{before}{control}\n{CALLS}")?;
    let ran = try_script(
        rt,
        alloc,
        script.as_str(),
        blank_bench(alloc)?,
        &mut reliable(),
    )?;
    let line = format!(in alloc; "# {control}\n")?;
    let (_, told) = ran
        .output
        .split_once(line.as_str())
        .context("no alteration")?;
    Ok(String::from_str(alloc, told)?)
}

// Pushes the places of these fields of a part.
fn push_fields(places: &mut Vec<u64>, part: u64, fields: &[u64]) -> Result<(), AllocError> {
    for field in fields {
        places.push(part.saturating_add(*field))?;
    }
    Ok(())
}

// Where the heads, the nodes and the blocks of a file of so many blocks stand, in both versions: these fields of each.
fn places(
    alloc: Global,
    blocks: u32,
    head: &[u64],
    node: &[u64],
    block: &[u64],
) -> Result<Vec<u64>, AllocError> {
    let mut places = Vec::new(alloc);
    for version in [0, 1] {
        push_fields(&mut places, head_offset(FORMAT, version), head)?;
        for k in 0..blocks {
            push_fields(
                &mut places,
                node_offset(FORMAT, k.saturating_add(1), version),
                node,
            )?;
            push_fields(&mut places, block_offset(FORMAT, k, version), block)?;
        }
    }
    Ok(places)
}

// The lines that put the file back as it was.
fn restored(alloc: Global, file: &str) -> Result<Vec<String>, AllocError> {
    let mut lines = Vec::new(alloc);
    for number in 0..CHANGES.len() {
        lines.push(format!(in alloc; "restore {file} s{number}")?)?;
    }
    Ok(lines)
}

// The lines that change a byte of each field.
fn flipped(alloc: Global, file: &str, blocks: u32) -> Result<Vec<String>, AllocError> {
    let mut lines = Vec::new(alloc);
    for place in places(alloc, blocks, &HEAD_FIELDS, &NODE_FIELDS, &BLOCK_ENDS)? {
        lines.push(format!(in alloc; "flip {file} {place} 01")?)?;
    }
    Ok(lines)
}

// The lines that change a byte of each part before a call.
fn tainted(alloc: Global, file: &str, blocks: u32) -> Result<Vec<String>, AllocError> {
    let mut lines = Vec::new(alloc);
    for place in places(alloc, blocks, &[0], &[0], &[0])? {
        for number in 0..CALLS_STRUCK {
            let call = number.saturating_add(1);
            lines.push(format!(in alloc; "taint {file} {call} {place} 01")?)?;
        }
    }
    Ok(lines)
}

// The controls that alter the file so.
fn controls(
    alloc: Global,
    file: &str,
    blocks: u32,
    alteration: Alteration,
) -> Result<Vec<String>, AllocError> {
    match alteration {
        Alteration::Restored => restored(alloc, file),
        Alteration::Flipped => flipped(alloc, file, blocks),
        Alteration::Tainted => tainted(alloc, file, blocks),
    }
}

// What is answered behind each alteration of that kind.
fn answers_of<W: Threads + Wait + Sync>(
    rt: &W,
    alloc: Global,
    before: &str,
    wanted: &str,
    controls: &[String],
) -> anyhow::Result<Answers> {
    let mut answers = Answers::new();
    for control in controls {
        let told = told_behind(rt, alloc, before, control.as_str())?;
        answers.add(told.as_str(), wanted);
    }
    Ok(answers)
}

/// The lines of the alterations, one for each file and kind, and the line that says how often altered bytes were answered as data.
pub fn altered_lines<W: Threads + Wait + Sync>(rt: &W, alloc: Global) -> anyhow::Result<String> {
    let before = lines_before(alloc)?;
    let wanted = told_behind(rt, alloc, before.as_str(), "serial")?;
    let mut text = altered_head_line(alloc)?;
    text.push_str("\n")?;
    let mut altered = 0u64;
    for (file, blocks) in FILES {
        for alteration in Alteration::ALL {
            let controls = controls(alloc, file, blocks, alteration)?;
            let answers = answers_of(rt, alloc, before.as_str(), wanted.as_str(), &controls)?;
            text.push_str(altered_line(alloc, file, alteration, &answers)?.as_str())?;
            text.push_str("\n")?;
            altered = altered.saturating_add(answers.altered);
        }
    }
    text.push_str(format!(in alloc; "{altered} altered bytes answered as data")?.as_str())?;
    Ok(text)
}
