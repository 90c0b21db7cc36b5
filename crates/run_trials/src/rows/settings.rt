// What surrounds the run of a row.

use anyhow::Context;
use std::alloc::{AllocError, Global};

/// The command line, when the source fails, how much the sink holds, how long the script is, and what is done to the bench before.
#[derive(Drop)]
pub struct Settings {
    /// The words behind the program's name.
    pub words: Vec<String>,
    /// The call of the source that fails; 0 is none.
    pub failing: u64,
    /// How many bytes the sink has room for.
    pub room: usize,
    /// The least number of bytes of the script.
    pub length: usize,
    /// The exchange of the card that fails; 0 is none.
    pub card_fails: u64,
    /// The run goes over the bench that the row before left.
    pub same_bench: bool,
    /// The card's write counter is at its end.
    pub is_worn: bool,
    /// Files 1 and 2 of the bench are exchanged.
    pub exchanged: bool,
    /// The bench has a store of the old format.
    pub is_old: bool,
    /// The first byte of the card's block 1, where it has one.
    pub map_byte: Option<u8>,
}

impl Settings {
    /// The form `run`, a source that never fails, a sink with much room, and devices that were never used.
    pub fn usual(alloc: Global) -> Result<Settings, AllocError> {
        Ok(Settings {
            words: vec![in alloc; String::from_str(alloc, "run")?]?,
            failing: 0,
            room: 1 << 20,
            length: 0,
            card_fails: 0,
            same_bench: false,
            is_worn: false,
            exchanged: false,
            is_old: false,
            map_byte: None,
        })
    }

    /// Takes a line of settings, without the `= ` at its front.
    pub fn take(&mut self, alloc: Global, line: &str) -> anyhow::Result<()> {
        if let Some(words) = line.strip_prefix("words") {
            self.words = words_of(alloc, words)?;
        } else if let Some(call) = line.strip_prefix("source fails ") {
            self.failing = call.parse::<u64>().context("not a number")?;
        } else if let Some(room) = line.strip_prefix("sink holds ") {
            self.room = room.parse::<usize>().context("not a number")?;
        } else if let Some(length) = line.strip_prefix("padded to ") {
            self.length = length.parse::<usize>().context("not a number")?;
        } else if let Some(call) = line.strip_prefix("card fails ") {
            self.card_fails = call.parse::<u64>().context("not a number")?;
        } else if let Some(byte) = line.strip_prefix("map block ") {
            self.map_byte = Some(u8::from_str_radix(byte, 16).context("not a byte")?);
        } else {
            self.take_bench(line)?;
        }
        Ok(())
    }

    // Takes a line on the bench, which has no number.
    fn take_bench(&mut self, line: &str) -> anyhow::Result<()> {
        match line {
            "same bench" => self.same_bench = true,
            "worn" => self.is_worn = true,
            "exchanged" => self.exchanged = true,
            "old store" => self.is_old = true,
            _ => anyhow::bail!("not a setting"),
        }
        Ok(())
    }
}

fn words_of(alloc: Global, text: &str) -> Result<Vec<String>, AllocError> {
    let mut words = Vec::new(alloc);
    for word in text.split_ascii_whitespace() {
        words.push(String::from_str(alloc, word)?)?;
    }
    Ok(words)
}
