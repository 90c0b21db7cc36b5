// A row of the input.

use crate::rows::marks::push_lines;
use crate::rows::settings::Settings;
use anyhow::Context;
use std::alloc::Global;

/// A script, and what its run must do.
#[derive(Drop)]
pub struct Row {
    pub name: String,
    /// How the run must end.
    pub status: String,
    pub settings: Settings,
    pub script: Vec<u8>,
    /// What must be put.
    pub output: Vec<u8>,
    /// The line `--` was read.
    is_output: bool,
}

impl Row {
    /// The row that begins with this line, without the `== ` at its front.
    pub fn new(alloc: Global, head: &str) -> anyhow::Result<Row> {
        let (name, status) = head.split_once(" ").context("no status")?;
        Ok(Row {
            name: String::from_str(alloc, name)?,
            status: String::from_str(alloc, status)?,
            settings: Settings::usual(alloc)?,
            script: Vec::new(alloc),
            output: Vec::new(alloc),
            is_output: false,
        })
    }

    /// Takes the next line of the row.
    pub fn push_line(&mut self, alloc: Global, line: &str) -> anyhow::Result<()> {
        if self.is_output {
            if line.is_empty() {
                return Ok(());
            }
            return push_lines(alloc, &mut self.output, line);
        }
        if line == "--" {
            self.is_output = true;
            return Ok(());
        }
        match line.strip_prefix("= ") {
            Some(setting) => self.settings.take(alloc, setting),
            None => push_lines(alloc, &mut self.script, line),
        }
    }
}
