// What is changed, and how.

use crate::arms::Arm;
use crate::base::Base;
use crate::change::Change;
use crate::named::Named;
use crate::trees::Step;
use crate::{blocks, objects, trees};
use mem_files::MemFile;
use std::alloc::Global;

/// A change, through a layer.
#[derive(Clone, Copy)]
pub enum Work {
    /// Of an object's data.
    Object(Change),
    /// Of the bytes of its tree.
    Blocks(Change),
    /// Of whole blocks of its tree.
    Tree(Step),
}

impl Work {
    /// The file after the work, and what names the object or tree then. None where a step failed.
    pub fn done(
        self,
        alloc: Global,
        file: MemFile,
        named: &Named,
        arm: Arm,
    ) -> (MemFile, Option<Named>) {
        match self {
            Work::Object(change) => objects::changed(alloc, file, named, change, arm),
            Work::Blocks(change) => blocks::changed(alloc, file, named, change, arm),
            Work::Tree(step) => trees::changed(alloc, file, named, step, arm),
        }
    }

    /// Whether these bytes open, and the file.
    pub fn opens(
        self,
        alloc: Global,
        file: MemFile,
        named: &Named,
        bytes: &[u8],
    ) -> (MemFile, bool) {
        match self {
            Work::Object(_) => objects::opens(alloc, file, named, bytes),
            Work::Blocks(_) => blocks::opens(alloc, file, named, bytes),
            Work::Tree(_) => blocks::opens(alloc, file, named, bytes),
        }
    }

    /// The bytes that are changed.
    pub fn old(self, base: &Base) -> &[u8] {
        match self {
            Work::Object(_) => base.data.as_slice(),
            Work::Blocks(_) => base.whole.as_slice(),
            Work::Tree(_) => base.whole.as_slice(),
        }
    }

    /// The change.
    pub fn change(self) -> Change {
        match self {
            Work::Object(change) => change,
            Work::Blocks(change) => change,
            Work::Tree(step) => step.change(),
        }
    }
}
