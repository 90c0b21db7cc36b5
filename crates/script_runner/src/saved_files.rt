//! What a run keeps of the files under marks.

ghost use Rattle.std.specs.Prelude.{◌≡◌, OnOk, option_copied, slice_get};

use indexmap::IndexMap;
use std::alloc::Global;
use tee_ports::Image;
use tee_types::NoMemory;

/// The bytes of the files that are kept under marks.
#[derive(Drop)]
pub(crate) struct SavedFiles {
    kept: IndexMap<Vec<u8>, Vec<Image>>,
}

impl SavedFiles {
    ghost use Rattle.script_runner.specs.SavedFiles.{nothing_saved, saved_of, with_saved};

    /// Nothing is kept.
    pub fn new(alloc: Global) -> SavedFiles
        ensures { saved_of result ≡ nothing_saved }
    {
        SavedFiles {
            kept: IndexMap::new(alloc),
        }
    }

    /// Keeps these images, file 0 first, under a mark. What was kept under it goes.
    pub fn keep(&mut self, alloc: Global, mark: &[u8], images: Vec<Image>) -> Result<(), NoMemory>
        ensures { OnOk result (saved_of self.new ≡ with_saved (saved_of self.old) mark.now (slice_get images.items)) }
    {
        self.kept.insert(Vec::from_slice(alloc, mark)?, images)?;
        Ok(())
    }

    /// What is kept of a file under a mark.
    pub fn image(&self, mark: &[u8], file: usize) -> Option<&Image>
        ensures { option_copied result ≡ saved_of self.now mark.now file }
    {
        self.kept.get(mark)?.get(file)
    }
}
