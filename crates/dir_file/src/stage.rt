// Staging a directory with one entry changed.
ghost use Rattle.std.specs.Prelude.{◌≡◌, ◌<◌, None, Some, IfErr};
ghost use Rattle.htree_file.specs.Making.{HasCauses, IsDeviceFault, IsDrawFault};
ghost use Rattle.dir_file.specs.EntryForms.{Fits};
ghost use Rattle.dir_file.specs.Stages.{StagesEntry};

use crate::file::{DirFile, NextEntry};
use crate::page::directory_page;
use dir_records::DirEntry;
use htree_file::{BlockChange, TreeFault};
use tee_ports::{Entropy, StoreFile};

impl<F: StoreFile> DirFile<F> {
    // Stages the directory with this entry, or none, in a place.
    fn stage_entry<E: Entropy>(
        &mut self,
        index: u16,
        entry: &Option<DirEntry>,
        entropy: &mut E,
    ) -> Result<(), TreeFault>
        requires idle { self.old.dir.stage ≡ None }
        requires format { self.old.dir.root.format ≡ 2 }
        requires fits { Fits self.old.dir.entries index entry.now }
        ensures answer { StagesEntry (F.state self.old.file) (F.state self.new.file) self.old.dir self.new.dir index entry.now result }
        ensures untouched { IfErr result (λ fault. IsDrawFault fault → self.new ≡ self.old) }
        ensures causes { HasCauses IsDeviceFault (F.state self.old.file) (F.state self.new.file) (E.faults entropy.old) (E.faults entropy.new)
            (E.is_reliable entropy.old) (E.is_reliable entropy.new) result }
    {
        let mut page = [0; 4096];
        let block = u32::from(index) / 32;
        directory_page(&self.entries, index, entry, block, &mut page);
        self.tree
            .stage(32_768, &[BlockChange { block, page }], entropy)?;
        self.next = Some(NextEntry {
            index,
            entry: *entry,
        });
        Ok(())
    }

    /// Writes the directory with this entry in that place as a stage: the one block in which it stands. The committed directory stays,
    /// and nothing is settled. Takes no memory.
    ///
    /// # Errors
    ///
    /// `NoEntropy` where a draw failed; no call of the file was made. `Failed` where a call of the file failed. No stage is open then.
    pub fn stage_put<E: Entropy>(
        &mut self,
        index: u16,
        entry: &DirEntry,
        entropy: &mut E,
    ) -> Result<(), TreeFault>
        requires idle { self.old.dir.stage ≡ None }
        requires format { self.old.dir.root.format ≡ 2 }
        requires fits { Fits self.old.dir.entries index (Some entry.now) }
        ensures answer { StagesEntry (F.state self.old.file) (F.state self.new.file) self.old.dir self.new.dir index (Some entry.now) result }
        // All vectors are drawn before the first call of the file.
        ensures untouched { IfErr result (λ fault. IsDrawFault fault → self.new ≡ self.old) }
        ensures causes { HasCauses IsDeviceFault (F.state self.old.file) (F.state self.new.file) (E.faults entropy.old) (E.faults entropy.new)
            (E.is_reliable entropy.old) (E.is_reliable entropy.new) result }
    {
        self.stage_entry(index, &Some(*entry), entropy)
    }

    /// Writes the directory with no entry in that place as a stage, as `stage_put` does.
    ///
    /// # Errors
    ///
    /// Those of `stage_put`.
    pub fn stage_clear<E: Entropy>(&mut self, index: u16, entropy: &mut E) -> Result<(), TreeFault>
        requires idle { self.old.dir.stage ≡ None }
        requires format { self.old.dir.root.format ≡ 2 }
        requires below { index < 256 }
        ensures answer { StagesEntry (F.state self.old.file) (F.state self.new.file) self.old.dir self.new.dir index None result }
        // All vectors are drawn before the first call of the file.
        ensures untouched { IfErr result (λ fault. IsDrawFault fault → self.new ≡ self.old) }
        ensures causes { HasCauses IsDeviceFault (F.state self.old.file) (F.state self.new.file) (E.faults entropy.old) (E.faults entropy.new)
            (E.is_reliable entropy.old) (E.is_reliable entropy.new) result }
    {
        self.stage_entry(index, &None, entropy)
    }
}
