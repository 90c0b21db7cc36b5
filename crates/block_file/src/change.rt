//! Changes of bytes.

ghost use Rattle.std.specs.Prelude.{◌≡◌, ◌+◌, ◌<◌, ◌≤◌, ◌^◌, ℕ, [], length, max, true, None, IfErr, IfSome, OnOk, Result};
ghost use Rattle.disk_model.specs.Bytes.{after_resize, after_write};
ghost use Rattle.disk_model.specs.Calls.{Known, Rests};
ghost use Rattle.node_image.specs.Layout.{greatest_of};
ghost use Rattle.htree_file.specs.Answers.{HasCause, HasFaultWidths};
ghost use Rattle.htree_file.specs.Changes.{AreChanges, OpensAfter, SealsChanges, changed_blocks};
ghost use Rattle.htree_file.specs.Making.{HasCauses, IsDeviceFault, IsDrawFault};
ghost use Rattle.htree_file.specs.Opening.{IsVerified, load_of};
ghost use Rattle.htree_file.specs.Standing.{Told};
ghost use Rattle.tree_paths.specs.Staged.{IsWithinBudget};
ghost use Rattle.page_bytes.specs.Ranges.{needs, resize_range, write_range};
ghost use Rattle.page_bytes.specs.Rewriting.{Fits};
ghost use Rattle.block_file.specs.NewPages.{NeededAnswer, NewPageAnswer, NewPagesAnswer, Reaches};
ghost use Rattle.block_file.specs.Reads.{BlocksAnswer, IsChangeFault, IsEarlyFault};
ghost use Rattle.block_file.specs.Stages.{LeavesBytes, LeavesRewritten, SealsRange, StageAnswer, WritesRange};

use crate::file::BlockFile;
use htree_file::{BlockChange, Page, TreeFault};
use node_image::greatest_node;
use page_bytes::ByteRange;
use std::alloc::Global;
use tee_ports::{Entropy, StoreFile};

// The change of a block, with a page that is still to be made.
fn blank_change(block: u32) -> BlockChange
    ensures { result.block ≡ block }
{
    BlockChange {
        block,
        page: [0; 4096],
    }
}

impl<F: StoreFile> BlockFile<F> {
    // Reads block k, where the change of a range needs it.
    pub(crate) fn read_needed(
        &mut self,
        range: ByteRange,
        k: u32,
        page: &mut Page,
    ) -> Result<(), TreeFault>
        requires verified { IsVerified self.old.root self.old.tree }
        requires size { range.size ≡ self.old.tree.head.length }
        ensures answer { NeededAnswer self.old.key self.old.tree (F.state self.old.file) (F.state self.new.file) range k result page.new }
        ensures widths { IfErr result HasFaultWidths }
        ensures same { self.new ≡ record self.old { file = self.new.file } }
        ensures rests { Rests (F.state self.old.file) (F.state self.new.file) }
        ensures cause { HasCause (F.state self.old.file) (F.state self.new.file) result }
    {
        if range.needs(k) {
            self.read_page(k, page)
        } else {
            Ok(())
        }
    }

    // Makes the page that block k is to have.
    fn new_page(
        &mut self,
        range: ByteRange,
        at: u64,
        bytes: &[u8],
        k: u32,
        page: &mut Page,
    ) -> Result<(), TreeFault>
        requires verified { IsVerified self.old.root self.old.tree }
        requires size { range.size ≡ self.old.tree.head.length }
        requires fits { Fits range at (length bytes.now) }
        ensures answer { NewPageAnswer self.old.key self.old.tree (F.state self.old.file) (F.state self.new.file) range at bytes.now k result page.new }
        ensures widths { IfErr result HasFaultWidths }
        ensures same { self.new ≡ record self.old { file = self.new.file } }
        ensures rests { Rests (F.state self.old.file) (F.state self.new.file) }
        ensures cause { HasCause (F.state self.old.file) (F.state self.new.file) result }
    {
        self.read_needed(range, k, page)?;
        range.rewrite(k, at, bytes, page);
        Ok(())
    }

    // Makes the pages of the blocks from `first` on and before `upto`, each where it stands in the list.
    fn new_pages(
        &mut self,
        alloc: Global,
        range: ByteRange,
        at: u64,
        bytes: &[u8],
        first: u32,
        upto: u32,
    ) -> Result<Vec<BlockChange>, TreeFault>
        requires verified { IsVerified self.old.root self.old.tree }
        requires size { range.size ≡ self.old.tree.head.length }
        requires fits { Fits range at (length bytes.now) }
        requires forward { first ≤ upto }
        requires needed { (k : ℕ) → needs range k ≡ true → (first ≤ k) × (k < upto) }
        ensures answer { NewPagesAnswer self.old.key self.old.tree (F.state self.old.file) (F.state self.new.file) range at bytes.now first upto
            (λ v. v.items) result }
        ensures widths { IfErr result HasFaultWidths }
        ensures same { self.new ≡ record self.old { file = self.new.file } }
        ensures rests { Rests (F.state self.old.file) (F.state self.new.file) }
        ensures cause { HasCause (F.state self.old.file) (F.state self.new.file) result }
    {
        let mut changes = Vec::new(alloc);
        for k in first..upto {
            changes.reserve(1)?;
            changes.push_reserved(blank_change(k));
            let last = changes.len() - 1;
            self.new_page(range, at, bytes, k, &mut changes[last].page)?;
        }
        Ok(changes)
    }

    /// Writes a tree of so many bytes with these pages in place of the old ones into the version that the committed tree does not
    /// select, and leaves it open as a stage. Reads nothing, and takes no memory.
    ///
    /// `changes` are the blocks that change, in their order, with one for each new block.
    ///
    /// # Errors
    ///
    /// `NoEntropy` where a draw failed; no call of the file was made. `Failed` where a call of the file failed. No stage is open
    /// then.
    pub fn stage_pages<E: Entropy>(
        &mut self,
        size: u64,
        changes: &[BlockChange],
        entropy: &mut E,
    ) -> Result<(), TreeFault>
        requires idle { self.old.stage ≡ None }
        requires format { self.old.root.format ≡ 2 }
        requires few { size ≤ 1048576 }
        requires changes { AreChanges self.old.tree.head.greatest (greatest_of size) changes.now }
        ensures staged { StageAnswer F.state self.old self.new size result }
        ensures untouched { IfErr result (λ e. IsDrawFault e → self.new ≡ self.old) }
        ensures budget { IsWithinBudget (changed_blocks changes.now) self.old.tree.head.greatest (greatest_of size)
            (F.state self.old.file).written (F.state self.new.file).written }
        ensures opened { OnOk result (Known (F.state self.old.file) (F.state self.new.file) →
            load_of (F.state self.old.file).reads self.old.root ≡ Result.Ok self.old.tree →
            IfSome self.new.stage (λ s. OpensAfter self.old.key self.old.tree.head.wrapped
            (F.state self.old.file).reads self.old.root (F.state self.new.file).reads s.root size changes.now)) }
        // Of any file.
        ensures seals { OnOk result (IfSome self.new.stage (λ s. SealsChanges self.old.key self.old.tree s.tree changes.now)) }
        ensures causes { HasCauses IsDeviceFault (F.state self.old.file) (F.state self.new.file) (E.faults entropy.old) (E.faults entropy.new)
            (E.is_reliable entropy.old) (E.is_reliable entropy.new) result }
    {
        self.tree.stage(size, changes, entropy)
    }

    // Stages a tree of so many bytes: after the change of a range of them, these from the place `at` on.
    fn stage_range<E: Entropy>(
        &mut self,
        alloc: Global,
        size: u64,
        range: ByteRange,
        at: u64,
        bytes: &[u8],
        entropy: &mut E,
    ) -> Result<(), TreeFault>
        requires idle { self.old.stage ≡ None }
        requires format { self.old.root.format ≡ 2 }
        requires verified { IsVerified self.old.root self.old.tree }
        requires few { (size ≤ 1048576) × (range.first < 2 ^ 32) × (range.last < 2 ^ 32) }
        requires old_size { range.size ≡ self.old.tree.head.length }
        requires fits { Fits range at (length bytes.now) }
        requires reaches { Reaches range size }
        ensures staged { StageAnswer F.state self.old self.new size result }
        ensures budget { WritesRange range size self.old.tree.head.greatest (F.state self.old.file) (F.state self.new.file) }
        ensures seals { OnOk result (IfSome self.new.stage (λ s. SealsRange self.old.key self.old.tree s.tree
            (F.state self.old.file) (F.state self.new.file) range at bytes.now size)) }
        ensures rewritten { OnOk result (Told (F.state self.old.file) (F.state self.new.file) →
            load_of (F.state self.old.file).reads self.old.root ≡ Result.Ok self.old.tree →
            IfSome self.new.stage (λ s. LeavesRewritten self.old.key self.old.tree.head.wrapped
            (F.state self.old.file).reads self.old.root (F.state self.new.file).reads s.root range at bytes.now size)) }
        ensures blocks { BlocksAnswer self.old.key self.old.tree (F.state self.old.file) (F.state self.new.file) (needs range) result }
        ensures widths { IfErr result HasFaultWidths }
        ensures early { IfErr result (λ e. IsEarlyFault e → Rests (F.state self.old.file) (F.state self.new.file) × (entropy.new ≡ entropy.old)) }
        ensures undrawn { IfErr result (λ e. IsDrawFault e → Rests (F.state self.old.file) (F.state self.new.file)) }
        ensures causes { HasCauses IsChangeFault (F.state self.old.file) (F.state self.new.file) (E.faults entropy.old) (E.faults entropy.new)
            (E.is_reliable entropy.old) (E.is_reliable entropy.new) result }
    {
        let (first, end) = (range.first_block(), range.end_block());
        let upto = end.min(greatest_node(size));
        let changes = self.new_pages(alloc, range, at, bytes, first, upto)?;
        self.stage_pages(size, &changes, entropy)
    }

    /// Writes bytes from the place `at` on, with zero between the old end and that place, into the version that the committed
    /// tree does not select, and leaves it open as a stage. The bytes are then at least so many that these fit.
    ///
    /// Of the old blocks it reads those that hold old bytes beside the ones that become new, before it draws or writes
    /// anything.
    ///
    /// # Errors
    ///
    /// `BadTag` names the first of these blocks that has not the tag of its node, as the file reads when the call ends; nothing
    /// was drawn or written then, nor for `NoMemory`. `NoEntropy` where a draw failed, once each of these blocks was read and
    /// before anything was written. Besides `Failed`, where a call of the file failed. No stage is open then.
    pub fn stage_write<E: Entropy>(
        &mut self,
        alloc: Global,
        at: u64,
        bytes: &[u8],
        entropy: &mut E,
    ) -> Result<(), TreeFault>
        requires idle { self.old.stage ≡ None }
        requires format { self.old.root.format ≡ 2 }
        requires few { at + length bytes.now ≤ 1048576 }
        ensures staged { StageAnswer F.state self.old self.new (max self.old.tree.head.length (at + length bytes.now)) result }
        // It writes no more than the write budget has for the blocks that the change meets.
        ensures budget { WritesRange (write_range self.old.tree.head.length at (length bytes.now))
            (max self.old.tree.head.length (at + length bytes.now)) self.old.tree.head.greatest (F.state self.old.file) (F.state self.new.file) }
        // Of any file.
        ensures seals { OnOk result (IfSome self.new.stage (λ s. SealsRange self.old.key self.old.tree s.tree
            (F.state self.old.file) (F.state self.new.file) (write_range self.old.tree.head.length at (length bytes.now)) at bytes.now
            (max self.old.tree.head.length (at + length bytes.now)))) }
        // The stage's reference opens to the old bytes with these, and zero behind the last one.
        ensures written { OnOk result (Told (F.state self.old.file) (F.state self.new.file) →
            load_of (F.state self.old.file).reads self.old.root ≡ Result.Ok self.old.tree →
            IfSome self.new.stage (λ s. LeavesBytes self.old.key self.old.tree.head.wrapped
            (F.state self.old.file).reads self.old.root (F.state self.new.file).reads s.root
            (write_range self.old.tree.head.length at (length bytes.now)) (λ old. after_write old at bytes.now))) }
        ensures blocks { BlocksAnswer self.old.key self.old.tree (F.state self.old.file) (F.state self.new.file)
            (needs (write_range self.old.tree.head.length at (length bytes.now))) result }
        ensures widths { IfErr result HasFaultWidths }
        ensures early { IfErr result (λ e. IsEarlyFault e → Rests (F.state self.old.file) (F.state self.new.file) × (entropy.new ≡ entropy.old)) }
        ensures undrawn { IfErr result (λ e. IsDrawFault e → Rests (F.state self.old.file) (F.state self.new.file)) }
        ensures verified { IsVerified self.old.root self.old.tree }
        ensures causes { HasCauses IsChangeFault (F.state self.old.file) (F.state self.new.file) (E.faults entropy.old) (E.faults entropy.new)
            (E.is_reliable entropy.old) (E.is_reliable entropy.new) result }
    {
        let old = self.length();
        let range = ByteRange::of_write(old, at, bytes.len() as u64);
        self.stage_range(alloc, old.max(range.last), range, at, bytes, entropy)
    }

    /// Makes the bytes so many, with zero behind the old end, in the version that the committed tree does not select, and
    /// leaves it open as a stage.
    ///
    /// Of the old blocks it reads the one in which the nearer of the two ends lies, where that is no block's edge, before it
    /// draws or writes anything.
    ///
    /// # Errors
    ///
    /// As for a write.
    pub fn stage_truncate<E: Entropy>(
        &mut self,
        alloc: Global,
        size: u64,
        entropy: &mut E,
    ) -> Result<(), TreeFault>
        requires idle { self.old.stage ≡ None }
        requires format { self.old.root.format ≡ 2 }
        requires few { size ≤ 1048576 }
        ensures staged { StageAnswer F.state self.old self.new size result }
        // It writes no more than the write budget has for the blocks that the change meets and that hold bytes afterwards.
        ensures budget { WritesRange (resize_range self.old.tree.head.length size) size self.old.tree.head.greatest
            (F.state self.old.file) (F.state self.new.file) }
        // Of any file.
        ensures seals { OnOk result (IfSome self.new.stage (λ s. SealsRange self.old.key self.old.tree s.tree
            (F.state self.old.file) (F.state self.new.file) (resize_range self.old.tree.head.length size) size [] size)) }
        // The stage's reference opens to the old bytes, cut or with zero behind them.
        ensures resized { OnOk result (Told (F.state self.old.file) (F.state self.new.file) →
            load_of (F.state self.old.file).reads self.old.root ≡ Result.Ok self.old.tree →
            IfSome self.new.stage (λ s. LeavesBytes self.old.key self.old.tree.head.wrapped
            (F.state self.old.file).reads self.old.root (F.state self.new.file).reads s.root
            (resize_range self.old.tree.head.length size) (λ old. after_resize old size))) }
        ensures blocks { BlocksAnswer self.old.key self.old.tree (F.state self.old.file) (F.state self.new.file)
            (needs (resize_range self.old.tree.head.length size)) result }
        ensures widths { IfErr result HasFaultWidths }
        ensures early { IfErr result (λ e. IsEarlyFault e → Rests (F.state self.old.file) (F.state self.new.file) × (entropy.new ≡ entropy.old)) }
        ensures undrawn { IfErr result (λ e. IsDrawFault e → Rests (F.state self.old.file) (F.state self.new.file)) }
        ensures verified { IsVerified self.old.root self.old.tree }
        ensures causes { HasCauses IsChangeFault (F.state self.old.file) (F.state self.new.file) (E.faults entropy.old) (E.faults entropy.new)
            (E.is_reliable entropy.old) (E.is_reliable entropy.new) result }
    {
        let range = ByteRange::of_resize(self.length(), size);
        self.stage_range(alloc, size, range, size, &[], entropy)
    }
}
