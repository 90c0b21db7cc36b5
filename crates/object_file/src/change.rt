//! Changes of an object's data.

ghost use Rattle.std.specs.Prelude.{◌≡◌, ◌+◌, ◌≤◌, [], length, max, min, None, IfErr, IfSome, OnOk, Result};
ghost use Rattle.disk_model.specs.Calls.{Rests};
ghost use Rattle.htree_file.specs.Answers.{HasFaultWidths};
ghost use Rattle.htree_file.specs.Making.{HasCauses, IsDrawFault};
ghost use Rattle.htree_file.specs.Opening.{load_of};
ghost use Rattle.htree_file.specs.Standing.{Told};
ghost use Rattle.page_bytes.specs.Ranges.{needs, resize_range, write_range};
ghost use Rattle.block_file.specs.Reads.{BlocksAnswer, IsChangeFault, IsEarlyFault};
ghost use Rattle.block_file.specs.Stages.{LeavesBytes, SealsRange, StageAnswer, WritesRange};
ghost use Rattle.disk_model.specs.Bytes.{after_resize, after_write};
ghost use Rattle.store_model.specs.Data.{needs_block, resized_contents, written_contents};
ghost use Rattle.object_file.specs.Changes.{HoldsAfter, LeavesObject};
ghost use Rattle.object_file.specs.Corrupt.{CorruptAnswer};
ghost use Rattle.object_file.specs.Held.{held_in};
ghost use Rattle.object_file.specs.Value.{size_in};

use crate::object::{FIRST_BLOCK, ObjectFile};
use htree_file::TreeFault;
use std::alloc::Global;
use tee_ports::{Entropy, StoreFile};

impl<F: StoreFile> ObjectFile<F> {
    /// Writes data from the place `at` on, with zero between the old end and that place, into the version that the committed
    /// tree does not select, and leaves it open as a stage. Without bytes, a place behind the end makes the data reach to it.
    ///
    /// Of the old blocks it reads those that hold old bytes beside the ones that become new, before it draws or writes
    /// anything.
    ///
    /// # Errors
    ///
    /// `BadTag` names the first of these blocks that has not the tag of its node, as the file reads when the call ends; the
    /// data begin with block 1, and nothing was drawn or written then, nor for `NoMemory`. `NoEntropy` where a draw failed, once
    /// each of these blocks was read and before anything was written. Besides `Failed`, where a call of the file failed. No stage
    /// is open then.
    pub fn stage_write<E: Entropy>(
        &mut self,
        alloc: Global,
        at: u32,
        bytes: &[u8],
        entropy: &mut E,
    ) -> Result<(), TreeFault>
        requires idle { self.old.tree.stage ≡ None }
        requires format { self.old.tree.root.format ≡ 2 }
        requires few { at + length bytes.now ≤ 1044480 }
        ensures staged { StageAnswer F.state self.old.tree self.new.tree (4096 + max (size_in self.old) (at + length bytes.now)) result }
        ensures attributes { self.new.attributes ≡ self.old.attributes }
        // The stage's reference names the object with these bytes.
        ensures written { OnOk result (Told (F.state self.old.tree.file) (F.state self.new.tree.file) →
            load_of (F.state self.old.tree.file).reads self.old.tree.root ≡ Result.Ok self.old.tree.tree →
            IfSome self.new.tree.stage (λ s. LeavesObject self.old.tree.key self.old.tree.tree.head.wrapped
            (F.state self.old.tree.file).reads self.old.tree.root (F.state self.new.tree.file).reads s.root
            (length self.old.attributes) (size_in self.old) (max (size_in self.old) (at + length bytes.now))
            (λ c. written_contents c at bytes.now))) }
        // Once the stage is adopted, the object holds these bytes.
        ensures holds { OnOk result (Told (F.state self.old.tree.file) (F.state self.new.tree.file) →
            load_of (F.state self.old.tree.file).reads self.old.tree.root ≡ Result.Ok self.old.tree.tree →
            IfSome self.new.tree.stage (HoldsAfter self.old self.new (F.state self.old.tree.file).reads (F.state self.new.tree.file).reads
            (λ c. written_contents c at bytes.now))) }
        // It writes no more than the write budget has for the blocks that the change meets.
        ensures budget { WritesRange (write_range self.old.tree.tree.head.length (4096 + at) (length bytes.now))
            (max self.old.tree.tree.head.length (4096 + at + length bytes.now)) self.old.tree.tree.head.greatest
            (F.state self.old.tree.file) (F.state self.new.tree.file) }
        // Of any file.
        ensures seals { OnOk result (IfSome self.new.tree.stage (λ s. SealsRange self.old.tree.key self.old.tree.tree s.tree
            (F.state self.old.tree.file) (F.state self.new.tree.file)
            (write_range self.old.tree.tree.head.length (4096 + at) (length bytes.now)) (4096 + at) bytes.now
            (max self.old.tree.tree.head.length (4096 + at + length bytes.now)))) }
        // Of the tree's bytes: what lies behind the last one is zero, and a block that the change misses stays, good or bad.
        ensures laid { OnOk result (Told (F.state self.old.tree.file) (F.state self.new.tree.file) →
            load_of (F.state self.old.tree.file).reads self.old.tree.root ≡ Result.Ok self.old.tree.tree →
            IfSome self.new.tree.stage (λ s. LeavesBytes self.old.tree.key self.old.tree.tree.head.wrapped
            (F.state self.old.tree.file).reads self.old.tree.root (F.state self.new.tree.file).reads s.root
            (write_range self.old.tree.tree.head.length (4096 + at) (length bytes.now)) (λ old. after_write old (4096 + at) bytes.now))) }
        ensures blocks { BlocksAnswer self.old.tree.key self.old.tree.tree (F.state self.old.tree.file) (F.state self.new.tree.file)
            (needs (write_range (4096 + size_in self.old) (4096 + at) (length bytes.now))) result }
        ensures corrupt { Told (F.state self.old.tree.file) (F.state self.new.tree.file) →
            CorruptAnswer (held_in self.old (F.state self.old.tree.file).reads)
            (needs_block (size_in self.old) (min at (size_in self.old)) (at + length bytes.now)) result }
        ensures widths { IfErr result HasFaultWidths }
        ensures early { IfErr result (λ e. IsEarlyFault e →
            Rests (F.state self.old.tree.file) (F.state self.new.tree.file) × (entropy.new ≡ entropy.old)) }
        ensures undrawn { IfErr result (λ e. IsDrawFault e → Rests (F.state self.old.tree.file) (F.state self.new.tree.file)) }
        ensures causes { HasCauses IsChangeFault (F.state self.old.tree.file) (F.state self.new.tree.file)
            (E.faults entropy.old) (E.faults entropy.new) (E.is_reliable entropy.old) (E.is_reliable entropy.new) result }
    {
        self.file
            .stage_write(alloc, FIRST_BLOCK + u64::from(at), bytes, entropy)
    }

    /// Makes the data so many bytes, with zero behind the old end, in the version that the committed tree does not select,
    /// and leaves it open as a stage.
    ///
    /// Of the old blocks it reads the one in which the nearer of the two ends lies, where that is no block's edge, before it
    /// draws or writes anything.
    ///
    /// # Errors
    ///
    /// As for a write.
    pub fn stage_truncate<E: Entropy>(
        &mut self,
        alloc: Global,
        size: u32,
        entropy: &mut E,
    ) -> Result<(), TreeFault>
        requires idle { self.old.tree.stage ≡ None }
        requires format { self.old.tree.root.format ≡ 2 }
        requires few { size ≤ 1044480 }
        ensures staged { StageAnswer F.state self.old.tree self.new.tree (4096 + size) result }
        ensures attributes { self.new.attributes ≡ self.old.attributes }
        // The stage's reference names the object of this size.
        ensures resized { OnOk result (Told (F.state self.old.tree.file) (F.state self.new.tree.file) →
            load_of (F.state self.old.tree.file).reads self.old.tree.root ≡ Result.Ok self.old.tree.tree →
            IfSome self.new.tree.stage (λ s. LeavesObject self.old.tree.key self.old.tree.tree.head.wrapped
            (F.state self.old.tree.file).reads self.old.tree.root (F.state self.new.tree.file).reads s.root
            (length self.old.attributes) (size_in self.old) size (λ c. resized_contents c size))) }
        // Once the stage is adopted, the object has this size.
        ensures holds { OnOk result (Told (F.state self.old.tree.file) (F.state self.new.tree.file) →
            load_of (F.state self.old.tree.file).reads self.old.tree.root ≡ Result.Ok self.old.tree.tree →
            IfSome self.new.tree.stage (HoldsAfter self.old self.new (F.state self.old.tree.file).reads (F.state self.new.tree.file).reads
            (λ c. resized_contents c size))) }
        // It writes no more than the write budget has for the blocks that the change meets and that hold bytes afterwards.
        ensures budget { WritesRange (resize_range self.old.tree.tree.head.length (4096 + size)) (4096 + size)
            self.old.tree.tree.head.greatest (F.state self.old.tree.file) (F.state self.new.tree.file) }
        // Of any file.
        ensures seals { OnOk result (IfSome self.new.tree.stage (λ s. SealsRange self.old.tree.key self.old.tree.tree s.tree
            (F.state self.old.tree.file) (F.state self.new.tree.file)
            (resize_range self.old.tree.tree.head.length (4096 + size)) (4096 + size) [] (4096 + size))) }
        // Of the tree's bytes: what lies behind the last one is zero, and a block that the change misses stays, good or bad.
        ensures cut { OnOk result (Told (F.state self.old.tree.file) (F.state self.new.tree.file) →
            load_of (F.state self.old.tree.file).reads self.old.tree.root ≡ Result.Ok self.old.tree.tree →
            IfSome self.new.tree.stage (λ s. LeavesBytes self.old.tree.key self.old.tree.tree.head.wrapped
            (F.state self.old.tree.file).reads self.old.tree.root (F.state self.new.tree.file).reads s.root
            (resize_range self.old.tree.tree.head.length (4096 + size)) (λ old. after_resize old (4096 + size)))) }
        ensures blocks { BlocksAnswer self.old.tree.key self.old.tree.tree (F.state self.old.tree.file) (F.state self.new.tree.file)
            (needs (resize_range (4096 + size_in self.old) (4096 + size))) result }
        ensures corrupt { Told (F.state self.old.tree.file) (F.state self.new.tree.file) →
            CorruptAnswer (held_in self.old (F.state self.old.tree.file).reads)
            (needs_block (size_in self.old) (min size (size_in self.old)) (max size (size_in self.old))) result }
        ensures widths { IfErr result HasFaultWidths }
        ensures early { IfErr result (λ e. IsEarlyFault e →
            Rests (F.state self.old.tree.file) (F.state self.new.tree.file) × (entropy.new ≡ entropy.old)) }
        ensures undrawn { IfErr result (λ e. IsDrawFault e → Rests (F.state self.old.tree.file) (F.state self.new.tree.file)) }
        ensures causes { HasCauses IsChangeFault (F.state self.old.tree.file) (F.state self.new.tree.file)
            (E.faults entropy.old) (E.faults entropy.new) (E.is_reliable entropy.old) (E.is_reliable entropy.new) result }
    {
        self.file
            .stage_truncate(alloc, FIRST_BLOCK + u64::from(size), entropy)
    }
}
