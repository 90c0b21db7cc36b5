//! What a change of an object's data needs, without the change.

ghost use Rattle.std.specs.Prelude.{◌≡◌, ◌+◌, ◌≤◌, max, min, IfErr};
ghost use Rattle.disk_model.specs.Calls.{Rests};
ghost use Rattle.htree_file.specs.Answers.{HasCause};
ghost use Rattle.htree_file.specs.Opening.{IsVerified};
ghost use Rattle.htree_file.specs.Standing.{Told};
ghost use Rattle.page_bytes.specs.Ranges.{needs, resize_range, write_range};
ghost use Rattle.block_file.specs.Reads.{BlocksAnswer, IsReadFault};
ghost use Rattle.store_model.specs.Data.{needs_block};
ghost use Rattle.object_file.specs.Corrupt.{CorruptAnswer};
ghost use Rattle.object_file.specs.Held.{held_in};
ghost use Rattle.object_file.specs.Value.{size_in};

use crate::object::{FIRST_BLOCK, ObjectFile};
use htree_file::TreeFault;
use tee_ports::StoreFile;

impl<F: StoreFile> ObjectFile<F> {
    /// Reads the blocks that a write of so many bytes of data at the place `at` reads before it draws or writes anything, and
    /// no more. Takes no memory.
    ///
    /// # Errors
    ///
    /// `BadTag` names the first of these blocks that has not the tag of its node, as the file reads when the call ends; the
    /// data begin with block 1. Besides `Failed`, where a call of the file failed.
    pub fn check_write(&mut self, at: u32, count: u32) -> Result<(), TreeFault>
        requires { at + count ≤ 1044480 }
        ensures blocks { BlocksAnswer self.old.tree.key self.old.tree.tree (F.state self.old.tree.file) (F.state self.new.tree.file)
            (needs (write_range self.old.tree.tree.head.length (4096 + at) count)) result }
        ensures corrupt { Told (F.state self.old.tree.file) (F.state self.new.tree.file) →
            CorruptAnswer (held_in self.old (F.state self.old.tree.file).reads)
            (needs_block (size_in self.old) (min at (size_in self.old)) (at + count)) result }
        ensures same { self.new ≡ record self.old { tree = record self.old.tree { file = self.new.tree.file } } }
        ensures rests { Rests (F.state self.old.tree.file) (F.state self.new.tree.file) }
        ensures verified { IsVerified self.old.tree.root self.old.tree.tree }
        ensures cause { HasCause (F.state self.old.tree.file) (F.state self.new.tree.file) result }
        ensures fault { IfErr result IsReadFault }
    {
        let place = u64::from(at);
        let many = u64::from(count);
        self.file.check_write(FIRST_BLOCK + place, many)
    }

    /// Reads the block that a truncation to so many bytes of data reads before it draws or writes anything, and no more. Takes no
    /// memory.
    ///
    /// # Errors
    ///
    /// As for a write.
    pub fn check_truncate(&mut self, size: u32) -> Result<(), TreeFault>
        requires { size ≤ 1044480 }
        ensures blocks { BlocksAnswer self.old.tree.key self.old.tree.tree (F.state self.old.tree.file) (F.state self.new.tree.file)
            (needs (resize_range self.old.tree.tree.head.length (4096 + size))) result }
        ensures corrupt { Told (F.state self.old.tree.file) (F.state self.new.tree.file) →
            CorruptAnswer (held_in self.old (F.state self.old.tree.file).reads)
            (needs_block (size_in self.old) (min size (size_in self.old)) (max size (size_in self.old))) result }
        ensures same { self.new ≡ record self.old { tree = record self.old.tree { file = self.new.tree.file } } }
        ensures rests { Rests (F.state self.old.tree.file) (F.state self.new.tree.file) }
        ensures verified { IsVerified self.old.tree.root self.old.tree.tree }
        ensures cause { HasCause (F.state self.old.tree.file) (F.state self.new.tree.file) result }
        ensures fault { IfErr result IsReadFault }
    {
        let all = u64::from(size);
        self.file.check_truncate(FIRST_BLOCK + all)
    }
}
