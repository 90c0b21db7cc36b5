//! What a change needs, without the change.

ghost use Rattle.std.specs.Prelude.{◌≡◌, ◌+◌, ◌<◌, ◌^◌, IfErr};
ghost use Rattle.disk_model.specs.Calls.{Rests};
ghost use Rattle.htree_file.specs.Answers.{HasCause};
ghost use Rattle.htree_file.specs.Opening.{IsVerified};
ghost use Rattle.page_bytes.specs.Ranges.{needs, resize_range, write_range};
ghost use Rattle.block_file.specs.Reads.{BlocksAnswer, IsReadFault};

use crate::file::BlockFile;
use htree_file::TreeFault;
use page_bytes::ByteRange;
use tee_ports::StoreFile;

impl<F: StoreFile> BlockFile<F> {
    // Reads each block that the change of a range needs, one after the other into one page.
    fn check_range(&mut self, range: ByteRange) -> Result<(), TreeFault>
        requires verified { IsVerified self.old.root self.old.tree }
        requires size { range.size ≡ self.old.tree.head.length }
        requires ends { (range.first < 2 ^ 32) × (range.last < 2 ^ 32) }
        ensures blocks { BlocksAnswer self.old.key self.old.tree (F.state self.old.file) (F.state self.new.file) (needs range) result }
        ensures same { self.new ≡ record self.old { file = self.new.file } }
        ensures rests { Rests (F.state self.old.file) (F.state self.new.file) }
        ensures cause { HasCause (F.state self.old.file) (F.state self.new.file) result }
        ensures fault { IfErr result IsReadFault }
    {
        let mut page = [0; 4096];
        for k in range.first_block()..range.end_block() {
            self.read_needed(range, k, &mut page)?;
        }
        Ok(())
    }

    /// Reads the blocks that a write of so many bytes at the place `at` reads before it draws or writes anything, and no
    /// more. Takes no memory.
    ///
    /// # Errors
    ///
    /// `BadTag` names the first of these blocks that has not the tag of its node, as the file reads when the call ends. Besides
    /// `Failed`, where a call of the file failed.
    pub fn check_write(&mut self, at: u64, count: u64) -> Result<(), TreeFault>
        requires { at + count < 2 ^ 32 }
        ensures blocks { BlocksAnswer self.old.key self.old.tree (F.state self.old.file) (F.state self.new.file)
            (needs (write_range self.old.tree.head.length at count)) result }
        ensures same { self.new ≡ record self.old { file = self.new.file } }
        ensures rests { Rests (F.state self.old.file) (F.state self.new.file) }
        ensures verified { IsVerified self.old.root self.old.tree }
        ensures cause { HasCause (F.state self.old.file) (F.state self.new.file) result }
        ensures fault { IfErr result IsReadFault }
    {
        let range = ByteRange::of_write(self.length(), at, count);
        self.check_range(range)
    }

    /// Reads the block that a truncation to so many bytes reads before it draws or writes anything, and no more. Takes no
    /// memory.
    ///
    /// # Errors
    ///
    /// As for a write.
    pub fn check_truncate(&mut self, size: u64) -> Result<(), TreeFault>
        requires { size < 2 ^ 32 }
        ensures blocks { BlocksAnswer self.old.key self.old.tree (F.state self.old.file) (F.state self.new.file)
            (needs (resize_range self.old.tree.head.length size)) result }
        ensures same { self.new ≡ record self.old { file = self.new.file } }
        ensures rests { Rests (F.state self.old.file) (F.state self.new.file) }
        ensures verified { IsVerified self.old.root self.old.tree }
        ensures cause { HasCause (F.state self.old.file) (F.state self.new.file) result }
        ensures fault { IfErr result IsReadFault }
    {
        let range = ByteRange::of_resize(self.length(), size);
        self.check_range(range)
    }
}
