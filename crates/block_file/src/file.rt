//! Bytes over a tree.

ghost use Rattle.std.specs.Prelude.{◌≡◌, ◌+◌, ◌-◌, ◌*◌, ◌<◌, ◌≤◌, ◌++◌, length, drop, min, true, None, IfErr, IfOk, IfSome, IsSome, IsSomeAnd, IsTrue, OnErr, OnOk, Result};
ghost use Rattle.disk_model.specs.Arms.{count_call};
ghost use Rattle.disk_model.specs.Calls.{Known, Rests, Syncs};
ghost use Rattle.disk_model.specs.Keeps.{Anywhere, Keeps};
ghost use Rattle.htree_file.specs.Answers.{HasCause, HasFaultWidths, IsFailed};
ghost use Rattle.htree_file.specs.Opening.{IsVerified, load_of};
ghost use Rattle.htree_file.specs.Pages.{page_in};
ghost use Rattle.htree_file.specs.Selected.{KeepsFirm};
ghost use Rattle.htree_file.specs.Standing.{IsFirm, Told};
ghost use Rattle.page_bytes.specs.Pages.{bytes_from};
ghost use Rattle.page_bytes.specs.Ranges.{meets, read_range};
ghost use Rattle.block_file.specs.Parts.{PageAnswer, PartAnswer};
ghost use Rattle.block_file.specs.Reads.{AreReadBytes, BlocksAnswer, IsReadFault, after_calls, blocks_of};

use htree_file::{Page, Tree, TreeFault};
use node_image::RootRef;
use page_bytes::ByteRange;
use std::marker::Model;
use tee_ports::StoreFile;

/// A tree seen as the bytes that it holds. Places are counted from 0.
#[derive(Drop)]
pub struct BlockFile<F: StoreFile> {
    pub(crate) tree: Tree<F>,
}

impl<F: StoreFile> Model for BlockFile<F> {
    ghost use Rattle.htree_file.specs.Value.{TreeValue};

    ghost Value = { TreeValue F };

    ghost view = { λ b. b.tree };
}

impl<F: StoreFile> BlockFile<F> {
    /// The bytes of a tree without a stage, which was made or loaded.
    pub fn new(tree: Tree<F>) -> BlockFile<F>
        requires { tree.stage ≡ None }
        ensures { result ≡ tree }
    {
        BlockFile { tree }
    }

    /// How many bytes there are, at most 1,048,576.
    pub fn length(&self) -> u64
        ensures length { result ≡ self.now.tree.head.length }
        ensures few { result ≤ 1048576 }
        ensures verified { IsVerified self.now.root self.now.tree }
    {
        self.tree.length()
    }

    /// Reads block `k` into the page. Takes no memory.
    ///
    /// # Errors
    ///
    /// `BadTag` where the block has not the tag of its node, as the file reads when the call ends. Besides `Failed`, where a call of the
    /// file failed. The page may then hold anything.
    pub fn read_page(&mut self, k: u32, page: &mut Page) -> Result<(), TreeFault>
        requires { k < self.old.tree.head.greatest }
        ensures answer { PageAnswer self.old.key self.old.tree (F.state self.old.file) (F.state self.new.file) k result page.new }
        ensures widths { IfErr result HasFaultWidths }
        ensures once { IsTrue (F.state self.old.file).tells_arms → (F.state self.new.file).arms ≡ count_call (F.state self.old.file).arms }
        ensures same { self.new ≡ record self.old { file = self.new.file } }
        ensures rests { Rests (F.state self.old.file) (F.state self.new.file) }
        ensures cause { HasCause (F.state self.old.file) (F.state self.new.file) result }
    {
        self.tree.read_block(k, page)
    }

    // Reads block k into as many bytes as a block has.
    fn read_whole(&mut self, k: u32, into: &mut [u8]) -> Result<(), TreeFault>
        requires block { k < self.old.tree.head.greatest }
        requires long { length into.old ≡ 4096 }
        ensures answer { PageAnswer self.old.key self.old.tree (F.state self.old.file) (F.state self.new.file) k result into.new }
        ensures widths { IfErr result HasFaultWidths }
        ensures once { IsTrue (F.state self.old.file).tells_arms → (F.state self.new.file).arms ≡ count_call (F.state self.old.file).arms }
        ensures same { self.new ≡ record self.old { file = self.new.file } }
        ensures rests { Rests (F.state self.old.file) (F.state self.new.file) }
        ensures cause { HasCause (F.state self.old.file) (F.state self.new.file) result }
    {
        let page = into.first_chunk_mut::<4096>().unwrap();
        self.read_page(k, page)
    }

    // Reads block k, of which all bytes are in the range, where they belong.
    fn read_inside(&mut self, range: ByteRange, k: u32, into: &mut [u8]) -> Result<(), TreeFault>
        requires block { k < self.old.tree.head.greatest }
        requires room { range.last ≤ range.first + length into.old }
        requires whole { (range.first ≤ 4096 * k) × (4096 * (k + 1) ≤ range.last) }
        ensures answer { PartAnswer self.old.key self.old.tree (F.state self.old.file) (F.state self.new.file) range k into.old into.new result }
        ensures widths { IfErr result HasFaultWidths }
        ensures once { IsTrue (F.state self.old.file).tells_arms → (F.state self.new.file).arms ≡ count_call (F.state self.old.file).arms }
        ensures same { self.new ≡ record self.old { file = self.new.file } }
        ensures rests { Rests (F.state self.old.file) (F.state self.new.file) }
        ensures cause { HasCause (F.state self.old.file) (F.state self.new.file) result }
    {
        let begin = (4096 * u64::from(k) - range.first) as usize;
        self.read_whole(k, &mut into[begin..begin + 4096])
    }

    // Reads block k, and copies those of its bytes that are in the range where they belong.
    fn read_split(&mut self, range: ByteRange, k: u32, into: &mut [u8]) -> Result<(), TreeFault>
        requires block { k < self.old.tree.head.greatest }
        requires room { range.last ≤ range.first + length into.old }
        ensures answer { PartAnswer self.old.key self.old.tree (F.state self.old.file) (F.state self.new.file) range k into.old into.new result }
        ensures widths { IfErr result HasFaultWidths }
        ensures once { IsTrue (F.state self.old.file).tells_arms → (F.state self.new.file).arms ≡ count_call (F.state self.old.file).arms }
        ensures same { self.new ≡ record self.old { file = self.new.file } }
        ensures rests { Rests (F.state self.old.file) (F.state self.new.file) }
        ensures cause { HasCause (F.state self.old.file) (F.state self.new.file) result }
    {
        let mut page = [0; 4096];
        self.read_page(k, &mut page)?;
        range.copy_out(k, &page, into);
        Ok(())
    }

    // Reads block k, and puts those of its bytes that are in the range where they belong.
    fn read_part(&mut self, range: ByteRange, k: u32, into: &mut [u8]) -> Result<(), TreeFault>
        requires block { k < self.old.tree.head.greatest }
        requires room { range.last ≤ range.first + length into.old }
        ensures answer { PartAnswer self.old.key self.old.tree (F.state self.old.file) (F.state self.new.file) range k into.old into.new result }
        ensures widths { IfErr result HasFaultWidths }
        ensures once { IsTrue (F.state self.old.file).tells_arms → (F.state self.new.file).arms ≡ count_call (F.state self.old.file).arms }
        ensures same { self.new ≡ record self.old { file = self.new.file } }
        ensures rests { Rests (F.state self.old.file) (F.state self.new.file) }
        ensures cause { HasCause (F.state self.old.file) (F.state self.new.file) result }
    {
        if range.has_whole(k) {
            self.read_inside(range, k, into)
        } else {
            self.read_split(range, k, into)
        }
    }

    /// Reads bytes from the place `at` on into the front of `into`, fewer where the end is nearer, and says how many.
    /// It reads each block that has one of these bytes, once, and deciphers a whole one where its bytes belong. Takes no memory.
    ///
    /// # Errors
    ///
    /// `BadTag` names the first of these blocks that has not the tag of its node, as the file reads when the call ends.
    /// Besides `Failed`, where a call of the file failed. The front of `into` may then hold anything.
    pub fn read(&mut self, at: u64, into: &mut [u8]) -> Result<usize, TreeFault>
        ensures count { IfOk result (λ n. n ≡ min (length into.old) (self.old.tree.head.length - at)) }
        // Of any file.
        ensures bytes { IfOk result (λ n. AreReadBytes self.old.key self.old.tree (F.state self.old.file) (F.state self.new.file) at into.new n) }
        ensures blocks { BlocksAnswer self.old.key self.old.tree (F.state self.old.file) (F.state self.new.file)
            (meets at (at + min (length into.old) (self.old.tree.head.length - at))) result }
        ensures widths { IfErr result HasFaultWidths }
        // Each block is read once, and nothing else is asked of the file.
        ensures once { IfOk result (λ n. IsTrue (F.state self.old.file).tells_arms → (F.state self.new.file).arms
            ≡ after_calls (blocks_of (read_range self.old.tree.head.length at (length into.old))) (F.state self.old.file).arms) }
        // Of a file that can be followed.
        ensures content { IfOk result (λ n. Told (F.state self.old.file) (F.state self.new.file) →
            into.new ≡ bytes_from (page_in (F.state self.old.file).reads self.old.key self.old.tree) at n ++ drop n into.old) }
        ensures rest { drop (min (length into.old) (self.old.tree.head.length - at)) into.new
            ≡ drop (min (length into.old) (self.old.tree.head.length - at)) into.old }
        ensures verified { IsVerified self.old.root self.old.tree }
        ensures same { self.new ≡ record self.old { file = self.new.file } }
        ensures rests { Rests (F.state self.old.file) (F.state self.new.file) }
        ensures cause { HasCause (F.state self.old.file) (F.state self.new.file) result }
        ensures fault { IfErr result IsReadFault }
    {
        let range = ByteRange::of_read(self.length(), at, into.len() as u64);
        for k in range.first_block()..range.end_block() {
            self.read_part(range, k, into)?;
        }
        Ok((range.last - range.first) as usize)
    }

    /// Settles the stage, and gives its reference.
    ///
    /// # Errors
    ///
    /// `Failed` where the call of the file failed. The stage stays open, and may be settled again or dropped.
    pub fn settle(&mut self) -> Result<RootRef, TreeFault>
        requires open { IsSome self.old.stage }
        ensures settled { IfOk result (λ root. IfSome self.old.stage (λ s.
            (root ≡ s.root) × (self.new.stage ≡ Some (record s { settled = true })))) }
        ensures synced { OnOk result (Syncs (F.state self.old.file) (F.state self.new.file)) }
        ensures open { OnErr result (self.new.stage ≡ self.old.stage) }
        ensures same { self.new ≡ record self.old { file = self.new.file; stage = self.new.stage } }
        ensures reads { Known (F.state self.old.file) (F.state self.new.file) →
            (F.state self.new.file).reads ≡ (F.state self.old.file).reads }
        ensures firm { KeepsFirm (F.state self.old.file) (F.state self.new.file) self.old.root self.old.tree }
        ensures keeps { Keeps Anywhere (F.state self.old.file) (F.state self.new.file) }
        // Once settled, the stage's reference opens to its tree in every image.
        ensures next_firm { OnOk result (IfSome self.old.stage (λ s. IsTrue (F.state self.new.file).honest →
            load_of (F.state self.old.file).reads s.root ≡ Result.Ok s.tree → IsFirm (F.state self.new.file) s.root s.tree)) }
        ensures fault { IfErr result IsFailed }
        ensures cause { HasCause (F.state self.old.file) (F.state self.new.file) result }
    {
        self.tree.settle()
    }

    /// Makes the settled stage the committed tree. No call of the file is made.
    pub fn adopt(&mut self)
        requires settled { IsSomeAnd self.old.stage (λ s. IsTrue s.settled) }
        ensures committed { IfSome self.old.stage (λ s.
            self.new ≡ record self.old { root = s.root; tree = s.tree; stage = None }) }
    {
        self.tree.adopt();
    }

    /// Gives up the stage, if one is open. The committed tree stays. No call of the file is made.
    pub fn drop_stage(&mut self)
        ensures same { self.new ≡ record self.old { stage = None } }
        ensures firm { KeepsFirm (F.state self.old.file) (F.state self.new.file) self.old.root self.old.tree }
    {
        self.tree.drop_stage();
    }

    /// Gives the file back.
    pub fn into_file(self) -> F
        ensures { result ≡ self.file }
    {
        let BlockFile { tree } = self;
        tree.into_file()
    }
}
