//! An object in its tree.

ghost use Rattle.std.specs.Prelude.{◌≡◌, ◌⊎◌, ◌+◌, ◌-◌, ◌<◌, ◌≤◌, ◌++◌, length, drop, min, true, None, Some, IfErr, IfOk, IfSome, IsSome, IsSomeAnd, IsTrue, OnErr, OnOk, Result};
ghost use Rattle.aes_block.specs.WrappedKey.{unwrapped_of};
ghost use Rattle.disk_model.specs.Arms.{count_call};
ghost use Rattle.disk_model.specs.Calls.{Known, Rests, Syncs};
ghost use Rattle.disk_model.specs.Keeps.{Anywhere, Keeps};
ghost use Rattle.disk_model.specs.Seen.{WasSeen};
ghost use Rattle.htree_file.specs.Answers.{FilePassed, HasCause, HasFaultWidths, IsFailed};
ghost use Rattle.htree_file.specs.Opening.{IsVerified, load_of, table_of};
ghost use Rattle.htree_file.specs.Selected.{KeepsFirm, Lies};
ghost use Rattle.htree_file.specs.Standing.{IsFirm, Told};
ghost use Rattle.page_bytes.specs.Ranges.{meets, read_range};
ghost use Rattle.block_file.specs.Parts.{PageAnswer};
ghost use Rattle.block_file.specs.Reads.{AreReadBytes, BlocksAnswer, IsReadFault, after_calls, blocks_of};
ghost use Rattle.store_model.specs.Data.{bytes_at, meets_block};
ghost use Rattle.store_model.specs.Object.{Damaged, Sound};
ghost use Rattle.crash_core.specs.MountedObject.{mounted_object, root_of};
ghost use Rattle.dir_records.specs.Form.{HasForm};
ghost use Rattle.object_file.specs.Value.{size_in};
ghost use Rattle.object_file.specs.Held.{held_in};
ghost use Rattle.object_file.specs.Loading.{HasObjectWidths, IsFirstRead, IsObjectFault, IsOutsideObject, ObjectCause, ObjectDiffers, fault_of};
ghost use Rattle.object_file.specs.Corrupt.{CorruptAnswer};

use crate::fault::{ObjectBroken, ObjectFault};
use crate::loading::read_attributes;
use block_file::BlockFile;
use dir_records::DirEntry;
use htree_file::{Broken, Page, Tree, TreeFault};
use node_image::RootRef;
use std::alloc::Global;
use std::marker::Model;
use tee_ports::StoreFile;

/// How many bytes the block with the attributes has, which stands before the data.
pub(crate) const FIRST_BLOCK: u64 = 4096;

/// An object that was made in a file, or loaded from one. It keeps the attributes in memory. Places are counted from 0.
#[derive(Drop)]
pub struct ObjectFile<F: StoreFile> {
    pub(crate) file: BlockFile<F>,
    pub(crate) attributes: Vec<u8>,
}

impl<F: StoreFile> Model for ObjectFile<F> {
    ghost use Rattle.std.specs.Prelude.{◌≤◌, length, IfSome};
    ghost use Rattle.object_file.specs.Value.{ObjectValue};

    ghost Value = { ObjectValue F };

    ghost view = { λ o. record { tree = o.file; attributes = o.attributes.items } };

    ghost invariant = { λ o. (4096 ≤ o.file.tree.head.length) × (o.file.tree.head.length ≤ 1048576)
        × (length o.attributes.items ≤ 2048)
        × IfSome o.file.stage (λ s. (4096 ≤ s.tree.head.length) × (s.tree.head.length ≤ 1048576)) };
}

impl<F: StoreFile> ObjectFile<F> {
    /// Loads the object that an entry of the directory names in its file. `tsk` is the key of the application, which wraps
    /// the file's key.
    ///
    /// Each call of the file is a read: those that load the tree, and one of block 0, which has the attributes.
    ///
    /// # Errors
    ///
    /// The first that holds: the tree's fault where the entry's reference names no tree; `WrongSize` where the tree has not
    /// 4,096 bytes more than the entry's size; `BadTag` where block 0 has not the tag of its node, also where the object has
    /// no attributes. On a file that is neither honest nor steady, a tree's fault and a bad tag say what the file reads as when
    /// the call ends, and `WrongSize` has the length of a tree that is verified under the entry's reference. Besides
    /// `Failed`, where a call of the file failed, and `NoMemory`.
    pub fn load(
        alloc: Global,
        file: F,
        tsk: &[u8; 32],
        entry: &DirEntry,
    ) -> Result<ObjectFile<F>, ObjectBroken<F>>
        requires { HasForm entry.now }
        ensures root { IfOk result (λ o. o.tree.root ≡ root_of entry.now) }
        ensures idle { IfOk result (λ o. o.tree.stage ≡ None) }
        ensures key { IfOk result (λ o. o.tree.key ≡ unwrapped_of tsk.now o.tree.tree.head.wrapped) }
        ensures verified { IfOk result (λ o. IsVerified o.tree.root o.tree.tree) }
        ensures size { IfOk result (λ o. o.tree.tree.head.length ≡ 4096 + entry.now.size) }
        ensures attributes { IfOk result (λ o. length o.attributes ≡ entry.now.attributes) }
        ensures bytes { IfOk result (λ o. AreReadBytes o.tree.key o.tree.tree (F.state file) (F.state o.tree.file) 0
            o.attributes entry.now.attributes) }
        ensures first { IfOk result (λ o. IsFirstRead o.tree.key o.tree.tree (F.state file) (F.state o.tree.file)
            o.attributes entry.now.attributes) }
        ensures loaded { IfOk result (λ o. Told (F.state file) (F.state o.tree.file) →
            load_of (F.state o.tree.file).reads o.tree.root ≡ Result.Ok o.tree.tree) }
        ensures object { IfOk result (λ o. Told (F.state file) (F.state o.tree.file) →
            mounted_object tsk.now (F.state o.tree.file).reads entry.now ≡ Sound (held_in o (F.state o.tree.file).reads)) }
        ensures faultless { IfOk result (λ o. Told (F.state file) (F.state o.tree.file) →
            fault_of tsk.now (F.state o.tree.file).reads entry.now ≡ None) }
        ensures fault { IfErr result (λ b. IsOutsideObject b.fault ⊎ (Told (F.state file) (F.state b.file) →
            fault_of tsk.now (F.state b.file).reads entry.now ≡ Some b.fault)) }
        ensures damaged { IfErr result (λ b. IsOutsideObject b.fault ⊎ (Told (F.state file) (F.state b.file) →
            mounted_object tsk.now (F.state b.file).reads entry.now ≡ Damaged entry.now.size)) }
        // Of any file.
        ensures seen { IfOk result (λ o. WasSeen (Lies o.tree.tree.layout o.tree.tree.nodes o.tree.root.version) (F.state file) (F.state o.tree.file)
            (λ image. table_of image o.tree.root ≡ Result.Ok o.tree.tree)) }
        ensures differs { IfErr result (λ b. ObjectDiffers tsk.now (F.state b.file) entry.now b.fault) }
        ensures kind { IfErr result (λ b. IsObjectFault b.fault) }
        ensures widths { IfErr result (λ b. HasObjectWidths b.fault) }
        ensures rests { IfOk result (λ o. Rests (F.state file) (F.state o.tree.file)) }
        ensures rests_err { IfErr result (λ b. Rests (F.state file) (F.state b.file)) }
        ensures passed { IfOk result (λ o. FilePassed (F.state file) (F.state o.tree.file)) }
        ensures three { IfOk result (λ o. IsTrue (F.state file).tells_arms →
            (F.state o.tree.file).arms ≡ after_calls 3 (F.state file).arms) }
        ensures cause { IfErr result (λ b. ObjectCause (F.state file) (F.state b.file) b.fault) }
    {
        let root = RootRef {
            hash: entry.hash,
            version: entry.version,
            format: entry.format,
        };
        let tree = match Tree::load(alloc, file, tsk, root) {
            Ok(tree) => tree,
            Err(Broken { file, fault }) => {
                let fault = ObjectFault::Tree(fault);
                return Err(ObjectBroken { file, fault });
            }
        };
        let mut file = BlockFile::new(tree);
        match read_attributes(alloc, &mut file, entry) {
            Ok(attributes) => Ok(ObjectFile { file, attributes }),
            Err(fault) => {
                let file = file.into_file();
                Err(ObjectBroken { file, fault })
            }
        }
    }

    /// The attributes, at most 2,048 bytes.
    pub fn attributes(&self) -> &[u8]
        ensures attributes { result.now ≡ self.now.attributes }
        ensures few { length result.now ≤ 2048 }
    {
        self.attributes.as_slice()
    }

    /// How many bytes of data there are, at most 1,044,480.
    pub fn size(&self) -> u32
        ensures size { result ≡ size_in self.now }
        ensures few { result ≤ 1044480 }
        ensures whole { self.now.tree.tree.head.length ≡ 4096 + result }
        ensures verified { IsVerified self.now.tree.root self.now.tree.tree }
    {
        (self.file.length() - FIRST_BLOCK) as u32
    }

    /// Reads data from the place `at` on into the front of `into`, fewer bytes where the end is nearer, and says how many.
    /// It reads each block that has one of these bytes, once. Takes no memory.
    ///
    /// # Errors
    ///
    /// `BadTag` names the first of these blocks that has not the tag of its node, as the file reads when the call ends; the
    /// data begin with block 1. Besides `Failed`, where a call of the file failed. The front of `into` may then hold
    /// anything.
    pub fn read(&mut self, at: u32, into: &mut [u8]) -> Result<usize, TreeFault>
        ensures count { IfOk result (λ n. n ≡ min (length into.old) (size_in self.old - at)) }
        // Of any file.
        ensures bytes { IfOk result (λ n. AreReadBytes self.old.tree.key self.old.tree.tree
            (F.state self.old.tree.file) (F.state self.new.tree.file) (4096 + at) into.new n) }
        ensures blocks { BlocksAnswer self.old.tree.key self.old.tree.tree (F.state self.old.tree.file) (F.state self.new.tree.file)
            (meets (4096 + at) (4096 + at + min (length into.old) (size_in self.old - at))) result }
        ensures widths { IfErr result HasFaultWidths }
        // Of a file that can be followed.
        ensures content { IfOk result (λ n. Told (F.state self.old.tree.file) (F.state self.new.tree.file) → into.new
            ≡ bytes_at (held_in self.old (F.state self.old.tree.file).reads).bytes at (length into.old) ++ drop n into.old) }
        // Each block is read once, and nothing else is asked of the file.
        ensures once { IfOk result (λ n. IsTrue (F.state self.old.tree.file).tells_arms → (F.state self.new.tree.file).arms
            ≡ after_calls (blocks_of (read_range self.old.tree.tree.head.length (4096 + at) (length into.old))) (F.state self.old.tree.file).arms) }
        ensures corrupt { Told (F.state self.old.tree.file) (F.state self.new.tree.file) →
            CorruptAnswer (held_in self.old (F.state self.old.tree.file).reads)
            (meets_block at (at + min (length into.old) (size_in self.old - at))) result }
        ensures rest { drop (min (length into.old) (size_in self.old - at)) into.new
            ≡ drop (min (length into.old) (size_in self.old - at)) into.old }
        ensures verified { IsVerified self.old.tree.root self.old.tree.tree }
        ensures same { self.new ≡ record self.old { tree = record self.old.tree { file = self.new.tree.file } } }
        ensures rests { Rests (F.state self.old.tree.file) (F.state self.new.tree.file) }
        ensures cause { HasCause (F.state self.old.tree.file) (F.state self.new.tree.file) result }
        ensures fault { IfErr result IsReadFault }
    {
        self.file.read(FIRST_BLOCK + u64::from(at), into)
    }

    /// Reads block `k` of the object's tree into the page. Block 0 has the attributes, and the data begin with block 1. Takes no memory.
    ///
    /// # Errors
    ///
    /// `BadTag` where the block has not the tag of its node, as the file reads when the call ends. Besides `Failed`, where a call of the
    /// file failed. The page may then hold anything.
    pub fn read_page(&mut self, k: u32, page: &mut Page) -> Result<(), TreeFault>
        requires { k < self.old.tree.tree.head.greatest }
        ensures answer { PageAnswer self.old.tree.key self.old.tree.tree
            (F.state self.old.tree.file) (F.state self.new.tree.file) k result page.new }
        ensures widths { IfErr result HasFaultWidths }
        // The block is read once, and nothing else is asked of the file.
        ensures once { IsTrue (F.state self.old.tree.file).tells_arms →
            (F.state self.new.tree.file).arms ≡ count_call (F.state self.old.tree.file).arms }
        ensures same { self.new ≡ record self.old { tree = record self.old.tree { file = self.new.tree.file } } }
        ensures rests { Rests (F.state self.old.tree.file) (F.state self.new.tree.file) }
        ensures cause { HasCause (F.state self.old.tree.file) (F.state self.new.tree.file) result }
    {
        self.file.read_page(k, page)
    }

    /// Settles the stage, and gives its reference.
    ///
    /// # Errors
    ///
    /// `Failed` where the call of the file failed. The stage stays open, and may be settled again or dropped.
    pub fn settle(&mut self) -> Result<RootRef, TreeFault>
        requires open { IsSome self.old.tree.stage }
        ensures settled { IfOk result (λ root. IfSome self.old.tree.stage (λ s.
            (root ≡ s.root) × (self.new.tree.stage ≡ Some (record s { settled = true })))) }
        ensures synced { OnOk result (Syncs (F.state self.old.tree.file) (F.state self.new.tree.file)) }
        ensures open { OnErr result (self.new.tree.stage ≡ self.old.tree.stage) }
        ensures same { self.new ≡ record self.old { tree = record self.old.tree { file = self.new.tree.file; stage = self.new.tree.stage } } }
        ensures reads { Known (F.state self.old.tree.file) (F.state self.new.tree.file) →
            (F.state self.new.tree.file).reads ≡ (F.state self.old.tree.file).reads }
        ensures firm { KeepsFirm (F.state self.old.tree.file) (F.state self.new.tree.file) self.old.tree.root self.old.tree.tree }
        ensures keeps { Keeps Anywhere (F.state self.old.tree.file) (F.state self.new.tree.file) }
        // Once settled, the stage's reference opens to its tree in every image.
        ensures next_firm { OnOk result (IfSome self.old.tree.stage (λ s. IsTrue (F.state self.new.tree.file).honest →
            load_of (F.state self.old.tree.file).reads s.root ≡ Result.Ok s.tree →
            IsFirm (F.state self.new.tree.file) s.root s.tree)) }
        ensures fault { IfErr result IsFailed }
        ensures cause { HasCause (F.state self.old.tree.file) (F.state self.new.tree.file) result }
    {
        self.file.settle()
    }

    /// Makes the settled stage the committed tree. No call of the file is made.
    pub fn adopt(&mut self)
        requires settled { IsSomeAnd self.old.tree.stage (λ s. IsTrue s.settled) }
        ensures committed { IfSome self.old.tree.stage (λ s. self.new ≡
            record self.old { tree = record self.old.tree { root = s.root; tree = s.tree; stage = None } }) }
    {
        self.file.adopt();
    }

    /// Gives up the stage, if one is open. The committed tree stays. No call of the file is made.
    pub fn drop_stage(&mut self)
        ensures same { self.new ≡ record self.old { tree = record self.old.tree { stage = None } } }
        ensures firm { KeepsFirm (F.state self.old.tree.file) (F.state self.new.tree.file) self.old.tree.root self.old.tree.tree }
    {
        self.file.drop_stage();
    }

    /// Gives the file back.
    pub fn into_file(self) -> F
        ensures { result ≡ self.tree.file }
    {
        let ObjectFile {
            file,
            attributes: _,
        } = self;
        file.into_file()
    }
}
