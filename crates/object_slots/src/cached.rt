// Committed objects whose pages are kept.
ghost use Rattle.std.specs.Prelude.{◌≡◌, ◌+◌, ◌-◌, ◌≤◌, ◌++◌, length, drop, min, None, IfErr, IfOk, IfSome, IsSomeAnd, IsTrue};
ghost use Rattle.disk_model.specs.Calls.{Rests};
ghost use Rattle.htree_file.specs.Answers.{HasCause};
ghost use Rattle.htree_file.specs.Opening.{IsVerified};
ghost use Rattle.htree_file.specs.Standing.{Told};
ghost use Rattle.page_bytes.specs.Ranges.{meets, read_range};
ghost use Rattle.block_file.specs.Reads.{AreReadBytes, BlocksAnswer, IsReadFault, blocks_of};
ghost use Rattle.store_model.specs.Data.{bytes_at, meets_block};
ghost use Rattle.object_file.specs.Corrupt.{CorruptAnswer};
ghost use Rattle.object_file.specs.Held.{held_in};
ghost use Rattle.object_file.specs.Value.{size_in};
ghost use Rattle.object_slots.specs.SlotReads.{AsksAtMost};

use crate::cached_reads::{FIRST_BLOCK, read_bytes};
use crate::page_cache::PageCache;
use htree_file::TreeFault;
use object_file::ObjectFile;
use std::alloc::Global;
use std::marker::Model;
use tee_ports::StoreFile;

/// An object, with pages of its committed tree that are kept in memory. A contract sees it as the object alone.
#[derive(Drop)]
pub(crate) struct CachedObject<F: StoreFile + Drop> {
    object: ObjectFile<F>,
    pages: PageCache,
}

impl<F: StoreFile + Drop> Model for CachedObject<F> {
    ghost use Rattle.object_file.specs.Value.{ObjectValue};
    ghost use Rattle.object_slots.specs.CachedPages.{AreKept};

    ghost Value = { ObjectValue F };

    ghost view = { λ c. c.object };

    ghost invariant = { λ c. AreKept F.state c.object.tree c.pages };
}

impl<F: StoreFile + Drop> CachedObject<F> {
    /// The object, of which no page is kept yet.
    pub(crate) fn new(alloc: Global, object: ObjectFile<F>) -> CachedObject<F>
        ensures { result ≡ object }
    {
        CachedObject {
            object,
            pages: PageCache::new(alloc),
        }
    }

    /// The object alone. Its pages are let go.
    pub(crate) fn into_object(self) -> ObjectFile<F>
        ensures { result ≡ self }
    {
        let CachedObject { object, pages: _ } = self;
        object
    }

    /// The file alone.
    pub(crate) fn into_file(self) -> F
        ensures { result ≡ self.tree.file }
    {
        self.into_object().into_file()
    }

    /// The attributes, at most 2,048 bytes.
    pub(crate) fn attributes(&self) -> &[u8]
        ensures attributes { result.now ≡ self.now.attributes }
        ensures few { length result.now ≤ 2048 }
    {
        self.object.attributes()
    }

    /// How many bytes of data there are, at most 1,044,480.
    pub(crate) fn size(&self) -> u32
        ensures size { result ≡ size_in self.now }
        ensures few { result ≤ 1044480 }
        ensures whole { self.now.tree.tree.head.length ≡ 4096 + result }
        ensures verified { IsVerified self.now.tree.root self.now.tree.tree }
    {
        self.object.size()
    }

    /// Reads data from the place `at` on into the front of `into`, fewer bytes where the end is nearer, and says how many. It reads each
    /// block that has one of these bytes and whose page is not kept, once.
    ///
    /// # Errors
    ///
    /// `BadTag` names the first of these blocks that has not the tag of its node, as the file reads when the call ends. Besides `Failed`.
    pub(crate) fn read(&mut self, at: u32, into: &mut [u8]) -> Result<usize, TreeFault>
        ensures count { IfOk result (λ n. n ≡ min (length into.old) (size_in self.old - at)) }
        ensures bytes { IfOk result (λ n. AreReadBytes self.old.tree.key self.old.tree.tree
            (F.state self.old.tree.file) (F.state self.new.tree.file) (4096 + at) into.new n) }
        ensures blocks { BlocksAnswer self.old.tree.key self.old.tree.tree (F.state self.old.tree.file) (F.state self.new.tree.file)
            (meets (4096 + at) (4096 + at + min (length into.old) (size_in self.old - at))) result }
        ensures content { IfOk result (λ n. Told (F.state self.old.tree.file) (F.state self.new.tree.file) → into.new
            ≡ bytes_at (held_in self.old (F.state self.old.tree.file).reads).bytes at (length into.old) ++ drop n into.old) }
        ensures asks { IfOk result (λ n. AsksAtMost (blocks_of (read_range self.old.tree.tree.head.length (4096 + at) (length into.old)))
            (F.state self.old.tree.file) (F.state self.new.tree.file)) }
        ensures corrupt { Told (F.state self.old.tree.file) (F.state self.new.tree.file) →
            CorruptAnswer (held_in self.old (F.state self.old.tree.file).reads)
            (meets_block at (at + min (length into.old) (size_in self.old - at))) result }
        ensures rest { drop (min (length into.old) (size_in self.old - at)) into.new
            ≡ drop (min (length into.old) (size_in self.old - at)) into.old }
        ensures verified { IsVerified self.old.tree.root self.old.tree.tree }
        ensures same { self.new ≡ record self.old { tree = record self.old.tree { file = self.new.tree.file } } }
        ensures rests { Rests (F.state self.old.tree.file) (F.state self.new.tree.file) }
        ensures cause { HasCause (F.state self.old.tree.file) (F.state self.new.tree.file) result }
        ensures fault { IfErr result IsReadFault }
    {
        read_bytes(
            &mut self.object,
            &mut self.pages,
            FIRST_BLOCK + u64::from(at),
            into,
        )
    }

    /// Makes the settled stage the committed tree, of which no page is kept yet. No call of the file is made.
    pub(crate) fn adopt(&mut self)
        requires settled { IsSomeAnd self.old.tree.stage (λ s. IsTrue s.settled) }
        ensures committed { IfSome self.old.tree.stage (λ s. self.new ≡
            record self.old { tree = record self.old.tree { root = s.root; tree = s.tree; stage = None } }) }
    {
        self.pages.clear();
        self.object.adopt();
    }

    /// Gives up the stage, if one is open. The committed tree stays, and so do its pages. No call of the file is made.
    pub(crate) fn drop_stage(&mut self)
        ensures { self.new ≡ record self.old { tree = record self.old.tree { stage = None } } }
    {
        self.object.drop_stage();
    }
}
