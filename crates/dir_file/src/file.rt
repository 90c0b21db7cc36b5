// A directory in its tree.
ghost use Rattle.std.specs.Prelude.{◌≡◌, get_or, option_map, IfErr, IfOk, IfSome, IsSome, IsSomeAnd, IsTrue, None};
ghost use Rattle.htree_file.specs.Answers.{HasCause, IsFailed};
ghost use Rattle.htree_file.specs.Opening.{IsVerified};
ghost use Rattle.dir_file.specs.Stages.{SettlesDirectory};
ghost use Rattle.dir_file.specs.View.{adopted};

use dir_records::DirEntry;
use htree_file::{Tree, TreeFault};
use node_image::RootRef;
use std::marker::Model;
use tee_ports::StoreFile;

/// The entry, or none, that a stage puts in a place.
#[derive(Clone, Copy, Drop)]
pub struct NextEntry {
    pub(crate) index: u16,
    pub(crate) entry: Option<DirEntry>,
}

/// The directory of a store in its file. Its entries have the places 0 to 255.
#[derive(Drop)]
pub struct DirFile<F: StoreFile> {
    pub(crate) tree: Tree<F>,
    // The key that wraps the file's.
    pub(crate) tsk: [u8; 32],
    // All 256, as they are committed.
    pub(crate) entries: Vec<Option<DirEntry>>,
    // What the open stage changes.
    pub(crate) next: Option<NextEntry>,
}

impl<F: StoreFile> Model for DirFile<F> {
    ghost use Rattle.dir_file.specs.Inside.{DirInside, staged_of};
    ghost use Rattle.dir_file.specs.View.{DirValue};

    ghost Value = { DirValue F };

    ghost view = { λ d. record {
      file = d.tree.file;
      dir = record {
        tsk = d.tsk;
        root = d.tree.root;
        tree = d.tree.tree;
        entries = d.entries.items;
        stage = staged_of d.tree.stage d.next d.entries.items;
      };
    } };

    ghost invariant = { λ d. DirInside d.tree d.tsk d.entries.items d.next };
}

impl<F: StoreFile> DirFile<F> {
    /// The committed entry of that index.
    pub fn entry(&self, index: u16) -> Option<&DirEntry>
        ensures { option_map (λ entry. entry.now) result ≡ get_or self.now.dir.entries index None }
    {
        match self.entries.get(index as usize) {
            Some(Some(entry)) => Some(entry),
            _ => None,
        }
    }

    /// The 256 committed entries.
    pub fn entries(&self) -> &[Option<DirEntry>]
        ensures entries { result.now ≡ self.now.dir.entries }
        ensures verified { IsVerified self.now.dir.root self.now.dir.tree }
    {
        self.entries.as_slice()
    }

    /// Settles the stage, and gives its reference.
    ///
    /// # Errors
    ///
    /// `Failed` where the call of the file failed. The stage stays open, and may be settled again or dropped.
    pub fn settle(&mut self) -> Result<RootRef, TreeFault>
        requires open { IsSome self.old.dir.stage }
        ensures answer { SettlesDirectory (F.state self.old.file) (F.state self.new.file) self.old.dir self.new.dir result }
        ensures root { IfOk result (λ root. IfSome self.old.dir.stage (λ s. root ≡ s.root)) }
        ensures fault { IfErr result IsFailed }
        ensures cause { HasCause (F.state self.old.file) (F.state self.new.file) result }
    {
        self.tree.settle()
    }

    /// Makes the settled stage the committed directory. No call of the file is made.
    pub fn adopt(&mut self)
        requires settled { IsSomeAnd self.old.dir.stage (λ s. IsTrue s.settled) }
        ensures committed { IfSome self.old.dir.stage (λ s. self.new ≡ record self.old { dir = adopted self.old.dir s }) }
    {
        self.tree.adopt();
        let next = self.next.unwrap();
        self.entries[next.index as usize] = next.entry;
        self.next = None;
    }

    /// Gives up the stage, if one is open. The committed directory stays. No call of the file is made.
    pub fn drop_stage(&mut self)
        ensures same { self.new ≡ record self.old { dir = record self.old.dir { stage = None } } }
    {
        self.tree.drop_stage();
        self.next = None;
    }

    /// Gives the file back.
    pub fn into_file(self) -> F
        ensures { result ≡ self.file }
    {
        let DirFile {
            tree,
            tsk: _,
            entries: _,
            next: _,
        } = self;
        tree.into_file()
    }
}
