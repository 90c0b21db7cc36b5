// A tree over a file.
ghost use Rattle.std.specs.Prelude.{◌≡◌, ◌⊎◌, ℕ, [], ◌+◌, ◌-◌, ◌<◌, ◌≤◌, ◌&&◌, get_or, if◌then◌else◌, length, map, nat_le, IfErr, IfOk, IfSome, IsSome, IsSomeAnd, IsTrue, OnErr, OnOk, Result, Some, None, true, false};
ghost use Rattle.aes_block.specs.WrappedKey.{unwrapped_of};
ghost use Rattle.disk_model.specs.Controls.{disarmed, failure_armed, stop_armed, taint_armed};
ghost use Rattle.disk_model.specs.Arms.{count_call};
ghost use Rattle.disk_model.specs.Calls.{Known, Rests, Syncs};
ghost use Rattle.disk_model.specs.Keeps.{Anywhere, Keeps};
ghost use Rattle.disk_model.specs.Seen.{WasSeen};
ghost use Rattle.node_image.specs.Parts.{layout_of};
ghost use Rattle.node_image.specs.Layout.{greatest_of, is_sized};
ghost use Rattle.node_image.specs.Tables.{at_node};
ghost use Rattle.htree_file.specs.Answers.{BlockAnswer, Differs, FaultCause, FilePassed, HasCause, HasFaultWidths, IsFailed, IsLoadFault, IsOutside};
ghost use Rattle.htree_file.specs.Changes.{AreChanges, OpensAfter, Seals, SealsChanges, SparesZero, changed_blocks};
ghost use Rattle.htree_file.specs.Making.{DrawFault, HasCauses, IsDeviceFault, IsDrawFault, IsMakeFault, NamesVersionZero, NotEntropy, Nowhere};
ghost use Rattle.htree_file.specs.Opening.{IsVerified, load_of, table_of};
ghost use Rattle.htree_file.specs.Pages.{block_in, opened_of};
ghost use Rattle.htree_file.specs.Selected.{KeepsFirm, Lies};
ghost use Rattle.htree_file.specs.Standing.{IsFirm, Told};
ghost use Rattle.tree_paths.specs.Staged.{IsWithinBudget};

use crate::change::{BlockChange, NewPages};
use crate::device::read_padded;
use crate::fault::{Broken, Page, TreeFault};
use crate::pages::open_page;
use crate::reading::read_tree;
use crate::sealing::draw;
use crate::staging::NewVersion;
use crate::table::{blank_tables, block_version};
use aes_block::{Aes128, unwrap_key};
use node_image::{Head, NodeImage, RootRef, block_offset, greatest_node};
use std::alloc::Global;
use std::marker::Model;
use tee_ports::{Entropy, FileRig, NoMemory, StoreFile};

/// A tree that was made in a file, or loaded from one.
///
/// It keeps its head and nodes in memory, so that a read of a block is one call of the file and takes no memory.
#[derive(Drop)]
pub struct Tree<F: StoreFile> {
    file: F,
    // The key of the blocks.
    key: Aes128,
    root: RootRef,
    head: Head,
    // The nodes, with room for those of any tree.
    nodes: Vec<NodeImage>,
    stage: Option<Stage>,
    // The nodes of the stage, with the same room.
    next: Vec<NodeImage>,
}

// A version that a stage wrote. Its nodes stand in the tree's second table.
#[derive(Clone, Copy, Drop)]
struct Stage {
    root: RootRef,
    head: Head,
    settled: bool,
    ghost few: { (1 ≤ head.greatest) × (head.greatest ≤ 256) × (root.version < 2) },
}

impl<F: StoreFile> Model for Tree<F> {
    ghost use Rattle.std.specs.Prelude.{◌≡◌, ◌<◌, ◌≤◌, IfSome, length, take, option_map};
    ghost use Rattle.node_image.specs.Parts.{layout_of};
    ghost use Rattle.htree_file.specs.Opening.{IsVerified};
    ghost use Rattle.htree_file.specs.Value.{TreeValue};

    ghost Value = { TreeValue F };

    ghost view = { λ t. record {
      file = t.file;
      key = t.key;
      root = t.root;
      tree = record { head = t.head; nodes = take t.head.greatest t.nodes.items; layout = layout_of t.root.format };
      stage = option_map (λ s. record {
        root = s.root;
        tree = record { head = s.head; nodes = take s.head.greatest t.next.items; layout = layout_of s.root.format };
        settled = s.settled;
      }) t.stage;
    } };

    ghost invariant = { λ t. (length t.nodes.items ≡ 256) × (length t.next.items ≡ 256) × (1 ≤ t.head.greatest) × (t.head.greatest ≤ 256) × (t.root.version < 2)
        × IsVerified t.root (record { head = t.head; nodes = take t.head.greatest t.nodes.items; layout = layout_of t.root.format })
        × IfSome t.stage (λ s. IsVerified s.root (record { head = s.head; nodes = take s.head.greatest t.next.items; layout = layout_of s.root.format })) };
}

// The head of a new tree.
fn new_head(wrap: &[u8; 32], fek: &[u8; 16], bytes: u64) -> Head
    requires { bytes ≤ 1048576 }
    ensures wrapped { unwrapped_of wrap.now result.wrapped ≡ fek.now }
    ensures length { result.length ≡ bytes }
    ensures greatest { result.greatest ≡ greatest_of bytes }
    ensures sized { IsTrue (is_sized result) }
    ensures few { (1 ≤ result.greatest) × (result.greatest ≤ 256) }
{
    let wrapped = aes_block::wrap(wrap, fek);
    Head {
        wrapped,
        length: bytes,
        greatest: greatest_node(bytes),
    }
}

impl<F: StoreFile> Tree<F> {
    /// Makes a tree in a file: draws the file's key and an initialization vector for each block, then writes all in version 0,
    /// and settles it. `format` says where the parts stand, `wrap` is the key that wraps the file's key, `bytes` is how many
    /// bytes the tree holds, and `blocks` are its pages.
    ///
    /// # Errors
    ///
    /// `NoEntropy` where a draw failed; the file is as it was. `Failed` where a call of the file failed; the file then may hold
    /// anything in version 0. Besides `NoMemory`.
    pub fn make<E: Entropy>(
        alloc: Global,
        mut file: F,
        format: u8,
        wrap: &[u8; 32],
        bytes: u64,
        blocks: &[Page],
        entropy: &mut E,
    ) -> Result<(Tree<F>, RootRef), Broken<F>>
        requires bytes { bytes ≤ 1048576 }
        requires blocks { length blocks.now ≡ greatest_of bytes }
        ensures root { IfOk result (λ made. (made.1 ≡ made.0.root) × (made.1.version ≡ 0) × (made.1.format ≡ format)) }
        ensures idle { IfOk result (λ made. made.0.stage ≡ None) }
        ensures loaded { IfOk result (λ made. Known (F.state file) (F.state made.0.file) →
            load_of (F.state made.0.file).reads made.1 ≡ Result.Ok made.0.tree) }
        ensures opened { IfOk result (λ made. Known (F.state file) (F.state made.0.file) →
            opened_of wrap.now (F.state made.0.file).reads made.1
            ≡ Result.Ok (record { bytes = bytes; pages = map (λ page. Some page) blocks.now })) }
        ensures firm { IfOk result (λ made. IsTrue (F.state made.0.file).honest →
            IsFirm (F.state made.0.file) made.1 made.0.tree) }
        ensures verified { IfOk result (λ made. IsVerified made.1 made.0.tree) }
        // Of any file.
        ensures seals { IfOk result (λ made. (k : ℕ) → k < length blocks.now → Seals made.0.key made.0.tree k (get_or blocks.now k [])) }
        ensures flags { IfOk result (λ made. NamesVersionZero made.0.tree) }
        ensures few { IfOk result (λ made. (1 ≤ made.0.tree.head.greatest) × (made.0.tree.head.greatest ≤ 256)) }
        ensures key { IfOk result (λ made. made.0.key ≡ unwrapped_of wrap.now made.0.tree.head.wrapped) }
        ensures bytes { IfOk result (λ made. made.0.tree.head.length ≡ bytes) }
        ensures keeps { IfOk result (λ made. Keeps Nowhere (F.state file) (F.state made.0.file)) }
        ensures keeps_err { IfErr result (λ b. Keeps Nowhere (F.state file) (F.state b.file)) }
        ensures fault { IfErr result (λ b. IsMakeFault b.fault) }
        ensures untouched { IfErr result (λ b. IsDrawFault b.fault → b.file ≡ file) }
        ensures passed { IfOk result (λ made. FilePassed (F.state file) (F.state made.0.file)) }
        ensures cause { IfErr result (λ b. FaultCause (F.state file) (F.state b.file) b.fault) }
        ensures drew { IfOk result (λ _. E.faults entropy.new ≡ E.faults entropy.old) }
        ensures draw_cause { IfErr result (λ b. DrawFault (E.faults entropy.old) (E.faults entropy.new) b.fault) }
        ensures reliable { E.is_reliable entropy.old → E.is_reliable entropy.new }
        ensures drawn { E.is_reliable entropy.old → IfErr result (λ b. NotEntropy b.fault) }
    {
        let (mut nodes, next) = match blank_tables(alloc) {
            Ok(tables) => tables,
            Err(_) => {
                return Err(Broken {
                    file,
                    fault: TreeFault::NoMemory,
                });
            }
        };
        let fek = match draw(entropy) {
            Ok(fek) => fek,
            Err(fault) => return Err(Broken { file, fault }),
        };
        let head = new_head(wrap, &fek, bytes);
        let key = Aes128::new(&fek);
        let version = NewVersion::of_pages(&key, &head, 0, format, NewPages::All(blocks), 0);
        match version.make(&mut file, entropy, &mut nodes) {
            Ok(root) => {
                let tree = Tree {
                    file,
                    key,
                    root,
                    head,
                    nodes,
                    stage: None,
                    next,
                };
                Ok((tree, root))
            }
            Err(fault) => Err(Broken { file, fault }),
        }
    }

    /// Loads the tree that a reference names in a file. `wrap` is the key that wraps the file's key.
    ///
    /// Head and nodes are read with one read of the file, and then its length is asked.
    ///
    /// # Errors
    ///
    /// The first that holds: `BadHead` where the head of the reference's version has not the form of one; `Damaged` where
    /// node 1 has not the reference's hash, or a node not its own; `Short` where a selected block does not end within the
    /// file. On a file that is neither honest nor steady, each of these says what the file reads as when the call ends.
    /// Besides `Failed`, where a call of the file failed, and `NoMemory`.
    pub fn load(
        alloc: Global,
        mut file: F,
        wrap: &[u8; 32],
        root: RootRef,
    ) -> Result<Tree<F>, Broken<F>>
        requires { root.version < 2 }
        ensures root { IfOk result (λ t. t.root ≡ root) }
        ensures idle { IfOk result (λ t. t.stage ≡ None) }
        ensures key { IfOk result (λ t. t.key ≡ unwrapped_of wrap.now t.tree.head.wrapped) }
        ensures loaded { IfOk result (λ t. Told (F.state file) (F.state t.file) → load_of (F.state t.file).reads root ≡ Result.Ok t.tree) }
        ensures fault { IfErr result (λ b. IsOutside b.fault ⊎ (Told (F.state file) (F.state b.file) →
            load_of (F.state b.file).reads root ≡ Result.Err b.fault)) }
        // Of any file.
        ensures kind { IfErr result (λ b. IsLoadFault b.fault) }
        ensures verified { IfOk result (λ t. IsVerified root t.tree) }
        // Head and nodes are those that the file read as at one moment of the call.
        ensures seen { IfOk result (λ t. WasSeen (Lies t.tree.layout t.tree.nodes root.version) (F.state file) (F.state t.file)
            (λ image. table_of image root ≡ Result.Ok t.tree)) }
        ensures few { IfOk result (λ t. (1 ≤ t.tree.head.greatest) × (t.tree.head.greatest ≤ 256)) }
        ensures widths { IfErr result (λ b. HasFaultWidths b.fault) }
        ensures differs { IfErr result (λ b. IsTrue (F.state b.file).tells → Differs (F.state b.file).reads root b.fault) }
        ensures rests { IfOk result (λ t. Rests (F.state file) (F.state t.file)) }
        ensures rests_err { IfErr result (λ b. Rests (F.state file) (F.state b.file)) }
        ensures passed { IfOk result (λ t. FilePassed (F.state file) (F.state t.file)) }
        ensures two { IfOk result (λ t. IsTrue (F.state file).tells_arms → (F.state t.file).arms ≡ count_call (count_call (F.state file).arms)) }
        ensures cause { IfErr result (λ b. FaultCause (F.state file) (F.state b.file) b.fault) }
    {
        let (mut nodes, next) = match blank_tables(alloc) {
            Ok(tables) => tables,
            Err(_) => {
                return Err(Broken {
                    file,
                    fault: TreeFault::NoMemory,
                });
            }
        };
        match read_tree(alloc, &mut file, root, &mut nodes) {
            Ok(head) => Ok(Tree {
                file,
                key: Aes128::new(&unwrap_key(wrap, &head.wrapped)),
                root,
                head,
                nodes,
                stage: None,
                next,
            }),
            Err(fault) => Err(Broken { file, fault }),
        }
    }

    /// Reads a block, deciphered, into the page. Blocks are numbered from 0. It is one call of the file, and takes no memory.
    ///
    /// # Errors
    ///
    /// `BadTag` where the block, as the file reads when the call ends, has not the tag that its node has for it; the page
    /// then holds the ciphertext. Besides `Failed`, where the call of the file failed; the page may then hold anything.
    #[tactic(auto, using(crate::proofs::SameTable::block_low))]
    pub fn read_block(&mut self, block: u32, into: &mut Page) -> Result<(), TreeFault>
        requires { block < self.old.tree.head.greatest }
        ensures answer { let tree = self.old.tree in
            BlockAnswer self.old.key tree.head (at_node tree.nodes (block + 1)) block
            (λ ciphertext. IsTrue (F.state self.new.file).tells → ciphertext ≡ block_in (F.state self.new.file).reads tree block)
            result into.new }
        ensures widths { IfErr result HasFaultWidths }
        ensures verified { IsVerified self.old.root self.old.tree }
        ensures once { IsTrue (F.state self.old.file).tells_arms → (F.state self.new.file).arms ≡ count_call (F.state self.old.file).arms }
        ensures same { self.new ≡ record self.old { file = self.new.file } }
        ensures rests { Rests (F.state self.old.file) (F.state self.new.file) }
        ensures cause { HasCause (F.state self.old.file) (F.state self.new.file) result }
    {
        let node = self.nodes[block as usize];
        let version = block_version(&self.nodes, block);
        read_padded(
            &mut self.file,
            block_offset(self.root.format, block, version),
            into,
        )?;
        open_page(&self.key, &self.head, &node, block, into)
    }

    /// The head.
    pub fn head(&self) -> Head
        ensures { result ≡ self.now.tree.head }
    {
        self.head
    }

    /// The node of a number, from 1 on, where the tree has it.
    pub fn node(&self, n: u32) -> Option<NodeImage>
        ensures { result ≡ (if nat_le 1 n && nat_le n self.now.tree.head.greatest then Some (at_node self.now.tree.nodes n) else None) }
    {
        if n == 0 || self.head.greatest < n {
            return None;
        }
        Some(self.nodes[n as usize - 1])
    }

    /// Reads the ciphertext of a block into the page. Blocks are numbered from 0. It is one call of the file, and takes no
    /// memory.
    ///
    /// # Errors
    ///
    /// `Failed` where the call of the file failed; the page may then hold anything.
    #[tactic(auto, using(crate::proofs::SameTable::block_low))]
    pub fn read_cipher(&mut self, block: u32, into: &mut Page) -> Result<(), TreeFault>
        requires { block < self.old.tree.head.greatest }
        ensures bytes { OnOk result (IsTrue (F.state self.new.file).tells → into.new ≡ block_in (F.state self.new.file).reads self.old.tree block) }
        ensures fault { IfErr result IsFailed }
        ensures verified { IsVerified self.old.root self.old.tree }
        ensures once { IsTrue (F.state self.old.file).tells_arms → (F.state self.new.file).arms ≡ count_call (F.state self.old.file).arms }
        ensures same { self.new ≡ record self.old { file = self.new.file } }
        ensures rests { Rests (F.state self.old.file) (F.state self.new.file) }
        ensures cause { HasCause (F.state self.old.file) (F.state self.new.file) result }
    {
        let version = block_version(&self.nodes, block);
        read_padded(
            &mut self.file,
            block_offset(self.root.format, block, version),
            into,
        )
    }

    /// Writes what changes of a tree of so many bytes into the version that the committed tree does not select, and leaves it
    /// open as a stage: the blocks of the changes, the nodes that change with them, and the head. The committed tree stays,
    /// and nothing is settled. Takes no memory. The file has format 2, in which no two parts share a sector.
    ///
    /// `changes` are the blocks that change, in their order, with one for each new block.
    ///
    /// # Errors
    ///
    /// `NoEntropy` where a draw failed; no call of the file was made. `Failed` where a call of the file failed. No stage is
    /// open then.
    pub fn stage<E: Entropy>(
        &mut self,
        bytes: u64,
        changes: &[BlockChange],
        entropy: &mut E,
    ) -> Result<(), TreeFault>
        requires idle { self.old.stage ≡ None }
        requires format { self.old.root.format ≡ 2 }
        requires bytes { bytes ≤ 1048576 }
        requires changes { AreChanges self.old.tree.head.greatest (greatest_of bytes) changes.now }
        ensures open { OnOk result (IsSome self.new.stage) }
        ensures none { OnErr result (self.new.stage ≡ None) }
        ensures next { OnOk result (IfSome self.new.stage (λ s. (s.root.version ≡ 1 - self.old.root.version) × (s.settled ≡ false)
            × (s.tree.head ≡ record self.old.tree.head { length = bytes; greatest = greatest_of bytes }))) }
        ensures format { OnOk result (IfSome self.new.stage (λ s. s.root.format ≡ self.old.root.format)) }
        ensures same { self.new ≡ record self.old { file = self.new.file; stage = self.new.stage } }
        // All vectors are drawn before the first call of the file.
        ensures untouched { IfErr result (λ fault. IsDrawFault fault → self.new ≡ self.old) }
        // In every image at every moment since, the committed reference names the committed tree.
        ensures firm { KeepsFirm (F.state self.old.file) (F.state self.new.file) self.old.root self.old.tree }
        ensures keeps { Keeps (Lies self.old.tree.layout self.old.tree.nodes self.old.root.version) (F.state self.old.file) (F.state self.new.file) }
        // It writes no more than the write budget has for these changes, and settles nothing.
        ensures budget { IsWithinBudget (changed_blocks changes.now) self.old.tree.head.greatest (greatest_of bytes)
            (F.state self.old.file).written (F.state self.new.file).written }
        ensures unsettled { (F.state self.new.file).pending_from ≡ (F.state self.old.file).pending_from }
        // The stage's reference opens to the old pages with the changes.
        ensures loaded { OnOk result (Known (F.state self.old.file) (F.state self.new.file) →
            load_of (F.state self.old.file).reads self.old.root ≡ Result.Ok self.old.tree →
            IfSome self.new.stage (λ s. load_of (F.state self.new.file).reads s.root ≡ Result.Ok s.tree)) }
        ensures opened { OnOk result (Known (F.state self.old.file) (F.state self.new.file) →
            load_of (F.state self.old.file).reads self.old.root ≡ Result.Ok self.old.tree →
            IfSome self.new.stage (λ s. OpensAfter self.old.key self.old.tree.head.wrapped
            (F.state self.old.file).reads self.old.root (F.state self.new.file).reads s.root bytes changes.now)) }
        // Of any file.
        ensures verified { OnOk result (IfSome self.new.stage (λ s. IsVerified s.root s.tree)) }
        ensures seals { OnOk result (IfSome self.new.stage (λ s. SealsChanges self.old.key self.old.tree s.tree changes.now)) }
        ensures spares { OnOk result (IfSome self.new.stage (λ s. SparesZero self.old.tree s.tree)) }
        ensures causes { HasCauses IsDeviceFault (F.state self.old.file) (F.state self.new.file) (E.faults entropy.old) (E.faults entropy.new)
            (E.is_reliable entropy.old) (E.is_reliable entropy.new) result }
    {
        let head = Head {
            length: bytes,
            greatest: greatest_node(bytes),
            ..self.head
        };
        let before = self.head.greatest;
        let pages = NewPages::Changed(changes);
        let version = NewVersion::of_pages(
            &self.key,
            &head,
            1 - self.root.version,
            self.root.format,
            pages,
            before,
        );
        let committed = &self.nodes[..before as usize];
        let root = version.stage(&mut self.file, entropy, committed, &mut self.next)?;
        self.stage = Some(Stage {
            root,
            head,
            settled: false,
        });
        Ok(())
    }

    /// Settles the stage, and gives its reference.
    ///
    /// # Errors
    ///
    /// `Failed` where the call of the file failed. The stage stays open, and may be settled again or dropped.
    pub fn settle(&mut self) -> Result<RootRef, TreeFault>
        requires open { IsSome self.old.stage }
        ensures settled { IfOk result (λ root. IfSome self.old.stage (λ s.
            (root ≡ s.root) × (self.new.stage ≡ Some (record s { settled = true })))) }
        ensures synced { OnOk result (Syncs (F.state self.old.file) (F.state self.new.file)) }
        ensures open { OnErr result (self.new.stage ≡ self.old.stage) }
        ensures same { self.new ≡ record self.old { file = self.new.file; stage = self.new.stage } }
        ensures reads { Known (F.state self.old.file) (F.state self.new.file) →
            (F.state self.new.file).reads ≡ (F.state self.old.file).reads }
        ensures firm { KeepsFirm (F.state self.old.file) (F.state self.new.file) self.old.root self.old.tree }
        ensures keeps { Keeps Anywhere (F.state self.old.file) (F.state self.new.file) }
        // Once settled, the stage's reference opens to its tree in every image.
        ensures next_firm { OnOk result (IfSome self.old.stage (λ s. IsTrue (F.state self.new.file).honest →
            load_of (F.state self.old.file).reads s.root ≡ Result.Ok s.tree → IsFirm (F.state self.new.file) s.root s.tree)) }
        ensures fault { IfErr result IsFailed }
        ensures cause { HasCause (F.state self.old.file) (F.state self.new.file) result }
    {
        self.file.sync()?;
        let stage = self.stage.unwrap();
        self.stage = Some(Stage {
            root: stage.root,
            head: stage.head,
            settled: true,
        });
        Ok(stage.root)
    }

    /// Makes the settled stage the committed tree. No call of the file is made.
    pub fn adopt(&mut self)
        requires settled { IsSomeAnd self.old.stage (λ s. IsTrue s.settled) }
        ensures committed { IfSome self.old.stage (λ s.
            self.new ≡ record self.old { root = s.root; tree = s.tree; stage = None }) }
    {
        let stage = self.stage.unwrap();
        self.root = stage.root;
        self.head = stage.head;
        std::mem::swap(&mut self.nodes, &mut self.next);
        self.stage = None;
    }

    /// Gives up the stage, if one is open. The committed tree stays. No call of the file is made.
    pub fn drop_stage(&mut self)
        ensures same { self.new ≡ record self.old { stage = None } }
        ensures firm { KeepsFirm (F.state self.old.file) (F.state self.new.file) self.old.root self.old.tree }
    {
        self.stage = None;
    }

    /// How many bytes the tree holds.
    pub fn length(&self) -> u64
        ensures length { result ≡ self.now.tree.head.length }
        ensures few { result ≤ 1048576 }
        // Each tree is verified under its reference.
        ensures verified { IsVerified self.now.root self.now.tree }
    {
        self.head.length
    }

    /// Gives the file back.
    pub fn into_file(self) -> F
        ensures { result ≡ self.file }
    {
        let Tree {
            file,
            key: _,
            root: _,
            head: _,
            nodes: _,
            stage: _,
            next: _,
        } = self;
        file
    }
}

impl<F: FileRig> Tree<F> {
    /// Arms the file to pass this many calls, and to fail all later ones.
    pub fn stop_after(&mut self, calls: u64)
        ensures file { F.state self.new.file ≡ stop_armed (F.state self.old.file) calls }
        ensures same { self.new ≡ record self.old { file = self.new.file } }
    {
        self.file.stop_after(calls);
    }

    /// Arms the file to fail this call, counted from 1.
    pub fn fail_call(&mut self, call: u64) -> Result<(), NoMemory>
        ensures armed { OnOk result (F.state self.new.file ≡ failure_armed (F.state self.old.file) call) }
        ensures refused { OnErr result (F.state self.new.file ≡ F.state self.old.file) }
        ensures same { self.new ≡ record self.old { file = self.new.file } }
    {
        self.file.fail_call(call)
    }

    /// Arms the file to have a mask laid over its bytes from a place on, before this call.
    pub fn taint_call(&mut self, call: u64, at: u64, mask: &[u8]) -> Result<(), NoMemory>
        ensures armed { OnOk result (F.state self.new.file ≡
            taint_armed (F.state self.old.file) (record { call = call; at = at; mask = mask.now })) }
        ensures refused { OnErr result (F.state self.new.file ≡ F.state self.old.file) }
        ensures same { self.new ≡ record self.old { file = self.new.file } }
    {
        self.file.taint_call(call, at, mask)
    }

    /// Removes all arms of the file.
    pub fn disarm(&mut self)
        ensures file { F.state self.new.file ≡ disarmed (F.state self.old.file) }
        ensures same { self.new ≡ record self.old { file = self.new.file } }
    {
        self.file.disarm();
    }
}
