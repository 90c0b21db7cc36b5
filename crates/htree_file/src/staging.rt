// A version of a tree is written: the blocks that change, the nodes of a set, and the head, each where the table names it.
ghost use Rattle.std.specs.Prelude.{◌≡◌, ◌↔◌, ℕ, ◌+◌, ◌-◌, ◌*◌, ◌<◌, ◌≤◌, length, cond, true, IfErr, IfOk, IsTrue, OnOk};
ghost use Rattle.disk_model.specs.Calls.{Known};
ghost use Rattle.node_image.specs.Layout.{is_sized};
ghost use Rattle.node_image.specs.Parts.{Off, layout_of};
ghost use Rattle.node_image.specs.Tables.{at_node};
ghost use Rattle.tree_paths.specs.Paths.{holds};
ghost use Rattle.tree_paths.specs.Staged.{count_to, write_budget};
ghost use Rattle.htree_file.specs.Answers.{HasCause, IsFailed};
ghost use Rattle.htree_file.specs.Changes.{AreChanges, changes_of};
ghost use Rattle.htree_file.specs.Plans.{Fits};
ghost use Rattle.htree_file.specs.Staging.{AreSealed, IsWritten, MadeFrom, NodeStands, NodesStand, OffBlocks, OffNodes, OffWritten, SealsAnew, WritesAtMost, named_node};

use crate::change::NewPages;
use crate::fault::TreeFault;
use crate::parts::{write_head, write_node};
use crate::sealing::write_page;
use crate::table::{node_version, rehash_nodes};
use crate::write_set::WriteSet;
use aes_block::Aes128;
use node_image::{Head, NodeImage, RootRef};
use tee_ports::StoreFile;

/// A version of a tree that is to be written, in place of one of `before` nodes: the blocks' key, the head and its version,
/// the file's format, the pages that it gets, and the parts that are written.
#[derive(Drop)]
pub(crate) struct NewVersion<'a> {
    pub(crate) key: &'a Aes128,
    pub(crate) head: &'a Head,
    pub(crate) root: u8,
    pub(crate) format: u8,
    pub(crate) pages: NewPages<'a>,
    pub(crate) before: u32,
    pub(crate) set: WriteSet,
}

impl<'a> NewVersion<'a> {
    /// The version for new pages.
    pub(crate) fn of_pages(
        key: &'a Aes128,
        head: &'a Head,
        root: u8,
        format: u8,
        pages: NewPages<'a>,
        before: u32,
    ) -> NewVersion<'a>
        requires few { (1 ≤ head.now.greatest) × (head.now.greatest ≤ 256) × (root < 2) × (before ≤ 256) }
        requires sized { IsTrue (is_sized head.now) }
        requires changes { AreChanges before head.now.greatest (changes_of pages) }
        ensures fits { Fits result }
        ensures key { result.key.now ≡ key.now }
        ensures head { result.head.now ≡ head.now }
        ensures root { (result.root ≡ root) × (result.before ≡ before) × (result.format ≡ format) }
        ensures pages { changes_of result.pages ≡ changes_of pages.entry }
    {
        let set = WriteSet::of_pages(&pages, before, head.greatest);
        NewVersion {
            key,
            head,
            root,
            format,
            pages,
            before,
            set,
        }
    }

    // Enciphers and writes the new pages. The table's nodes get their tags.
    fn write_pages<F: StoreFile>(
        &self,
        file: &mut F,
        table: &mut [NodeImage],
    ) -> Result<(), TreeFault>
        requires fits { Fits self.now }
        requires all { length table.old ≡ self.now.head.now.greatest }
        ensures sealed { OnOk result (AreSealed (layout_of self.now.format) (Known (F.state file.old) (F.state file.new)) (F.state file.new).reads
            self.now.key.now self.now.head.now table.new (changes_of self.now.pages) (length (changes_of self.now.pages))) }
        ensures anew { SealsAnew (changes_of self.now.pages) table.old table.new }
        ensures writes { WritesAtMost (OffBlocks (layout_of self.now.format) table.old (changes_of self.now.pages)) (4096 * length (changes_of self.now.pages))
            (F.state file.old) (F.state file.new) }
        ensures cause { HasCause (F.state file.old) (F.state file.new) result }
        ensures failed { IfErr result IsFailed }
    {
        for j in 0..self.pages.count() {
            let k = self.pages.block(j);
            let page = self.pages.page(j);
            let node = write_page(
                file,
                self.format,
                self.key,
                self.head,
                &table[k as usize],
                k,
                page,
            )?;
            table[k as usize] = node;
        }
        Ok(())
    }

    // Writes node n where the table has it, if it is in the set.
    fn write_chosen<F: StoreFile>(
        &self,
        file: &mut F,
        table: &[NodeImage],
        n: u32,
    ) -> Result<(), TreeFault>
        requires { (1 ≤ n) × (n ≤ length table.now) × (length table.now ≤ 256) × (self.now.root < 2) }
        ensures stands { OnOk result (holds self.now.set.nodes n ≡ true →
            NodeStands (layout_of self.now.format) (Known (F.state file.old) (F.state file.new)) (F.state file.new).reads
            (named_node table.now self.now.root n) (at_node table.now n)) }
        ensures one { WritesAtMost (Off (layout_of self.now.format) (named_node table.now self.now.root n)) (66 * cond (holds self.now.set.nodes n) 1 0)
            (F.state file.old) (F.state file.new) }
        ensures writes { WritesAtMost (OffNodes (layout_of self.now.format) table.now self.now.root (holds self.now.set.nodes))
            (66 * cond (holds self.now.set.nodes n) 1 0) (F.state file.old) (F.state file.new) }
        ensures cause { HasCause (F.state file.old) (F.state file.new) result }
        ensures failed { IfErr result IsFailed }
    {
        if !self.set.nodes.has(n) {
            return Ok(());
        }
        let version = node_version(table, self.root, n);
        write_node(file, self.format, n, version, &table[n as usize - 1])?;
        Ok(())
    }

    // Writes each node of the set where the table has it.
    fn write_nodes<F: StoreFile>(&self, file: &mut F, table: &[NodeImage]) -> Result<(), TreeFault>
        requires { (length table.now ≤ 256) × (self.now.root < 2) }
        ensures stand { OnOk result (NodesStand (layout_of self.now.format) (Known (F.state file.old) (F.state file.new)) (F.state file.new).reads
            self.now.root table.now (holds self.now.set.nodes) (length table.now)) }
        ensures writes { WritesAtMost (OffNodes (layout_of self.now.format) table.now self.now.root (holds self.now.set.nodes))
            (66 * count_to (holds self.now.set.nodes) 256) (F.state file.old) (F.state file.new) }
        ensures cause { HasCause (F.state file.old) (F.state file.new) result }
        ensures failed { IfErr result IsFailed }
    {
        for k in 0..table.len() {
            self.write_chosen(file, table, k as u32 + 1)?;
        }
        Ok(())
    }

    /// Writes the version, each part where the table names it: the new pages under the vectors that the table has for them,
    /// the nodes of the set with the hashes that they have then, and the head. Gives the reference.
    pub(crate) fn write<F: StoreFile>(
        &self,
        file: &mut F,
        table: &mut [NodeImage],
    ) -> Result<RootRef, TreeFault>
        requires fits { Fits self.now }
        requires all { length table.old ≡ self.now.head.now.greatest }
        ensures root { IfOk result (λ r. r ≡ record { hash = (at_node table.new 1).hash; version = self.now.root; format = self.now.format }) }
        ensures written { OnOk result (IsWritten (layout_of self.now.format) (Known (F.state file.old) (F.state file.new)) (F.state file.new).reads
            self.now.key.now self.now.head.now self.now.root (changes_of self.now.pages) (holds self.now.set.nodes) table.new) }
        ensures from { OnOk result (MadeFrom (changes_of self.now.pages) (holds self.now.set.nodes) table.old table.new) }
        ensures writes { WritesAtMost (OffWritten (layout_of self.now.format) table.old self.now.root (changes_of self.now.pages) (holds self.now.set.nodes))
            (write_budget (length (changes_of self.now.pages)) (count_to (holds self.now.set.nodes) 256)) (F.state file.old) (F.state file.new) }
        ensures cause { HasCause (F.state file.old) (F.state file.new) result }
        ensures failed { IfErr result IsFailed }
    {
        self.write_pages(file, table)?;
        rehash_nodes(table, self.head, &self.set.nodes);
        self.write_nodes(file, table)?;
        write_head(file, self.format, self.root, self.head)?;
        let hash = table[0].hash;
        Ok(RootRef {
            hash,
            version: self.root,
            format: self.format,
        })
    }
}
