// A tree is made whole, or a changed one is staged beside the committed one. All vectors are drawn before the first write.
ghost use Rattle.std.specs.Prelude.{◌≡◌, ◌≤◌, ◌-◌, length, take, IfErr, IfOk, IsOk, OnOk};
ghost use Rattle.disk_model.specs.Calls.{Known};
ghost use Rattle.disk_model.specs.Keeps.{Keeps};
ghost use Rattle.node_image.specs.declared.head.Head.{Head};
ghost use Rattle.node_image.specs.declared.node.RootRef.{RootRef};
ghost use Rattle.node_image.specs.Parts.{layout_of};
ghost use Rattle.tree_paths.specs.Paths.{holds};
ghost use Rattle.tree_paths.specs.Staged.{count_to, write_budget};
ghost use Rattle.htree_file.specs.Changes.{AreApart, changes_of};
ghost use Rattle.htree_file.specs.Making.{DrawCause, HasCauses, IsDeviceFault, IsDrawFault, IsSynced, NamesVersionZero, Nowhere};
ghost use Rattle.htree_file.specs.Plans.{Fits};
ghost use Rattle.htree_file.specs.Selected.{Lies};
ghost use Rattle.htree_file.specs.Staging.{IsBlank, SealsAnew, WritesAtMost};
ghost use Rattle.htree_file.specs.Stages.{IsMade, IsStage};

use crate::change::NewPages;
use crate::fault::TreeFault;
use crate::sealing::draw;
use crate::staging::NewVersion;
use node_image::{NodeImage, RootRef};
use tee_ports::{Entropy, StoreFile};

// Draws a vector for each new page, into the node that is to seal it.
fn draw_vectors<E: Entropy>(
    entropy: &mut E,
    pages: &NewPages,
    table: &mut [NodeImage],
) -> Result<(), TreeFault>
    requires few { length (changes_of pages.now) ≤ 256 }
    requires apart { AreApart (length table.old) (changes_of pages.now) }
    ensures anew { SealsAnew (changes_of pages.now) table.old table.new }
    ensures cause { DrawCause (E.faults entropy.old) (E.faults entropy.new) result }
    ensures lasts { E.is_reliable entropy.old → E.is_reliable entropy.new }
    ensures reliable { E.is_reliable entropy.old → IsOk result }
    ensures fault { IfErr result IsDrawFault }
{
    for j in 0..pages.count() {
        let iv = draw(entropy)?;
        let node = &mut table[pages.block(j) as usize];
        node.iv = iv;
    }
    Ok(())
}

impl<'a> NewVersion<'a> {
    /// Makes a tree of the pages, whose nodes name version 0, and settles it. Its nodes come first in the table.
    pub(crate) fn make<F: StoreFile, E: Entropy>(
        &self,
        file: &mut F,
        entropy: &mut E,
        table: &mut [NodeImage],
    ) -> Result<RootRef, TreeFault>
        requires fits { Fits self.now }
        requires blank { IsBlank table.old }
        requires whole { (self.now.before ≡ 0) × (self.now.root ≡ 0) }
        ensures made { IfOk result (λ r. IsMade (Known (F.state file.old) (F.state file.new)) (F.state file.new).reads
            self.now.key.now r (record { head = self.now.head.now; nodes = take self.now.head.now.greatest table.new; layout = layout_of self.now.format }) (changes_of self.now.pages)) }
        ensures format { IfOk result (λ r. r.format ≡ self.now.format) }
        ensures all { length (take self.now.head.now.greatest table.new) ≡ self.now.head.now.greatest }
        ensures flags { OnOk result (NamesVersionZero (record { head = self.now.head.now; nodes = take self.now.head.now.greatest table.new; layout = layout_of self.now.format })) }
        ensures synced { OnOk result (IsSynced (F.state file.new)) }
        ensures keeps { Keeps Nowhere (F.state file.old) (F.state file.new) }
        ensures untouched { IfErr result (λ fault. IsDrawFault fault → file.new ≡ file.old) }
        ensures causes { HasCauses IsDeviceFault (F.state file.old) (F.state file.new) (E.faults entropy.old) (E.faults entropy.new)
            (E.is_reliable entropy.old) (E.is_reliable entropy.new) result }
    {
        let nodes = &mut table[..self.head.greatest as usize];
        draw_vectors(entropy, &self.pages, nodes)?;
        let root = self.write(file, nodes)?;
        file.sync()?;
        Ok(root)
    }

    /// Stages the version beside the committed one. Its nodes come first in the next table.
    pub(crate) fn stage<F: StoreFile, E: Entropy>(
        &self,
        file: &mut F,
        entropy: &mut E,
        committed: &[NodeImage],
        next: &mut [NodeImage],
    ) -> Result<RootRef, TreeFault>
        requires fits { Fits self.now }
        requires committed { length committed.now ≡ self.now.before }
        requires room { length next.old ≡ 256 }
        requires aligned { self.now.format ≡ 2 }
        ensures stage { IfOk result (λ r. (root : RootRef) (was : Head) → root.version ≡ 1 - self.now.root → root.format ≡ self.now.format →
            IsStage (Known (F.state file.old) (F.state file.new)) (F.state file.old).reads (F.state file.new).reads self.now.key.now
            root (record { head = was; nodes = committed.now; layout = layout_of self.now.format }) r (record { head = self.now.head.now; nodes = take self.now.head.now.greatest next.new; layout = layout_of self.now.format })
            (changes_of self.now.pages)) }
        ensures writes { WritesAtMost (Lies (layout_of self.now.format) committed.now (1 - self.now.root))
            (write_budget (length (changes_of self.now.pages)) (count_to (holds self.now.set.nodes) 256)) (F.state file.old) (F.state file.new) }
        ensures untouched { IfErr result (λ fault. IsDrawFault fault → file.new ≡ file.old) }
        ensures causes { HasCauses IsDeviceFault (F.state file.old) (F.state file.new) (E.faults entropy.old) (E.faults entropy.new)
            (E.is_reliable entropy.old) (E.is_reliable entropy.new) result }
    {
        let nodes = &mut next[..self.head.greatest as usize];
        self.set.turn_nodes(committed, nodes);
        draw_vectors(entropy, &self.pages, nodes)?;
        let root = self.write(file, nodes)?;
        Ok(root)
    }
}
