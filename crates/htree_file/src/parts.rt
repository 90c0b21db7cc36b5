// Each part is written by one call of the file.
ghost use Rattle.std.specs.Prelude.{◌≡◌, ◌<◌, ◌≤◌, IfErr, OnOk, true};
ghost use Rattle.disk_model.specs.Calls.{Known};
ghost use Rattle.node_image.specs.Layout.{head_bytes};
ghost use Rattle.node_image.specs.Parts.{Off, layout_of};
ghost use Rattle.node_image.specs.Parts.Part.{block, head, node};
ghost use Rattle.htree_file.specs.Answers.{HasCause, IsFailed};
ghost use Rattle.htree_file.specs.Pages.{is_block};
ghost use Rattle.htree_file.specs.Staging.{HeadReturns, NodeStands, WritesAtMost};
ghost use Rattle.htree_file.specs.Standing.{Stands};

use crate::device::put;
use crate::fault::{Page, TreeFault};
use node_image::{Head, NodeImage, block_offset, head_offset, node_offset};
use tee_ports::StoreFile;

/// Writes the head in a version.
#[tactic(auto, using(crate::proofs::SameTable::head_low, crate::proofs::SameTable::nodes_low))]
pub(crate) fn write_head<F: StoreFile>(
    file: &mut F,
    format: u8,
    version: u8,
    top: &Head,
) -> Result<(), TreeFault>
    requires { version < 2 }
    ensures writes { WritesAtMost (Off (layout_of format) (head version)) 32 (F.state file.old) (F.state file.new) }
    ensures stands { OnOk result (Known (F.state file.old) (F.state file.new) →
        Stands (layout_of format) (F.state file.new).reads (head version) (head_bytes top.now)) }
    ensures returns { HeadReturns top.now }
    ensures cause { HasCause (F.state file.old) (F.state file.new) result }
    ensures failed { IfErr result IsFailed }
{
    put(file, head_offset(format, version), &top.to_bytes())
}

/// Writes node `n` in a version.
#[tactic(auto, using(crate::proofs::SameTable::node_low, crate::proofs::SameTable::nodes_low))]
pub(crate) fn write_node<F: StoreFile>(
    file: &mut F,
    format: u8,
    n: u32,
    version: u8,
    image: &NodeImage,
) -> Result<(), TreeFault>
    requires { (1 ≤ n) × (n ≤ 256) × (version < 2) }
    ensures writes { WritesAtMost (Off (layout_of format) (node n version)) 66 (F.state file.old) (F.state file.new) }
    ensures stands { OnOk result (NodeStands (layout_of format) (Known (F.state file.old) (F.state file.new)) (F.state file.new).reads
        (node n version) image.now) }
    ensures cause { HasCause (F.state file.old) (F.state file.new) result }
    ensures failed { IfErr result IsFailed }
{
    put(file, node_offset(format, n, version), &image.to_bytes())
}

/// Writes block `k`, a ciphertext, in a version.
#[tactic(auto, using(crate::proofs::SameTable::block_low, crate::proofs::SameTable::nodes_low))]
pub(crate) fn write_block<F: StoreFile>(
    file: &mut F,
    format: u8,
    k: u32,
    version: u8,
    ciphertext: &Page,
) -> Result<(), TreeFault>
    requires { (k < 256) × (version < 2) }
    ensures writes { WritesAtMost (Off (layout_of format) (block k version)) 4096 (F.state file.old) (F.state file.new) }
    ensures stands { OnOk result (Known (F.state file.old) (F.state file.new) →
        Stands (layout_of format) (F.state file.new).reads (block k version) ciphertext.now) }
    ensures block { is_block ciphertext.now ≡ true }
    ensures cause { HasCause (F.state file.old) (F.state file.new) result }
    ensures failed { IfErr result IsFailed }
{
    put(file, block_offset(format, k, version), ciphertext)
}
