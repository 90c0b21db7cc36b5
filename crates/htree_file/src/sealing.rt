// Pages are enciphered under the initialization vectors that were drawn for them.
ghost use Rattle.std.specs.Prelude.{◌≡◌, ◌<◌, IfErr, IfOk, IsOk, OnOk};
ghost use Rattle.disk_model.specs.Calls.{Known};
ghost use Rattle.node_image.specs.Parts.{Off, layout_of};
ghost use Rattle.node_image.specs.Parts.Part.{block};
ghost use Rattle.node_image.specs.Tables.{block_bit};
ghost use Rattle.htree_file.specs.Answers.{HasCause, IsFailed};
ghost use Rattle.htree_file.specs.Making.{DrawCause, IsDrawFault};
ghost use Rattle.htree_file.specs.Staging.{IsSealed, WritesAtMost};

use crate::fault::{Page, TreeFault};
use crate::pages::seal_page;
use crate::parts::write_block;
use crate::table::version_of_block;
use aes_block::Aes128;
use node_image::{Head, NodeImage};
use tee_ports::{Entropy, StoreFile};

/// Draws 16 bytes.
pub(crate) fn draw<E: Entropy>(entropy: &mut E) -> Result<[u8; 16], TreeFault>
    ensures cause { DrawCause (E.faults entropy.old) (E.faults entropy.new) result }
    ensures reliable { E.is_reliable entropy.old → E.is_reliable entropy.new × IsOk result }
    ensures fault { IfErr result IsDrawFault }
{
    let mut bytes = [0; 16];
    match entropy.draw(&mut bytes) {
        Ok(()) => Ok(bytes),
        Err(failed) => Err(TreeFault::NoEntropy {
            count: failed.count,
        }),
    }
}

/// Enciphers the page as block `k` under its node's vector, and writes it in the version that the node names. Gives the node
/// with the tag.
pub(crate) fn write_page<F: StoreFile>(
    file: &mut F,
    format: u8,
    key: &Aes128,
    head: &Head,
    node: &NodeImage,
    k: u32,
    page: &Page,
) -> Result<NodeImage, TreeFault>
    requires { k < 256 }
    ensures tagged { IfOk result (λ made. made ≡ record node.now { tag = made.tag }) }
    ensures sealed { IfOk result (λ made. IsSealed (layout_of format) (Known (F.state file.old) (F.state file.new)) (F.state file.new).reads
        key.now head.now made k page.now) }
    ensures writes { WritesAtMost (Off (layout_of format) (block k (block_bit node.now.flags))) 4096 (F.state file.old) (F.state file.new) }
    ensures cause { HasCause (F.state file.old) (F.state file.new) result }
    ensures failed { IfErr result IsFailed }
{
    let mut block = *page;
    let tag = seal_page(key, head, &node.iv, k, &mut block);
    write_block(file, format, k, version_of_block(node), &block)?;
    Ok(NodeImage { tag, ..*node })
}
