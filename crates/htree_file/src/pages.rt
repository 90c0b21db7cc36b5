// Pages and their blocks.
ghost use Rattle.std.specs.Prelude.{◌≡◌, List, ℕ, length, true, IfErr, MatchResult, Some, None};
ghost use Rattle.aes_block.specs.Cipher.{cipher};
ghost use Rattle.gcm_mode.specs.Gcm.{gcm_tag, gcm_text};
ghost use Rattle.htree_file.specs.Answers.{HasFaultWidths};
ghost use Rattle.htree_file.specs.Pages.{block_aad, is_block, page_of, tag_of};
ghost use Rattle.htree_file.specs.declared.fault.TreeFault.TheVariants.{BadTag};

use crate::fault::{Page, TreeFault};
use aes_block::Aes128;
use gcm_mode::{open_text, seal};
use node_image::{Head, NodeImage};

// What a block's tag covers beside the ciphertext.
fn block_aad(head: &Head, block: u32) -> [u8; 20]
    ensures { result ≡ block_aad head.now block }
{
    let mut aad = [0; 20];
    aad[..16].copy_from_slice(&head.wrapped);
    aad[16..].copy_from_slice(&block.to_be_bytes());
    aad
}

/// Deciphers the block in the page where it has the node's tag.
///
/// # Errors
///
/// `BadTag` with both tags where it has not, the computed one unreadable; the page then stays.
#[tactic(auto, using(crate::proofs::TagWidths::block_tag_width))]
pub fn open_page(
    key: &Aes128,
    head: &Head,
    node: &NodeImage,
    block: u32,
    page: &mut Page,
) -> Result<(), TreeFault>
    ensures answer { MatchResult result
        (λ _. page_of key.now head.now node.now block page.old ≡ Some page.new)
        (λ fault. (page_of key.now head.now node.now block page.old ≡ None) × (page.new ≡ page.old)
        × (fault ≡ BadTag block node.now.tag (tag_of key.now head.now node.now block page.old))) }
    ensures block { is_block page.old ≡ true }
    ensures widths { IfErr result HasFaultWidths }
{
    let aad = block_aad(head, block);
    match open_text(key, &node.iv, &aad, page, &node.tag) {
        Ok(()) => Ok(()),
        Err(bad) => {
            let (want, found) = (bad.want, bad.found);
            Err(TreeFault::BadTag { block, want, found })
        }
    }
}

/// Enciphers the page, and gives its tag.
pub(crate) fn seal_page(
    key: &Aes128,
    head: &Head,
    iv: &[u8; 16],
    block: u32,
    page: &mut Page,
) -> [u8; 16]
    ensures tag { result ≡ gcm_tag (cipher key.now) iv.now (block_aad head.now block) page.new }
    ensures text { gcm_text (cipher key.now) iv.now page.new ≡ page.old }
{
    let aad = block_aad(head, block);
    seal(key, iv, &aad, page)
}
