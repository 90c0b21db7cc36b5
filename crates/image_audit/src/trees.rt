// Trees that stand in a certificate.

ghost use Rattle.std.specs.Prelude.{◌≡◌, ℕ, ◌+◌, ◌*◌, ◌≤◌, length, IfOk, IsTrue, MatchResult, None, Some, Result};
ghost use Rattle.byte_fields.specs.Field.{field};
ghost use Rattle.htree_file.specs.Pages.{page_of};
ghost use Rattle.node_image.specs.Layout.{has_form, head_of, is_sized, node_of};
ghost use Rattle.node_image.specs.Selection.{row};
ghost use Rattle.image_audit.specs.Checking.{head_test, nodes_test};
ghost use Rattle.image_audit.specs.Contents.{current_tree};
ghost use Rattle.image_audit.specs.declared.fault.ProofFault.TheVariants.{BadTag};

use crate::fault::ProofFault;
use aes_block::Aes128;
use byte_fields::field;
use htree_file::{Page, TreeFault, check_hashes, open_page};
use node_image::{Head, NodeImage, RootRef};

/// What stands for a node that was not read yet.
pub(crate) const BLANK: NodeImage = NodeImage {
    hash: [0; 32],
    iv: [0; 16],
    tag: [0; 16],
    flags: 0,
};

/// The head at a place.
pub(crate) fn head_at(bytes: &[u8], at: usize) -> Result<Head, ProofFault>
    requires { at + 32 ≤ length bytes.now }
    ensures head { result ≡ head_test (has_form (field at 32 bytes.now)) (head_of (field at 32 bytes.now)) }
    ensures sized { IfOk result (λ h. IsTrue (is_sized h)) }
    ensures few { IfOk result (λ h. (1 ≤ h.greatest) × (h.greatest ≤ 256)) }
{
    match Head::from_bytes(&field(bytes, at)) {
        Ok(head) => Ok(head),
        Err(bad) => Err(ProofFault::BadHead {
            length: bad.length,
            greatest: bad.greatest,
        }),
    }
}

/// Reads the nodes that stand from a place on.
pub(crate) fn read_nodes(bytes: &[u8], at: usize, nodes: &mut [NodeImage])
    requires { at + 66 * length nodes.old ≤ length bytes.now }
    ensures { nodes.new ≡ row (λ n. node_of (field (at + 66 * n) 66 bytes.now)) (length nodes.old) }
{
    for k in 0..nodes.len() {
        nodes[k] = NodeImage::from_bytes(&field(bytes, at + 66 * k));
    }
}

/// Whether head and nodes hash to a reference.
pub(crate) fn check_nodes(head: &Head, nodes: &[NodeImage], root: RootRef) -> Result<(), ProofFault>
    requires all { length nodes.now ≡ head.now.greatest }
    requires some { (1 ≤ length nodes.now) × (length nodes.now ≤ 256) }
    ensures { MatchResult result
        (λ _. nodes_test root (current_tree head.now nodes.now) ≡ Result.Ok (current_tree head.now nodes.now))
        (λ fault. nodes_test root (current_tree head.now nodes.now) ≡ Result.Err fault) }
{
    match check_hashes(nodes, head, root) {
        Ok(()) => Ok(()),
        Err(TreeFault::Damaged { node, want, found }) => Err(ProofFault::Damaged {
            node,
            want,
            found,
        }),
        Err(_) => unreachable!(),
    }
}

/// Deciphers the block in the page where it has the node's tag.
pub(crate) fn open_block(
    key: &Aes128,
    head: &Head,
    node: &NodeImage,
    block: u32,
    page: &mut Page,
) -> Result<(), ProofFault>
    ensures { MatchResult result
        (λ _. page_of key.now head.now node.now block page.old ≡ Some page.new)
        (λ fault. (page_of key.now head.now node.now block page.old ≡ None)
        × (fault ≡ BadTag block node.now.tag)) }
{
    match open_page(key, head, node, block, page) {
        Ok(()) => Ok(()),
        Err(TreeFault::BadTag { block, want, .. }) => Err(ProofFault::BadTag { block, want }),
        Err(_) => unreachable!(),
    }
}
