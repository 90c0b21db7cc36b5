// Head and nodes from the first bytes of a file.
ghost use Rattle.std.specs.Prelude.{◌≡◌, ℕ, ◌+◌, ◌-◌, ◌*◌, ◌<◌, ◌≤◌, ◌^◌, length, take, IfOk, IfErr, OnOk, MatchResult, IsTrue, IsFalse, Result};
ghost use Rattle.disk_model.specs.Bytes.{AreBytes};
ghost use Rattle.node_image.specs.Layout.{has_form, is_sized};
ghost use Rattle.node_image.specs.Parts.{layout_of, nodes_end};
ghost use Rattle.node_image.specs.Parts.Part.{head};
ghost use Rattle.node_image.specs.Selection.{bytes_at, head_in, part_in, row, selected_node};
ghost use Rattle.htree_file.specs.Answers.{IsLoadFault};
ghost use Rattle.htree_file.specs.Opening.{checked, table_of};
ghost use Rattle.htree_file.specs.declared.fault.TreeFault.TheVariants.{BadHead};

use crate::fault::TreeFault;
use crate::table::{first_damaged, hash_in, node_version};
use node_image::{Head, NodeImage, RootRef, head_offset, node_offset};

/// Where the nodes end in a file of a format.
pub(crate) fn nodes_end(format: u8) -> usize
    ensures value { result ≡ nodes_end (layout_of format) }
    ensures low { result < 2 ^ 20 }
{
    if format == 1 { 37888 } else { 263168 }
}

// So many bytes from a place on.
fn bytes_at<const N: usize>(image: &[u8], at: u64) -> [u8; N]
    requires { at + N ≤ length image.now }
    ensures { result ≡ bytes_at image.now at N }
{
    let at = at as usize;
    let mut bytes = [0; N];
    bytes.copy_from_slice(&image[at..at + N]);
    bytes
}

// The head of a version.
#[tactic(auto, using(crate::proofs::SameTable::head_low))]
fn read_head(image: &[u8], root: RootRef) -> Result<Head, TreeFault>
    requires { (length image.now ≡ nodes_end (layout_of root.format)) × (root.version < 2) }
    ensures head { MatchResult result
        (λ h. IsTrue (has_form (part_in (layout_of root.format) image.now (head root.version))) × (h ≡ head_in image.now root))
        (λ fault. IsFalse (has_form (part_in (layout_of root.format) image.now (head root.version)))
        × (fault ≡ BadHead (head_in image.now root).length (head_in image.now root).greatest)) }
    ensures sized { IfOk result (λ h. IsTrue (is_sized h)) }
    ensures few { IfOk result (λ h. (1 ≤ h.greatest) × (h.greatest ≤ 256)) }
{
    match Head::from_bytes(&bytes_at(image, head_offset(root.format, root.version))) {
        Ok(head) => Ok(head),
        Err(bad) => Err(TreeFault::BadHead {
            length: bad.length,
            greatest: bad.greatest,
        }),
    }
}

// The first so many selected nodes.
#[tactic(auto, using(crate::proofs::SameTable::node_low))]
fn read_nodes(image: &[u8], root: RootRef, count: usize, nodes: &mut [NodeImage])
    requires image { (length image.now ≡ nodes_end (layout_of root.format)) × (root.version < 2) }
    requires few { (count ≤ length nodes.old) × (length nodes.old ≤ 256) }
    ensures { take count nodes.new ≡ row (λ k. selected_node image.now root (k + 1)) count }
{
    for k in 0..count {
        let n = k as u32 + 1;
        let version = node_version(&nodes[..k], root.version, n);
        nodes[k] = NodeImage::from_bytes(&bytes_at(image, node_offset(root.format, n, version)));
    }
}

/// Whether the root's stored hash is the wanted one, and each node's the one that it has.
///
/// # Errors
///
/// `Damaged` with the first node whose hash is not the one that is wanted of it.
pub fn check_hashes(nodes: &[NodeImage], head: &Head, root: RootRef) -> Result<(), TreeFault>
    requires all { length nodes.now ≡ head.now.greatest }
    requires some { (1 ≤ length nodes.now) × (length nodes.now ≤ 256) }
    ensures ok { OnOk result (checked head.now nodes.now root ≡ Result.Ok (record { head = head.now; nodes = nodes.now; layout = layout_of root.format })) }
    ensures err { IfErr result (λ fault. checked head.now nodes.now root ≡ Result.Err fault) }
{
    let found = nodes[0].hash;
    if found != root.hash {
        return Err(TreeFault::Damaged {
            node: 1,
            want: root.hash,
            found,
        });
    }
    match first_damaged(nodes, head) {
        Some(node) => Err(TreeFault::Damaged {
            node,
            want: nodes[node as usize - 1].hash,
            found: hash_in(nodes, head, node),
        }),
        None => Ok(()),
    }
}

/// Reads head and nodes, and verifies them against the reference. The head tells how many of the table's entries are the
/// tree's.
pub(crate) fn read_table(
    image: &[u8],
    root: RootRef,
    nodes: &mut [NodeImage],
) -> Result<Head, TreeFault>
    requires image { (length image.now ≡ nodes_end (layout_of root.format)) × (root.version < 2) }
    requires room { length nodes.old ≡ 256 }
    ensures ok { IfOk result (λ h. table_of image.now root ≡ Result.Ok (record { head = h; nodes = take h.greatest nodes.new; layout = layout_of root.format })) }
    ensures bytes { AreBytes image.now }
    ensures sized { IfOk result (λ h. IsTrue (is_sized h)) }
    ensures few { IfOk result (λ h. (1 ≤ h.greatest) × (h.greatest ≤ 256)) }
    ensures err { IfErr result (λ fault. table_of image.now root ≡ Result.Err fault) }
    ensures kind { IfErr result IsLoadFault }
{
    let head = read_head(image, root)?;
    let count = head.greatest as usize;
    read_nodes(image, root, count, nodes);
    check_hashes(&nodes[..count], &head, root)?;
    Ok(head)
}
