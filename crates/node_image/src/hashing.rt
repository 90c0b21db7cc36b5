// The hash of a node.

ghost use Rattle.std.specs.Prelude.{◌≡◌, ℕ, List, ◌++◌, option_copied};
ghost use Rattle.sha2.specs.Hashers.{Holds256};
ghost use Rattle.node_image.specs.Hashes.{child_input, head_input, node_hash_of};

use crate::head::Head;
use crate::node::NodeImage;
use sha2::{Digest, Sha256};

fn add_head(hasher: &mut Sha256, head: Option<&Head>)
    ensures { (m : List ℕ) → Holds256 hasher.old m → Holds256 hasher.new (m ++ head_input (option_copied head.entry)) }
{
    if let Some(head) = head {
        hasher.update(&head.wrapped);
        hasher.update(&head.length.to_be_bytes());
        hasher.update(&head.greatest.to_be_bytes());
    }
}

fn add_child(hasher: &mut Sha256, hash: Option<&[u8; 32]>)
    ensures { (m : List ℕ) → Holds256 hasher.old m → Holds256 hasher.new (m ++ child_input (option_copied hash.entry)) }
{
    if let Some(hash) = hash {
        hasher.update(hash);
    }
}

/// The hash of a node: SHA-256 over its initialization vector, tag and flags, the head for the root, and the
/// hashes of the children that exist, the left one first.
pub fn node_hash(
    node: &NodeImage,
    head: Option<&Head>,
    left: Option<&[u8; 32]>,
    right: Option<&[u8; 32]>,
) -> [u8; 32]
    ensures { result ≡ node_hash_of node.now (option_copied head.entry) (option_copied left.entry) (option_copied right.entry) }
{
    let mut hasher = Sha256::new();
    hasher.update(&node.iv);
    hasher.update(&node.tag);
    hasher.update(&node.flags.to_be_bytes());
    add_head(&mut hasher, head);
    add_child(&mut hasher, left);
    add_child(&mut hasher, right);
    hasher.finalize()
}
