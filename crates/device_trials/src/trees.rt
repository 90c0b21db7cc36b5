// What a file's image has of the tree that a reference names.

ghost use Rattle.std.specs.Prelude.{◌≡◌, ◌+◌, ◌≤◌};

use anyhow::{Context, bail};
use byte_fields::field;
use node_image::{Head, NodeImage, RootRef, head_offset, node_offset};
use std::alloc::Global;

/// The wrapped key of a tree, and the vector of each of its nodes, node 1 first.
#[derive(Drop)]
pub struct Drawn {
    pub wrapped: [u8; 16],
    pub vectors: Vec<[u8; 16]>,
}

// So many bytes of the image, from that place on.
fn part<const N: usize>(image: &[u8], at: u64) -> anyhow::Result<[u8; N]> {
    let place = at as usize;
    if image.len() < N || image.len() - N < place {
        bail!("a short image");
    }
    Ok(field(image, place))
}

// The version that a node's flags give for its left child, or its right one.
fn child_version(parent: &NodeImage, child: u32) -> u8 {
    let flags = parent.flags;
    let bit = if child % 2 == 0 { flags & 2 } else { flags & 4 };
    u8::from(bit != 0)
}

// The version of the node of that number, behind those before it.
fn version_of(nodes: &[NodeImage], root: &RootRef, number: u32) -> Option<u8> {
    if number <= 1 {
        return Some(root.version);
    }
    let parent = nodes.get((number / 2 - 1) as usize)?;
    Some(child_version(parent, number))
}

/// Reads the tree of that reference.
pub fn drawn_in(alloc: Global, image: &[u8], root: &RootRef) -> anyhow::Result<Drawn> {
    let bytes = part::<32>(image, head_offset(root.format, root.version))?;
    let head = Head::from_bytes(&bytes).ok().context("a bad head")?;
    let mut nodes: Vec<NodeImage> = Vec::new(alloc);
    let mut vectors = Vec::new(alloc);
    for number in 1..=head.greatest {
        let version = version_of(&nodes, root, number).context("no parent")?;
        let node = NodeImage::from_bytes(&part::<66>(
            image,
            node_offset(root.format, number, version),
        )?);
        vectors.push(node.iv)?;
        nodes.push(node)?;
    }
    Ok(Drawn {
        wrapped: head.wrapped,
        vectors,
    })
}
