// Nodes of trees: which ones a change touches, and their bytes and hashes.

use crate::report::Report;
use node_image::{
    Head, NodeImage, block_offset, greatest_node, head_offset, node_hash, node_offset,
};
use std::alloc::{AllocError, Global};
use tree_paths::{NodeSet, children, parent, staged_nodes, touched_nodes};

/// The numbers of a set's nodes.
fn numbers_of(alloc: Global, set: &NodeSet) -> Result<Vec<u32>, AllocError> {
    let mut numbers = Vec::new(alloc);
    for n in 0..300 {
        if set.has(n) {
            numbers.push(n)?;
        }
    }
    Ok(numbers)
}

fn add_set(
    report: &mut Report,
    alloc: Global,
    call: &str,
    set: &NodeSet,
) -> Result<(), AllocError> {
    let numbers = numbers_of(alloc, set)?;
    let count = set.count();
    report.add(&format_args!("tree_paths: {call} -> {count} nodes, {numbers:?}"));
    Ok(())
}

fn add_family(report: &mut Report) {
    report.line("tree_paths: children of 1 of 256", &children(1, 256));
    report.line("tree_paths: children of 4 of 256", &children(4, 256));
    report.line("tree_paths: children of 128 of 256", &children(128, 256));
    report.line("tree_paths: children of 200 of 256", &children(200, 256));
    report.line("tree_paths: parent of 1", &parent(1));
    report.line("tree_paths: parent of 256", &parent(256));
    report.line("tree_paths: parent of 7", &parent(7));
}

fn add_sets(report: &mut Report, alloc: Global) -> Result<(), AllocError> {
    for (call, set) in [
        ("touched by blocks 4 and 6 of 8", touched_nodes(&[4, 6], 8)),
        ("touched by block 0 of 1", touched_nodes(&[0], 1)),
        ("touched by block 255 of 256", touched_nodes(&[255], 256)),
        ("touched by no block of 256", touched_nodes(&[], 256)),
        (
            "written for block 255 of 256",
            staged_nodes(&[255], 256, 256),
        ),
        ("written for block 7 of 8", staged_nodes(&[7], 8, 8)),
        // node 9 goes, and node 4 remains above it
        (
            "written for block 7 of 9 that become 8",
            staged_nodes(&[7], 9, 8),
        ),
        (
            "written for 9 blocks that become 8",
            staged_nodes(&[], 9, 8),
        ),
    ] {
        add_set(report, alloc, call, &set)?;
    }
    Ok(())
}

fn add_offsets(report: &mut Report) {
    for format in [1, 2] {
        for (part, place) in [
            ("head 1", head_offset(format, 1)),
            ("node 1 0", node_offset(format, 1, 0)),
            ("node 1 1", node_offset(format, 1, 1)),
            ("node 2 0", node_offset(format, 2, 0)),
            ("node 256 1", node_offset(format, 256, 1)),
            ("block 0 0", block_offset(format, 0, 0)),
            ("block 1 0", block_offset(format, 1, 0)),
            ("block 255 1", block_offset(format, 255, 1)),
        ] {
            report.add(&format_args!("node_image: place of {part} in format {format} -> {place}"));
        }
    }
}

// 16 bytes that rise from `first`.
fn rising(first: u8) -> [u8; 16] {
    let mut bytes = [0; 16];
    for (i, byte) in bytes.iter_mut().enumerate() {
        *byte = first.wrapping_add(i as u8);
    }
    bytes
}

fn example_node() -> NodeImage {
    NodeImage {
        hash: [7; 32],
        iv: rising(0),
        tag: rising(16),
        flags: 5,
    }
}

// The expected hashes are from Python's `hashlib`.
fn add_hashes(report: &mut Report) {
    let node = example_node();
    let head = Head {
        wrapped: rising(32),
        length: 8193,
        greatest: 3,
    };
    let root = node_hash(&node, Some(&head), Some(&[0xaa; 32]), Some(&[0xbb; 32]));
    report.hex("node_image: hash of node 1 with children", &root);
    let inner = node_hash(&node, None, Some(&[0xaa; 32]), None);
    report.hex("node_image: hash with a left child", &inner);
    let leaf = node_hash(&node, None, None, None);
    report.hex("node_image: hash with no child", &leaf);
}

fn add_node(report: &mut Report) {
    let bytes = example_node().to_bytes();
    report.hex("node_image: bytes of a node", &bytes);
    let again = NodeImage::from_bytes(&bytes) == example_node();
    report.line("node_image: is it the node again", &again);
}

fn add_head(report: &mut Report) {
    let head = Head {
        wrapped: rising(0),
        length: 1_048_576,
        greatest: 256,
    };
    let mut bytes = head.to_bytes();
    report.hex("node_image: bytes of a head", &bytes);
    report.line("node_image: the head again", &Head::from_bytes(&bytes));
    bytes[31] = 1;
    report.line("node_image: a last byte of 1", &Head::from_bytes(&bytes));
    report.line("node_image: zeros", &Head::from_bytes(&[0; 32]));
    report.line("node_image: nodes of no byte", &greatest_node(0));
    report.line("node_image: nodes of 4096 bytes", &greatest_node(4096));
    report.line("node_image: nodes of 4097 bytes", &greatest_node(4097));
}

/// Adds the calls of `tree_paths` and `node_image`.
pub fn add_calls(report: &mut Report, alloc: Global) -> Result<(), AllocError> {
    add_family(report);
    add_sets(report, alloc)?;
    add_offsets(report);
    add_hashes(report);
    add_node(report);
    add_head(report);
    Ok(())
}
