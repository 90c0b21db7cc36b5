// A node as it is stored, and the reference to a root.

ghost use Rattle.std.specs.Prelude.{◌≡◌};
ghost use Rattle.node_image.specs.Layout.{node_bytes, node_of};

use byte_fields::{field, put};

/// A node as it is stored, in 66 bytes.
#[derive(Clone, Copy, PartialEq, Eq, Debug)]
pub struct NodeImage {
    /// The hash of this node and all below it: SHA-256.
    pub hash: [u8; 32],
    /// The initialization vector of its block.
    pub iv: [u8; 16],
    /// The tag of its block.
    pub tag: [u8; 16],
    /// Bit 0 is the version of its block, bit 1 that of child 2 n, bit 2 that of child 2 n + 1. Other
    /// bits are kept and hashed.
    pub flags: u16,
}

impl NodeImage {
    /// The 66 bytes of the node.
    pub fn to_bytes(&self) -> [u8; 66]
        ensures bytes { result ≡ node_bytes self.now }
        // Read, they are the node again.
        ensures read { node_of result ≡ self.now }
    {
        let flags = self.flags;
        let mut bytes = [0; 66];
        put(&mut bytes, 0, &self.hash);
        put(&mut bytes, 32, &self.iv);
        put(&mut bytes, 48, &self.tag);
        put(&mut bytes, 64, &flags.to_be_bytes());
        bytes
    }

    /// The node that 66 bytes hold. Any bytes hold one.
    pub fn from_bytes(bytes: &[u8; 66]) -> NodeImage
        ensures node { result ≡ node_of bytes.now }
        // Written, it is the bytes again.
        ensures written { node_bytes result ≡ bytes.now }
    {
        NodeImage {
            hash: field(bytes, 0),
            iv: field(bytes, 32),
            tag: field(bytes, 48),
            flags: u16::from_be_bytes(field(bytes, 64)),
        }
    }
}

/// The format of the files that are written. Those of format 1 are only read.
pub const FORMAT: u8 = 2;

/// Which root a tree is read by.
#[derive(Clone, Copy, PartialEq, Eq, Debug)]
pub struct RootRef {
    /// The hash that node 1 has.
    pub hash: [u8; 32],
    /// The version of node 1 and of the head, 0 or 1.
    pub version: u8,
    /// The format of the file, which says where each part stands: 1 or 2.
    pub format: u8,
}
