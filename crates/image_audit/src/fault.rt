// What a certificate says, and why one is refused.

use tee_types::{AppId, Bytes, ObjectId};

/// What a certificate says: the name of an object, its attributes and its data.
#[derive(Debug, Drop)]
pub struct Listed {
    pub app: AppId,
    pub id: ObjectId,
    pub attributes: Bytes,
    pub bytes: Bytes,
}

/// Why a tree in a certificate is refused.
#[derive(Clone, Copy, PartialEq, Eq, Debug)]
pub enum ProofFault {
    /// What stands for the head has not the form of one. Its two numbers, the length in bytes and the greatest node.
    BadHead {
        length: u64,
        greatest: u32,
    },
    /// The hash of a node is not the wanted one. For node 1 the reference's is wanted and the stored one is found first;
    /// then for each node the stored one is wanted and the computed one is found.
    Damaged {
        node: u32,
        want: [u8; 32],
        found: [u8; 32],
    },
    /// The tag of a block is not its node's, which stands here. The computed one is not told: who
    /// altered the block would learn the hash subkey from it.
    BadTag {
        block: u32,
        want: [u8; 16],
    },
}

/// Why a certificate is refused: the first test that fails, in this order but for `Form` of the whole length, which is
/// tested behind the object's head.
#[derive(Clone, Copy, PartialEq, Eq, Debug)]
pub enum CertFault {
    /// The card's block is all zero.
    NoStore,
    /// The first byte of the card's block that is outside its form. A block of the old format is refused at byte 0.
    CardBlock { byte: u16 },
    /// The first byte that is wrong or missing, of the part that each certificate has; behind the object's head the lesser
    /// of the certificate's length and the one that it should have.
    Form { at: u32 },
    /// The directory's head, nodes or block.
    Directory(ProofFault),
    /// The first field of the directory's record that is outside its form. A record of the old format is refused at its format.
    Record { offset: u8 },
    /// The directory's record is free.
    Free,
    /// The object's head, nodes or blocks.
    Object(ProofFault),
    /// The record's size does not fit the length in the object's head.
    WrongSize { entry: u32, head: u64 },
    /// Memory ran out.
    NoMemory,
}
