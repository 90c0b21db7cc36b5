// The head of a tree.

ghost use Rattle.std.specs.Prelude.{◌≡◌, ◌≤◌, ◌<◌, ◌^◌, IfOk, IsTrue, IsFalse, MatchResult};
ghost use Rattle.node_image.specs.Layout.{greatest_of, has_form, head_bytes, head_of, is_sized};

use byte_fields::{field, put};

// The most bytes that a tree holds: 256 blocks.
const MOST_BYTES: u64 = 1_048_576;

const BLOCK_BYTES: u64 = 4096;

/// The head of a tree, in 32 bytes of which the last four are zero.
#[derive(Clone, Copy, PartialEq, Eq, Debug)]
pub struct Head {
    /// The file's key, enciphered.
    pub wrapped: [u8; 16],
    /// How many bytes the tree holds, at most 1,048,576.
    pub length: u64,
    /// The greatest node: the length in blocks of 4,096 bytes, rounded up, and at least 1.
    pub greatest: u32,
}

/// Bytes that are no head, and the two numbers that they hold.
#[derive(Clone, Copy, PartialEq, Eq, Debug)]
pub struct BadHead {
    pub length: u64,
    pub greatest: u32,
}

/// The greatest node of a tree that holds so many bytes.
pub fn greatest_node(length: u64) -> u32
    requires { length ≤ 1048576 }
    ensures value { result ≡ greatest_of length }
    ensures few { (1 ≤ result) × (result ≤ 256) }
{
    (length.div_ceil(BLOCK_BYTES) as u32).max(1)
}

impl Head {
    /// The 32 bytes of the head.
    pub fn to_bytes(&self) -> [u8; 32]
        ensures bytes { result ≡ head_bytes self.now }
        // Read, they are the head again, and have the form of a head where the numbers do.
        ensures read { head_of result ≡ self.now }
        ensures form { has_form result ≡ is_sized self.now }
    {
        let (length, greatest) = (self.length, self.greatest);
        let mut bytes = [0; 32];
        put(&mut bytes, 0, &self.wrapped);
        put(&mut bytes, 16, &length.to_be_bytes());
        put(&mut bytes, 24, &greatest.to_be_bytes());
        put(&mut bytes, 28, &[0; 4]);
        bytes
    }

    /// The head that 32 bytes hold.
    ///
    /// # Errors
    ///
    /// `BadHead` with the two numbers of the bytes where they have not the form of a head: where the length is above
    /// 1,048,576, the greatest node is not the length's, or one of the last four bytes is not zero.
    pub fn from_bytes(bytes: &[u8; 32]) -> Result<Head, BadHead>
        ensures head { MatchResult result
            (λ h. IsTrue (has_form bytes.now) × (h ≡ head_of bytes.now))
            (λ bad. IsFalse (has_form bytes.now) × (bad ≡ record { length = (head_of bytes.now).length; greatest = (head_of bytes.now).greatest })) }
        // Written, it is the bytes again.
        ensures written { IfOk result (λ h. head_bytes h ≡ bytes.now) }
    {
        let head = Head {
            wrapped: field(bytes, 0),
            length: u64::from_be_bytes(field(bytes, 16)),
            greatest: u32::from_be_bytes(field(bytes, 24)),
        };
        let spare = u32::from_be_bytes(field(bytes, 28));
        if head.is_sized() && spare == 0 {
            Ok(head)
        } else {
            Err(BadHead {
                length: head.length,
                greatest: head.greatest,
            })
        }
    }

    // Whether the numbers fit each other.
    fn is_sized(&self) -> bool
        ensures { result ≡ is_sized self.now }
    {
        self.length <= MOST_BYTES && self.greatest == greatest_node(self.length)
    }
}
