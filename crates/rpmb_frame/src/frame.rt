// The fields of a frame.

ghost use Rattle.std.specs.Prelude.{◌≡◌};
ghost use Rattle.rpmb_frame.specs.Layout.{frame_bytes, frame_of};

use byte_fields::{field, put};

/// The fields of a frame, in their order in its 512 bytes.
#[derive(Clone, Copy, Debug)]
pub struct Frame {
    /// Bytes 0 to 195, without a meaning.
    pub stuff: [u8; 196],
    /// Bytes 196 to 227: the key to be programmed, or the MAC.
    pub key_or_mac: [u8; 32],
    /// Bytes 228 to 483: the data of one block.
    pub block: [u8; 256],
    /// Bytes 484 to 499: the nonce of a read.
    pub nonce: [u8; 16],
    /// Bytes 500 to 503: the write counter.
    pub counter: u32,
    /// Bytes 504 and 505: the block's address.
    pub address: u16,
    /// Bytes 506 and 507: how many blocks.
    pub count: u16,
    /// Bytes 508 and 509: the result, 0 to 7, with the bit 0x80 where the write counter has
    /// reached its end.
    pub result: u16,
    /// Bytes 510 and 511: which request (1 to 5) or response (0x0100 to 0x0400) the frame is.
    pub kind: u16,
}

impl Frame {
    /// The fields that 512 bytes hold. Any bytes hold a frame.
    pub fn parse(bytes: &[u8; 512]) -> Frame
        ensures fields { result ≡ frame_of bytes.now }
        // Written, they are the bytes again.
        ensures written { frame_bytes result ≡ bytes.now }
    {
        Frame {
            stuff: field(bytes, 0),
            key_or_mac: field(bytes, 196),
            block: field(bytes, 228),
            nonce: field(bytes, 484),
            counter: u32::from_be_bytes(field(bytes, 500)),
            address: u16::from_be_bytes(field(bytes, 504)),
            count: u16::from_be_bytes(field(bytes, 506)),
            result: u16::from_be_bytes(field(bytes, 508)),
            kind: u16::from_be_bytes(field(bytes, 510)),
        }
    }

    /// The 512 bytes of the frame.
    pub fn write(&self) -> [u8; 512]
        ensures bytes { result ≡ frame_bytes self.now }
        // Parsed, they are the fields again.
        ensures parsed { frame_of result ≡ self.now }
    {
        let (counter, address, count) = (self.counter, self.address, self.count);
        let (result, kind) = (self.result, self.kind);
        let mut bytes = [0; 512];
        put(&mut bytes, 0, &self.stuff);
        put(&mut bytes, 196, &self.key_or_mac);
        put(&mut bytes, 228, &self.block);
        put(&mut bytes, 484, &self.nonce);
        put(&mut bytes, 500, &counter.to_be_bytes());
        put(&mut bytes, 504, &address.to_be_bytes());
        put(&mut bytes, 506, &count.to_be_bytes());
        put(&mut bytes, 508, &result.to_be_bytes());
        put(&mut bytes, 510, &kind.to_be_bytes());
        bytes
    }
}
