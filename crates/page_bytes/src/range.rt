//! Ranges of bytes, and the blocks that they meet.

ghost use Rattle.std.specs.Prelude.{◌≡◌, ◌↔◌, ℕ, ◌+◌, ◌*◌, ◌<◌, ◌≤◌, ◌^◌, true, IsTrue};
ghost use Rattle.page_bytes.specs.Ranges.{end_block, first_block, meets, needs, read_range, resize_range, write_range};

/// How many bytes a block has.
const BLOCK: u64 = 4096;

/// A range of the bytes that lie in blocks of 4,096: what a read gives, or what a change makes new.
#[derive(Clone, Copy, PartialEq, Eq, Debug)]
pub struct ByteRange {
    /// How many bytes there are, or were before the change.
    pub size: u64,
    /// The place of the first byte of the range, counted from 0.
    pub first: u64,
    /// The place behind its last byte.
    pub last: u64,
}

impl ByteRange {
    /// What a read of at most so many bytes from a place on gives: fewer near the end, and none behind it.
    pub fn of_read(size: u64, at: u64, count: u64) -> ByteRange
        ensures { result ≡ read_range size at count }
    {
        ByteRange {
            size,
            first: at.min(size),
            last: at.saturating_add(count).min(size),
        }
    }

    /// What a write of so many bytes at a place changes: they, and what lies between the old end and the place.
    pub fn of_write(size: u64, at: u64, count: u64) -> ByteRange
        requires { at + count < 2 ^ 64 }
        ensures { result ≡ write_range size at count }
    {
        ByteRange {
            size,
            first: size.min(at),
            last: at + count,
        }
    }

    /// What another length changes: what lies between the two ends.
    pub fn of_resize(size: u64, length: u64) -> ByteRange
        ensures { result ≡ resize_range size length }
    {
        ByteRange {
            size,
            first: length.min(size),
            last: length.max(size),
        }
    }

    /// The first block that has a byte of the range.
    pub fn first_block(self) -> u32
        requires { self.first < 2 ^ 32 }
        ensures { result ≡ first_block self }
    {
        (self.first / BLOCK) as u32
    }

    /// The block behind the last one that has.
    pub fn end_block(self) -> u32
        requires { (self.first < 2 ^ 32) × (self.last < 2 ^ 32) }
        ensures value { result ≡ end_block self }
        // From the first block on and before this one are exactly the blocks that the range meets.
        ensures blocks { (k : ℕ) → (first_block self ≤ k) × (k < end_block self) ↔ meets self.first self.last k ≡ true }
    {
        if self.first < self.last {
            self.last.div_ceil(BLOCK) as u32
        } else {
            self.first_block()
        }
    }

    /// Whether the change needs what block `k` was: it meets the block, which holds another byte of the old ones too.
    pub fn needs(self, k: u32) -> bool
        ensures { result ≡ needs self k }
    {
        let begin = BLOCK * u64::from(k);
        let end = begin + BLOCK;
        let meets = self.first < self.last && begin < self.last && self.first < end;
        meets && (begin < self.first.min(self.size) || self.last < end.min(self.size))
    }

    /// Whether all bytes of block `k` are in the range.
    pub fn has_whole(self, k: u32) -> bool
        ensures { IsTrue result ↔ (self.first ≤ 4096 * k) × (4096 * (k + 1) ≤ self.last) }
    {
        let begin = BLOCK * u64::from(k);
        self.first <= begin && begin + BLOCK <= self.last
    }
}
