//! Access flags of an open object.

ghost use Rattle.std.specs.Prelude.{◌≡◌};

/// The handle may read the object's data.
pub const READ: u32 = 0x1;
/// The handle may write and truncate the object's data.
pub const WRITE: u32 = 0x2;
/// The handle may rename and delete the object.
pub const WRITE_META: u32 = 0x4;
/// Other handles may have READ.
pub const SHARE_READ: u32 = 0x10;
/// Other handles may have WRITE.
pub const SHARE_WRITE: u32 = 0x20;
/// A create may replace an object of that name.
pub const OVERWRITE: u32 = 0x400;

/// A set of access flags, as bits. Bits outside the six are kept: a call that is given one is a misuse.
#[derive(Clone, Copy, Debug, PartialEq, Eq)]
pub struct Flags {
    /// The bits, of which six have a meaning.
    pub bits: u32,
}

impl Flags {
    ghost use Rattle.tee_types.specs.Rights.{has, is_known, are_compatible, without_overwrite};

    /// Whether each of these bits is set.
    pub fn has(self, bits: u32) -> bool
        ensures { result ≡ has self bits }
    {
        self.bits & bits == bits
    }

    /// Whether no bit outside the six is set.
    pub fn known(self) -> bool
        ensures { result ≡ is_known self }
    {
        let known = READ | WRITE | WRITE_META | SHARE_READ | SHARE_WRITE | OVERWRITE;
        self.bits & known == self.bits
    }

    /// The rights alone: without OVERWRITE, and without unknown bits.
    pub fn without_overwrite(self) -> Flags
        ensures { result ≡ without_overwrite self }
    {
        let rights = READ | WRITE | WRITE_META | SHARE_READ | SHARE_WRITE;
        Flags {
            bits: self.bits & rights,
        }
    }

    /// Whether handles with these flags may be open on one object side by side.
    pub fn is_compatible_with(self, other: Flags) -> bool
        ensures { result ≡ are_compatible self other }
    {
        let meta = self.has(WRITE_META) || other.has(WRITE_META);
        let reads = self.has(READ) || other.has(READ);
        let writes = self.has(WRITE) || other.has(WRITE);
        !meta
            && (!reads || self.has(SHARE_READ) && other.has(SHARE_READ))
            && (!writes || self.has(SHARE_WRITE) && other.has(SHARE_WRITE))
    }
}
