//! Pages that a change leaves.

ghost use Rattle.std.specs.Prelude.{◌≡◌, ◌+◌, ◌-◌, ◌*◌, ◌<◌, ◌≤◌, ◌^◌, ◌&&◌, ℕ, length, get_or, min, nat_le, nat_lt, if◌then◌else◌};
ghost use Rattle.page_bytes.specs.Rewriting.{Fits, IsRewritten, given_byte, laid_byte};

use crate::range::ByteRange;

// The bytes of a block.
type Page = [u8; 4096];

/// Where a place stands in block `k`: 0 where it lies before it, 4,096 where it lies behind it.
fn offset_in(k: u32, place: u64) -> usize
    ensures { result ≡ min (place - 4096 * k) 4096 }
{
    place.saturating_sub(4096 * u64::from(k)).min(4096) as usize
}

/// Makes the bytes from one offset on and before another zero.
fn clear(page: &mut Page, from: usize, upto: usize)
    requires { (from ≤ upto) × (upto ≤ 4096) }
    ensures { (i : ℕ) → get_or page.new i 0 ≡ if nat_le from i && nat_lt i upto then 0 else get_or page.old i 0 }
{
    page[from..upto].fill(0);
}

/// Puts bytes that lie from a place on into block `k`, as far as they meet it.
fn lay(k: u32, at: u64, bytes: &[u8], page: &mut Page)
    requires { at + length bytes.now < 2 ^ 64 }
    ensures { (i : ℕ) → i < 4096 → get_or page.new i 0 ≡
        if nat_le at (4096 * k + i) && nat_lt (4096 * k + i) (at + length bytes.now) then laid_byte at bytes.now (4096 * k + i) else get_or page.old i 0 }
{
    let (from, upto) = (offset_in(k, at), offset_in(k, at + bytes.len() as u64));
    if from < upto {
        let begin = (4096 * u64::from(k) + from as u64 - at) as usize;
        page[from..upto].copy_from_slice(&bytes[begin..begin + (upto - from)]);
    }
}

impl ByteRange {
    /// Copies the bytes of the range that block `k` has from its page to their places in `into`, which begins with the first
    /// byte of the range.
    pub fn copy_out(self, k: u32, page: &[u8; 4096], into: &mut [u8])
        requires { self.last ≤ self.first + length into.old }
        ensures { (i : ℕ) → get_or into.new i 0 ≡ given_byte self k page.now i (get_or into.old i 0) }
    {
        let (from, upto) = (offset_in(k, self.first), offset_in(k, self.last));
        if from < upto {
            let begin = (4096 * u64::from(k) + from as u64 - self.first) as usize;
            into[begin..begin + (upto - from)].copy_from_slice(&page[from..upto]);
        }
    }

    /// Makes the page of block `k`, as it was, the one that it is after the change: the bytes lie from the place `at` on, what
    /// else changes is zero, and so is what lies behind the old end.
    pub fn rewrite(self, k: u32, at: u64, bytes: &[u8], page: &mut [u8; 4096])
        requires { Fits self at (length bytes.now) }
        ensures { IsRewritten self at bytes.now k page.old page.new }
    {
        clear(page, offset_in(k, self.size), 4096);
        clear(page, offset_in(k, self.first), offset_in(k, self.last));
        lay(k, at, bytes, page);
    }
}
