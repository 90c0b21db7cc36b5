// What GHASH takes in: bytes in whole blocks, the last filled with zero bytes, and lengths.

ghost use Rattle.std.specs.Prelude.{◌≡◌, ℕ, List, ◌++◌, ◌-◌, ◌*◌, ◌^◌, ◌<◌, ◌≤◌, length, replicate};
ghost use Rattle.std.specs.Int.{w64, to_be_bytes};
ghost use Rattle.ghash_field.specs.Hasher.{Holds};
ghost use Rattle.gcm_mode.specs.ByteBlocks.{blocks, padded};

use ghash_field::Ghash;

// A part of a block, filled with zero bytes.
fn filled(part: &[u8]) -> [u8; 16]
    requires { length part.now ≤ 16 }
    ensures { result ≡ part.now ++ replicate (16 - length part.now) 0 }
{
    let mut block = [0u8; 16];
    block[..part.len()].copy_from_slice(part);
    block
}

/// Takes in the bytes, filled to whole blocks.
pub(crate) fn absorb(hash: &mut Ghash, bytes: &[u8])
    ensures { (h : ℕ) (xs : List ℕ) → Holds hash.old h xs → Holds hash.new h (xs ++ blocks (padded bytes.now)) }
{
    let (blocks, rest) = bytes.as_chunks::<16>();
    let (groups, others) = blocks.as_chunks::<4>();
    'groups: for group in groups {
        hash.update_four(group);
    }
    'others: for block in others {
        hash.update(block);
    }
    if rest.len() > 0 {
        hash.update(&filled(rest));
    }
}

/// The lengths in bits of two parts, 8 bytes each.
pub(crate) fn lengths(first: usize, second: usize) -> [u8; 16]
    requires first { first < 2 ^ 60 }
    requires second { second < 2 ^ 60 }
    ensures { result ≡ to_be_bytes w64 (first * 8) ++ to_be_bytes w64 (second * 8) }
{
    let mut block = [0u8; 16];
    block[..8].copy_from_slice(&(first as u64 * 8).to_be_bytes());
    block[8..].copy_from_slice(&(second as u64 * 8).to_be_bytes());
    block
}
