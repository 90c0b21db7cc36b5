//! GHASH, the hash function of Galois/Counter Mode (NIST SP 800-38D, sections 6.3 and 6.4): sums of
//! products in the field of 2^128 elements.
//!
//! A block is 16 bytes. As a `u128` its first byte is the greatest, so its leftmost bit is bit 127,
//! and that is the coefficient of x^0 of its polynomial. The sum of two blocks is `^`.
#![tactic(auto)]

ghost use Rattle.std.specs.Prelude.{◌≡◌, ℕ, List, [], ◌∷◌, ◌++◌, ◌+◌, ◌*◌, ◌<◌, ◌^◌, bit_xor, map};
ghost use Rattle.std.specs.Int.{w128, from_be_bytes, to_be_bytes};
ghost use Rattle.ghash_field.specs.Field.{block_product};
ghost use Rattle.ghash_field.specs.Ghash.{ghash};
ghost use Rattle.ghash_field.specs.Hasher.{Holds};
ghost use Rattle.ghash_field.specs.Words.{AreLaneParts};
ghost use Rattle.ghash_field.specs.Steps.{block_step};

use carryless::parts_of;
use reduction::block_of;
use std::simd::prelude::*;
use words::{LaneParts, lane_parts_of, sum_of_four, sum_of_two, whole_of, words_of};

mod carryless;
mod reduction;
mod words;

// R of section 6.3: 1110 0001, then 120 zero bits. It stands for x^128.
const REDUCTION: u128 = 0xe1 << 120;

// A block times the polynomial x.
fn times_x(block: u128) -> u128
    ensures { result ≡ block_step block }
{
    (block >> 1) ^ (block & 1) * REDUCTION
}

/// The product a • b of two blocks (section 6.3), bit by bit.
pub fn mul(a: u128, b: u128) -> u128
    ensures { result ≡ block_product a b }
{
    let mut sum = 0;
    let mut multiple = b;
    for i in 0..128u32 {
        sum ^= ((a >> (127 - i)) & 1) * multiple;
        multiple = times_x(multiple);
    }
    sum
}

/// The laws of the product of blocks: it commutes, it associates, it distributes over the sum, and
/// the block of the polynomial 1 leaves a block as it is. The function does nothing: its contract is
/// the laws.
pub fn product_laws()
    ensures commutes { (a b : ℕ) → block_product a b ≡ block_product b a }
    ensures associates { (a b c : ℕ) → block_product (block_product a b) c ≡ block_product a (block_product b c) }
    ensures distributes { (a b c : ℕ) → block_product (bit_xor a b) c ≡ bit_xor (block_product a c) (block_product b c) }
    ensures one { (a : ℕ) → a < 2 ^ 128 → block_product (2 ^ 127) a ≡ a }
{}

/// GHASH is defined as a sum of products by powers of H. This law says that it is what the steps of
/// section 6.4 give as well: Y 0 is 0, and Y i is (Y (i - 1) + X i) • H. The function does nothing.
pub fn ghash_steps()
    ensures first { (h : ℕ) → ghash h [] ≡ 0 }
    ensures next { (h x : ℕ) (xs : List ℕ) → h < 2 ^ 128 → ghash h (xs ++ x ∷ []) ≡ block_product (bit_xor (ghash h xs) x) h }
{}

// The product of a block by the second of two blocks whose words' parts are given.
fn times(a: u128, parts: &LaneParts) -> u128
    ensures { (g h : ℕ) → g < 2 ^ 128 → h < 2 ^ 128 → AreLaneParts g h parts.now → result ≡ block_product a h }
{
    let (high, low) = whole_of(&sum_of_two(&words_of(0, a), parts));
    block_of(high, low)
}

/// GHASH of a run of blocks under one hash subkey, block by block or four blocks at once.
#[derive(Drop)]
pub struct Ghash {
    // The parts of the words of H^4 and H^3, and of those of H^2 and H.
    powers: [LaneParts; 2],
    sum: u128,
}

impl Ghash {
    /// A hasher of no block, under the hash subkey `h`.
    pub fn new(h: u128) -> Ghash
        ensures { Holds result h [] }
    {
        let mut hash = Ghash::of_zero();
        hash.begin(h);
        hash
    }

    /// A hasher of no block, under the hash subkey 0. Nothing is multiplied.
    pub fn of_zero() -> Ghash
        ensures { Holds result 0 [] }
    {
        Ghash {
            powers: [[parts_of(u64x2::splat(0)); 9]; 2],
            sum: 0,
        }
    }

    /// Begins with no block, under the hash subkey `h`.
    pub fn begin(&mut self, h: u128)
        ensures { Holds self.new h [] }
    {
        let first = lane_parts_of(0, h);
        let square = times(h, &first);
        let cube = times(square, &first);
        let fourth = times(cube, &first);
        let powers = [lane_parts_of(fourth, cube), lane_parts_of(square, h)];
        self.powers = powers;
        self.sum = 0;
    }

    /// Begins again with no block, under the same hash subkey.
    pub fn restart(&mut self)
        ensures { (h : ℕ) (xs : List ℕ) → Holds self.old h xs → Holds self.new h [] }
    {
        self.sum = 0;
    }

    /// Takes in one block.
    pub fn update(&mut self, block: &[u8; 16])
        ensures { (h : ℕ) (xs : List ℕ) → Holds self.old h xs → Holds self.new h (xs ++ from_be_bytes w128 block.now ∷ []) }
    {
        self.sum = times(self.sum ^ u128::from_be_bytes(*block), &self.powers[1]);
    }

    /// Takes in four blocks, in less time than one by one: each is multiplied by its own power of H,
    /// and only the sum of the products is reduced.
    pub fn update_four(&mut self, blocks: &[[u8; 16]; 4])
        ensures { (h : ℕ) (xs : List ℕ) → Holds self.old h xs → Holds self.new h (xs ++ map (from_be_bytes w128) blocks.now) }
    {
        let first = self.sum ^ u128::from_be_bytes(blocks[0]);
        let second = u128::from_be_bytes(blocks[1]);
        let third = u128::from_be_bytes(blocks[2]);
        let fourth = u128::from_be_bytes(blocks[3]);
        let words = [words_of(first, second), words_of(third, fourth)];
        let sums = sum_of_four(&words, &self.powers);
        let (high, low) = whole_of(&sums);
        self.sum = block_of(high, low);
    }

    /// GHASH of the blocks taken in so far, as a block.
    pub fn finish(&self) -> [u8; 16]
        ensures { (h : ℕ) (xs : List ℕ) → Holds self.now h xs → result ≡ to_be_bytes w128 (ghash h xs) }
    {
        self.sum.to_be_bytes()
    }
}
