// The product of two polynomials of degree below 128, by nine products of words.
//
// Of two polynomials in halves, a1 x^k + a0 and b1 x^k + b0, the product is
// a1 b1 x^2k + ((a1 + a0)(b1 + b0) + a1 b1 + a0 b0) x^k + a0 b0, which takes three products of half
// the length. The halves are multiplied so again. A table that is read at a place which depends on
// the numbers, or a branch on their bits, would show in the time that it takes; here is neither.

ghost use Rattle.std.specs.Prelude.{◌≡◌, ℕ, ◌/◌, ◌%◌, ◌<◌, ◌^◌, [], bit_xor, slice_index_or};
ghost use Rattle.ghash_field.specs.Words.{AreLaneParts, AreLanes, joined, whole_of};
ghost use Rattle.ghash_field.specs.Polynomial.{product};

use crate::carryless::{Parts, add_products, no_products, parts_of, settled};
use std::simd::prelude::*;

/// The four words of two polynomials, the lowest first, and the sums of them that are multiplied as well. The first
/// polynomial's are in the first lane.
pub(crate) type Lanes = [u64x2; 9];

/// The parts of each of these words.
pub(crate) type LaneParts = [Parts; 9];

/// Sums of products, one for each word.
pub(crate) type Sums = [u64; 9];

#[inline(always)]
fn low_half(p: u128) -> u64
    ensures { result ≡ p % 2 ^ 64 }
{
    (p & 0xffff_ffff_ffff_ffff) as u64
}

#[inline(always)]
pub(crate) fn words_of(p: u128, q: u128) -> Lanes
    ensures { AreLanes p q result }
{
    let low = u64x2::from_array([low_half(p), low_half(q)]);
    let high = u64x2::from_array([(p >> 64) as u64, (q >> 64) as u64]);
    let a = low & u64x2::splat(0xffff_ffff);
    let b = low >> u64x2::splat(32);
    let c = high & u64x2::splat(0xffff_ffff);
    let d = high >> u64x2::splat(32);
    [a, b, c, d, a ^ c, b ^ d, a ^ b, c ^ d, (a ^ c) ^ (b ^ d)]
}

/// The parts of the words of two polynomials.
pub(crate) fn lane_parts_of(p: u128, q: u128) -> LaneParts
    ensures { AreLaneParts p q result }
{
    let [w0, w1, w2, w3, w4, w5, w6, w7, w8] = words_of(p, q);
    [
        parts_of(w0),
        parts_of(w1),
        parts_of(w2),
        parts_of(w3),
        parts_of(w4),
        parts_of(w5),
        parts_of(w6),
        parts_of(w7),
        parts_of(w8),
    ]
}

/// The sum of two products: of the first polynomials, and of the second.
#[inline(always)]
pub(crate) fn sum_of_two(x: &Lanes, y: &LaneParts) -> Sums
    ensures { (p q r s : ℕ) → p < 2 ^ 128 → q < 2 ^ 128 → r < 2 ^ 128 → s < 2 ^ 128
        → AreLanes p q x.now → AreLaneParts r s y.now
        → whole_of result ≡ bit_xor (product p r) (product q s) }
{
    let mut sums = [0; 9];
    for k in 0..9 {
        sums[k] = settled(add_products(no_products(), x[k], &y[k]));
    }
    sums
}

/// The sum of four products: of the first and second polynomials of one pair, and of those of another.
#[inline(always)]
pub(crate) fn sum_of_four(x: &[Lanes; 2], y: &[LaneParts; 2]) -> Sums
    ensures { (a b c d e f g h : ℕ) → a < 2 ^ 128 → b < 2 ^ 128 → c < 2 ^ 128 → d < 2 ^ 128
        → e < 2 ^ 128 → f < 2 ^ 128 → g < 2 ^ 128 → h < 2 ^ 128
        → AreLanes a b (slice_index_or x.now 0 []) → AreLanes c d (slice_index_or x.now 1 [])
        → AreLaneParts e f (slice_index_or y.now 0 []) → AreLaneParts g h (slice_index_or y.now 1 [])
        → whole_of result ≡ bit_xor (bit_xor (product a e) (product c g)) (bit_xor (product b f) (product d h)) }
{
    let mut sums = [0; 9];
    for k in 0..9 {
        let first = add_products(no_products(), x[0][k], &y[0][k]);
        sums[k] = settled(add_products(first, x[1][k], &y[1][k]));
    }
    sums
}

// The product of two polynomials in halves of 32 bits: from the product of the low halves, that of
// the high ones, and that of the sums.
fn joined(low: u64, high: u64, both: u64) -> u128
    ensures { result ≡ joined 32 low high both }
{
    let middle = low ^ high ^ both;
    low as u128 ^ (middle as u128) << 32 ^ (high as u128) << 64
}

/// The polynomial that the sums stand for: its terms from x^128 on, and those below.
pub(crate) fn whole_of(sums: &Sums) -> (u128, u128)
    ensures high { result.0 ≡ whole_of sums.now / 2 ^ 128 }
    ensures low { result.1 ≡ whole_of sums.now % 2 ^ 128 }
{
    let low = joined(sums[0], sums[1], sums[6]);
    let high = joined(sums[2], sums[3], sums[7]);
    let both = joined(sums[4], sums[5], sums[8]);
    let middle = low ^ high ^ both;
    (high ^ middle >> 64, low ^ middle << 64)
}
