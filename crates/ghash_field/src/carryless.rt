// Products of polynomials by integer multiplications whose factors have holes: bits at every fourth place only. Such a
// product is a sum of at most eight terms, so no carry gets as far as the next place that is kept. What is not kept is
// cut off once, after the sum of all products.

ghost use Rattle.std.specs.Prelude.{◌≡◌, List, ℕ, ◌<◌, bit_xor, length, slice_index};
ghost use Rattle.ghash_field.specs.Holes.{AreAdded, AreParts, AreTwoWords, AreVectors, AreWords};
ghost use Rattle.ghash_field.specs.Holes.{settled_lane, sum_of_products, vectors_of};

use std::simd::prelude::*;

// The lowest place of each group of four bits: of a word of 32 bits, and of a product of two.
const WORD_PLACES: u64 = 0x1111_1111;

const PRODUCT_PLACES: u64 = 0x1111_1111_1111_1111;

/// The parts of two words. Part j has the bits at place j of each group of four.
#[derive(Clone, Copy)]
pub(crate) struct Parts {
    part_0: u64x2,
    part_1: u64x2,
    part_2: u64x2,
    part_3: u64x2,
}

#[inline(always)]
pub(crate) fn parts_of(x: u64x2) -> Parts
    ensures { length x ≡ 2 → AreParts x (vectors_of result) }
{
    Parts {
        part_0: x & u64x2::splat(WORD_PLACES),
        part_1: x & u64x2::splat(WORD_PLACES << 1),
        part_2: x & u64x2::splat(WORD_PLACES << 2),
        part_3: x & u64x2::splat(WORD_PLACES << 3),
    }
}

// Two words as they are. The mask changes nothing, but it tells LLVM that they are below 2^32, so that a product of
// two takes one instruction.
#[inline(always)]
fn known_words(x: u64x2) -> u64x2
    ensures { AreTwoWords x → result ≡ x }
{
    x & u64x2::splat(0xffff_ffff)
}

// The sum of the products of each vector of `x` by that of `y`.
#[inline(always)]
fn sum_of_products(x: [u64x2; 4], y: [u64x2; 4]) -> u64x2
    ensures long { AreWords x → AreWords y → length result ≡ 2 }
    ensures value { AreWords x → AreWords y → (k : ℕ) → k < 2 → slice_index result k ≡ sum_of_products x y k }
{
    let [x0, x1, x2, x3] = x;
    let [y0, y1, y2, y3] = y;
    (x0 * y0) ^ (x1 * y1) ^ (x2 * y2) ^ (x3 * y3)
}

/// Sums of products, one for each place of the groups of four bits.
pub(crate) type PlaceSums = [u64x2; 4];

/// Sums of no product.
#[inline(always)]
pub(crate) fn no_products() -> PlaceSums
    ensures vectors { AreVectors result }
    ensures value { (k : ℕ) → k < 2 → settled_lane result k ≡ 0 }
{
    [u64x2::splat(0); 4]
}

/// Adds the products of two words by two whose parts are given, lane by lane.
#[inline(always)]
pub(crate) fn add_products(sums: PlaceSums, x: u64x2, y: &Parts) -> PlaceSums
    ensures { (w : List ℕ) → AreVectors sums → AreTwoWords x → AreTwoWords w → AreParts w (vectors_of y.now)
        → AreAdded sums result x w }
{
    let [s0, s1, s2, s3] = sums;
    let own = parts_of(x);
    let parts = [own.part_0, own.part_1, own.part_2, own.part_3];
    let y0 = known_words(y.part_0);
    let y1 = known_words(y.part_1);
    let y2 = known_words(y.part_2);
    let y3 = known_words(y.part_3);
    [
        s0 ^ sum_of_products(parts, [y0, y3, y2, y1]),
        s1 ^ sum_of_products(parts, [y1, y0, y3, y2]),
        s2 ^ sum_of_products(parts, [y2, y1, y0, y3]),
        s3 ^ sum_of_products(parts, [y3, y2, y1, y0]),
    ]
}

/// The sum of the products in both lanes.
#[inline(always)]
pub(crate) fn settled(sums: PlaceSums) -> u64
    ensures { AreVectors sums → result ≡ bit_xor (settled_lane sums 0) (settled_lane sums 1) }
{
    let [s0, s1, s2, s3] = sums;
    let [low, high] = ((s0 & u64x2::splat(PRODUCT_PLACES))
        ^ (s1 & u64x2::splat(PRODUCT_PLACES << 1))
        ^ (s2 & u64x2::splat(PRODUCT_PLACES << 2))
        ^ (s3 & u64x2::splat(PRODUCT_PLACES << 3))).to_array();
    low ^ high
}
