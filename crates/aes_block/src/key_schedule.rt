// The key expansion (5.2), a round key at a time, on planes that have it in each of eight blocks.
ghost use Rattle.std.specs.Prelude.{◌≡◌, ℕ, ◌+◌, ◌<◌, length, slice_index};
ghost use Rattle.aes_block.specs.CodeSteps.{next_round_key, stirred_byte};
ghost use Rattle.aes_block.specs.Planes.{ArePlanes, block_in, byte_at, turned_places};

use crate::plane_steps::xor_planes;
use crate::planes::{Planes, key_planes, planes_of};
use crate::s_box_planes::sub_planes;
use std::simd::prelude::*;

// The first bytes of Rcon 1 to Rcon 10.
pub(crate) const ROUND_CONSTANTS: [u8; 10] = [
    0x01, 0x02, 0x04, 0x08, 0x10, 0x20, 0x40, 0x80, 0x1b, 0x36,
];

#[inline(always)]
fn turned_plane(v: u8x16) -> u8x16
    requires { length v ≡ 16 }
    ensures long { length result ≡ 16 }
    ensures value { (j : ℕ) → j < 16 → slice_index result j ≡ slice_index v (slice_index turned_places j) }
{
    v.swizzle([
        13, 14, 15, 12, 13, 14, 15, 12, 13, 14, 15, 12, 13, 14, 15, 12,
    ])
}

// RotWord of the last column, in each column.
#[inline(always)]
fn turned_planes(x: Planes) -> Planes
    requires { ArePlanes x }
    ensures planes { ArePlanes result }
    ensures value { (t j : ℕ) → t < 8 → j < 16 → byte_at result t j ≡ byte_at x t (slice_index turned_places j) }
{
    let [x0, x1, x2, x3, x4, x5, x6, x7] = x;
    [
        turned_plane(x0),
        turned_plane(x1),
        turned_plane(x2),
        turned_plane(x3),
        turned_plane(x4),
        turned_plane(x5),
        turned_plane(x6),
        turned_plane(x7),
    ]
}

#[inline(always)]
fn next_column(first: u8x16, v: u8x16) -> u8x16
    requires first_long { length first ≡ 16 }
    requires long { length v ≡ 16 }
    ensures long { length result ≡ 16 }
    ensures first { (j : ℕ) → j < 4 → slice_index result j ≡ slice_index first j }
    ensures rest { (j : ℕ) → j < 12 → slice_index result (4 + j) ≡ slice_index v j }
{
    first.shuffle(
        v,
        [0, 1, 2, 3, 16, 17, 18, 19, 20, 21, 22, 23, 24, 25, 26, 27],
    )
}

// The first column of `first`, and after it the first three of `x`.
#[inline(always)]
fn next_columns(first: Planes, x: Planes) -> Planes
    requires first_planes { ArePlanes first }
    requires x_planes { ArePlanes x }
    ensures planes { ArePlanes result }
    ensures first { (t j : ℕ) → t < 8 → j < 4 → byte_at result t j ≡ byte_at first t j }
    ensures rest { (t j : ℕ) → t < 8 → j < 12 → byte_at result t (4 + j) ≡ byte_at x t j }
{
    let [f0, f1, f2, f3, f4, f5, f6, f7] = first;
    let [x0, x1, x2, x3, x4, x5, x6, x7] = x;
    [
        next_column(f0, x0),
        next_column(f1, x1),
        next_column(f2, x2),
        next_column(f3, x3),
        next_column(f4, x4),
        next_column(f5, x5),
        next_column(f6, x6),
        next_column(f7, x7),
    ]
}

// What is added to the first column: SubWord of RotWord of the last one, and the round constant.
#[inline(always)]
fn stirred_planes(x: Planes, constant: u8) -> Planes
    requires { ArePlanes x }
    ensures planes { ArePlanes result }
    ensures value { (t j : ℕ) → t < 8 → j < 4 → byte_at result t j ≡ stirred_byte (block_in x t) constant j }
{
    let c = constant;
    let constants = key_planes(&[c, 0, 0, 0, c, 0, 0, 0, c, 0, 0, 0, c, 0, 0, 0]);
    xor_planes(turned_planes(sub_planes(x)), planes_of(&constants))
}

// The round key after `x`, with the byte `constant` of its round constant. Each column is the sum
// of the old one and of the new one before it, so the columns come right one after another.
pub(crate) fn next_round_key(x: Planes, constant: u8) -> Planes
    requires { ArePlanes x }
    ensures planes { ArePlanes result }
    ensures value { (t : ℕ) → t < 8 → block_in result t ≡ next_round_key (block_in x t) constant }
{
    let stirred = stirred_planes(x, constant);
    let one = xor_planes(x, stirred);
    let two = xor_planes(x, next_columns(stirred, one));
    let three = xor_planes(x, next_columns(stirred, two));
    xor_planes(x, next_columns(stirred, three))
}
