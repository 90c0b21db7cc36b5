// The other steps of a round on eight planes.
ghost use Rattle.std.specs.Prelude.{◌≡◌, ℕ, ◌<◌, [], bit_xor, length, slice_index};
ghost use Rattle.aes_block.specs.Cipher.{add_round_key, mix_columns, shift_rows};
ghost use Rattle.aes_block.specs.Circuit.{lanes_layer, wires};
ghost use Rattle.aes_block.specs.Field.{field_times};
ghost use Rattle.aes_block.specs.Planes.{ArePlanes, block_in, byte_at, double_gates, double_outs, next_row_places, shift_places};

use crate::planes::{Planes, planes_of};
use std::simd::prelude::*;

#[inline(always)]
pub(crate) fn xor_planes(x: Planes, y: Planes) -> Planes
    requires x_planes { ArePlanes x }
    requires y_planes { ArePlanes y }
    ensures planes { ArePlanes result }
    ensures value { (t j : ℕ) → t < 8 → j < 16 → byte_at result t j ≡ bit_xor (byte_at x t j) (byte_at y t j) }
{
    let [x0, x1, x2, x3, x4, x5, x6, x7] = x;
    let [y0, y1, y2, y3, y4, y5, y6, y7] = y;
    [
        x0 ^ y0,
        x1 ^ y1,
        x2 ^ y2,
        x3 ^ y3,
        x4 ^ y4,
        x5 ^ y5,
        x6 ^ y6,
        x7 ^ y7,
    ]
}

#[inline(always)]
#[tactic(auto, unfolding(crate::specs::Circuit::layer, crate::specs::Circuit::run))]
fn double_layer(x: Planes) -> Planes
    ensures { result ≡ lanes_layer double_gates double_outs (wires 8 x) }
{
    let [x0, x1, x2, x3, x4, x5, x6, x7] = x;
    let y1 = x0 ^ x7;
    let y3 = x2 ^ x7;
    let y4 = x3 ^ x7;
    [x7, y1, x1, y3, y4, x4, x5, x6]
}

// The product with 02 of each byte.
#[inline(always)]
fn double_planes(x: Planes) -> Planes
    requires { ArePlanes x }
    ensures planes { ArePlanes result }
    ensures value { (t j : ℕ) → t < 8 → j < 16 → byte_at result t j ≡ field_times 0x02 (byte_at x t j) }
{
    double_layer(x)
}

#[inline(always)]
fn next_row(v: u8x16) -> u8x16
    requires { length v ≡ 16 }
    ensures long { length result ≡ 16 }
    ensures value { (j : ℕ) → j < 16 → slice_index result j ≡ slice_index v (slice_index next_row_places j) }
{
    v.swizzle([1, 2, 3, 0, 5, 6, 7, 4, 9, 10, 11, 8, 13, 14, 15, 12])
}

// Each byte is that of the next row of its column.
#[inline(always)]
fn next_rows(x: Planes) -> Planes
    requires { ArePlanes x }
    ensures planes { ArePlanes result }
    ensures value { (t j : ℕ) → t < 8 → j < 16 → byte_at result t j ≡ byte_at x t (slice_index next_row_places j) }
{
    let [x0, x1, x2, x3, x4, x5, x6, x7] = x;
    [
        next_row(x0),
        next_row(x1),
        next_row(x2),
        next_row(x3),
        next_row(x4),
        next_row(x5),
        next_row(x6),
        next_row(x7),
    ]
}

// MixColumns on each block.
#[inline(always)]
pub(crate) fn mix_planes(x: Planes) -> Planes
    requires { ArePlanes x }
    ensures planes { ArePlanes result }
    ensures value { (t : ℕ) → t < 8 → block_in result t ≡ mix_columns (block_in x t) }
{
    let next = next_rows(x);
    let sums = xor_planes(x, next);
    let far = next_rows(next_rows(sums));
    xor_planes(xor_planes(double_planes(sums), next), far)
}

#[inline(always)]
fn shift_plane(v: u8x16) -> u8x16
    requires { length v ≡ 16 }
    ensures long { length result ≡ 16 }
    ensures value { (j : ℕ) → j < 16 → slice_index result j ≡ slice_index v (slice_index shift_places j) }
{
    v.swizzle([0, 5, 10, 15, 4, 9, 14, 3, 8, 13, 2, 7, 12, 1, 6, 11])
}

// ShiftRows on each block.
#[inline(always)]
pub(crate) fn shift_planes(x: Planes) -> Planes
    requires { ArePlanes x }
    ensures planes { ArePlanes result }
    ensures value { (t : ℕ) → t < 8 → block_in result t ≡ shift_rows (block_in x t) }
{
    let [x0, x1, x2, x3, x4, x5, x6, x7] = x;
    [
        shift_plane(x0),
        shift_plane(x1),
        shift_plane(x2),
        shift_plane(x3),
        shift_plane(x4),
        shift_plane(x5),
        shift_plane(x6),
        shift_plane(x7),
    ]
}

// AddRoundKey on each block, with a key in each block of its planes.
#[inline(always)]
pub(crate) fn add_key(x: Planes, key: &[[u8; 16]; 8]) -> Planes
    requires x_planes { ArePlanes x }
    requires key_planes { ArePlanes key.now }
    ensures planes { ArePlanes result }
    ensures value { (t : ℕ) → t < 8 → block_in result t ≡ add_round_key (block_in x t) (block_in key.now t) }
{
    xor_planes(x, planes_of(key))
}
