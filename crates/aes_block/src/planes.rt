// Eight blocks as eight planes of bits, and back.
ghost use Rattle.std.specs.Prelude.{◌≡◌, ℕ, ◌<◌, [], length, slice_index_or};
ghost use Rattle.aes_block.specs.Planes.{ArePlanes, block_in};
ghost use Rattle.aes_block.specs.State.{IsBytes};

use crate::transpose::transpose;
use std::simd::prelude::*;

// Eight blocks side by side: bit t of lane j of plane i is bit i of byte j of block t.
pub(crate) type Planes = [u8x16; 8];

#[inline(always)]
fn vector_of(block: &[u8; 16]) -> u8x16
    ensures { result ≡ block.now }
{
    u8x16::from_array(*block)
}

// A block as a vector.
#[inline(always)]
fn load(block: &[u8; 16]) -> u8x16
    ensures same { result ≡ block.now }
    ensures long { length result ≡ 16 }
    ensures bytes { IsBytes result }
{
    vector_of(block)
}

#[inline(always)]
pub(crate) fn pack(blocks: &[[u8; 16]; 8]) -> Planes
    ensures planes { ArePlanes result }
    ensures value { (t : ℕ) → t < 8 → block_in result t ≡ slice_index_or blocks.now t [] }
{
    let v0 = load(&blocks[0]);
    let v1 = load(&blocks[1]);
    let v2 = load(&blocks[2]);
    let v3 = load(&blocks[3]);
    let v4 = load(&blocks[4]);
    let v5 = load(&blocks[5]);
    let v6 = load(&blocks[6]);
    let v7 = load(&blocks[7]);
    transpose([v0, v1, v2, v3, v4, v5, v6, v7])
}

#[inline(always)]
pub(crate) fn unpack(x: Planes) -> [[u8; 16]; 8]
    requires { ArePlanes x }
    ensures { (t : ℕ) → t < 8 → slice_index_or result t [] ≡ block_in x t }
{
    bytes_of(transpose(x))
}

// The planes that have the key in each of the eight blocks.
pub(crate) fn key_planes(key: &[u8; 16]) -> [[u8; 16]; 8]
    ensures planes { ArePlanes result }
    ensures value { (t : ℕ) → t < 8 → block_in result t ≡ key.now }
{
    let v = load(key);
    bytes_of(transpose([v, v, v, v, v, v, v, v]))
}

// The planes as bytes, to be kept.
#[inline(always)]
pub(crate) fn bytes_of(x: Planes) -> [[u8; 16]; 8]
    ensures { (i : ℕ) → i < 8 → slice_index_or result i [] ≡ slice_index_or x i [] }
{
    let [x0, x1, x2, x3, x4, x5, x6, x7] = x;
    [
        x0.to_array(),
        x1.to_array(),
        x2.to_array(),
        x3.to_array(),
        x4.to_array(),
        x5.to_array(),
        x6.to_array(),
        x7.to_array(),
    ]
}

// Planes that were kept as bytes.
#[inline(always)]
pub(crate) fn planes_of(bytes: &[[u8; 16]; 8]) -> Planes
    ensures { (i : ℕ) → i < 8 → slice_index_or result i [] ≡ slice_index_or bytes.now i [] }
{
    [
        vector_of(&bytes[0]),
        vector_of(&bytes[1]),
        vector_of(&bytes[2]),
        vector_of(&bytes[3]),
        vector_of(&bytes[4]),
        vector_of(&bytes[5]),
        vector_of(&bytes[6]),
        vector_of(&bytes[7]),
    ]
}
