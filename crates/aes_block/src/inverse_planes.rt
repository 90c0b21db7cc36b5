// The steps of a round of the inverse cipher on eight planes, each made of the cipher's own step.
ghost use Rattle.std.specs.Prelude.{◌≡◌, ℕ, ◌<◌, ◌∷◌, replicate};
ghost use Rattle.aes_block.specs.Circuit.{lanes_layer, wires};
ghost use Rattle.aes_block.specs.CodeSteps.{inv_affine_bytes};
ghost use Rattle.aes_block.specs.InverseCipher.{inv_mix_columns, inv_shift_rows, inv_sub_bytes};
ghost use Rattle.aes_block.specs.Planes.{ArePlanes, block_in};
ghost use Rattle.aes_block.specs.SBoxCircuit.{inv_affine_gates, inv_affine_outs};

use crate::plane_steps::{mix_planes, shift_planes};
use crate::planes::Planes;
use crate::s_box_planes::sub_planes;
use std::simd::prelude::*;

#[inline(always)]
#[tactic(auto, unfolding(crate::specs::Circuit::layer, crate::specs::Circuit::run))]
fn inv_affine_layer(x: Planes) -> Planes
    ensures { result ≡ lanes_layer inv_affine_gates inv_affine_outs (replicate 16 255 ∷ wires 8 x) }
{
    let [x0, x1, x2, x3, x4, x5, x6, x7] = x;
    let ones = u8x16::splat(255);
    let t0 = x0 ^ x3;
    let t1 = x2 ^ x5;
    let t2 = x4 ^ x7;
    let t3 = x6 ^ x1;
    let n0 = t1 ^ x7;
    let y0 = n0 ^ ones;
    let y1 = t0 ^ x6;
    let n2 = t2 ^ x1;
    let y2 = n2 ^ ones;
    let y3 = t1 ^ x0;
    let y4 = t3 ^ x3;
    let y5 = t2 ^ x2;
    let y6 = t0 ^ x5;
    let y7 = t3 ^ x4;
    [y0, y1, y2, y3, y4, y5, y6, y7]
}

// The inverse of the S-box's affine map at each byte.
#[inline(always)]
fn inv_affine_planes(x: Planes) -> Planes
    requires { ArePlanes x }
    ensures planes { ArePlanes result }
    ensures value { (t : ℕ) → t < 8 → block_in result t ≡ inv_affine_bytes (block_in x t) }
{
    inv_affine_layer(x)
}

// InvSubBytes on each block: the field's inverse in the S-box is its own inverse.
#[inline(always)]
pub(crate) fn inv_sub_planes(x: Planes) -> Planes
    requires { ArePlanes x }
    ensures planes { ArePlanes result }
    ensures value { (t : ℕ) → t < 8 → block_in result t ≡ inv_sub_bytes (block_in x t) }
{
    inv_affine_planes(sub_planes(inv_affine_planes(x)))
}

// InvShiftRows on each block: the fourth power of ShiftRows changes nothing.
#[inline(always)]
pub(crate) fn inv_shift_planes(x: Planes) -> Planes
    requires { ArePlanes x }
    ensures planes { ArePlanes result }
    ensures value { (t : ℕ) → t < 8 → block_in result t ≡ inv_shift_rows (block_in x t) }
{
    shift_planes(shift_planes(shift_planes(x)))
}

// InvMixColumns on each block: the fourth power of MixColumns changes nothing.
#[inline(always)]
pub(crate) fn inv_mix_planes(x: Planes) -> Planes
    requires { ArePlanes x }
    ensures planes { ArePlanes result }
    ensures value { (t : ℕ) → t < 8 → block_in result t ≡ inv_mix_columns (block_in x t) }
{
    mix_planes(mix_planes(mix_planes(x)))
}
