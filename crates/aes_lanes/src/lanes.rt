//! The S-box on 64 bytes at a time, computed with no look-up (FIPS 197, sections 5.1.1 and 5.3.2).

ghost use Rattle.std.specs.Prelude.{◌≡◌, map};
ghost use Rattle.std.specs.Simd.Lanes.{zip2};
ghost use Rattle.aes_lanes.specs.Field.{affine_map, inverse, inverse_affine_map, inverse_sbox, multiply, sbox, xtimes};
ghost use Rattle.aes_lanes.specs.Private.{AreLanes};

use std::simd::prelude::*;

/// The S-box of each lane.
pub fn sub(v: u8x64) -> u8x64
    ensures { result ≡ map sbox v }
{
    affine_map(inverse(v))
}

/// The inverse S-box of each lane.
pub fn unsub(v: u8x64) -> u8x64
    ensures { result ≡ map inverse_sbox v }
{
    inverse(inverse_affine_map(v))
}

// x times each lane.
#[inline(always)]
fn xtimes(v: u8x64) -> u8x64
    requires { AreLanes v }
    ensures { result ≡ map xtimes v }
{
    (v << u8x64::splat(1)) ^ ((v >> u8x64::splat(7)) * u8x64::splat(0x1b))
}

// The product of each two lanes.
#[inline(always)]
fn multiply(left: u8x64, right: u8x64) -> u8x64
    requires left { AreLanes left }
    requires right { AreLanes right }
    ensures { result ≡ zip2 multiply left right }
{
    let mut sum = u8x64::splat(0);
    let mut multiple = left;
    let mut rest = right;
    for _bit in 0..8u32 {
        sum ^= (rest & u8x64::splat(1)) * multiple;
        let next = xtimes(multiple);
        multiple = next;
        rest = rest >> u8x64::splat(1);
    }
    sum
}

// The inverse of each lane: its power 254.
fn inverse(v: u8x64) -> u8x64
    requires { AreLanes v }
    ensures { result ≡ map inverse v }
{
    let second = multiply(v, v);
    let third = multiply(second, v);
    let sixth = multiply(third, third);
    let twelfth = multiply(sixth, sixth);
    let power15 = multiply(twelfth, third);
    let power30 = multiply(power15, power15);
    let power60 = multiply(power30, power30);
    let power120 = multiply(power60, power60);
    let power240 = multiply(power120, power120);
    let power252 = multiply(power240, twelfth);
    multiply(power252, second)
}

// The affine map of each lane.
fn affine_map(v: u8x64) -> u8x64
    requires { AreLanes v }
    ensures { result ≡ map affine_map v }
{
    let by_four = (v << u8x64::splat(4)) | (v >> u8x64::splat(4));
    let by_three = (v << u8x64::splat(3)) | (v >> u8x64::splat(5));
    let by_two = (v << u8x64::splat(2)) | (v >> u8x64::splat(6));
    let by_one = (v << u8x64::splat(1)) | (v >> u8x64::splat(7));
    v ^ by_four ^ by_three ^ by_two ^ by_one ^ u8x64::splat(0x63)
}

// The affine map backwards.
fn inverse_affine_map(v: u8x64) -> u8x64
    requires { AreLanes v }
    ensures { result ≡ map inverse_affine_map v }
{
    let by_six = (v << u8x64::splat(6)) | (v >> u8x64::splat(2));
    let by_three = (v << u8x64::splat(3)) | (v >> u8x64::splat(5));
    let by_one = (v << u8x64::splat(1)) | (v >> u8x64::splat(7));
    by_six ^ by_three ^ by_one ^ u8x64::splat(0x05)
}
