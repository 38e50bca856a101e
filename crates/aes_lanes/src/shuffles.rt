// The S-box on sixteen bytes at a time, by shuffles that look up within a vector (FIPS 197, sections 5.1.1 and 5.3.2).
//
// The inverse of a byte is made of inverses in the field of sixteen elements, so that each table is one vector, and no
// address depends on a byte.

ghost use Rattle.std.specs.Prelude.{◌≡◌, map};
ghost use Rattle.aes_lanes.specs.Bytes.{IsBlock};
ghost use Rattle.aes_lanes.specs.Field.{inverse_sbox, sbox};
ghost use Rattle.aes_lanes.specs.Shuffles.{ArePlaces, byte_from, by_halves, first_place, second_place};

use std::simd::prelude::*;

// In each lane, the table's byte at the place that the lane gives.
#[inline(always)]
fn look(table: u8x16, places: u8x16) -> u8x16
    requires { ArePlaces places }
    ensures { result ≡ map (byte_from table) places }
{
    table.swizzle_dyn_within::<16>(places)
}

#[inline(always)]
fn by_halves(low: u8x16, high: u8x16, v: u8x16) -> u8x16
    requires { IsBlock v }
    ensures { result ≡ map (by_halves low high) v }
{
    let low_bytes = look(low, v & u8x16::splat(15));
    let high_bytes = look(high, v >> u8x16::splat(4));
    low_bytes ^ high_bytes
}

// In the field of sixteen elements, 1 / x and a / x; at 0 none, which a shuffle takes for 0.
const INVERSES: [u8; 16] = [
    0x80, 0x01, 0x08, 0x0d, 0x0f, 0x06, 0x05, 0x0e, 0x02, 0x0c, 0x0b, 0x0a, 0x09, 0x03, 0x07, 0x04,
];

const SHARES: [u8; 16] = [
    0x80, 0x07, 0x0b, 0x0f, 0x06, 0x0a, 0x04, 0x01, 0x09, 0x08, 0x05, 0x02, 0x0c, 0x0e, 0x0d, 0x03,
];

// The places at which the inverse of each byte is looked up.
#[inline(always)]
fn inverted(v: u8x16) -> (u8x16, u8x16)
    requires { IsBlock v }
    ensures first { result.0 ≡ map (first_place INVERSES SHARES) v }
    ensures second { result.1 ≡ map (second_place INVERSES SHARES) v }
{
    let low = v & u8x16::splat(15);
    let high = v >> u8x16::splat(4);
    let sum = low ^ high;
    let inverses = u8x16::from_array(INVERSES);
    let share = look(u8x16::from_array(SHARES), low);
    let of_high = look(inverses, high);
    let of_sum = look(inverses, sum);
    let first = look(inverses, of_high ^ share);
    let second = look(inverses, of_sum ^ share);
    (first ^ sum, second ^ high)
}

// A byte over the field of sixteen elements.
const BASIS_LOW: [u8; 16] = [
    0x00, 0x70, 0x2a, 0x5a, 0x98, 0xe8, 0xb2, 0xc2, 0x08, 0x78, 0x22, 0x52, 0x90, 0xe0, 0xba, 0xca,
];

const BASIS_HIGH: [u8; 16] = [
    0x00, 0x4d, 0x7c, 0x31, 0x7d, 0x30, 0x01, 0x4c, 0x81, 0xcc, 0xfd, 0xb0, 0xfc, 0xb1, 0x80, 0xcd,
];

// The linear part of the affine map of an inverse, by its places.
const SBOX_FIRST: [u8; 16] = [
    0x00, 0xc7, 0xbd, 0x6f, 0x17, 0x6d, 0xd2, 0xd0, 0x78, 0xa8, 0x02, 0xc5, 0x7a, 0xbf, 0xaa, 0x15,
];

const SBOX_SECOND: [u8; 16] = [
    0x00, 0x6a, 0xbb, 0x5f, 0xa5, 0x74, 0xe4, 0xcf, 0xfa, 0x35, 0x2b, 0x41, 0xd1, 0x90, 0x1e, 0x8e,
];

/// The S-box of each byte.
#[inline(always)]
pub(crate) fn sub(v: u8x16) -> u8x16
    requires { IsBlock v }
    ensures { result ≡ map sbox v }
{
    let element = by_halves(
        u8x16::from_array(BASIS_LOW),
        u8x16::from_array(BASIS_HIGH),
        v,
    );
    let places = inverted(element);
    let first = look(u8x16::from_array(SBOX_FIRST), places.0);
    let second = look(u8x16::from_array(SBOX_SECOND), places.1);
    first ^ second ^ u8x16::splat(0x63)
}

// The inverse affine map of a byte, over the field of sixteen elements.
const UNMAPPED_LOW: [u8; 16] = [
    0xe8, 0xb7, 0xbc, 0xe3, 0xec, 0xb3, 0xb8, 0xe7, 0xf2, 0xad, 0xa6, 0xf9, 0xf6, 0xa9, 0xa2, 0xfd,
];

const UNMAPPED_HIGH: [u8; 16] = [
    0x00, 0x65, 0x05, 0x60, 0xe6, 0x83, 0xe3, 0x86, 0x94, 0xf1, 0x91, 0xf4, 0x72, 0x17, 0x77, 0x12,
];

// An inverse, by its places.
const INVERSE_FIRST: [u8; 16] = [
    0x00, 0x40, 0xf9, 0x7e, 0x53, 0xea, 0x87, 0x13, 0x2d, 0x3e, 0x94, 0xd4, 0xb9, 0x6d, 0xaa, 0xc7,
];

const INVERSE_SECOND: [u8; 16] = [
    0x00, 0x1d, 0x44, 0x93, 0x0f, 0x56, 0xd7, 0x12, 0x9c, 0x8e, 0xc5, 0xd8, 0x59, 0x81, 0x4b, 0xca,
];

/// The inverse S-box of each byte.
#[inline(always)]
pub(crate) fn unsub(v: u8x16) -> u8x16
    requires { IsBlock v }
    ensures { result ≡ map inverse_sbox v }
{
    let element = by_halves(
        u8x16::from_array(UNMAPPED_LOW),
        u8x16::from_array(UNMAPPED_HIGH),
        v,
    );
    let places = inverted(element);
    let first = look(u8x16::from_array(INVERSE_FIRST), places.0);
    let second = look(u8x16::from_array(INVERSE_SECOND), places.1);
    first ^ second
}
