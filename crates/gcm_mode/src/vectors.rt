// Vectors of which the lanes are told.

ghost use Rattle.gcm_mode.specs.Pairs.{AreNibbles, IsPair};

use std::simd::prelude::*;

/// A vector of two blocks, of which each byte is cut into two nibbles.
#[derive(Clone, Copy)]
pub struct Nibbles {
    pub high: u8x32,
    pub low: u8x32,
    pub ghost high_nibbles: { AreNibbles high },
    pub ghost low_nibbles: { AreNibbles low },
}

/// Two blocks, times each bit of a nibble.
#[derive(Clone, Copy)]
pub struct Bits {
    pub eight: u8x32,
    pub four: u8x32,
    pub two: u8x32,
    pub one: u8x32,
    pub ghost eight_pair: { IsPair eight },
    pub ghost four_pair: { IsPair four },
    pub ghost two_pair: { IsPair two },
    pub ghost one_pair: { IsPair one },
}

/// One byte of the products of two blocks with each first and each second nibble of a block.
#[derive(Clone, Copy)]
pub struct Row {
    pub high: u8x32,
    pub low: u8x32,
    pub ghost high_pair: { IsPair high },
    pub ghost low_pair: { IsPair low },
}
