// Counter blocks of which the last four bytes count, one by one and as planes (SP 800-38D, section 6.2).

ghost use Rattle.std.specs.Prelude.{◌≡◌, ℕ, ◌<◌};
ghost use Rattle.std.specs.Fn.{iterate};
ghost use Rattle.aes_lanes.specs.Counter.{increment32};
ghost use Rattle.aes_lanes.specs.Planes.{block_of};
ghost use Rattle.aes_lanes.specs.PlaneList.{list_of};

use crate::block::Block;
use crate::plane_blocks::gather;
use crate::planes::Planes;
use std::simd::prelude::*;

// The order of a counter block's bytes in which its number is a word that starts with its lowest byte.
const TURNED: [usize; 16] = [0, 1, 2, 3, 4, 5, 6, 7, 8, 9, 10, 11, 15, 14, 13, 12];

// The counter block that is `count` after one, as vectors.
#[inline(always)]
fn counted(block: u8x16, count: u32) -> u8x16
    ensures { result ≡ iterate increment32 count block }
{
    let turned: u8x16 = block.swizzle(TURNED);
    let words = u32x4::from_le_bytes(turned) + u32x4::from_array([0, 0, 0, count]);
    words.to_le_bytes().swizzle(TURNED)
}

/// The counter block that is `count` after one.
#[inline(always)]
pub(crate) fn counted32(block: &Block, count: u32) -> Block
    ensures { result ≡ iterate increment32 count block.now }
{
    counted(u8x16::from_array(*block), count).to_array()
}

/// The planes of sixteen counter blocks from `counter` on.
#[inline(always)]
pub(crate) fn counter_planes(counter: &Block) -> Planes
    ensures { (k : ℕ) → k < 16 → block_of (list_of result) k ≡ iterate increment32 k counter.now }
{
    gather(&[
        counted32(counter, 0),
        counted32(counter, 1),
        counted32(counter, 2),
        counted32(counter, 3),
        counted32(counter, 4),
        counted32(counter, 5),
        counted32(counter, 6),
        counted32(counter, 7),
        counted32(counter, 8),
        counted32(counter, 9),
        counted32(counter, 10),
        counted32(counter, 11),
        counted32(counter, 12),
        counted32(counter, 13),
        counted32(counter, 14),
        counted32(counter, 15),
    ])
}
