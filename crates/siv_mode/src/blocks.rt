// Blocks that are doubled and padded, and byte strings as blocks.

ghost use Rattle.std.specs.Prelude.{◌≡◌, ◌<◌, length};
ghost use Rattle.aes_lanes.specs.Bytes.{xor_bytes};
ghost use Rattle.siv_mode.specs.Blocks.{double, padded_block};

use aes_lanes::{Block, xor_into};

const REDUCTION: u128 = 0x87;

pub fn doubled(block: &Block) -> Block
    ensures { result ≡ double block.now }
{
    let number = u128::from_be_bytes(*block);
    (number << 1 ^ (number >> 127) * REDUCTION).to_be_bytes()
}

// Fewer than 16 bytes, then one bit and zeros.
pub fn padded(bytes: &[u8]) -> Block
    requires { length bytes.now < 16 }
    ensures { result ≡ padded_block bytes.now }
{
    let mut block = [0; 16];
    block[..bytes.len()].copy_from_slice(bytes);
    block[bytes.len()] = 0x80;
    block
}

// Sixteen bytes as a block.
pub fn whole(bytes: &[u8]) -> Block
    requires { length bytes.now ≡ 16 }
    ensures { result ≡ bytes.now }
{
    let mut block = [0; 16];
    block.copy_from_slice(bytes);
    block
}

pub fn sum(left: &Block, right: &Block) -> Block
    ensures { result ≡ xor_bytes left.now right.now }
{
    let mut sum = *left;
    xor_into(&mut sum, right);
    sum
}
