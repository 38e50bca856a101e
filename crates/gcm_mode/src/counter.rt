// Counter blocks: a block of which the last four bytes count.

ghost use Rattle.std.specs.Prelude.{◌≡◌, [], ◌∷◌, ◌++◌, length};
ghost use Rattle.aes_lanes.specs.Counter.{increment32};

use aes_lanes::Block;

// The pre-counter block of an initialization vector of twelve bytes.
pub fn short_counter(iv: &[u8]) -> Block
    requires { length iv.now ≡ 12 }
    ensures { result ≡ iv.now ++ 0 ∷ 0 ∷ 0 ∷ 1 ∷ [] }
{
    let mut block = [0; 16];
    block[..12].copy_from_slice(iv);
    block[15] = 1;
    block
}

// The counter block after this one.
pub fn next_counter(block: &Block) -> Block
    ensures { result ≡ increment32 block.now }
{
    let count = u32::from_be_bytes([block[12], block[13], block[14], block[15]]);
    let mut next = *block;
    next[12..].copy_from_slice(&count.wrapping_add(1).to_be_bytes());
    next
}
