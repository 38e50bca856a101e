// What the modes of operation know of a block cipher.

ghost use Rattle.std.specs.Prelude.{◌≡◌, ℕ, List, length, map};
ghost use Rattle.aes_lanes.specs.BlockCipher.{AreInverse};
ghost use Rattle.aes_lanes.specs.Counter.{AreFirstOfStream, ctr32, increment32};

use crate::block::Block;

/// A block cipher under a key: `image` is its function from blocks to blocks, and `preimage` the
/// function back.
pub trait Cipher {
    ghost image: { Self → List ℕ → List ℕ };

    ghost preimage: { Self → List ℕ → List ℕ };

    /// Replaces each block by its image.
    fn encrypt_blocks(&self, blocks: &mut [Block])
        ensures { blocks.new ≡ map (image self.now) blocks.old };

    /// Replaces each block by its preimage.
    fn decrypt_blocks(&self, blocks: &mut [Block])
        ensures { blocks.new ≡ map (preimage self.now) blocks.old };

    /// Xors the key stream that starts with the image of `start` into the bytes. Its counter blocks count
    /// modulo 2^32 on the last four bytes.
    fn ctr32_xor(&self, start: &Block, bytes: &mut [u8])
        ensures { bytes.new ≡ ctr32 (image self.now) start.now bytes.old };

    /// The first sixteen blocks of the key stream that starts with the image of `start`. Its counter blocks
    /// count modulo 2^32 on the last four bytes.
    fn ctr32_stream(&self, start: &Block) -> [Block; 16]
        ensures { AreFirstOfStream (image self.now) increment32 start.now result };

    /// An image has sixteen bytes.
    ghost length_image: { (key : Self) (block : List ℕ) → length (image key block) ≡ 16 };

    /// Images and preimages of blocks are blocks, and the two functions undo each other on blocks.
    ghost undone: { (key : Self) → AreInverse (image key) (preimage key) };
}
