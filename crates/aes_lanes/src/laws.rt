//! Laws of the definitions, each on a function that computes nothing: its clauses are the law.

ghost use Rattle.std.specs.Prelude.{◌≡◌, ℕ, ◌<◌, List, length};
ghost use Rattle.aes_lanes.specs.BlockCipher.{AreInverse};
ghost use Rattle.aes_lanes.specs.Bytes.{AreBytes, IsBlock};
ghost use Rattle.aes_lanes.specs.Cipher.{aes, inverse_aes};
ghost use Rattle.aes_lanes.specs.Counter.{ctr128, ctr32, increment128, increment32};
ghost use Rattle.aes_lanes.specs.Field.{inverse, multiply};

/// A byte other than 0 times its inverse in the field is 1.
pub fn byte_times_inverse(byte: u8)
    requires { 0 < byte }
    ensures { multiply byte (inverse byte) ≡ 1 }
{}

/// Encryption and decryption take blocks to blocks and undo each other on them, with a key of any number
/// of words.
pub fn directions_undo_each_other()
    ensures { (key_words : ℕ) (key : List ℕ) → AreInverse (aes key_words key) (inverse_aes key_words key) }
{}

/// A text that goes through counter mode twice, from one counter block, is as it was, for every function
/// whose images have sixteen bytes.
pub fn counter_mode_undoes_itself()
    ensures in_four_bytes { (image : List ℕ → List ℕ) → ((block : List ℕ) → length (image block) ≡ 16)
        → (start text : List ℕ) → ctr32 image start (ctr32 image start text) ≡ text }
    ensures in_sixteen_bytes { (image : List ℕ → List ℕ) → ((block : List ℕ) → length (image block) ≡ 16)
        → (start text : List ℕ) → ctr128 image start (ctr128 image start text) ≡ text }
{}

/// A text in counter mode is as long as it was.
pub fn texts_keep_their_length()
    ensures in_four_bytes { (image : List ℕ → List ℕ) → ((block : List ℕ) → length (image block) ≡ 16)
        → (start text : List ℕ) → length (ctr32 image start text) ≡ length text }
    ensures in_sixteen_bytes { (image : List ℕ → List ℕ) → ((block : List ℕ) → length (image block) ≡ 16)
        → (start text : List ℕ) → length (ctr128 image start text) ≡ length text }
{}

/// Counter blocks after a block are blocks, and a text of bytes in counter mode is of bytes, where the
/// images of blocks are blocks.
pub fn bytes_stay_bytes()
    ensures counter_in_four_bytes { (block : List ℕ) → IsBlock block → IsBlock (increment32 block) }
    ensures counter_in_sixteen_bytes { (block : List ℕ) → IsBlock block → IsBlock (increment128 block) }
    ensures in_four_bytes { (image : List ℕ → List ℕ) → ((block : List ℕ) → length (image block) ≡ 16)
        → ((block : List ℕ) → IsBlock block → IsBlock (image block))
        → (start text : List ℕ) → IsBlock start → AreBytes text → AreBytes (ctr32 image start text) }
    ensures in_sixteen_bytes { (image : List ℕ → List ℕ) → ((block : List ℕ) → length (image block) ≡ 16)
        → ((block : List ℕ) → IsBlock block → IsBlock (image block))
        → (start text : List ℕ) → IsBlock start → AreBytes text → AreBytes (ctr128 image start text) }
{}
