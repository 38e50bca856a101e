//! Laws of the definitions, each on a function that computes nothing: its clauses are the law.

ghost use Rattle.std.specs.Prelude.{◌≡◌, ℕ, List, length, All};
ghost use Rattle.aes_lanes.specs.Bytes.{IsBlock};
ghost use Rattle.eme_mode.specs.Eme.{eme256, inverse_eme256};

/// Encryption and decryption under one key and one tweak undo each other on any number of blocks.
pub fn directions_undo_each_other()
    ensures decrypted { (key tweak : List ℕ) (blocks : List (List ℕ)) → IsBlock tweak → All IsBlock blocks
        → inverse_eme256 key tweak (eme256 key tweak blocks) ≡ blocks }
    ensures encrypted { (key tweak : List ℕ) (blocks : List (List ℕ)) → IsBlock tweak → All IsBlock blocks
        → eme256 key tweak (inverse_eme256 key tweak blocks) ≡ blocks }
{}

/// Blocks come out, as many as go in.
pub fn blocks_stay_blocks()
    ensures encrypted { (key tweak : List ℕ) (blocks : List (List ℕ)) → IsBlock tweak → All IsBlock blocks
        → All IsBlock (eme256 key tweak blocks) }
    ensures decrypted { (key tweak : List ℕ) (blocks : List (List ℕ)) → IsBlock tweak → All IsBlock blocks
        → All IsBlock (inverse_eme256 key tweak blocks) }
    ensures as_many_encrypted { (key tweak : List ℕ) (blocks : List (List ℕ))
        → length (eme256 key tweak blocks) ≡ length blocks }
    ensures as_many_decrypted { (key tweak : List ℕ) (blocks : List (List ℕ))
        → length (inverse_eme256 key tweak blocks) ≡ length blocks }
{}
