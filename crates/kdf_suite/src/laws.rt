//! Laws of the definitions. Each function does nothing, and its clauses are the law.

ghost use Rattle.std.specs.Prelude.{◌≡◌, ◌<◌, ℕ, List, length, slice_index};
ghost use Rattle.kdf_suite.specs.Hmac.{hmac_sha256};
ghost use Rattle.sha2.specs.Sha256.{sha256};

/// The law that a digest by SHA-256, and so a tag by HMAC-SHA-256, is of 32 bytes.
pub fn digests_are_bytes()
    ensures size { (text : List ℕ) → length (sha256 text) ≡ 32 }
    ensures bytes { (text : List ℕ) (place : ℕ) → slice_index (sha256 text) place < 256 }
    ensures tag_size { (key text : List ℕ) → length (hmac_sha256 key text) ≡ 32 }
    ensures tag_bytes { (key text : List ℕ) (place : ℕ) → slice_index (hmac_sha256 key text) place < 256 }
{}
