//! Laws of the definitions, each on a function that computes nothing: its clauses are the law.

ghost use Rattle.std.specs.Prelude.{◌≡◌, ℕ, List, length};
ghost use Rattle.aes_lanes.specs.Bytes.{AreBytes};
ghost use Rattle.aes_lanes.specs.Cipher.{aes256};
ghost use Rattle.key_wrap.specs.Wrap.{wrapped, IsKey, Unwraps, UnwrapsToNothing, UnwrapsToOneKey};

/// The law that wrapped bytes unwrap to one key at most, the one that was wrapped.
pub fn unwraps_to_one_key()
    ensures { UnwrapsToOneKey }
{}

/// The law that unwrapping undoes wrapping: some key wraps to what a key was wrapped to, and each one that
/// does is that key.
pub fn unwrapping_undoes_wrapping()
    ensures some { (kek key : List ℕ) → IsKey key → ¬ UnwrapsToNothing (aes256 kek) (wrapped (aes256 kek) key) }
    ensures same { (kek key other : List ℕ) → IsKey key → IsKey other
        → Unwraps (aes256 kek) (wrapped (aes256 kek) key) other → other ≡ key }
{}

/// The law that a wrapped key is of 40 bytes.
pub fn wrapped_keys_are_bytes()
    ensures forty { (kek key : List ℕ) → IsKey key → length (wrapped (aes256 kek) key) ≡ 40 }
    ensures bytes { (kek key : List ℕ) → IsKey key → AreBytes (wrapped (aes256 kek) key) }
{}
