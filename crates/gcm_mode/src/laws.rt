//! Laws of the definitions, each on a function that computes nothing: its clauses are the law.

ghost use Rattle.std.specs.Prelude.{◌≡◌, ◌<◌, ◌^◌, ℕ, List, length, bit_xor};
ghost use Rattle.aes_lanes.specs.Bytes.{AreBytes};
ghost use Rattle.aes_lanes.specs.Cipher.{aes256};
ghost use Rattle.gcm_mode.specs.Field.{product};
ghost use Rattle.gcm_mode.specs.Gcm.{Sealed, sealed, encrypted, tag_of, Opens, OpensToOneText};

use aes_lanes::laws::bytes_stay_bytes;

/// The law that an encrypted text and its tag open to one text at most, the one that was sealed.
pub fn opens_to_one_text()
    ensures { OpensToOneText }
{}

/// The law that unsealing undoes sealing: of an encrypted text and a tag to which a plain text seals, the
/// tag is that of the encrypted text, which encrypted once more is the plain text, and as long.
pub fn unsealing_undoes_sealing()
    ensures right_tag { (key iv ad : List ℕ) (s : Sealed) (plain : List ℕ) → Opens (aes256 key) iv ad s plain
        → s.tag ≡ tag_of (aes256 key) iv ad s.text }
    ensures decrypted { (key iv ad : List ℕ) (s : Sealed) (plain : List ℕ) → Opens (aes256 key) iv ad s plain
        → encrypted (aes256 key) iv s.text ≡ plain }
    ensures as_long { (key iv ad : List ℕ) (s : Sealed) (plain : List ℕ) → Opens (aes256 key) iv ad s plain
        → length s.text ≡ length plain }
{}

/// The law that what is sealed is of bytes, where the vector and the text are: the encrypted text, as long as
/// the plain one, and a tag of sixteen.
pub fn sealed_texts_are_bytes()
    ensures text { (key iv ad plain : List ℕ) → AreBytes iv → AreBytes plain → AreBytes (sealed (aes256 key) iv ad plain).text }
    ensures as_long { (key iv ad plain : List ℕ) → length (sealed (aes256 key) iv ad plain).text ≡ length plain }
    ensures tag { (key iv ad plain : List ℕ) → AreBytes iv → AreBytes (sealed (aes256 key) iv ad plain).tag }
    ensures sixteen { (key iv ad plain : List ℕ) → length (sealed (aes256 key) iv ad plain).tag ≡ 16 }
{
    bytes_stay_bytes();
}

/// The law that the product in GF(2^128) is associative.
pub fn product_is_associative()
    ensures { (x y z : ℕ) → x < 2 ^ 128 → y < 2 ^ 128 → z < 2 ^ 128
        → product (product x y) z ≡ product x (product y z) }
{}

/// The law that the product in GF(2^128) distributes over sums, on its left and on its right, and whatever
/// the numbers are.
pub fn product_distributes_over_sums()
    ensures left { (x y z : ℕ) → product (bit_xor x y) z ≡ bit_xor (product x z) (product y z) }
    ensures right { (x y z : ℕ) → product x (bit_xor y z) ≡ bit_xor (product x y) (product x z) }
{}
