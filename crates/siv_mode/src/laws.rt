//! Laws of the definitions, each on a function that computes nothing: its clauses are the law. They hold for the images of every two block
//! ciphers.

ghost use Rattle.std.specs.Prelude.{◌≡◌, ◌+◌, ℕ, List, length, All};
ghost use Rattle.aes_lanes.specs.Bytes.{AreBytes};
ghost use Rattle.siv_mode.specs.Siv.{AreImages, siv_encrypt, Opens, OpensToNothing, OpensToOneText};

use aes_lanes::laws::{bytes_stay_bytes, counter_mode_undoes_itself, texts_keep_their_length};

/// The law that bytes open to one text at most, the one that was sealed.
pub fn opens_to_one_text()
    ensures { (mac ctr : List ℕ → List ℕ) → AreImages mac → AreImages ctr → OpensToOneText mac ctr }
{
    counter_mode_undoes_itself();
}

/// The law that unsealing undoes sealing: a sealed text is sixteen bytes longer than the text, some text seals to
/// it, and each one that does is that text.
pub fn unsealing_undoes_sealing()
    ensures longer { (mac ctr : List ℕ → List ℕ) → AreImages mac → AreImages ctr → (strings : List (List ℕ)) (plain : List ℕ)
        → length (siv_encrypt mac ctr strings plain) ≡ 16 + length plain }
    ensures some { (mac ctr : List ℕ → List ℕ) (strings : List (List ℕ)) (plain : List ℕ)
        → ¬ OpensToNothing mac ctr strings (siv_encrypt mac ctr strings plain) }
    ensures same { (mac ctr : List ℕ → List ℕ) → AreImages mac → AreImages ctr → (strings : List (List ℕ)) (plain other : List ℕ)
        → Opens mac ctr strings (siv_encrypt mac ctr strings plain) other → other ≡ plain }
{
    counter_mode_undoes_itself();
    texts_keep_their_length();
}

/// The law that what is sealed is of bytes, where the text and its associated strings are.
pub fn sealed_texts_are_bytes()
    ensures { (mac ctr : List ℕ → List ℕ) → AreImages mac → AreImages ctr → (strings : List (List ℕ)) (plain : List ℕ)
        → All (λ string. AreBytes string) strings → AreBytes plain → AreBytes (siv_encrypt mac ctr strings plain) }
{
    bytes_stay_bytes();
}
