//! Laws of the definitions. Each function computes nothing, and its clause is the law; the laws that it rests on are called.

ghost use Rattle.gocrypt_conf.specs.Laws.{HaveOneAnswer, UnlocksOnePair, MadeTextReturns, ResealedTextReturns};

use gcm_mode::laws::{opens_to_one_text, sealed_texts_are_bytes};
use json_fields::laws::{base64_has_its_size, base64_is_plain};

/// Reading and unlocking the text of a new configuration, which is of at most 65,536 bytes, gives the keys of the drawn
/// master key.
pub fn made_texts_give_back_their_keys()
    ensures { MadeTextReturns }
{
    sealed_texts_are_bytes();
    base64_is_plain();
    base64_has_its_size();
}

/// Reading and unlocking the text for another passphrase, which is of at most 65,536 bytes, gives the keys that the old
/// passphrase unlocks.
pub fn resealed_texts_give_back_their_keys()
    ensures { ResealedTextReturns }
{
    made_texts_give_back_their_keys();
    opens_to_one_text();
    sealed_texts_are_bytes();
}

/// No bytes read as two answers.
pub fn bytes_have_one_answer()
    ensures { HaveOneAnswer }
{}

/// No passphrase unlocks two pairs of keys.
pub fn passphrases_unlock_one_pair()
    ensures { UnlocksOnePair }
{
    opens_to_one_text();
    sealed_texts_are_bytes();
}
