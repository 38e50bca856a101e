//! Laws of the definitions. Each function computes nothing, and its clause is the law; the laws that it rests on are called.

ghost use Rattle.cryptomator_conf.specs.Laws.{HaveOneAnswer, UnlocksOnePair, MadeFilesReturn, RewrappedTextReturns};

use json_fields::laws::{base64_has_its_size, base64_is_plain, base64url_is_of_its_alphabet};
use kdf_suite::laws::digests_are_bytes;
use key_wrap::laws::{unwraps_to_one_key, wrapped_keys_are_bytes};

/// The texts of new files are of at most 65,536 bytes. Reading them gives what they say, unlocking the first with its passphrase the drawn keys, and the
/// signature of the second is theirs.
pub fn made_files_give_back_their_keys()
    ensures { MadeFilesReturn }
{
    wrapped_keys_are_bytes();
    base64_is_plain();
    base64_has_its_size();
    base64url_is_of_its_alphabet();
    digests_are_bytes();
}

/// Reading and unlocking the text of `masterkey.cryptomator` for another passphrase, which is of at most 65,536 bytes, gives
/// the keys that the old passphrase unlocks.
pub fn rewrapped_texts_give_back_their_keys()
    ensures { RewrappedTextReturns }
{
    made_files_give_back_their_keys();
    passphrases_unlock_one_pair();
}

/// No bytes of `masterkey.cryptomator` read as two answers. Those of `vault.cryptomator` read by a function.
pub fn bytes_have_one_answer()
    ensures { HaveOneAnswer }
{}

/// No passphrase unlocks two pairs of keys.
pub fn passphrases_unlock_one_pair()
    ensures { UnlocksOnePair }
{
    unwraps_to_one_key();
}
