//! Laws of stored names, for callers to cite. They compute nothing, and call the laws that they rest on.
ghost use Rattle.std.specs.Prelude.{◌≡◌, ℕ, ◌+◌, ◌*◌, ◌/◌, List, length, take, drop, codes, IsTrue};
ghost use Rattle.std.specs.List.{list_all};
ghost use Rattle.aes_lanes.specs.Bytes.{AreBytes, IsBlock};
ghost use Rattle.vault_values.specs.Id.{id_of};
ghost use Rattle.vault_values.specs.declared.keys.CmKeys.{CmKeys};
ghost use Rattle.plain_tree.specs.Names.{is_name};
ghost use Rattle.json_fields.specs.Base64.{is_base64url};
ghost use Rattle.vault_names.specs.Base32.{is_base32};
ghost use Rattle.vault_names.specs.Cryptomator.{cm_folder_of, cm_long_name, cm_text, is_cm_long_name, is_id_character, IsCmTextOf, IsPlainUpTo};
ghost use Rattle.vault_names.specs.Gocryptfs.{go_text, is_long_name, long_name, IsTextOf};

use aes_lanes::laws as aes;
use eme_mode::laws::{blocks_stay_blocks, directions_undo_each_other};
use json_fields::laws::base64url_is_of_its_alphabet;
use kdf_suite::laws::digests_are_bytes;
use siv_mode::laws::{opens_to_one_text, sealed_texts_are_bytes, unsealing_undoes_sealing};

/// A text is that of one name at most, under each key and in each directory.
pub fn text_has_one_name()
    ensures { (key iv text name other : List ℕ) → IsBlock iv → IsTextOf key iv name text → IsTextOf key iv other text → name ≡ other }
{
    directions_undo_each_other();
    blocks_stay_blocks();
}

/// A text's size follows from its name's, and a text is of letters, digits, `-` and `_`.
pub fn texts_are_plain()
    ensures size { (key iv name : List ℕ) → IsBlock iv → IsTrue (is_name name)
        → length (go_text key iv name) ≡ (64 * (length name / 16 + 1) + 2) / 3 }
    ensures characters { (key iv name : List ℕ) → IsBlock iv → IsTrue (is_name name)
        → IsTrue (list_all is_base64url (go_text key iv name)) }
{
    directions_undo_each_other();
    blocks_stay_blocks();
    base64url_is_of_its_alphabet();
}

/// A long name has 62 characters: `gocryptfs.longname.`, and then letters, digits, `-` and `_`.
pub fn long_names_are_plain()
    ensures size { (text : List ℕ) → length (long_name text) ≡ 62 }
    ensures prefix { (text : List ℕ) → take 19 (long_name text) ≡ codes "gocryptfs.longname." }
    ensures characters { (text : List ℕ) → IsTrue (list_all is_base64url (drop 19 (long_name text))) }
    ensures form { (text : List ℕ) → IsTrue (is_long_name (long_name text)) }
{
    base64url_is_of_its_alphabet();
    digests_are_bytes();
}

/// A text of Cryptomator is that of one name at most, under each vault's keys and in each directory.
pub fn cm_text_has_one_name()
    ensures { (keys : CmKeys) (id name other text : List ℕ) → AreBytes id
        → IsCmTextOf keys id name text → IsCmTextOf keys id other text → name ≡ other }
{
    aes::directions_undo_each_other();
    sealed_texts_are_bytes();
    opens_to_one_text();
}

/// A text's size follows from its name's: four characters for each three bytes begun of the name and sixteen more, and
/// four. A text is of letters, digits, `-`, `_` and `=`, and then `.c9r`.
pub fn cm_texts_are_plain()
    ensures size { (keys : CmKeys) (id name : List ℕ) → length (cm_text keys id name) ≡ 4 * ((length name + 16 + 2) / 3) + 4 }
    ensures characters { (keys : CmKeys) (id name : List ℕ) → AreBytes id → IsTrue (is_name name)
        → IsPlainUpTo (codes ".c9r") (cm_text keys id name) }
{
    aes::directions_undo_each_other();
    sealed_texts_are_bytes();
    unsealing_undoes_sealing();
    base64url_is_of_its_alphabet();
}

/// A long name of Cryptomator has 32 characters: letters, digits, `-`, `_` and `=`, and then `.c9s`.
pub fn cm_long_names_are_plain()
    ensures size { (text : List ℕ) → length (cm_long_name text) ≡ 32 }
    ensures characters { (text : List ℕ) → IsPlainUpTo (codes ".c9s") (cm_long_name text) }
    ensures form { (text : List ℕ) → IsTrue (is_cm_long_name (cm_long_name text)) }
{
    base64url_is_of_its_alphabet();
}

/// The folder of a directory's entries has 32 characters, 2 and 30 once split, of `A` to `Z` and `2` to `7`.
pub fn cm_folders_are_plain()
    ensures size { (keys : CmKeys) (id : List ℕ) → length (cm_folder_of keys id) ≡ 32 }
    ensures first { (keys : CmKeys) (id : List ℕ) → length (take 2 (cm_folder_of keys id)) ≡ 2 }
    ensures rest { (keys : CmKeys) (id : List ℕ) → length (drop 2 (cm_folder_of keys id)) ≡ 30 }
    ensures characters { (keys : CmKeys) (id : List ℕ) → IsTrue (list_all is_base32 (cm_folder_of keys id)) }
{}

/// A new directory's id has 36 characters: digits, `a` to `f`, and `-`.
pub fn dir_ids_are_plain()
    ensures size { (drawn : List ℕ) → length (id_of drawn) ≡ 36 }
    ensures characters { (drawn : List ℕ) → IsTrue (list_all is_id_character (id_of drawn)) }
{}
