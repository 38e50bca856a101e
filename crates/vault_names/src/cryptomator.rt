//! Stored names of Cryptomator, vault format 8: SIV over AES-256, in base64url with padding.
ghost use Rattle.std.specs.Prelude.{◌≡◌, ◌≢◌, ◌++◌, ℕ, List, false, codes, IfOk, OnErr, IsTrue, MatchOption, Err, string_bytes};
ghost use Rattle.aes_lanes.specs.Bytes.{AreBytes};
ghost use Rattle.vault_values.specs.Id.{id_of};
ghost use Rattle.plain_tree.specs.Names.{is_name};
ghost use Rattle.vault_names.specs.Cryptomator.{cm_entry_of, cm_text, cm_long_name, cm_stored, cm_folder_of, keys_of, padded_base64url, IsCmTextOf};

use crate::base32::base32_of;
use crate::entry::{NameFault, Stored};
use aes_lanes::{Key256, laws as aes};
use base64::DecodeAllocError;
use base64::engine::general_purpose::URL_SAFE;
use plain_tree::Name;
use sha1::Sha1;
use siv_mode::laws::{opens_to_one_text, sealed_texts_are_bytes, unsealing_undoes_sealing};
use siv_mode::{Siv, SivFault};
use std::alloc::{AllocError, Global};
use std::marker::Model;
use vault_values::{CmKeys, Text, id_text};

/// The keys of a Cryptomator vault's names, expanded for many names. Contracts see them as the vault's keys.
#[derive(Drop)]
pub struct CmNameKeys {
    siv: Siv<Key256>,
}

impl Model for CmNameKeys {
    ghost use Rattle.vault_values.specs.declared.keys.CmKeys.{CmKeys};
    ghost use Rattle.vault_names.specs.Cryptomator.{keys_of};

    ghost Value = { CmKeys };

    ghost view = { λ names. keys_of names.siv };
}

impl CmNameKeys {
    /// A vault's keys, expanded.
    pub fn new(keys: &CmKeys) -> CmNameKeys
        ensures { result ≡ keys.now }
    {
        CmNameKeys { siv: siv_of(keys) }
    }

    /// What is stored of a name in the directory of this id, in a vault of this threshold.
    pub fn store(
        &self,
        alloc: Global,
        threshold: u32,
        id: &[u8],
        name: &Name,
    ) -> Result<Stored, AllocError>
        ensures { IfOk result (λ entry. entry ≡ cm_stored self.now threshold id.now name.now) }
    {
        store_under(alloc, &self.siv, threshold, id, name)
    }

    /// The name that encrypts to a text, in the directory of this id. The text is the whole encrypted one, an entry's name or
    /// what a long-name file holds.
    pub fn read(&self, alloc: Global, id: &[u8], text: &str) -> Result<Name, NameFault>
        ensures name { IfOk result (λ name. IsCmTextOf self.now id.now name text.now) }
        ensures not_stored { result ≡ Err NameFault.NotStored
            → (name : List ℕ) → ¬ IsCmTextOf self.now id.now name text.now }
    {
        read_under(alloc, &self.siv, id, text)
    }

    /// The folder of the entries of the directory of this id, in 32 characters.
    pub fn folder(&self, alloc: Global, id: &[u8]) -> Result<String, AllocError>
        ensures { IfOk result (λ folder. string_bytes folder ≡ cm_folder_of self.now id.now) }
    {
        folder_under(alloc, &self.siv, id)
    }
}

/// What is stored of a name in the directory of this id, in a vault of this threshold.
pub fn cm_store(
    alloc: Global,
    keys: &CmKeys,
    threshold: u32,
    id: &[u8],
    name: &Name,
) -> Result<Stored, AllocError>
    ensures { IfOk result (λ entry. entry ≡ cm_stored keys.now threshold id.now name.now) }
{
    CmNameKeys::new(keys).store(alloc, threshold, id, name)
}

#[tactic(auto, unfolding(crate::specs::Cryptomator::cm_stored))]
fn store_under(
    alloc: Global,
    siv: &Siv<Key256>,
    threshold: u32,
    id: &[u8],
    name: &Name,
) -> Result<Stored, AllocError>
    ensures { IfOk result (λ entry. entry ≡ cm_stored (keys_of siv.now) threshold id.now name.now) }
{
    cm_entry(alloc, threshold, encrypted_text(alloc, siv, id, name)?)
}

/// What is stored of the name that has this encrypted text, in a vault of this threshold.
pub fn cm_entry(alloc: Global, threshold: u32, text: String) -> Result<Stored, AllocError>
    ensures { IfOk result (λ entry. entry ≡ cm_entry_of threshold (string_bytes text)) }
{
    if text.len() <= threshold as usize {
        return Ok(Stored {
            name: Text::new(text),
            full: None,
        });
    }
    Ok(Stored {
        name: Text::new(cm_long(alloc, text.as_str())?),
        full: Some(Text::new(text)),
    })
}

/// The entry's name of an encrypted text that is too long for one: the base64url of its SHA-1, with `.c9s`.
#[tactic(auto, unfolding(crate::specs::Cryptomator::cm_long_name))]
pub fn cm_long(alloc: Global, text: &str) -> Result<String, AllocError>
    ensures { IfOk result (λ name. string_bytes name ≡ cm_long_name text.now) }
{
    let mut name = URL_SAFE.encode(alloc, &Sha1::digest(text.as_bytes()))?;
    name.push_str(".c9s")?;
    Ok(name)
}

/// The name that encrypts to a text, in the directory of this id. The text is the whole encrypted one, an entry's name or
/// what a long-name file holds.
pub fn cm_read(alloc: Global, keys: &CmKeys, id: &[u8], text: &str) -> Result<Name, NameFault>
    ensures name { IfOk result (λ name. IsCmTextOf keys.now id.now name text.now) }
    ensures not_stored { result ≡ Err NameFault.NotStored
        → (name : List ℕ) → ¬ IsCmTextOf keys.now id.now name text.now }
{
    CmNameKeys::new(keys).read(alloc, id, text)
}

fn read_under(alloc: Global, siv: &Siv<Key256>, id: &[u8], text: &str) -> Result<Name, NameFault>
    ensures name { IfOk result (λ name. IsCmTextOf (keys_of siv.now) id.now name text.now) }
    ensures not_stored { result ≡ Err NameFault.NotStored
        → (name : List ℕ) → ¬ IsCmTextOf (keys_of siv.now) id.now name text.now }
{
    aes::directions_undo_each_other();
    sealed_texts_are_bytes();
    unsealing_undoes_sealing();
    opens_to_one_text();
    let Some(sealed) = sealed_bytes(alloc, text)? else {
        return Err(NameFault::NotStored);
    };
    match siv.unseal(alloc, Some(id), sealed.as_slice()) {
        Ok(name) => named(name),
        Err(SivFault::Short) => Err(NameFault::NotStored),
        Err(SivFault::BadTag) => Err(NameFault::NotStored),
        Err(SivFault::NoMemory) => Err(NameFault::NoMemory),
    }
}

/// The folder of the entries of the directory of this id, in 32 characters.
pub fn cm_folder(alloc: Global, keys: &CmKeys, id: &[u8]) -> Result<String, AllocError>
    ensures { IfOk result (λ folder. string_bytes folder ≡ cm_folder_of keys.now id.now) }
{
    CmNameKeys::new(keys).folder(alloc, id)
}

#[tactic(auto, unfolding(crate::specs::Cryptomator::cm_folder_of))]
fn folder_under(alloc: Global, siv: &Siv<Key256>, id: &[u8]) -> Result<String, AllocError>
    ensures { IfOk result (λ folder. string_bytes folder ≡ cm_folder_of (keys_of siv.now) id.now) }
{
    let sealed = siv.seal(alloc, None, id)?;
    let text = base32_of(&Sha1::digest(sealed.as_slice()));
    Ok(String::from_utf8(Vec::from_slice(alloc, &text)?).unwrap())
}

/// A new directory's id of sixteen drawn bytes, in 36 characters.
pub fn new_dir_id(alloc: Global, drawn: &[u8; 16]) -> Result<String, AllocError>
    ensures { IfOk result (λ id. string_bytes id ≡ id_of drawn.now) }
{
    id_text(alloc, drawn)
}

// The whole encrypted text of a name.
#[tactic(auto, unfolding(crate::specs::Cryptomator::cm_text))]
fn encrypted_text(
    alloc: Global,
    siv: &Siv<Key256>,
    id: &[u8],
    name: &Name,
) -> Result<String, AllocError>
    ensures { IfOk result (λ text. string_bytes text ≡ cm_text (keys_of siv.now) id.now name.now) }
{
    let sealed = siv.seal(alloc, Some(id), name.bytes())?;
    let mut text = URL_SAFE.encode(alloc, sealed.as_slice())?;
    text.push_str(".c9r")?;
    Ok(text)
}

// The bytes whose base64url stands before `.c9r` in a text, or `None` where there are none.
fn sealed_bytes(alloc: Global, text: &str) -> Result<Option<Vec<u8>>, AllocError>
    ensures { IfOk result (λ found. MatchOption found
        ((bytes : List ℕ) → AreBytes bytes → padded_base64url bytes ++ codes ".c9r" ≢ text.now)
        (λ bytes. AreBytes bytes.items × (padded_base64url bytes.items ++ codes ".c9r" ≡ text.now))) }
{
    let Some(front) = text.as_bytes().strip_suffix(b".c9r") else {
        return Ok(None);
    };
    match URL_SAFE.decode(alloc, front) {
        Ok(bytes) => Ok(Some(bytes)),
        Err(DecodeAllocError::DecodeError(_)) => Ok(None),
        Err(DecodeAllocError::OutOfMemory) => Err(AllocError),
    }
}

// The name that bytes are.
fn named(bytes: Vec<u8>) -> Result<Name, NameFault>
    ensures name { IfOk result (λ name. (name ≡ bytes.items) × IsTrue (is_name name)) }
    ensures not_stored { OnErr result (is_name bytes.items ≡ false) }
{
    Name::from_vec(bytes).ok_or(NameFault::NotStored)
}

// SIV under the two keys.
fn siv_of(keys: &CmKeys) -> Siv<Key256>
    ensures mac { result.mac ≡ keys.now.mac }
    ensures ctr { result.ctr ≡ keys.now.enc }
{
    Siv::new(Key256::new(&keys.mac), Key256::new(&keys.enc))
}
