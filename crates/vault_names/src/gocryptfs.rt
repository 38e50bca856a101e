//! Stored names of gocryptfs, on-disk format 2: EME over AES-256 on padded names, in base64url without padding.
ghost use Rattle.std.specs.Prelude.{◌≡◌, ℕ, ◌%◌, ◌↔◌, List, length, IfOk, MatchOption, IsTrue, Err, string_bytes};
ghost use Rattle.vault_names.specs.Blocks.{AreBlocksOf, IsPaddedName, IsSizeOfBlocks};
ghost use Rattle.vault_names.specs.Gocryptfs.{entry_of, go_text, long_name, stored, IsTextOf};

use crate::entry::{NameFault, Stored};
use crate::padding::{BLOCK_SIZE, padded_bytes, unpadded_bytes};
use aes_lanes::{Block, Key256};
use base64::DecodeAllocError;
use base64::engine::general_purpose::URL_SAFE_NO_PAD;
use eme_mode::Eme;
use eme_mode::laws::{blocks_stay_blocks, directions_undo_each_other};
use plain_tree::{Name, NameNewFault};
use sha2::{Digest, Sha256};
use std::alloc::{AllocError, Global};
use std::marker::Model;
use vault_values::{GoKeys, Text};

/// The greatest length of a text that is an entry's name, in characters.
pub const MAX_ENTRY_SIZE: usize = 255;

// The size of the 128 blocks that EME takes at most.
const MAX_SIZE: usize = 128 * BLOCK_SIZE;

/// The key of a gocryptfs vault's names, expanded for many names. Contracts see it as the key's 32 bytes.
#[derive(Drop)]
pub struct GoNameKeys {
    eme: Eme,
}

impl Model for GoNameKeys {
    ghost use Rattle.std.specs.Prelude.{ℕ, List};

    ghost Value = { List ℕ };

    ghost view = { λ names. names.eme };
}

impl GoNameKeys {
    /// The key of a vault's names, expanded.
    pub fn new(keys: &GoKeys) -> GoNameKeys
        ensures { result ≡ keys.now.names }
    {
        GoNameKeys {
            eme: Eme::new(Key256::new(&keys.names)),
        }
    }

    /// What is stored of a name in the directory whose `gocryptfs.diriv` holds `iv`.
    pub fn store(&self, alloc: Global, iv: &Block, name: &Name) -> Result<Stored, AllocError>
        ensures { IfOk result (λ entry. entry ≡ stored self.now iv.now name.now) }
    {
        store_under(alloc, &self.eme, iv, name)
    }

    /// The name that encrypts to a text, in the directory whose `gocryptfs.diriv` holds `iv`. The text is the whole
    /// encrypted one, an entry's name or what a long-name file holds.
    pub fn read(&self, alloc: Global, iv: &Block, text: &str) -> Result<Name, NameFault>
        ensures name { IfOk result (λ name. IsTextOf self.now iv.now name text.now) }
        ensures not_stored { result ≡ Err NameFault.NotStored
            → (name : List ℕ) → ¬ IsTextOf self.now iv.now name text.now }
    {
        read_under(alloc, &self.eme, iv, text)
    }
}

/// What is stored of a name in the directory whose `gocryptfs.diriv` holds `iv`.
pub fn go_store(alloc: Global, keys: &GoKeys, iv: &Block, name: &Name) -> Result<Stored, AllocError>
    ensures { IfOk result (λ entry. entry ≡ stored keys.now.names iv.now name.now) }
{
    GoNameKeys::new(keys).store(alloc, iv, name)
}

#[tactic(auto, unfolding(crate::specs::Gocryptfs::stored))]
fn store_under(alloc: Global, eme: &Eme, iv: &Block, name: &Name) -> Result<Stored, AllocError>
    ensures { IfOk result (λ entry. entry ≡ stored eme.now iv.now name.now) }
{
    go_entry(alloc, encrypted_text(alloc, eme, iv, name)?)
}

/// What is stored of the name that has this encrypted text.
pub fn go_entry(alloc: Global, text: String) -> Result<Stored, AllocError>
    ensures { IfOk result (λ entry. entry ≡ entry_of (string_bytes text)) }
{
    if text.len() <= MAX_ENTRY_SIZE {
        return Ok(Stored {
            name: Text::new(text),
            full: None,
        });
    }
    Ok(Stored {
        name: Text::new(go_long(alloc, text.as_str())?),
        full: Some(Text::new(text)),
    })
}

/// The entry's name of an encrypted text that is too long for one: `gocryptfs.longname.` and the base64url of its SHA-256.
#[tactic(auto, unfolding(crate::specs::Gocryptfs::long_name))]
pub fn go_long(alloc: Global, text: &str) -> Result<String, AllocError>
    ensures { IfOk result (λ name. string_bytes name ≡ long_name text.now) }
{
    let mut name = String::from_str(alloc, "gocryptfs.longname.")?;
    URL_SAFE_NO_PAD.encode_string(&Sha256::digest(text.as_bytes()), &mut name)?;
    Ok(name)
}

/// The name that encrypts to a text, in the directory whose `gocryptfs.diriv` holds `iv`. The text is the whole
/// encrypted one, an entry's name or what a long-name file holds.
pub fn go_read(alloc: Global, keys: &GoKeys, iv: &Block, text: &str) -> Result<Name, NameFault>
    ensures name { IfOk result (λ name. IsTextOf keys.now.names iv.now name text.now) }
    ensures not_stored { result ≡ Err NameFault.NotStored
        → (name : List ℕ) → ¬ IsTextOf keys.now.names iv.now name text.now }
{
    GoNameKeys::new(keys).read(alloc, iv, text)
}

fn read_under(alloc: Global, eme: &Eme, iv: &Block, text: &str) -> Result<Name, NameFault>
    ensures name { IfOk result (λ name. IsTextOf eme.now iv.now name text.now) }
    ensures not_stored { result ≡ Err NameFault.NotStored
        → (name : List ℕ) → ¬ IsTextOf eme.now iv.now name text.now }
{
    directions_undo_each_other();
    blocks_stay_blocks();
    let Some(mut blocks) = encrypted_blocks(alloc, text)? else {
        return Err(NameFault::NotStored);
    };
    eme.decrypt(iv, blocks.as_mut_slice());
    unpadded_name(alloc, blocks.as_slice().as_flattened())
}

// The whole encrypted text of a name.
#[tactic(auto, unfolding(crate::specs::Gocryptfs::go_text))]
fn encrypted_text(alloc: Global, eme: &Eme, iv: &Block, name: &Name) -> Result<String, AllocError>
    ensures { IfOk result (λ text. string_bytes text ≡ go_text eme.now iv.now name.now) }
{
    let whole = padded_bytes(alloc, name.bytes())?;
    let (blocks, _) = whole.as_slice().as_chunks::<BLOCK_SIZE>();
    let mut blocks = Vec::from_slice(alloc, blocks)?;
    eme.encrypt(iv, blocks.as_mut_slice());
    URL_SAFE_NO_PAD.encode(alloc, blocks.as_slice().as_flattened())
}

// The 1 to 128 blocks that a text is the base64url of, or `None` where there are none.
fn encrypted_blocks(alloc: Global, text: &str) -> Result<Option<Vec<Block>>, AllocError>
    ensures { IfOk result (λ found. MatchOption found
        ((blocks : List (List ℕ)) → ¬ AreBlocksOf text.now blocks)
        (λ blocks. AreBlocksOf text.now blocks.items)) }
{
    let bytes = match URL_SAFE_NO_PAD.decode(alloc, text.as_bytes()) {
        Ok(bytes) => bytes,
        Err(DecodeAllocError::DecodeError(_)) => return Ok(None),
        Err(DecodeAllocError::OutOfMemory) => return Err(AllocError),
    };
    if !is_size_of_blocks(bytes.len()) {
        return Ok(None);
    }
    let (blocks, _) = bytes.as_slice().as_chunks::<BLOCK_SIZE>();
    Ok(Some(Vec::from_slice(alloc, blocks)?))
}

// Whether so many bytes are 1 to 128 blocks.
fn is_size_of_blocks(size: usize) -> bool
    ensures { IsTrue result ↔ IsSizeOfBlocks size }
{
    0 < size && size <= MAX_SIZE && size % BLOCK_SIZE == 0
}

// The name that these whole blocks are the padding of.
fn unpadded_name(alloc: Global, whole: &[u8]) -> Result<Name, NameFault>
    requires { length whole.now % 16 ≡ 0 }
    ensures name { IfOk result (λ name. IsPaddedName name whole.now) }
    ensures not_stored { result ≡ Err NameFault.NotStored → (name : List ℕ) → ¬ IsPaddedName name whole.now }
{
    let Some(name) = unpadded_bytes(whole) else {
        return Err(NameFault::NotStored);
    };
    match Name::new(alloc, name) {
        Ok(name) => Ok(name),
        Err(NameNewFault::BadName) => Err(NameFault::NotStored),
        Err(NameNewFault::NoMemory) => Err(NameFault::NoMemory),
    }
}
