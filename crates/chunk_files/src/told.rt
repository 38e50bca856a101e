//! What a header tells of the chunks behind it.

ghost use Rattle.std.specs.Prelude.{◌≡◌, ◌++◌, ◌≤◌, IfOk, length, take};
ghost use Rattle.std.specs.Int.{to_be_bytes, w64};
ghost use Rattle.chunk_files.specs.Told.{Suits};

use crate::keys::{ContentKeys, Layout};
use aes_lanes::Key256;
use gcm_mode::Gcm;
use std::alloc::{AllocError, Global};

/// What a header tells, by its layout, beside the vault's key, under which headers are opened and sealed: the
/// cipher of the chunks, and the bytes that bind them to their file, which are the file's id or the header's
/// nonce. The chunks of gocryptfs have the vault's key.
#[derive(Drop)]
pub enum Told {
    Go(Gcm, [u8; 16]),
    CmGcm(GcmTold),
    CmCtr(CtrTold),
}

#[derive(Drop)]
pub struct GcmTold {
    pub vault: Gcm,
    pub chunks: Gcm,
    pub nonce: [u8; 12],
}

#[derive(Drop)]
pub struct CtrTold {
    pub vault: Key256,
    pub chunks: Key256,
    pub nonce: [u8; 16],
}

// The vault's key, expanded, also where a header's is to stand.
pub fn untold(keys: &ContentKeys) -> Told
    ensures { Suits result keys.now }
{
    match keys.layout() {
        Layout::Go => Told::Go(keys.gcm(), [0; 16]),
        Layout::CmGcm => Told::CmGcm(GcmTold {
            vault: keys.gcm(),
            chunks: keys.gcm(),
            nonce: [0; 12],
        }),
        Layout::CmCtr => Told::CmCtr(CtrTold {
            vault: keys.cipher(),
            chunks: keys.cipher(),
            nonce: [0; 16],
        }),
    }
}

// Puts other keys of a vault in the place of the last ones. It is apart, since a function clears its locals when it begins.
pub fn expand(keys: &ContentKeys, told: &mut Told)
    ensures { Suits told.new keys.now }
{
    *told = untold(keys);
}

pub fn boxed(alloc: Global, told: Told) -> Result<Box<Told>, AllocError>
    ensures { IfOk result (λ boxed. boxed.value ≡ told) }
{
    match Box::new(alloc, told) {
        Ok(boxed) => Ok(boxed),
        Err(_) => Err(AllocError),
    }
}

// The associated data by GCM of the chunk of this number, and how many bytes they are: the number, and the
// bytes that bind it to its file.
pub fn chunk_data(number: u64, file: &[u8]) -> ([u8; 24], usize)
    requires { length file.now ≤ 16 }
    ensures data { take result.1 result.0 ≡ to_be_bytes w64 number ++ file.now }
    ensures size { result.1 ≤ 24 }
{
    let end = 8 + file.len();
    let mut data = [0; 24];
    data[..8].copy_from_slice(&number.to_be_bytes());
    data[8..end].copy_from_slice(file);
    (data, end)
}

// The associated data of the chunk of this number behind a header with a tag of 32 bytes: the header's nonce,
// and the number.
pub fn tagged_data(nonce: &[u8; 16], number: u64) -> [u8; 24]
    ensures { result ≡ nonce.now ++ to_be_bytes w64 number }
{
    let mut data = [0; 24];
    data[..16].copy_from_slice(nonce);
    data[16..].copy_from_slice(&number.to_be_bytes());
    data
}
