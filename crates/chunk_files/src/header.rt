//! Headers, read and made.

ghost use Rattle.std.specs.Prelude.{◌≡◌, ℕ, List, [], OnErr, drop, length};
ghost use Rattle.chunk_files.specs.Gocryptfs.{go_header_of, read_go_header};
ghost use Rattle.chunk_files.specs.CryptomatorCtr.{read_ctr_header};
ghost use Rattle.chunk_files.specs.CryptomatorGcm.{new_plain, read_cm_header};
ghost use Rattle.chunk_files.specs.Keys.{format_of};
ghost use Rattle.chunk_files.specs.Told.{Suits, header_of, header_or_fault};

use crate::fault::ChunkFault;
use crate::keys::ContentKeys;
use crate::sealed::open_text;
use crate::tagged::{is_long_tag_right, restore_text};
use crate::told::{CtrTold, GcmTold, Told};
use crate::zeros::all_zero;

/// The lengths of the layouts' headers in bytes.
pub const GO_HEADER: usize = 18;

pub const CM_HEADER: usize = 68;

pub const CTR_HEADER: usize = 88;

const RESERVED: usize = 8;

// Puts what a whole header tells in its place, or answers its first fault.
pub fn read_header(keys: &ContentKeys, header: &[u8], told: &mut Told) -> Result<(), ChunkFault>
    requires size { length header.now ≡ (format_of keys.now).header_size }
    requires suits { Suits told.old keys.now }
    ensures told { header_or_fault result (header_of told.new) ≡ (format_of keys.now).read_header header.now }
    ensures unchanged { OnErr result (told.new ≡ told.old) }
    ensures suits { Suits told.new keys.now }
{
    match told {
        Told::Go(_, id) => read_go(id, header),
        Told::CmGcm(file) => read_cm(file, header),
        Told::CmCtr(file) => read_ctr(file, keys.mac(), header),
    }
}

#[tactic(auto, unfolding(crate::specs::Gocryptfs::read_go_header))]
fn read_go(id: &mut [u8; 16], header: &[u8]) -> Result<(), ChunkFault>
    requires { length header.now ≡ GO_HEADER }
    ensures told { (key : List ℕ) → header_or_fault result (record { key = key; file = id.new }) ≡ read_go_header key header.now }
    ensures unchanged { OnErr result (id.new ≡ id.old) }
{
    let version = u16::from_be_bytes([header[0], header[1]]);
    if version != 2 {
        return Err(ChunkFault::HeaderVersion(version));
    }
    if all_zero(&header[2..]) {
        return Err(ChunkFault::ZeroId);
    }
    id.copy_from_slice(&header[2..]);
    Ok(())
}

#[tactic(auto, unfolding(crate::specs::CryptomatorGcm::read_cm_header, crate::specs::Sealed::opened_text))]
fn read_cm(file: &mut GcmTold, header: &[u8]) -> Result<(), ChunkFault>
    requires { length header.now ≡ CM_HEADER }
    ensures told { header_or_fault result (record { key = file.new.chunks; file = file.new.nonce }) ≡ read_cm_header file.old.vault header.now }
    ensures unchanged { OnErr result (file.new ≡ file.old) }
    ensures vault { file.new.vault ≡ file.old.vault }
{
    let mut plain = [0; 40];
    if !open_text(&file.vault, &[], 12, header, &mut plain) {
        return Err(ChunkFault::HeaderTag);
    }
    file.chunks.rekey(&content_key(&plain));
    file.nonce.copy_from_slice(&header[..12]);
    Ok(())
}

#[tactic(auto, unfolding(crate::specs::CryptomatorCtr::read_ctr_header, crate::specs::Tagged::opened_tagged))]
fn read_ctr(file: &mut CtrTold, mac: &[u8; 32], header: &[u8]) -> Result<(), ChunkFault>
    requires { length header.now ≡ CTR_HEADER }
    ensures told { header_or_fault result (record { key = file.new.chunks; file = file.new.nonce }) ≡ read_ctr_header file.old.vault mac.now header.now }
    ensures unchanged { OnErr result (file.new ≡ file.old) }
    ensures vault { file.new.vault ≡ file.old.vault }
{
    if !is_long_tag_right(mac, &[], header) {
        return Err(ChunkFault::HeaderTag);
    }
    let mut plain = [0; 40];
    restore_text(&file.vault, header, &mut plain);
    file.chunks.renew(&content_key(&plain));
    file.nonce.copy_from_slice(&header[..16]);
    Ok(())
}

// The content key behind the reserved bytes of a header's plain text.
fn content_key(plain: &[u8; 40]) -> [u8; 32]
    ensures { result ≡ drop 8 plain.now }
{
    let mut key = [0; 32];
    key.copy_from_slice(&plain[RESERVED..]);
    key
}

// The header of a gocryptfs file of this id.
pub fn go_header(id: &[u8; 16]) -> [u8; GO_HEADER]
    ensures { result ≡ go_header_of id.now }
{
    let mut header = [0; GO_HEADER];
    header[1] = 2;
    header[2..].copy_from_slice(id);
    header
}

// The plain text of a new header of Cryptomator: eight reserved bytes, and the content key.
pub fn new_plain(key: &[u8; 32]) -> [u8; 40]
    ensures { result ≡ new_plain key.now }
{
    let mut plain = [0xFF; 40];
    plain[RESERVED..].copy_from_slice(key);
    plain
}
