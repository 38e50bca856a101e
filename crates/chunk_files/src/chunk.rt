//! Stored chunks, opened and sealed.

ghost use Rattle.std.specs.Prelude.{◌≡◌, ◌≤◌, ◌<◌, ◌+◌, ◌++◌, ℕ, List, length, take};
ghost use Rattle.std.specs.Int.{to_be_bytes, w64};
ghost use Rattle.chunk_files.specs.Buffers.{KeepsBehind};
ghost use Rattle.chunk_files.specs.Contents.{opened_or_fault, read_chunk};
ghost use Rattle.chunk_files.specs.CryptomatorCtr.{cm_ctr_format};
ghost use Rattle.chunk_files.specs.CryptomatorGcm.{cm_gcm_format};
ghost use Rattle.chunk_files.specs.Format.{stored_size};
ghost use Rattle.chunk_files.specs.Gocryptfs.{go_format};
ghost use Rattle.chunk_files.specs.Keys.{format_of};
ghost use Rattle.chunk_files.specs.Sealed.{opened_text, sealed_text};
ghost use Rattle.chunk_files.specs.Steps.{PutsChunk};
ghost use Rattle.chunk_files.specs.Tagged.{tagged_text};
ghost use Rattle.chunk_files.specs.Told.{header_of, layout_of};

use crate::chunk_buf::{CHUNK_BUFFER_SIZE, ChunkBuf};
use crate::fault::ChunkFault;
use crate::keys::ContentKeys;
use crate::tagged::NONCE_SIZE;
use crate::told::{Told, chunk_data, tagged_data};
use crate::zeros::all_zero;
use aes_lanes::Key256;
use gcm_mode::Gcm;

const GO_STORED: usize = 4_128;

const GO_FULL: usize = 4_096;

// Reads the stored chunk of this number, and puts its plain bytes at the front of `out`.
pub fn open_chunk(
    keys: &ContentKeys,
    told: &Told,
    number: u64,
    stored: &[u8],
    out: &mut ChunkBuf,
) -> Result<usize, ChunkFault>
    requires suits { layout_of told.now ≡ keys.now.layout }
    requires size { length stored.now ≤ stored_size (format_of keys.now) }
    ensures { PutsChunk stored.now (read_chunk (format_of keys.now) (header_of told.now) number stored.now) result out.old out.new }
{
    match told {
        Told::Go(gcm, id) => open_go(gcm, id, number, stored, out),
        Told::CmGcm(file) => open_cm(&file.chunks, &file.nonce, number, stored, out),
        Told::CmCtr(file) => open_ctr(&file.chunks, keys.mac(), &file.nonce, number, stored, out),
    }
}

#[tactic(auto, unfolding(crate::specs::Contents::read_chunk, crate::specs::Contents::is_hole, crate::specs::Contents::is_refused))]
fn open_go(
    gcm: &Gcm,
    id: &[u8; 16],
    number: u64,
    stored: &[u8],
    out: &mut ChunkBuf,
) -> Result<usize, ChunkFault>
    requires { length stored.now ≤ GO_STORED }
    ensures { (key : List ℕ) → PutsChunk stored.now (read_chunk (go_format key) (record { key = gcm.now; file = id.now }) number stored.now) result out.old out.new }
{
    if stored.len() == GO_STORED && all_zero(stored) {
        out.put_front(&[0; GO_FULL]);
        return Ok(GO_FULL);
    }
    if stored.len() < 32 {
        return Err(ChunkFault::ShortChunk(number));
    }
    if all_zero(&stored[..16]) {
        return Err(ChunkFault::ZeroNonce(number));
    }
    open_sealed(gcm, id, 16, number, stored, out)
}

#[tactic(auto, unfolding(crate::specs::Contents::read_chunk, crate::specs::Contents::is_hole, crate::specs::Contents::is_refused))]
fn open_cm(
    gcm: &Gcm,
    nonce: &[u8; 12],
    number: u64,
    stored: &[u8],
    out: &mut ChunkBuf,
) -> Result<usize, ChunkFault>
    requires { length stored.now ≤ 32796 }
    ensures { (key : List ℕ) → PutsChunk stored.now (read_chunk (cm_gcm_format key) (record { key = gcm.now; file = nonce.now }) number stored.now) result out.old out.new }
{
    if stored.len() < 28 {
        return Err(ChunkFault::ShortChunk(number));
    }
    open_sealed(gcm, nonce, 12, number, stored, out)
}

#[tactic(auto, unfolding(crate::specs::Contents::read_chunk, crate::specs::Contents::is_hole, crate::specs::Contents::is_refused))]
fn open_ctr(
    key: &Key256,
    mac: &[u8; 32],
    nonce: &[u8; 16],
    number: u64,
    stored: &[u8],
    out: &mut ChunkBuf,
) -> Result<usize, ChunkFault>
    requires { length stored.now ≤ CHUNK_BUFFER_SIZE }
    ensures { (enc : List ℕ) → PutsChunk stored.now (read_chunk (cm_ctr_format enc mac.now) (record { key = key.now; file = nonce.now }) number stored.now) result out.old out.new }
{
    if stored.len() < 48 {
        return Err(ChunkFault::ShortChunk(number));
    }
    match out.open_tagged(key, mac, &tagged_data(nonce, number), stored) {
        Some(size) => Ok(size),
        None => Err(ChunkFault::ChunkTag(number)),
    }
}

// Opens a chunk sealed by GCM, whose nonce has `n` bytes, of the file that these bytes bind it to.
fn open_sealed(
    gcm: &Gcm,
    file: &[u8],
    n: usize,
    number: u64,
    stored: &[u8],
    out: &mut ChunkBuf,
) -> Result<usize, ChunkFault>
    requires file { length file.now ≤ 16 }
    requires some_nonce { 0 < n }
    requires nonce { n ≤ 16 }
    requires least { n + 16 ≤ length stored.now }
    requires most { length stored.now ≤ 32816 }
    ensures { PutsChunk stored.now (opened_or_fault number (opened_text gcm.now (to_be_bytes w64 number ++ file.now) n stored.now)) result out.old out.new }
{
    let (data, size) = chunk_data(number, file);
    match out.open(gcm, &data[..size], n, stored) {
        Some(size) => Ok(size),
        None => Err(ChunkFault::ChunkTag(number)),
    }
}

// Seals a chunk under a nonce, puts what is to be stored at the front of `out`, and answers its length.
pub fn seal_chunk(
    keys: &ContentKeys,
    told: &Told,
    number: u64,
    nonce: &[u8],
    chunk: &[u8],
    out: &mut ChunkBuf,
) -> usize
    requires suits { layout_of told.now ≡ keys.now.layout }
    requires nonce { length nonce.now ≡ (format_of keys.now).nonce_size }
    requires chunk { length chunk.now ≤ 32768 }
    ensures size { result ≡ (format_of keys.now).seal_size + length chunk.now }
    ensures stored { take result out.new ≡ (format_of keys.now).sealed_chunk (header_of told.now) number nonce.now chunk.now }
    ensures behind { KeepsBehind result out.old out.new }
    ensures buffer { length out.new ≡ 32816 }
{
    match told {
        Told::Go(gcm, id) => seal_gcm(gcm, id, number, nonce, chunk, out),
        Told::CmGcm(file) => seal_gcm(&file.chunks, &file.nonce, number, nonce, chunk, out),
        Told::CmCtr(file) => seal_ctr(
            &file.chunks,
            keys.mac(),
            &file.nonce,
            number,
            nonce,
            chunk,
            out,
        ),
    }
}

// Seals a chunk by GCM, of the file that these bytes bind it to.
fn seal_gcm(
    gcm: &Gcm,
    file: &[u8],
    number: u64,
    nonce: &[u8],
    chunk: &[u8],
    out: &mut ChunkBuf,
) -> usize
    requires file { length file.now ≤ 16 }
    requires some_nonce { 0 < length nonce.now }
    requires nonce { length nonce.now ≤ 16 }
    requires chunk { length chunk.now ≤ 32768 }
    ensures size { result ≡ length nonce.now + 16 + length chunk.now }
    ensures stored { take result out.new ≡ sealed_text gcm.now (to_be_bytes w64 number ++ file.now) nonce.now chunk.now }
    ensures behind { KeepsBehind result out.old out.new }
    ensures buffer { length out.new ≡ 32816 }
{
    let (data, size) = chunk_data(number, file);
    out.seal(gcm, &data[..size], nonce, chunk)
}

// Seals a chunk with a tag of 32 bytes, behind the header of this nonce.
fn seal_ctr(
    key: &Key256,
    mac: &[u8; 32],
    file: &[u8; 16],
    number: u64,
    nonce: &[u8],
    chunk: &[u8],
    out: &mut ChunkBuf,
) -> usize
    requires nonce { length nonce.now ≡ NONCE_SIZE }
    requires chunk { length chunk.now ≤ 32768 }
    ensures size { result ≡ 48 + length chunk.now }
    ensures stored { take result out.new ≡ tagged_text key.now mac.now (file.now ++ to_be_bytes w64 number) nonce.now chunk.now }
    ensures behind { KeepsBehind result out.old out.new }
    ensures buffer { length out.new ≡ 32816 }
{
    let mut first = [0; NONCE_SIZE];
    first.copy_from_slice(nonce);
    out.seal_tagged(key, mac, &tagged_data(file, number), &first, chunk)
}
