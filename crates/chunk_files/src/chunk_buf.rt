ghost use Rattle.std.specs.Prelude.{◌≡◌, ◌<◌, ◌≤◌, ◌+◌, ◌++◌, ℕ, List, length, take, replicate, IfOk};
ghost use Rattle.chunk_files.specs.Buffers.{KeepsBehind};
ghost use Rattle.chunk_files.specs.Sealed.{opened_text, sealed_text};
ghost use Rattle.chunk_files.specs.Steps.{PutsText};
ghost use Rattle.chunk_files.specs.Tagged.{opened_tagged, tagged_text};

use crate::sealed::{TAG_SIZE, open_text};
use crate::tagged::{LONG_TAG_SIZE, NONCE_SIZE, is_long_tag_right, long_tag_of, restore_text};
use aes_lanes::{Key256, ctr128_xor};
use gcm_mode::Gcm;
use gcm_mode::laws::sealed_texts_are_bytes;
use std::alloc::{AllocError, Global};
use std::marker::Model;

/// The size of a chunk's buffer in bytes: no chunk of any layout is longer.
pub const CHUNK_BUFFER_SIZE: usize = 32_816;

/// A buffer for one chunk, of 32,816 bytes for good.
#[derive(Drop)]
pub struct ChunkBuf {
    bytes: Box<[u8; CHUNK_BUFFER_SIZE]>,
}

impl Model for ChunkBuf {
    ghost use Rattle.std.specs.Prelude.{ℕ, List};

    ghost Value = { List ℕ };

    ghost view = { λ buffer. buffer.bytes.value };
}

impl ChunkBuf {
    ghost use Rattle.std.specs.Borrow.{sem};
    ghost use Rattle.chunk_files.specs.Lending.{LendsBytes};

    /// A buffer of zeros.
    pub fn new(alloc: Global) -> Result<ChunkBuf, AllocError>
        ensures { IfOk result (λ buffer. buffer ≡ replicate CHUNK_BUFFER_SIZE 0) }
    {
        let Ok(bytes) = Box::new(alloc, [0; CHUNK_BUFFER_SIZE]) else {
            return Err(AllocError);
        };
        Ok(ChunkBuf { bytes })
    }

    /// All its bytes.
    pub fn bytes(&self) -> &[u8]
        ensures value { result.now ≡ self.now }
        ensures size { length result.now ≡ CHUNK_BUFFER_SIZE }
    {
        all_of(&self.bytes)
    }

    /// Lends all its bytes.
    pub fn bytes_mut(&mut self) -> &mut [u8]
        ensures value { result.now ≡ self.old }
        ensures size { length result.now ≡ CHUNK_BUFFER_SIZE }
        ensures* writes_back { sem 𝓛 (LendsBytes self.entry result) }
    {
        // shows that there are so many
        let _all = all_of(&self.bytes);
        let bytes = &mut *self.bytes;
        bytes.as_mut_slice()
    }

    // Puts these bytes at the front.
    pub fn put_front(&mut self, bytes: &[u8])
        requires { length bytes.now ≤ CHUNK_BUFFER_SIZE }
        ensures front { take (length bytes.now) self.new ≡ bytes.now }
        ensures behind { KeepsBehind (length bytes.now) self.old self.new }
        ensures size { length self.new ≡ CHUNK_BUFFER_SIZE }
    {
        self.put_at(0, bytes);
    }

    // Puts these bytes behind the first `at`.
    pub fn put_at(&mut self, at: usize, bytes: &[u8])
        requires { at + length bytes.now ≤ CHUNK_BUFFER_SIZE }
        ensures front { take (at + length bytes.now) self.new ≡ take at self.old ++ bytes.now }
        ensures behind { KeepsBehind (at + length bytes.now) self.old self.new }
        ensures size { length self.new ≡ CHUNK_BUFFER_SIZE }
    {
        copy_at(&mut self.bytes, at, bytes);
    }

    // Opens the text that is stored behind a nonce of `n` bytes to the front, and answers its length.
    pub fn open(&mut self, gcm: &Gcm, associated: &[u8], n: usize, stored: &[u8]) -> Option<usize>
        requires some_nonce { 0 < n }
        requires nonce { n ≤ 16 }
        requires associated { length associated.now ≤ 24 }
        requires least { n + 16 ≤ length stored.now }
        requires most { length stored.now ≤ CHUNK_BUFFER_SIZE }
        ensures { PutsText stored.now (opened_text gcm.now associated.now n stored.now) result self.old self.new }
    {
        open_front(&mut self.bytes, gcm, associated, n, stored)
    }

    // Seals a text to the front, and answers how many bytes are to be stored.
    pub fn seal(&mut self, gcm: &Gcm, associated: &[u8], nonce: &[u8], text: &[u8]) -> usize
        requires some_nonce { 0 < length nonce.now }
        requires nonce { length nonce.now ≤ 16 }
        requires associated { length associated.now ≤ 24 }
        requires text { length text.now ≤ 32768 }
        ensures size { result ≡ length nonce.now + 16 + length text.now }
        ensures stored { take result self.new ≡ sealed_text gcm.now associated.now nonce.now text.now }
        ensures behind { KeepsBehind result self.old self.new }
        ensures buffer { length self.new ≡ CHUNK_BUFFER_SIZE }
    {
        seal_front(&mut self.bytes, gcm, associated, nonce, text)
    }

    // Opens the text that is stored with a tag of 32 bytes to the front, and answers its length.
    pub fn open_tagged(
        &mut self,
        key: &Key256,
        mac: &[u8; 32],
        associated: &[u8],
        stored: &[u8],
    ) -> Option<usize>
        requires least { 48 ≤ length stored.now }
        requires most { length stored.now ≤ CHUNK_BUFFER_SIZE }
        ensures { PutsText stored.now (opened_tagged key.now mac.now associated.now stored.now) result self.old self.new }
    {
        open_tagged_front(&mut self.bytes, key, mac, associated, stored)
    }

    // Stores a text with a tag of 32 bytes at the front, and answers how many bytes are to be stored.
    pub fn seal_tagged(
        &mut self,
        key: &Key256,
        mac: &[u8; 32],
        associated: &[u8],
        nonce: &[u8; NONCE_SIZE],
        text: &[u8],
    ) -> usize
        requires { length text.now ≤ 32768 }
        ensures size { result ≡ 48 + length text.now }
        ensures stored { take result self.new ≡ tagged_text key.now mac.now associated.now nonce.now text.now }
        ensures behind { KeepsBehind result self.old self.new }
        ensures buffer { length self.new ≡ CHUNK_BUFFER_SIZE }
    {
        seal_tagged_front(&mut self.bytes, key, mac, associated, nonce, text)
    }
}

// Opens what is stored to the front of a buffer.
#[tactic(auto, unfolding(crate::specs::Sealed::opened_text))]
fn open_front(
    buffer: &mut [u8; CHUNK_BUFFER_SIZE],
    gcm: &Gcm,
    associated: &[u8],
    n: usize,
    stored: &[u8],
) -> Option<usize>
    requires some_nonce { 0 < n }
    requires nonce { n ≤ 16 }
    requires associated { length associated.now ≤ 24 }
    requires least { n + 16 ≤ length stored.now }
    requires most { length stored.now ≤ CHUNK_BUFFER_SIZE }
    ensures { PutsText stored.now (opened_text gcm.now associated.now n stored.now) result buffer.old buffer.new }
{
    let size = stored.len() - n - TAG_SIZE;
    if open_text(gcm, associated, n, stored, &mut buffer[..size]) {
        Some(size)
    } else {
        None
    }
}

// Seals a text to the front of a buffer.
fn seal_front(
    buffer: &mut [u8; CHUNK_BUFFER_SIZE],
    gcm: &Gcm,
    associated: &[u8],
    nonce: &[u8],
    text: &[u8],
) -> usize
    requires some_nonce { 0 < length nonce.now }
    requires nonce { length nonce.now ≤ 16 }
    requires associated { length associated.now ≤ 24 }
    requires text { length text.now ≤ 32768 }
    ensures size { result ≡ length nonce.now + 16 + length text.now }
    ensures stored { take result buffer.new ≡ sealed_text gcm.now associated.now nonce.now text.now }
    ensures behind { KeepsBehind result buffer.old buffer.new }
    ensures buffer { length buffer.new ≡ CHUNK_BUFFER_SIZE }
{
    let end = nonce.len() + text.len();
    copy_at(buffer, 0, nonce);
    copy_at(buffer, nonce.len(), text);
    let tag = seal_between(buffer, gcm, associated, nonce, end);
    copy_at(buffer, end, &tag);
    end + TAG_SIZE
}

// Encrypts what stands in a buffer behind a nonce and before `end`, and answers its tag.
fn seal_between(
    buffer: &mut [u8; CHUNK_BUFFER_SIZE],
    gcm: &Gcm,
    associated: &[u8],
    nonce: &[u8],
    end: usize,
) -> [u8; TAG_SIZE]
    requires some_nonce { 0 < length nonce.now }
    requires nonce { length nonce.now ≤ 16 }
    requires associated { length associated.now ≤ 24 }
    requires end { length nonce.now ≤ end }
    requires within { end + 16 ≤ CHUNK_BUFFER_SIZE }
    ensures sealed { (text : List ℕ) → take end buffer.old ≡ nonce.now ++ text
        → take end buffer.new ++ result ≡ sealed_text gcm.now associated.now nonce.now text }
    ensures tag { length result ≡ TAG_SIZE }
    ensures behind { KeepsBehind end buffer.old buffer.new }
{
    sealed_texts_are_bytes();
    gcm.seal(nonce, associated, &mut buffer[nonce.len()..end])
}

// Opens what is stored with a tag of 32 bytes to the front of a buffer.
#[tactic(auto, unfolding(crate::specs::Tagged::opened_tagged))]
fn open_tagged_front(
    buffer: &mut [u8; CHUNK_BUFFER_SIZE],
    key: &Key256,
    mac: &[u8; 32],
    associated: &[u8],
    stored: &[u8],
) -> Option<usize>
    requires least { 48 ≤ length stored.now }
    requires most { length stored.now ≤ CHUNK_BUFFER_SIZE }
    ensures { PutsText stored.now (opened_tagged key.now mac.now associated.now stored.now) result buffer.old buffer.new }
{
    if !is_long_tag_right(mac, associated, stored) {
        return None;
    }
    let size = stored.len() - NONCE_SIZE - LONG_TAG_SIZE;
    restore_text(key, stored, &mut buffer[..size]);
    Some(size)
}

// Stores a text with a tag of 32 bytes at the front of a buffer.
fn seal_tagged_front(
    buffer: &mut [u8; CHUNK_BUFFER_SIZE],
    key: &Key256,
    mac: &[u8; 32],
    associated: &[u8],
    nonce: &[u8; NONCE_SIZE],
    text: &[u8],
) -> usize
    requires { length text.now ≤ 32768 }
    ensures size { result ≡ 48 + length text.now }
    ensures stored { take result buffer.new ≡ tagged_text key.now mac.now associated.now nonce.now text.now }
    ensures behind { KeepsBehind result buffer.old buffer.new }
    ensures buffer { length buffer.new ≡ CHUNK_BUFFER_SIZE }
{
    let end = NONCE_SIZE + text.len();
    copy_at(buffer, 0, nonce);
    copy_at(buffer, NONCE_SIZE, text);
    let tag = tag_between(buffer, key, mac, associated, nonce, end);
    copy_at(buffer, end, &tag);
    end + LONG_TAG_SIZE
}

// Encrypts what stands in a buffer behind a nonce and before `end`, and answers the tag of both.
fn tag_between(
    buffer: &mut [u8; CHUNK_BUFFER_SIZE],
    key: &Key256,
    mac: &[u8; 32],
    associated: &[u8],
    nonce: &[u8; NONCE_SIZE],
    end: usize,
) -> [u8; LONG_TAG_SIZE]
    requires end { NONCE_SIZE ≤ end }
    requires within { end + LONG_TAG_SIZE ≤ CHUNK_BUFFER_SIZE }
    ensures sealed { (text : List ℕ) → take end buffer.old ≡ nonce.now ++ text
        → take end buffer.new ++ result ≡ tagged_text key.now mac.now associated.now nonce.now text }
    ensures tag { length result ≡ LONG_TAG_SIZE }
    ensures behind { KeepsBehind end buffer.old buffer.new }
{
    ctr128_xor(key, nonce, &mut buffer[NONCE_SIZE..end]);
    long_tag_of(mac, associated, &buffer[..end])
}

fn all_of(buffer: &[u8; CHUNK_BUFFER_SIZE]) -> &[u8]
    ensures value { result.now ≡ buffer.now }
    ensures size { length result.now ≡ CHUNK_BUFFER_SIZE }
{
    buffer.as_slice()
}

// Copies bytes into a buffer, behind its first `at`.
fn copy_at(buffer: &mut [u8; CHUNK_BUFFER_SIZE], at: usize, bytes: &[u8])
    requires { at + length bytes.now ≤ CHUNK_BUFFER_SIZE }
    ensures front { take (at + length bytes.now) buffer.new ≡ take at buffer.old ++ bytes.now }
    ensures behind { KeepsBehind (at + length bytes.now) buffer.old buffer.new }
    ensures size { length buffer.new ≡ CHUNK_BUFFER_SIZE }
{
    buffer[at..at + bytes.len()].copy_from_slice(bytes);
}
