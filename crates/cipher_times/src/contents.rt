//! Contents with SIV_CTRMAC, in files of one chunk each, and what they are made of.

ghost use Rattle.chunk_files.specs.Keys.{format_of};
ghost use Rattle.std.specs.Prelude.{◌≡◌};

use aes_lanes::{Key256, ctr128_xor};
use chunk_files::{ChunkBuf, ContentKeys, Decoder, Encoder, Step};
use kdf_suite::hmac256;
use port_model::ListRandoms;
use std::alloc::{AllocError, Global};

const CHUNK: usize = 32_768;

/// Chunks in counter mode, and then the tag of each by HMAC-SHA-256.
pub fn stream_and_tag(megabytes: u32) -> u8 {
    let key = Key256::new(&[1; 32]);
    let mut chunk = [0; CHUNK];
    let mut tag = [0; 32];
    for _ in 0..32 * u64::from(megabytes) {
        ctr128_xor(&key, &[3; 16], &mut chunk);
        let next = hmac256(&[2; 32], &chunk);
        tag = next;
    }
    tag[0]
}

/// Files that are written.
pub fn write_files(alloc: Global, megabytes: u32) -> Result<u8, AllocError> {
    let mut out = ChunkBuf::new(alloc)?;
    let chunk = [4; CHUNK];
    let mut last = 0;
    for _ in 0..32 * u64::from(megabytes) {
        let file = write_file(alloc, &chunk, &mut out)?;
        last = file;
    }
    Ok(last)
}

/// A file that is read again and again.
pub fn read_files(alloc: Global, megabytes: u32) -> Result<u8, AllocError> {
    let mut out = ChunkBuf::new(alloc)?;
    let file = file_of(alloc, &[4; CHUNK], &mut out)?;
    let mut last = 0;
    for _ in 0..32 * u64::from(megabytes) {
        let chunk = read_file(alloc, file.as_slice(), &mut out)?;
        last = chunk;
    }
    Ok(last)
}

fn keys() -> ContentKeys
    ensures full { (format_of result).full_size ≡ 32768 }
{
    ContentKeys::cm_ctr(&[1; 32], &[2; 32])
}

fn randoms(alloc: Global) -> Result<ListRandoms, AllocError> {
    Ok(ListRandoms::new(vec![in alloc; 5; 64]?, Vec::new(alloc)))
}

// Makes a file's header and chunk, and answers a byte.
fn write_file(alloc: Global, chunk: &[u8; CHUNK], out: &mut ChunkBuf) -> Result<u8, AllocError> {
    let mut random = randoms(alloc)?;
    let Ok(mut begun) = Encoder::start(keys(), &mut random, false, out) else {
        return Ok(0);
    };
    match begun.encoder.chunk(&mut random, chunk, out) {
        Ok(_) => Ok(out.bytes()[0]),
        Err(_) => Ok(0),
    }
}

// The bytes of a file, or none.
fn file_of(alloc: Global, chunk: &[u8; CHUNK], out: &mut ChunkBuf) -> Result<Vec<u8>, AllocError> {
    let mut random = randoms(alloc)?;
    let Ok(mut begun) = Encoder::start(keys(), &mut random, false, out) else {
        return Ok(Vec::new(alloc));
    };
    let mut file = out.bytes()[..begun.length].to_vec(alloc)?;
    if let Ok(size) = begun.encoder.chunk(&mut random, chunk, out) {
        file.extend_from_slice(&out.bytes()[..size])?;
    }
    Ok(file)
}

// Reads a file, and answers a byte of its chunk. A decoder takes no more than a stored chunk at a time.
fn read_file(alloc: Global, file: &[u8], out: &mut ChunkBuf) -> Result<u8, AllocError> {
    let mut decoder = Decoder::start(alloc, keys())?;
    let front = decoder.feed(file);
    let Ok(Step::More) = decoder.next(out) else {
        return Ok(0);
    };
    decoder.feed(&file[front..]);
    decoder.end();
    match decoder.next(out) {
        Ok(Step::Chunk(_)) => Ok(out.bytes()[0]),
        _ => Ok(0),
    }
}
