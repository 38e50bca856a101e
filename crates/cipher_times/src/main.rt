//! Times AES-256 in counter mode, GCM on blocks of 4,096 bytes, contents with SIV_CTRMAC beside what they are
//! made of, the cipher on sixteen blocks, both ways, and on one, and what is done once for each file or name:
//! `cipher_times MEGABYTES` prints megabytes a second, and nanoseconds for a thousand rounds a megabyte.
#![tactic(auto)]

mod contents;

use aes_lanes::{Cipher, Key256, ctr32_xor, ctr128_xor};
use contents::{read_files, stream_and_tag, write_files};
use eme_mode::Eme;
use gcm_mode::Gcm;
use siv_mode::Siv;
use std::alloc::{AllocError, Global};
use std::rt::{Clock, Env};
use std::time::{Duration, Instant};
use std::{env, io};

#[derive(Clone, Copy)]
enum Work {
    Stream,
    Unseal,
    StreamAndTag,
    WriteFiles,
    ReadFiles,
    SixteenBlocks,
    SixteenBlocksBack,
    OneBlock,
    NewKeys,
    ShortTexts,
    NamesInSiv,
    NamesInEme,
}

// What is told of a work: how many megabytes a second, or how long a round takes.
#[derive(Clone, Copy)]
enum Measure {
    Rate,
    Round,
}

// Contents with SIV_CTRMAC stand behind counter mode and HMAC-SHA-256 alone.
const WORKS: [(&str, Work, Measure); 12] = [
    ("stream", Work::Stream, Measure::Rate),
    ("unseal", Work::Unseal, Measure::Rate),
    ("counter mode and HMAC", Work::StreamAndTag, Measure::Rate),
    ("contents written", Work::WriteFiles, Measure::Rate),
    ("contents read", Work::ReadFiles, Measure::Rate),
    ("sixteen blocks", Work::SixteenBlocks, Measure::Rate),
    (
        "sixteen blocks back",
        Work::SixteenBlocksBack,
        Measure::Rate,
    ),
    ("one block", Work::OneBlock, Measure::Rate),
    ("new key", Work::NewKeys, Measure::Round),
    ("new key and 40 bytes", Work::ShortTexts, Measure::Round),
    ("name in SIV", Work::NamesInSiv, Measure::Round),
    ("name in EME", Work::NamesInEme, Measure::Round),
];

fn main(rt: HostRuntime) -> io::Result<()> {
    report_all(&rt, megabytes(&rt)?)
}

// The number that the first word is, or 0.
fn megabytes(rt: &(impl Env + Alloc)) -> io::Result<u32> {
    let mut words = env::args(rt)?;
    let Some(word) = words.nth(1) else {
        return Ok(0);
    };
    Ok(word.as_str().parse::<u32>().unwrap_or(0))
}

// How long so many megabytes of a work take, or thousands of rounds, and a byte that it made.
fn timed(rt: &HostRuntime, work: Work, megabytes: u32) -> io::Result<(Duration, u8)> {
    let start = Instant::now(rt)?;
    let last = done(work, rt.alloc(), megabytes)?;
    Ok((start.elapsed(rt)?, last))
}

fn done(work: Work, alloc: Global, megabytes: u32) -> Result<u8, AllocError> {
    match work {
        Work::Stream => Ok(stream(megabytes)),
        Work::Unseal => Ok(unseal(megabytes)),
        Work::StreamAndTag => Ok(stream_and_tag(megabytes)),
        Work::WriteFiles => write_files(alloc, megabytes),
        Work::ReadFiles => read_files(alloc, megabytes),
        Work::SixteenBlocks => Ok(sixteen_blocks(megabytes)),
        Work::SixteenBlocksBack => Ok(sixteen_blocks_back(megabytes)),
        Work::OneBlock => Ok(one_block(megabytes)),
        Work::NewKeys => Ok(new_keys(megabytes)),
        Work::ShortTexts => Ok(short_texts(megabytes)),
        Work::NamesInSiv => Ok(names_in_siv(megabytes)),
        Work::NamesInEme => Ok(names_in_eme(megabytes)),
    }
}

fn report_all(rt: &HostRuntime, megabytes: u32) -> io::Result<()> {
    for (what, work, measure) in &WORKS {
        let (time, last) = timed(rt, *work, megabytes)?;
        report(rt, what, *measure, megabytes, time, last)?;
    }
    Ok(())
}

// One line; `last` is printed so that no compiler leaves the work out.
fn report(
    rt: &impl Print,
    what: &str,
    measure: Measure,
    megabytes: u32,
    time: Duration,
    last: u8,
) -> io::Result<()> {
    let megabytes = u128::from(megabytes);
    let (total, parts, given, unit) = match measure {
        Measure::Rate => (megabytes << 20, time.as_micros(), "MB", "MB/s"),
        Measure::Round => (time.as_nanos(), 1000 * megabytes, "rounds", "ns"),
    };
    if megabytes == 0 || parts == 0 {
        return println!(rt; "{what}: {megabytes} {given}");
    }
    println!(rt; "{what}: {} {unit} (last byte {last})", total / parts)
}

fn stream(megabytes: u32) -> u8 {
    let key = Key256::new(&[1; 32]);
    let mut bytes = [0; 4096];
    for _ in 0..256 * u64::from(megabytes) {
        ctr32_xor(&key, &[2; 16], &mut bytes);
    }
    bytes[0]
}

fn unseal(megabytes: u32) -> u8 {
    let gcm = Gcm::new(Key256::new(&[1; 32]));
    let iv = [2; 16];
    let ad = [3; 24];
    let mut sealed = [4; 4096];
    let tag = gcm.seal(&iv, &ad, &mut sealed);
    let mut last = 0;
    for _ in 0..256 * u64::from(megabytes) {
        let mut text = sealed;
        if gcm.unseal(&iv, &ad, &mut text, &tag).is_ok() {
            last = text[0];
        }
    }
    last
}

fn sixteen_blocks(megabytes: u32) -> u8 {
    let key = Key256::new(&[1; 32]);
    let mut blocks = [[2; 16]; 16];
    for _ in 0..4096 * u64::from(megabytes) {
        key.encrypt_blocks(&mut blocks);
    }
    blocks[0][0]
}

fn sixteen_blocks_back(megabytes: u32) -> u8 {
    let key = Key256::new(&[1; 32]);
    let mut blocks = [[2; 16]; 16];
    for _ in 0..4096 * u64::from(megabytes) {
        key.decrypt_blocks(&mut blocks);
    }
    blocks[0][0]
}

fn one_block(megabytes: u32) -> u8 {
    let key = Key256::new(&[1; 32]);
    let mut blocks = [[2; 16]];
    for _ in 0..65536 * u64::from(megabytes) {
        key.encrypt_blocks(&mut blocks);
    }
    blocks[0][0]
}

// A key, and the tag of nothing under it.
fn new_keys(megabytes: u32) -> u8 {
    let mut tag = [2; 16];
    for _ in 0..1000 * u64::from(megabytes) {
        let gcm = Gcm::new(Key256::new(&[tag[0]; 32]));
        let next = gcm.seal(&[2; 12], &[], &mut []);
        tag = next;
    }
    tag[0]
}

fn short_texts(megabytes: u32) -> u8 {
    let iv = [2; 16];
    let ad = [3; 24];
    let mut sealed = [4; 40];
    let tag = Gcm::new(Key256::new(&[1; 32])).seal(&iv, &ad, &mut sealed);
    let mut last = 0;
    for _ in 0..1000 * u64::from(megabytes) {
        let gcm = Gcm::new(Key256::new(&[1; 32]));
        let mut text = sealed;
        if gcm.unseal(&iv, &ad, &mut text, &tag).is_ok() {
            last = text[0];
        }
    }
    last
}

// What SIV does with a name of twenty bytes and a directory id: S2V, and counter mode.
fn names_in_siv(megabytes: u32) -> u8 {
    let siv = Siv::new(Key256::new(&[1; 32]), Key256::new(&[2; 32]));
    let stream_key = Key256::new(&[2; 32]);
    let id = [3; 36];
    let mut name = [4; 20];
    for _ in 0..1000 * u64::from(megabytes) {
        let vector = siv.s2v(Some(&id), &name);
        ctr128_xor(&stream_key, &vector, &mut name);
    }
    name[0]
}

// A name of twenty bytes, padded to two blocks.
fn names_in_eme(megabytes: u32) -> u8 {
    let eme = Eme::new(Key256::new(&[1; 32]));
    let mut blocks = [[2; 16]; 2];
    for _ in 0..1000 * u64::from(megabytes) {
        eme.encrypt(&[3; 16], &mut blocks);
    }
    blocks[0][0]
}
