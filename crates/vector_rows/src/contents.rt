//! Calls of chunk_files.

ghost use Rattle.std.specs.Prelude.{◌≡◌, ◌+◌, ◌-◌, ◌^◌, ◌<◌, ◌≤◌, true, not, length, IfOk, OnOk};
ghost use Rattle.chunk_files.specs.Keys.{format_of};

use crate::answer::Answer;
use crate::arguments::Arguments;
use chunk_files::{ChunkBuf, ChunkFault, ContentKeys, Decoder, EncodeFault, Encoder, Layout, Step};
use port_model::ListRandoms;
use row_words::number;
use std::alloc::{AllocError, Global};

/// Makes a call of this module, and says whether there is one of this name.
pub fn answer(name: &str, args: &mut Arguments, answer: &mut Answer) -> bool {
    match name {
        "file" | "file-size" | "file-sum" => file(name, args, answer),
        "reads" => gives(args, args.bytes(2), args.bytes(3), answer),
        "parts" => of_parts(args, answer),
        "first-step" => first_step(args, answer),
        "begin" => begun(args, answer),
        "first-chunk" => first_chunk(args, answer),
        "behind-holes" => behind_holes(args, answer),
        _ => return small_answer(name, args, answer),
    }
    true
}

// Makes a call that makes and reads no file.
fn small_answer(name: &str, args: &Arguments, answer: &mut Answer) -> bool {
    match name {
        "fault" => answer.shows(&fault(args)),
        "buffer" => buffer(args, answer),
        "buffer-size" => buffer_size(answer),
        "full" => answer.shows(&layout(args).full()),
        _ => return false,
    }
    true
}

// The layout that an argument names: `go`, or Cryptomator's with SIV_GCM, `cm`, or with SIV_CTRMAC, `ctr`.
fn layout(args: &Arguments) -> Layout {
    match args.word(0) {
        "go" => Layout::Go,
        "cm" => Layout::CmGcm,
        "ctr" => Layout::CmCtr,
        _ => {
            args.refuse("no such layout");
            Layout::Go
        }
    }
}

// The keys that the first two arguments write: one, or the encryption key and the MAC key.
fn keys(args: &Arguments) -> ContentKeys {
    match layout(args) {
        Layout::Go => ContentKeys::go(&args.array(1)),
        Layout::CmGcm => ContentKeys::cm_gcm(&args.array(1)),
        Layout::CmCtr => two_keys(&args.array(1)),
    }
}

fn two_keys(both: &[u8; 64]) -> ContentKeys {
    let (mut enc, mut mac) = ([0; 32], [0; 32]);
    enc.copy_from_slice(&both[..32]);
    mac.copy_from_slice(&both[32..]);
    ContentKeys::cm_ctr(&enc, &mac)
}

// The number of plain bytes of a full chunk.
fn full_of(keys: &ContentKeys) -> usize
    ensures full { result ≡ (format_of keys.now).full_size }
    ensures some { 1 ≤ result }
{
    match keys.layout() {
        Layout::Go => 4_096,
        Layout::CmGcm | Layout::CmCtr => 32_768,
    }
}

// The bytes between two places, as far as there are any.
fn part(bytes: &[u8], start: usize, end: usize) -> &[u8]
    ensures { length result.now ≤ length bytes.now }
{
    let end = end.min(bytes.len());
    &bytes[start.min(end)..end]
}

// At most so many bytes from a place on.
fn chunk_at(content: &[u8], start: usize, full: usize) -> &[u8]
    ensures { length result.now ≤ full }
{
    let start = start.min(content.len());
    &content[start..start + full.min(content.len() - start)]
}

// Why a file isn't made.
#[derive(Clone, Copy, Drop)]
enum NotMade {
    Random,
    ZeroRandom,
    NoMemory,
}

impl From<AllocError> for NotMade {
    fn from(_fault: AllocError) -> NotMade {
        NotMade::NoMemory
    }
}

impl From<EncodeFault> for NotMade {
    fn from(fault: EncodeFault) -> NotMade {
        match fault {
            EncodeFault::Random => NotMade::Random,
            EncodeFault::ZeroRandom => NotMade::ZeroRandom,
        }
    }
}

fn not_made(fault: NotMade, answer: &mut Answer) {
    match fault {
        NotMade::Random => answer.word("random"),
        NotMade::ZeroRandom => answer.word("zero random"),
        NotMade::NoMemory => answer.lacks(),
    }
}

// A file that is being made.
#[derive(Drop)]
struct Making {
    random: ListRandoms,
    encoder: Encoder,
    out: ChunkBuf,
    file: Vec<u8>,
}

// Begins a file under random bytes.
fn begin(alloc: Global, keys: ContentKeys, empty: bool, random: &[u8]) -> Result<Making, NotMade>
    ensures { IfOk result (λ m. (m.encoder.number ≡ 0) × (m.encoder.keys ≡ keys) × (m.encoder.is_open ≡ not empty)) }
{
    let mut random = ListRandoms::new(random.to_vec(alloc)?, Vec::new(alloc));
    let mut out = ChunkBuf::new(alloc)?;
    let begun = Encoder::start(keys, &mut random, empty, &mut out)?;
    let file = part(out.bytes(), 0, begun.length).to_vec(alloc)?;
    Ok(Making {
        random,
        encoder: begun.encoder,
        out,
        file,
    })
}

impl Making {
    // Adds a chunk, if it has any bytes.
    fn add(&mut self, plain: &[u8]) -> Result<(), NotMade>
        requires size { length plain.now ≤ (format_of self.old.encoder.keys).full_size }
        requires count { self.old.encoder.number < 2 ^ 64 - 1 }
        requires open { self.old.encoder.is_open ≡ true }
        ensures { OnOk result ((self.new.encoder.number ≤ self.old.encoder.number + 1) × (self.new.encoder.keys ≡ self.old.encoder.keys) × (self.new.encoder.is_open ≡ true)) }
    {
        if plain.is_empty() {
            return Ok(());
        }
        let size = self.encoder.chunk(&mut self.random, plain, &mut self.out)?;
        self.file
            .extend_from_slice(part(self.out.bytes(), 0, size))?;
        Ok(())
    }

    // Adds a content in chunks, each of so many bytes but the last.
    fn add_all(&mut self, content: &[u8], full: usize) -> Result<(), NotMade>
        requires size { full ≡ (format_of self.old.encoder.keys).full_size }
        requires some { 1 ≤ full }
        requires first { self.old.encoder.number ≡ 0 }
        requires open { self.old.encoder.is_open ≡ true }
    {
        'chunks: for number in 0..content.len().div_ceil(full) {
            self.add(chunk_at(content, number.saturating_mul(full), full))?;
        }
        Ok(())
    }
}

// The file of a content.
fn made(
    alloc: Global,
    keys: ContentKeys,
    content: &[u8],
    random: &[u8],
) -> Result<Vec<u8>, NotMade> {
    let full = full_of(&keys);
    let empty = content.is_empty();
    let mut making = begin(alloc, keys, empty, random)?;
    if !empty {
        making.add_all(content, full)?;
    }
    Ok(making.file)
}

// The file of a content, or what a call of this name tells of it.
fn file(name: &str, args: &Arguments, answer: &mut Answer) {
    match made(answer.alloc(), keys(args), args.bytes(2), args.bytes(3)) {
        Ok(file) => told(name, file.as_slice(), args, answer),
        Err(fault) => not_made(fault, answer),
    }
}

// The bytes of a content's file, or the size or the number and the sum of one that gives the content back.
fn told(name: &str, file: &[u8], args: &Arguments, answer: &mut Answer) {
    if name == "file" {
        return answer.bytes(file);
    }
    let is_given_back = is_given_back(args, file, answer.alloc());
    answer.unless(is_given_back, "it isn't given back:");
    if name == "file-size" {
        answer.shows(&file.len());
    } else {
        answer.sum(file);
    }
}

fn is_given_back(args: &Arguments, file: &[u8], alloc: Global) -> bool {
    match read(alloc, keys(args), file, file.len()) {
        Ok(back) => back.content.as_slice() == args.bytes(2) && back.ending == Ok(Step::End),
        Err(_) => false,
    }
}

// What a decoder gave of a file: its content, how it ended, and what it answered once more.
#[derive(Drop)]
struct Given {
    content: Vec<u8>,
    ending: Result<Step, ChunkFault>,
    again: Result<Step, ChunkFault>,
}

// Feeds a whole file in pieces of so many bytes.
fn read(alloc: Global, keys: ContentKeys, file: &[u8], size: usize) -> Result<Given, AllocError> {
    let mut decoder = Decoder::start(alloc, keys)?;
    let mut out = ChunkBuf::new(alloc)?;
    let mut content = Vec::new(alloc);
    let ending = read_on(&mut decoder, &mut out, &mut content, file, size)?;
    let again = decoder.next(&mut out);
    Ok(Given {
        content,
        ending,
        again,
    })
}

// Feeds a decoder a file, adds what it gives to a content, and answers how it ends.
fn read_on(
    decoder: &mut Decoder,
    out: &mut ChunkBuf,
    content: &mut Vec<u8>,
    file: &[u8],
    size: usize,
) -> Result<Result<Step, ChunkFault>, AllocError>
    requires { decoder.old.taken ≡ 0 }
{
    let mut ending = Ok(Step::More);
    let mut at = 0;
    'rounds: for _round in 0..file.len() + 20 {
        at += decoder.feed(&file[at..at + size.min(file.len() - at)]);
        if at == file.len() {
            decoder.end();
        }
        ending = decoder.next(out);
        match ending {
            Ok(Step::Chunk(count)) => content.extend_from_slice(part(out.bytes(), 0, count))?,
            Ok(Step::More) => {}
            _ => break,
        }
    }
    Ok(ending)
}

// A step, or the fault that a decoder answers in its place.
fn step(step: &Result<Step, ChunkFault>, answer: &mut Answer) {
    match step {
        Ok(Step::More) => answer.word("more"),
        Ok(Step::Chunk(count)) => {
            answer.word("chunk of");
            answer.shows(count);
        }
        Ok(Step::End) => answer.word("end"),
        Err(fault) => answer.shows(fault),
    }
}

// How many bytes a file gives of a content, and how it ends.
fn say_given(given: &Given, content: &[u8], answer: &mut Answer) {
    let size = given.content.len();
    answer.shows(&size);
    answer.unless(given.content.as_slice() == part(content, 0, size), "other");
    answer.word("bytes,");
    answer.unless(
        given.again == given.ending,
        "another ending the second time,",
    );
    step(&given.ending, answer);
}

// How many bytes a file gives of a content, and how it ends: the same whatever the pieces are that it is fed in.
fn gives(args: &Arguments, file: &[u8], content: &[u8], answer: &mut Answer) {
    let alloc = answer.alloc();
    let Ok(whole) = read(alloc, keys(args), file, file.len().max(1)) else {
        return answer.lacks();
    };
    say_given(&whole, content, answer);
    for size in [1, 7, 1_000] {
        let Ok(other) = read(alloc, keys(args), file, size) else {
            return answer.lacks();
        };
        let is_same = other.content.as_slice() == whole.content.as_slice()
            && other.ending == whole.ending
            && other.again == whole.again;
        answer.unless(is_same, "and another answer by other pieces");
    }
}

// A part of a file by its name: `head`, `first`, `second`, `last`, and `other`, the other file's header. The arguments write the sizes of a
// header and of a full chunk that is stored.
fn named_part<'f>(
    args: &Arguments,
    file: &'f [u8],
    other: &'f [u8],
    name: &str,
) -> Option<&'f [u8]> {
    let (header, stored) = (args.up_to(2, 100), args.up_to(3, 100_000));
    match name {
        "head" => file.get(..header),
        "first" => file.get(header..header + stored),
        "second" => file.get(header + stored..header + 2 * stored),
        "last" => file.get(header + 2 * stored..),
        "other" => other.get(..header),
        _ => None,
    }
}

// The part that a word names: `NAME`, or `NAME:COUNT` for its first bytes alone.
fn worded_part<'f>(
    args: &Arguments,
    file: &'f [u8],
    other: &'f [u8],
    word: &str,
) -> Option<&'f [u8]> {
    match word.split_once(':') {
        Some((name, most)) => {
            let most = number(most)?;
            named_part(args, file, other, name)?.get(..usize::try_from(most).ok()?)
        }
        None => named_part(args, file, other, word),
    }
}

// Adds a part of a file by its word; one with `!` behind it with a bit of its last byte changed.
fn push_part(
    parts: &mut Vec<u8>,
    args: &Arguments,
    file: &[u8],
    other: &[u8],
    word: &str,
) -> Result<(), AllocError> {
    let changed = word.strip_suffix('!');
    match worded_part(args, file, other, changed.unwrap_or(word)) {
        Some(found) if !found.is_empty() => parts.extend_from_slice(found)?,
        _ => args.refuse("no such part"),
    }
    if let (Some(_), Some(last)) = (changed, parts.last_mut()) {
        *last ^= 1;
    }
    Ok(())
}

// How many bytes parts of a file give of its content, and how they end.
fn of_parts(args: &Arguments, answer: &mut Answer) {
    let alloc = answer.alloc();
    let Ok(file) = made(alloc, keys(args), args.bytes(4), args.bytes(5)) else {
        return args.refuse("no file");
    };
    let Ok(other) = made(alloc, keys(args), b"x", args.bytes(6)) else {
        return args.refuse("no other file");
    };
    let mut parts = Vec::new(alloc);
    for place in 7..args.count() {
        let word = args.word(place);
        if push_part(&mut parts, args, file.as_slice(), other.as_slice(), word).is_err() {
            answer.lacks();
        }
    }
    gives(args, parts.as_slice(), args.bytes(4), answer);
}

// What a decoder that was fed a file, which has ended or not, answers first, and a second time.
fn first_step(args: &Arguments, answer: &mut Answer) {
    let alloc = answer.alloc();
    let Ok(mut buffer) = ChunkBuf::new(alloc) else {
        return answer.lacks();
    };
    match Decoder::start(alloc, keys(args)) {
        Ok(mut decoder) => asked_twice(&mut decoder, &mut buffer, args, answer),
        Err(_) => answer.lacks(),
    }
}

fn asked_twice(decoder: &mut Decoder, buffer: &mut ChunkBuf, args: &Arguments, answer: &mut Answer)
    requires { decoder.old.taken ≡ 0 }
{
    let (room, file) = (decoder.room(), args.bytes(2));
    let is_all_taken = room == 32_816 && decoder.feed(file) == file.len();
    answer.unless(is_all_taken, "it takes fewer bytes:");
    let left = decoder.room().checked_add(file.len());
    answer.unless(left == Some(room), "it has another room:");
    match args.word(3) {
        "ended" => decoder.end(),
        "open" => {}
        _ => args.refuse("neither ended nor open"),
    }
    let first = decoder.next(buffer);
    let second = decoder.next(buffer);
    answer.unless(second == first, "another answer the second time:");
    step(&first, answer);
}

// The fault of this name, with a number where it has one.
fn fault(args: &Arguments) -> ChunkFault {
    match args.word(0) {
        "NoHeader" => ChunkFault::NoHeader,
        "ZeroId" => ChunkFault::ZeroId,
        "HeaderTag" => ChunkFault::HeaderTag,
        "HeaderVersion" => ChunkFault::HeaderVersion(args.up_to(1, 65_535) as u16),
        "ShortChunk" => ChunkFault::ShortChunk(args.number(1)),
        "ZeroNonce" => ChunkFault::ZeroNonce(args.number(1)),
        "ChunkTag" => ChunkFault::ChunkTag(args.number(1)),
        _ => {
            args.refuse("no such fault");
            ChunkFault::NoHeader
        }
    }
}

// Whether a file is begun under random bytes, or why not.
fn begun(args: &Arguments, answer: &mut Answer) {
    match begin(answer.alloc(), keys(args), false, args.bytes(2)) {
        Ok(_) => answer.word("begun"),
        Err(fault) => not_made(fault, answer),
    }
}

// The size of a first chunk of one byte that is made under random bytes, or why there is none.
fn first_chunk(args: &Arguments, answer: &mut Answer) {
    let mut making = match begin(answer.alloc(), keys(args), false, args.bytes(2)) {
        Ok(making) => making,
        Err(fault) => return not_made(fault, answer),
    };
    match making
        .encoder
        .chunk(&mut making.random, b"x", &mut making.out)
    {
        Ok(size) => answer.shows(&size),
        Err(fault) => not_made(NotMade::from(fault), answer),
    }
}

// How many bytes of a buffer are written and shown at most.
const SHOWN: usize = 1_000;

// The first bytes of a buffer to which some were written at a place.
fn buffer(args: &Arguments, answer: &mut Answer) {
    let Ok(mut buffer) = ChunkBuf::new(answer.alloc()) else {
        return answer.lacks();
    };
    let (place, written) = (args.up_to(0, SHOWN), args.bytes(1));
    if written.len() > SHOWN {
        return args.refuse("more bytes than there is room for");
    }
    write_at(buffer.bytes_mut(), place, written);
    answer.bytes(&buffer.bytes()[..args.up_to(2, SHOWN)]);
}

fn write_at(bytes: &mut [u8], place: usize, written: &[u8])
    requires { place + length written.now ≤ length bytes.old }
{
    bytes[place..place + written.len()].copy_from_slice(written);
}

fn buffer_size(answer: &mut Answer) {
    match ChunkBuf::new(answer.alloc()) {
        Ok(mut buffer) => answer.shows(&buffer.bytes_mut().len()),
        Err(_) => answer.lacks(),
    }
}

// The size of a hole of gocryptfs in bytes, and how many are fed at most.
const HOLE: usize = 4_128;

const MOST_HOLES: usize = 100_000;

// The bytes of a chunk of gocryptfs that stands behind so many holes, or its fault.
fn behind_holes(args: &Arguments, answer: &mut Answer) {
    let alloc = answer.alloc();
    let Ok(mut buffer) = ChunkBuf::new(alloc) else {
        return answer.lacks();
    };
    match Decoder::start(alloc, ContentKeys::go(&args.array(0))) {
        Ok(mut decoder) => fed_with_holes(&mut decoder, &mut buffer, args, answer),
        Err(_) => answer.lacks(),
    }
}

fn fed_with_holes(
    decoder: &mut Decoder,
    buffer: &mut ChunkBuf,
    args: &Arguments,
    answer: &mut Answer,
)
    requires { decoder.old.taken ≡ 0 }
{
    feed(decoder, args.bytes(1));
    if !feed_holes(decoder, buffer, &[0; HOLE], args.up_to(2, MOST_HOLES)) {
        return args.refuse("no hole");
    }
    decoder.feed(args.bytes(3));
    decoder.end();
    last_chunk(decoder, buffer, answer);
}

// Feeds so many holes, and says whether there are some, and each is one.
fn feed_holes(decoder: &mut Decoder, buffer: &mut ChunkBuf, hole: &[u8], holes: usize) -> bool
    requires hole { length hole.now ≤ 5000 }
    requires holes { holes ≤ 100000 }
    requires taken { decoder.old.taken ≤ 20000000 }
    ensures { decoder.new.taken ≤ 600000000 }
{
    'holes: for count in 0..holes {
        if !is_hole(decoder, buffer, hole) {
            return false;
        }
    }
    holes > 0
}

// Feeds bytes, of which some may be taken.
fn feed(decoder: &mut Decoder, piece: &[u8])
    requires { decoder.old.taken + length piece.now ≤ 2 ^ 64 - 1 }
    ensures { decoder.new.taken ≤ decoder.old.taken + length piece.now }
{
    decoder.feed(piece);
}

// Feeds a hole, and says whether it is one.
fn is_hole(decoder: &mut Decoder, buffer: &mut ChunkBuf, hole: &[u8]) -> bool
    requires { decoder.old.taken + length hole.now ≤ 2 ^ 64 - 1 }
    ensures { decoder.new.taken ≤ decoder.old.taken + length hole.now }
{
    feed(decoder, hole);
    decoder.next(buffer) == Ok(Step::Chunk(4_096))
}

// The bytes of the chunk with which a file ends, or its fault.
fn last_chunk(decoder: &mut Decoder, buffer: &mut ChunkBuf, answer: &mut Answer) {
    match decoder.next(buffer) {
        Ok(Step::Chunk(count)) => {
            answer.bytes(part(buffer.bytes(), 0, count));
            answer.unless(decoder.next(buffer) == Ok(Step::End), "and more");
        }
        other => step(&other, answer),
    }
}
