ghost use Rattle.std.specs.Prelude.{◌≡◌, ◌≤◌, ◌<◌, ◌+◌, ◌-◌, ◌^◌, ◌++◌, true, false, None, Some, IfOk, IfSome, IsSome, Ok, [], length, take, min, if◌then◌else◌};
ghost use Rattle.chunk_files.specs.Decoding.{GivesNext, IsPlaced, LeavesAll, LeavesBuffer, chunks_in, started, wanted};

use crate::chunk::open_chunk;
use crate::chunk_buf::{CHUNK_BUFFER_SIZE, ChunkBuf};
use crate::fault::ChunkFault;
use crate::header::read_header;
use crate::held::Held;
use crate::keys::ContentKeys;
use crate::step::Step;
use crate::told::{Told, boxed, expand, untold};
use std::alloc::{AllocError, Global};
use std::marker::Model;

/// A decoder that is fed a content file in pieces, whatever their sizes. Contracts see it as what the
/// file's header told, the bytes held and how many chunks were given.
#[derive(Drop)]
pub struct Decoder {
    keys: ContentKeys,
    // Boxed, since a decoder is moved by each function that makes one.
    told: Box<Told>,
    is_told: bool,
    number: u64,
    taken: u64,
    held: Held,
    ended: bool,
}

impl Model for Decoder {
    ghost use Rattle.std.specs.Prelude.{◌≡◌};
    ghost use Rattle.chunk_files.specs.Decoding.{Decoding, IsPlaced};
    ghost use Rattle.chunk_files.specs.Told.{Suits, header_told};

    ghost Value = { Decoding };

    ghost view = { λ d. record { keys = d.keys; header = header_told d.is_told d.told.value; number = d.number; taken = d.taken; held = d.held; ended = d.ended } };

    ghost invariant = { λ d. IsPlaced (record { keys = d.keys; header = header_told d.is_told d.told.value; number = d.number; taken = d.taken; held = d.held; ended = d.ended })
        × Suits d.told.value d.keys };
}

impl Decoder {
    /// A decoder that was fed nothing. It takes one buffer of 32,816 bytes and room for the tables of two keys, and no memory after
    /// that.
    pub fn start(alloc: Global, keys: ContentKeys) -> Result<Decoder, AllocError>
        ensures { IfOk result (λ d. d ≡ started keys) }
    {
        let held = Held::new(alloc)?;
        let told = boxed(alloc, untold(&keys))?;
        Ok(Decoder {
            keys,
            told,
            is_told: false,
            number: 0,
            taken: 0,
            held,
            ended: false,
        })
    }

    /// Begins another file, as a decoder that was just started. It takes no memory. Under the same keys their
    /// tables serve again.
    pub fn restart(&mut self, keys: ContentKeys)
        ensures { self.new ≡ started keys }
    {
        if !self.keys.is_same(&keys) {
            expand(&keys, &mut self.told);
            self.keys = keys;
        }
        self.is_told = false;
        self.number = 0;
        self.taken = 0;
        self.held.clear();
        self.ended = false;
    }

    /// How many bytes there is room for.
    pub fn room(&self) -> usize
        ensures { result ≡ 32816 - length self.now.held }
    {
        CHUNK_BUFFER_SIZE - self.held.len()
    }

    /// Takes the front of the next bytes of the file, as far as there is room, and answers how many it
    /// took; none behind the file's end. The bytes taken before and the piece are together at most
    /// 2^64-1.
    pub fn feed(&mut self, piece: &[u8]) -> usize
        requires { self.old.taken + length piece.now ≤ 2 ^ 64 - 1 }
        ensures count { result ≡ (if self.old.ended then 0 else min (length piece.now) (32816 - length self.old.held)) }
        ensures held { self.new ≡ record self.old { taken = self.old.taken + result; held = self.old.held ++ take result piece.now } }
        ensures placed { IsPlaced self.new }
    {
        if self.ended {
            return 0;
        }
        let room = CHUNK_BUFFER_SIZE - self.held.len();
        let count = piece.len().min(room);
        self.held.push(&piece[..count]);
        self.taken += count as u64;
        count
    }

    /// Tells that the file has ended.
    pub fn end(&mut self)
        ensures told { self.new ≡ record self.old { ended = true } }
        ensures placed { IsPlaced self.new }
    {
        self.ended = true;
    }

    /// The next chunk, put at the front of `out`; or that more bytes are wanted, or that the file has
    /// ended, or its first fault, which comes again at every later call. It takes no memory.
    pub fn next(&mut self, out: &mut ChunkBuf) -> Result<Step, ChunkFault>
        ensures gives { GivesNext self.old result self.new out.new }
        ensures keys { self.new.keys ≡ self.old.keys }
        ensures end { self.new.ended ≡ self.old.ended }
        ensures taken { self.new.taken ≡ self.old.taken }
        ensures number { self.new.number ≡ self.old.number + chunks_in result }
        ensures placed { IsPlaced self.new }
        ensures wanting { result ≡ Ok Step.More → length self.new.held < wanted self.new.keys self.new.header }
        ensures room { result ≡ Ok Step.More → length self.new.held < 32816 }
        ensures buffer { LeavesBuffer self.new result out.old out.new }
    {
        if self.is_told {
            return self.step_chunk(out);
        }
        match self.step_header() {
            Some(step) => step,
            None => self.step_chunk(out),
        }
    }

    // Reads the header, and answers nothing; or that more bytes are wanted, that the file has ended, or a
    // fault.
    fn step_header(&mut self) -> Option<Result<Step, ChunkFault>>
        requires { self.old.header ≡ None }
        ensures step { IfSome result (λ step. GivesNext self.old step self.new []) }
        ensures read { result ≡ None → LeavesAll self.old self.new × IsSome self.new.header }
        ensures keys { self.new.keys ≡ self.old.keys }
        ensures end { self.new.ended ≡ self.old.ended }
        ensures taken { self.new.taken ≡ self.old.taken }
        ensures number { self.new.number ≡ self.old.number }
        ensures none { IfSome result (λ step. chunks_in step ≡ 0) }
        ensures placed { IsPlaced self.new }
        ensures wanting { result ≡ Some (Ok Step.More) → length self.new.held < wanted self.new.keys self.new.header }
    {
        let layout = self.keys.layout();
        let size = layout.header_size();
        let held = self.held.len();
        if held < size {
            return Some(before_header(layout.is_whole_file(held), self.ended));
        }
        match read_header(&self.keys, &self.held.bytes()[..size], &mut self.told) {
            Ok(()) => {
                self.is_told = true;
                self.held.skip(size);
                None
            }
            Err(fault) => Some(Err(fault)),
        }
    }

    // Reads the next chunk behind the header.
    fn step_chunk(&mut self, out: &mut ChunkBuf) -> Result<Step, ChunkFault>
        requires { IsSome self.old.header }
        ensures gives { GivesNext self.old result self.new out.new }
        ensures keys { self.new.keys ≡ self.old.keys }
        ensures end { self.new.ended ≡ self.old.ended }
        ensures taken { self.new.taken ≡ self.old.taken }
        ensures number { self.new.number ≡ self.old.number + chunks_in result }
        ensures placed { IsPlaced self.new }
        ensures wanting { result ≡ Ok Step.More → length self.new.held < wanted self.new.keys self.new.header }
        ensures buffer { LeavesBuffer self.new result out.old out.new }
    {
        let held = self.held.len();
        let stored = self.keys.layout().stored();
        if held < stored && !self.ended {
            return Ok(Step::More);
        }
        if held == 0 {
            return Ok(Step::End);
        }
        let size = held.min(stored);
        match open_chunk(
            &self.keys,
            &self.told,
            self.number,
            &self.held.bytes()[..size],
            out,
        ) {
            Ok(count) => {
                self.held.skip(size);
                self.number += 1;
                Ok(Step::Chunk(count))
            }
            Err(fault) => Err(fault),
        }
    }
}

// What is answered where less than a header is held, which may be a whole file.
fn before_header(is_whole_file: bool, ended: bool) -> Result<Step, ChunkFault>
    ensures { result ≡ (if ended then (if is_whole_file then Ok Step.End else Err ChunkFault.NoHeader) else Ok Step.More) }
{
    match (ended, is_whole_file) {
        (true, true) => Ok(Step::End),
        (true, false) => Err(ChunkFault::NoHeader),
        (false, _) => Ok(Step::More),
    }
}
