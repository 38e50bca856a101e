//! Calls of port_model.

ghost use Rattle.std.specs.Prelude.{ℕ, ◌+◌, ◌%◌, ◌^◌};
ghost use Rattle.rand_core.specs.Steps.{stream_of, steps_u32};

use crate::answer::Answer;
use crate::arguments::Arguments;
use port_model::{
    ListRandoms, MemRandoms, MemSink, MemSource, Randoms, Sink, Source, StdSink, StdSource,
};
use rand_core::Rng;
use rand_core::utils::{NextWord, fill_bytes_via_u32, next_u64_via_u32};
use row_words::number;
use std::marker::Model;
use std::ops::Range;

/// Makes a call of this module, and says whether there is one of this name. The numbers of calls that fail come before what is called:
/// the sizes that are asked for, or the pieces that are put.
pub fn answer(name: &str, args: &mut Arguments, answer: &mut Answer) -> bool {
    match name {
        "mem-source" => {
            let mut source = MemSource::new(held(args, 0, answer), fails(args, answer));
            taken(&mut source, 2, args, answer);
        }
        "std-source" => taken(&mut StdSource::new(args.bytes(0)), 1, args, answer),
        "mem-sink" => mem_sink(args, answer),
        "std-sink" => put(&mut StdSink::new(Vec::new(answer.alloc())), 0, args, answer),
        "list-randoms" => {
            let mut randoms = ListRandoms::new(held(args, 0, answer), fails(args, answer));
            drawn(&mut randoms, 2, args, answer);
        }
        "ascending-randoms" => {
            let first = u32::from_le_bytes(args.array(0));
            drawn(&mut MemRandoms::new(Ascending(first)), 1, args, answer);
        }
        _ => return false,
    }
    true
}

// The bytes of an argument in a vector of its own.
fn held(args: &Arguments, place: usize, answer: &mut Answer) -> Vec<u8> {
    let alloc = answer.alloc();
    match args.bytes(place).to_vec(alloc) {
        Ok(bytes) => bytes,
        Err(_) => {
            answer.lacks();
            Vec::new(alloc)
        }
    }
}

// The numbers that the second argument writes, with commas between them: each that of a call on one of the arguments behind it.
fn fails(args: &Arguments, answer: &mut Answer) -> Vec<u64> {
    let calls = args.count().saturating_sub(2) as u64;
    let mut numbers = Vec::new(answer.alloc());
    for part in args.word(1).split(',') {
        match number(part) {
            Some(number) if 1 <= number && number <= calls => {
                if numbers.push(number).is_err() {
                    answer.lacks();
                }
            }
            _ => args.refuse("a failing call that isn't made"),
        }
    }
    numbers
}

// Adds the answer of a call: some bytes, `nothing` or `fault`.
fn add(bytes: Option<&[u8]>, answer: &mut Answer) {
    match bytes {
        Some([]) => answer.word("nothing"),
        Some(bytes) => answer.hex(bytes),
        None => answer.word("fault"),
    }
}

// The places of the arguments from one on, of which there are some.
fn places(first: usize, args: &Arguments) -> Range<usize> {
    if first >= args.count() {
        args.refuse("no calls");
    }
    first..args.count()
}

// How many bytes are asked for at once at most, and how much room there is at most.
const MOST: usize = 1_000;

// What a source gives where the arguments from a place on ask for so many bytes.
fn taken<S: Source>(source: &mut S, first: usize, args: &Arguments, answer: &mut Answer) {
    let mut room = [0; MOST];
    for place in places(first, args) {
        let out = &mut room[..args.up_to(place, MOST)];
        let count = source.take(out).ok();
        add(taken_bytes(out, count), answer);
    }
}

fn taken_bytes(out: &[u8], count: Option<usize>) -> Option<&[u8]> {
    out.get(..count?)
}

// What a sink answers to the pieces that the arguments from a place on write.
fn put<S: Sink>(sink: &mut S, first: usize, args: &Arguments, answer: &mut Answer) {
    for place in places(first, args) {
        answer.word(match sink.put(args.bytes(place)) {
            Ok(()) => "ok",
            Err(_) => "fault",
        });
    }
}

// What a sink in memory with so much room answers to pieces, and what it took.
fn mem_sink(args: &Arguments, answer: &mut Answer) {
    let fails = fails(args, answer);
    let Ok(mut sink) = MemSink::new(answer.alloc(), args.up_to(0, MOST), fails) else {
        return answer.lacks();
    };
    put(&mut sink, 2, args, answer);
    answer.word("took");
    answer.hex(sink.bytes());
}

// What a random source gives where the arguments from a place on draw so many bytes.
fn drawn<R: Randoms>(randoms: &mut R, first: usize, args: &Arguments, answer: &mut Answer) {
    let mut room = [0; MOST];
    for place in places(first, args) {
        let out = &mut room[..args.up_to(place, MOST)];
        match randoms.fill(out) {
            Ok(()) => add(Some(out), answer),
            Err(_) => add(None, answer),
        }
    }
}

// A generator whose words' bytes count up, where it begins at 0x03020100.
#[derive(Drop)]
struct Ascending(u32);

impl Model for Ascending {
    ghost Value = { ℕ };

    ghost view = { λ a. a.0 };
}

impl NextWord<u32> for Ascending {
    ghost step = { λ s. (s, (s + 0x04040404) % 2 ^ 32) };

    fn next_word(&mut self) -> u32 {
        let word = self.0;
        self.0 = self.0.wrapping_add(0x0404_0404);
        word
    }
}

impl Rng for Ascending {
    ghost stream = { stream_of (steps_u32 (λ s. (s, (s + 0x04040404) % 2 ^ 32))) };

    fn next_u32(&mut self) -> u32 {
        self.next_word()
    }

    fn next_u64(&mut self) -> u64 {
        next_u64_via_u32(self)
    }

    fn fill_bytes(&mut self, dst: &mut [u8]) {
        fill_bytes_via_u32(self, dst)
    }
}
