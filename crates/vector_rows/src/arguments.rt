//! The arguments of calls.

ghost use Rattle.std.specs.Prelude.{◌≤◌, length};

use aes_lanes::Block;
use row_words::{bytes_of, number};
use std::alloc::{AllocError, Global};
use std::cell::Cell;
use std::str;

/// The most bytes that an argument has.
const MOST: usize = 20_000_000;

// A word of a row, and what it writes.
#[derive(Drop)]
struct Argument {
    word: String,
    // The bytes that it writes, twice: a call may change one of the two.
    bytes: Vec<u8>,
    changed: Vec<u8>,
    are_bytes: bool,
    number: Option<u64>,
    // Whether the call looked at it.
    is_used: Cell<bool>,
}

impl Argument {
    fn new(alloc: Global, word: &str) -> Result<Argument, AllocError> {
        let written = bytes_of(alloc, word)?;
        let are_bytes = written.is_some();
        let bytes = match written {
            Some(bytes) => bytes,
            None => Vec::new(alloc),
        };
        Ok(Argument {
            word: String::from_str(alloc, word)?,
            changed: bytes.clone()?,
            bytes,
            are_bytes,
            number: number(word),
            is_used: Cell::new(false),
        })
    }

    // Whether the argument is of this kind: so many bytes, or one of those that docs/rows.md names.
    fn is(&self, kind: &str) -> bool {
        match kind {
            "word" => true,
            "bytes" => self.are_bytes,
            "blocks" => self.are_bytes && self.bytes.len() % 16 == 0,
            "text" => self.are_bytes && str::from_utf8(self.bytes.as_slice()).is_ok(),
            "keys" => self.are_bytes && matches!(self.bytes.len(), 32 | 64),
            "number" => self.number.is_some(),
            size => self.are_bytes && number(size) == Some(self.bytes.len() as u64),
        }
    }
}

/// Whether a word of a `call` line is a kind of arguments.
pub fn is_kind(word: &str) -> bool {
    matches!(
        word,
        "word" | "bytes" | "blocks" | "text" | "keys" | "number"
    ) || number(word).is_some()
}

/// The arguments of a call, by their places from 0 on. What is asked of one that isn't there, or of another kind, refuses them all.
#[derive(Drop)]
pub struct Arguments {
    all: Vec<Argument>,
    refused: Cell<Option<&'static str>>,
}

impl Arguments {
    pub fn new(alloc: Global) -> Arguments {
        Arguments {
            all: Vec::new(alloc),
            refused: Cell::new(None),
        }
    }

    /// Adds the argument that a word writes, and says whether it is of this kind.
    pub fn add(&mut self, alloc: Global, word: &str, kind: &str) -> Result<bool, AllocError> {
        let argument = Argument::new(alloc, word)?;
        let is = argument.is(kind);
        self.all.push(argument)?;
        Ok(is)
    }

    /// Says why there can be no call with these arguments, which makes the row wrong. The first reason stays.
    pub fn refuse(&self, why: &'static str) {
        if self.refused.get().is_none() {
            self.refused.set(Some(why));
        }
    }

    /// Why there can be no call with these arguments, if so; also where the call looked past one of them.
    pub fn refused(&self) -> Option<&'static str> {
        let why = self.refused.get();
        if why.is_none() && self.all.iter().any(|argument| !argument.is_used.get()) {
            return Some("an argument that the call doesn't look at");
        }
        why
    }

    /// How many there are.
    pub fn count(&self) -> usize {
        self.all.len()
    }

    // The argument at a place.
    fn at(&self, place: usize) -> Option<&Argument> {
        match self.all.get(place) {
            Some(argument) => {
                argument.is_used.set(true);
                Some(argument)
            }
            None => {
                self.refuse("an argument that isn't there");
                None
            }
        }
    }

    /// The word of an argument.
    pub fn word(&self, place: usize) -> &str {
        match self.at(place) {
            Some(argument) => argument.word.as_str(),
            None => "",
        }
    }

    /// The bytes of an argument.
    pub fn bytes(&self, place: usize) -> &[u8]
        ensures { length result.now ≤ 20000000 }
    {
        match self.at(place) {
            Some(argument) if argument.are_bytes && argument.bytes.len() <= MOST => {
                argument.bytes.as_slice()
            }
            _ => {
                self.refuse("no bytes, or too many");
                &[]
            }
        }
    }

    /// The bytes of an argument, to be changed.
    pub fn changed(&mut self, place: usize) -> &mut [u8] {
        let _bytes = self.bytes(place);
        match self.all.get_mut(place) {
            Some(argument) => argument.changed.as_mut_slice(),
            None => &mut [],
        }
    }

    /// Whether the bytes of an argument that were changed are again as they were.
    pub fn is_given_back(&self, place: usize) -> bool {
        match self.at(place) {
            Some(argument) => argument.changed.as_slice() == argument.bytes.as_slice(),
            None => false,
        }
    }

    /// The text of an argument.
    pub fn text(&self, place: usize) -> &str {
        match str::from_utf8(self.bytes(place)) {
            Ok(text) => text,
            Err(_) => {
                self.refuse("bytes that are no text");
                ""
            }
        }
    }

    /// The bytes of an argument, which are so many.
    pub fn array<const N: usize>(&self, place: usize) -> [u8; N] {
        match self.bytes(place).try_into() {
            Ok(array) => array,
            Err(_) => {
                self.refuse("more bytes or fewer than the call takes");
                [0; N]
            }
        }
    }

    /// The blocks of an argument, at least one.
    pub fn blocks(&self, place: usize) -> &[Block] {
        let (blocks, rest) = self.bytes(place).as_chunks::<16>();
        if blocks.is_empty() || !rest.is_empty() {
            self.refuse("no whole blocks");
        }
        blocks
    }

    /// The blocks of an argument, to be changed.
    pub fn changed_blocks(&mut self, place: usize) -> &mut [Block] {
        let _blocks = self.blocks(place);
        let (blocks, _) = self.changed(place).as_chunks_mut::<16>();
        blocks
    }

    /// The one byte of an argument.
    pub fn byte(&self, place: usize) -> u8 {
        let one: [u8; 1] = self.array(place);
        one[0]
    }

    /// The number of an argument.
    pub fn number(&self, place: usize) -> u64 {
        let number = match self.at(place) {
            Some(argument) => argument.number,
            None => None,
        };
        match number {
            Some(number) => number,
            None => {
                self.refuse("no number");
                0
            }
        }
    }

    /// The number of an argument, which is at most so much.
    pub fn up_to(&self, place: usize, most: usize) -> usize
        ensures { result ≤ most }
    {
        let number = self.number(place);
        if number > most as u64 {
            self.refuse("a number past its bound");
            return 0;
        }
        number as usize
    }
}
