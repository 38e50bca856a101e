//! What a call answers.

ghost use Rattle.std.specs.Prelude.{◌≤◌, length};

use row_words::{Said, bytes_of, push_shown};
use std::alloc::{AllocError, Global};
use std::fmt;

/// The answer of a call: bytes, which a row writes as it writes arguments, or words, which it writes as they are. That memory was
/// wanting for a part of it is kept, and told at its end.
#[derive(Drop)]
pub struct Answer {
    alloc: Global,
    bytes: Vec<u8>,
    said: Said,
}

impl Answer {
    /// No bytes and no words.
    pub fn new(alloc: Global) -> Answer {
        Answer {
            alloc,
            bytes: Vec::new(alloc),
            said: Said::new(alloc),
        }
    }

    /// Where the answer's memory is from.
    pub fn alloc(&self) -> Global {
        self.alloc
    }

    /// Memory was wanting for a part of the answer.
    pub fn lacks(&mut self) {
        self.said.lacks();
    }

    /// Adds bytes.
    pub fn bytes(&mut self, bytes: &[u8]) {
        if self.bytes.extend_from_slice(bytes).is_err() {
            self.said.lacks();
        }
    }

    /// So many zero bytes, which become the answer's, to be changed.
    pub fn room(&mut self, count: usize) -> &mut [u8]
        ensures { length result.now ≤ count }
    {
        match vec![in self.alloc; 0; count] {
            Ok(zeros) => self.bytes = zeros,
            Err(_) => self.said.lacks(),
        }
        let most = self.bytes.len().min(count);
        &mut self.bytes[..most]
    }

    /// Adds a word, with a blank between two.
    pub fn word(&mut self, text: &str) {
        self.said.word(text);
    }

    /// Adds words where something that has to hold doesn't.
    pub fn unless(&mut self, holds: bool, words: &str) {
        if !holds {
            self.said.word(words);
        }
    }

    /// Adds `read`, or what the fault of a reader shows as a word.
    pub fn read<E: fmt::Display + Drop>(&mut self, fault: Option<E>) {
        match fault {
            None => self.said.word("read"),
            Some(fault) => self.said.shows(&fault),
        }
    }

    /// Adds bytes in hexadecimal as a word.
    pub fn hex(&mut self, bytes: &[u8]) {
        self.said.hex(bytes);
    }

    /// Adds the number and the sum of bytes.
    pub fn sum(&mut self, bytes: &[u8]) {
        self.said.bytes(bytes, 0);
    }

    /// Adds the number and the sum of the answer's bytes.
    pub fn sum_of_bytes(&mut self) {
        self.said.bytes(self.bytes.as_slice(), 0);
    }

    /// Adds what a value shows as a word.
    pub fn shows<T: fmt::Display>(&mut self, value: &T) {
        self.said.shows(value);
    }

    /// Adds a word that was made, where there was memory for it.
    pub fn made(&mut self, word: Result<String, AllocError>) {
        self.said.made(word);
    }

    /// Says whether two ways came to the same, in memory that there was. If not, it adds words and the number of things that they were
    /// tried on.
    pub fn goes_on(&mut self, same: Result<bool, AllocError>, words: &str, count: usize) -> bool {
        match same {
            Ok(true) => return true,
            Ok(false) => {
                self.word(words);
                self.shows(&count);
            }
            Err(_) => self.lacks(),
        }
        false
    }

    /// Adds `yes` or `no`.
    pub fn yes_or_no(&mut self, yes: bool) {
        self.said.word(if yes { "yes" } else { "no" });
    }

    /// How the answer that a row expects is shown, where it has the form of this one.
    pub fn shown_beside(&self, expected: &str) -> Result<String, AllocError> {
        if self.said.is_empty() {
            if let Some(bytes) = bytes_of(self.alloc, expected)? {
                return shown_bytes(self.alloc, bytes.as_slice());
            }
        }
        String::from_str(self.alloc, expected)
    }

    /// How the answer is shown. Words are the answer where there are any.
    pub fn shown(&mut self) -> Result<String, AllocError> {
        let words = self.said.take()?;
        if words.is_empty() {
            return shown_bytes(self.alloc, self.bytes.as_slice());
        }
        Ok(words)
    }
}

// Bytes as a text, where they are ASCII that can be read, and else in hexadecimal.
fn shown_bytes(alloc: Global, bytes: &[u8]) -> Result<String, AllocError> {
    if !bytes.iter().all(|byte| is_readable(*byte)) {
        return hex::encode(alloc, bytes);
    }
    let mut text = String::new(alloc);
    push_shown(alloc, &mut text, bytes, bytes.len())?;
    Ok(text)
}

fn is_readable(byte: u8) -> bool {
    matches!(byte, b' '..=b'~' | b'\n' | b'\t')
}
