//! What is said.

use crate::showing::push_shown;
use std::alloc::{AllocError, Global};
use std::{fmt, mem};

/// A text that grows, in lines of words. That memory was wanting for a part of it is kept, and told when it is taken.
#[derive(Drop)]
pub struct Said {
    alloc: Global,
    text: String,
    is_whole: bool,
}

impl Said {
    pub fn new(alloc: Global) -> Said {
        Said {
            alloc,
            text: String::new(alloc),
            is_whole: true,
        }
    }

    /// Whether nothing was said.
    pub fn is_empty(&self) -> bool {
        self.text.is_empty()
    }

    /// Memory was wanting for a part of what is said.
    pub fn lacks(&mut self) {
        self.is_whole = false;
    }

    /// Adds a text.
    pub fn add(&mut self, text: &str) {
        if self.text.push_str(text).is_err() {
            self.is_whole = false;
        }
    }

    // Adds a blank behind a word of the same line.
    fn part(&mut self) {
        let text = self.text.as_str();
        if !text.is_empty() && !text.ends_with('\n') {
            self.add(" ");
        }
    }

    /// Adds a word.
    pub fn word(&mut self, word: &str) {
        self.part();
        self.add(word);
    }

    /// Adds a word that was made, where there was memory for it.
    pub fn made(&mut self, word: Result<String, AllocError>) {
        match word {
            Ok(word) => self.word(word.as_str()),
            Err(_) => self.is_whole = false,
        }
    }

    /// Adds what a value shows as a word.
    pub fn shows<T: fmt::Display>(&mut self, value: &T) {
        self.part();
        if write!(self.text, "{value}").is_err() {
            self.is_whole = false;
        }
    }

    /// Adds bytes in hexadecimal as a word.
    pub fn hex(&mut self, bytes: &[u8]) {
        self.made(hex::encode(self.alloc, bytes));
    }

    /// Adds bytes as `'TEXT` as a word, or their number and sum where they are more than so many.
    pub fn bytes(&mut self, bytes: &[u8], most: usize) {
        self.part();
        if push_shown(self.alloc, &mut self.text, bytes, most).is_err() {
            self.is_whole = false;
        }
    }

    /// Ends the line.
    pub fn end(&mut self) {
        self.add("\n");
    }

    /// Takes what was said.
    pub fn take(&mut self) -> Result<String, AllocError> {
        let text = mem::replace(&mut self.text, String::new(self.alloc));
        if self.is_whole {
            Ok(text)
        } else {
            Err(AllocError)
        }
    }
}
