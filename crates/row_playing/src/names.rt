//! Names that stand for texts, in braces.
use crate::stop::Stop;
use row_words::{cut, number};
use std::alloc::{AllocError, Global};

// How many times a text is written at most.
const MOST_TIMES: u64 = 10_000;

/// What names stand for: a line `NAME TEXT` each, of which the last with a name holds.
#[derive(Drop)]
pub struct Names {
    alloc: Global,
    lines: String,
}

/// Whether braces round this text are meant as a name.
pub fn is_name(inner: &str) -> bool {
    !inner.is_empty()
        && inner.chars().all(|mark| mark.is_ascii_alphanumeric() || ".-_*".contains(mark))
}

// Adds a text so many times, at least once, where that isn't too often.
fn push_repeated(text: &mut String, word: &str, count: u64) -> Result<(), Stop> {
    if word.is_empty() || count == 0 || count > MOST_TIMES {
        return Err(Stop::Line);
    }
    for _ in 0..count {
        text.push_str(word)?;
    }
    Ok(())
}

impl Names {
    pub fn new(alloc: Global) -> Names {
        Names {
            alloc,
            lines: String::new(alloc),
        }
    }

    /// Has names stand for what lines `NAME TEXT` say.
    pub fn add(&mut self, lines: &str) -> Result<(), AllocError> {
        self.lines.push_str(lines)
    }

    /// Has a name stand for a text from now on.
    pub fn set(&mut self, name: &str, text: &str) -> Result<(), AllocError> {
        writeln!(self.lines, "{name} {text}")
    }

    // What a name stands for.
    fn meaning(&self, name: &str) -> Option<&str> {
        let mut meaning = None;
        for line in self.lines.as_str().lines() {
            let (named, text) = cut(line);
            if named == name {
                meaning = Some(text);
            }
        }
        meaning
    }

    // Adds what a name or `TEXT*COUNT` stands for.
    fn push_meaning(&self, text: &mut String, inner: &str) -> Result<(), Stop> {
        if let Some((word, count)) = inner.split_once('*') {
            let count = number(count).ok_or(Stop::Line)?;
            return push_repeated(text, word, count);
        }
        let meaning = self.meaning(inner).ok_or(Stop::Line)?;
        text.push_str(meaning)?;
        Ok(())
    }

    // Adds the part of a line behind an opening brace.
    fn push_part(&self, text: &mut String, part: &str) -> Result<(), Stop> {
        if let Some((inner, rest)) = part.split_once('}') {
            if is_name(inner) {
                self.push_meaning(text, inner)?;
                text.push_str(rest)?;
                return Ok(());
            }
        }
        text.push('{')?;
        text.push_str(part)?;
        Ok(())
    }

    // Adds a line with the texts that its names stand for.
    fn push_line(&self, text: &mut String, line: &str) -> Result<(), Stop> {
        let mut first = true;
        for part in line.split('{') {
            if first {
                text.push_str(part)?;
                first = false;
            } else {
                self.push_part(text, part)?;
            }
        }
        Ok(())
    }

    /// A line with the texts that its names stand for; `None` where a name stands for nothing.
    pub fn expand(&self, line: &str) -> Result<Option<String>, AllocError> {
        let mut text = String::new(self.alloc);
        match self.push_line(&mut text, line) {
            Ok(()) => Ok(Some(text)),
            Err(Stop::NoMemory) => Err(AllocError),
            Err(_) => Ok(None),
        }
    }
}
