//! The lines of a file of rows.

use crate::answer::Answer;
use crate::arguments::{Arguments, is_kind};
use crate::calls::answer;
use row_words::{Tally, cut};
use std::alloc::{AllocError, Global};
use std::cell::Cell;

// What a line of a file gave a name to: `NAME TEXT`.
#[derive(Drop)]
struct Named {
    words: String,
    place: usize,
    // Whether a line below used it.
    is_used: Cell<bool>,
}

/// What the lines of a file so far gave names to: `let NAME VALUE` values, and `call NAME KIND ..` calls.
#[derive(Drop)]
pub struct Given {
    alloc: Global,
    values: Vec<Named>,
    calls: Vec<Named>,
}

// The text of a name, which is used by this.
fn text_of<'a>(all: &'a [Named], name: &str) -> Option<&'a str> {
    for named in all {
        let (known, text) = cut(named.words.as_str());
        if known == name {
            named.is_used.set(true);
            return Some(text);
        }
    }
    None
}

// Whether a name is known.
fn is_known(all: &[Named], name: &str) -> bool {
    for named in all {
        if cut(named.words.as_str()).0 == name {
            return true;
        }
    }
    false
}

// Gives a text a name: `NAME TEXT`. It says why not, where the name isn't free.
fn give(
    alloc: Global,
    all: &mut Vec<Named>,
    place: usize,
    words: &str,
) -> Result<Option<&'static str>, AllocError> {
    let (name, _) = cut(words);
    if is_known(all.as_slice(), name) {
        return Ok(Some("a name that isn't free"));
    }
    all.push(Named {
        words: String::from_str(alloc, words)?,
        place,
        is_used: Cell::new(false),
    })?;
    Ok(None)
}

// Whether words are `NAME KIND ..`, where the last kind may have `..` behind it.
fn are_kinds(words: &str) -> bool {
    let (_, kinds) = cut(words);
    let front = match kinds.strip_suffix("..") {
        Some(front) => front,
        None => kinds,
    };
    kinds.is_empty() || front.split(' ').all(is_kind)
}

// What is wrong with the blanks of a line.
fn untidy(line: &str) -> Option<&'static str> {
    if line.starts_with(' ') {
        return Some("a line that begins with a blank");
    }
    if line.ends_with(' ') {
        return Some("a line that ends with a blank");
    }
    if line.contains("  ") {
        return Some("two blanks in a row");
    }
    if line.contains('\t') {
        return Some("a tab");
    }
    None
}

// The most arguments that a call has.
const MOST: usize = 100;

// The kind of the next argument, and the kinds behind it. A last kind with `..` behind it is that of all further ones.
fn next_kind(kinds: &str) -> (&str, &str) {
    let (kind, more) = cut(kinds);
    match kind.strip_suffix("..") {
        Some(every) => (every, kinds),
        None => (kind, more),
    }
}

// Whether the kinds behind those of all arguments want no further one.
fn want_none(kinds: &str) -> bool {
    kinds.is_empty() || kinds.ends_with("..") && !kinds.contains(' ')
}

impl Given {
    pub fn new(alloc: Global) -> Given {
        Given {
            alloc,
            values: Vec::new(alloc),
            calls: Vec::new(alloc),
        }
    }

    // The value of the name at the front of a text, which ends at a comma, a blank or with the text, and what stands behind the name.
    fn value_at<'a>(&'a self, text: &'a str) -> Option<(&'a str, &'a str)> {
        let name = text.split([',', ' ']).next()?;
        let value = text_of(self.values.as_slice(), name)?;
        Some((value, text.strip_prefix(name)?))
    }

    // Whether each name of a line has a value. A name stands behind a `$`.
    fn has_values(&self, line: &str) -> bool {
        line.split('$')
            .skip(1)
            .all(|piece| self.value_at(piece).is_some())
    }

    // A text with the value of each name in it.
    fn written_out(&self, text: &str) -> Result<String, AllocError> {
        let mut out = String::new(self.alloc);
        for (number, piece) in text.split('$').enumerate() {
            let named = if number > 0 {
                self.value_at(piece)
            } else {
                None
            };
            let (value, behind) = named.unwrap_or(("", piece));
            out.push_str(value)?;
            out.push_str(behind)?;
        }
        Ok(out)
    }

    // Reads arguments, each of its kind, and says whether they are those of a call with these kinds.
    fn read(&self, words: &str, kinds: &str, args: &mut Arguments) -> Result<bool, AllocError> {
        let (mut words, mut kinds) = (words, kinds);
        for _ in 0..MOST {
            if words.is_empty() {
                return Ok(want_none(kinds));
            }
            let (word, more) = cut(words);
            let (kind, more_kinds) = next_kind(kinds);
            let word = self.written_out(word)?;
            if !args.add(self.alloc, word.as_str(), kind)? {
                return Ok(false);
            }
            words = more;
            kinds = more_kinds;
        }
        Ok(false)
    }

    // Makes the call of a row, and counts it by its answer and the expected one, or as one that isn't read.
    fn called(&self, tally: &mut Tally, row: &str, line: &str) -> Result<String, AllocError> {
        let Some((call, expected)) = line.split_once(" = ") else {
            return tally.unread(self.alloc, row, "it has no answer");
        };
        let expected = self.written_out(expected)?;
        if expected.as_str() == "'" {
            return tally.unread(self.alloc, row, "an answer that says nothing");
        }
        let mut found = Answer::new(self.alloc);
        match self.make(call, &mut found)? {
            Some(why) => tally.unread(self.alloc, row, why),
            None => self.compared(tally, row, &mut found, expected.as_str()),
        }
    }

    // Makes a call, or says why there is none.
    fn make(&self, call: &str, found: &mut Answer) -> Result<Option<&'static str>, AllocError> {
        let (name, words) = cut(call);
        let Some(kinds) = text_of(self.calls.as_slice(), name) else {
            return Ok(Some("a call that no line declares"));
        };
        let mut args = Arguments::new(self.alloc);
        if !self.read(words, kinds, &mut args)? {
            return Ok(Some("arguments of other kinds"));
        }
        if !answer(name, &mut args, found) {
            return Ok(Some("no such call"));
        }
        Ok(args.refused())
    }

    // Counts a row by its answer and the expected one.
    fn compared(
        &self,
        tally: &mut Tally,
        row: &str,
        found: &mut Answer,
        expected: &str,
    ) -> Result<String, AllocError> {
        let expected = found.shown_beside(expected)?;
        let found = found.shown()?;
        tally.compared(self.alloc, row, expected.as_str(), found.as_str())
    }

    /// Plays a line and counts it where it is a row. It gives what is to be printed: nothing of a right row.
    pub fn play(
        &mut self,
        tally: &mut Tally,
        file: &str,
        place: usize,
        line: &str,
    ) -> Result<String, AllocError> {
        let alloc = self.alloc;
        if line.is_empty() || line.starts_with("# ") {
            return Ok(String::new(alloc));
        }
        let row = row_of(alloc, file, place, line)?;
        self.play_row(tally, place, row.as_str(), line)
    }

    // Plays a line of this name that is no comment.
    fn play_row(
        &mut self,
        tally: &mut Tally,
        place: usize,
        row: &str,
        line: &str,
    ) -> Result<String, AllocError> {
        let alloc = self.alloc;
        if let Some(why) = untidy(line) {
            return tally.unread(alloc, row, why);
        }
        if !self.has_values(line) {
            return tally.unread(alloc, row, "a name without a value");
        }
        let (verb, words) = cut(line);
        let why = match verb {
            "let" => self.give_value(place, words)?,
            "call" => self.give_call(place, words)?,
            _ => return self.called(tally, row, line),
        };
        match why {
            None => Ok(String::new(alloc)),
            Some(why) => tally.unread(alloc, row, why),
        }
    }

    // Gives a value a name, or says why not.
    fn give_value(
        &mut self,
        place: usize,
        words: &str,
    ) -> Result<Option<&'static str>, AllocError> {
        let (_, value) = cut(words);
        if value.is_empty() {
            return Ok(Some("a name without a value"));
        }
        let words = self.written_out(words)?;
        give(self.alloc, &mut self.values, place, words.as_str())
    }

    // Says which arguments the call of a name has, or why not.
    fn give_call(&mut self, place: usize, words: &str) -> Result<Option<&'static str>, AllocError> {
        if !are_kinds(words) {
            return Ok(Some("a kind of arguments that isn't one"));
        }
        give(self.alloc, &mut self.calls, place, words)
    }

    /// Ends the file: each name that no line used counts as a wrong row. It gives what is to be printed.
    pub fn end(&self, tally: &mut Tally, file: &str) -> Result<String, AllocError> {
        let mut told = String::new(self.alloc);
        for (verb, all) in [("let", &self.values), ("call", &self.calls)] {
            for named in all {
                if !named.is_used.get() {
                    let row = row_of(self.alloc, file, named.place, verb)?;
                    let unused = tally.unread(self.alloc, row.as_str(), "no line uses its name")?;
                    told.push_str(unused.as_str())?;
                }
            }
        }
        Ok(told)
    }
}

// The name of a row: its file, its place there and its verb.
fn row_of(alloc: Global, file: &str, place: usize, line: &str) -> Result<String, AllocError> {
    let (verb, _) = cut(line.trim());
    format!(in alloc; "{file}:{place} {verb}")
}
