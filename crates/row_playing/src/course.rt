//! How one playing of a row goes: its lines are played, and what each says is compared with what is expected right behind it.
ghost use Rattle.std.specs.Prelude.{◌≡◌, ◌≢◌, ◌↔◌, [], IsTrue, OnOk, string_bytes};

use crate::block::{for_words, placed};
use crate::comparing::{compare, compare_groups, compare_missing, note};
use crate::names::Names;
use crate::player::Player;
use crate::stage::{MOST_SHOWN, Stage};
use crate::stop::Stop;
use row_words::{bytes_of, cut, push_shown};
use std::alloc::{AllocError, Global};
use std::mem;

/// The playing of a row, or of a sweep in which a call fails.
#[derive(Drop)]
pub struct Course {
    alloc: Global,
    stage: Stage,
    /// The values that names have from the beginning of a play, a line `NAME VALUE` each.
    pub values: String,
    // The call that fails in turn, 0 in a row.
    turn: u64,
    // What the last line said, and how many lines of it were expected.
    said: String,
    expected: usize,
    // The last line that was played.
    last: String,
    // What was said in a sweep and not expected, which is to be compared as a whole: lines as rows write them.
    kept: String,
    // What is wrong, where anything is.
    wrong: String,
}

// Adds a word of an expected line as it is said: one with a count, which writes bytes, becomes what is shown of them.
fn push_word(alloc: Global, text: &mut String, word: &str) -> Result<(), AllocError> {
    if word.contains('*') {
        if let Some(bytes) = bytes_of(alloc, word)? {
            return push_shown(alloc, text, bytes.as_slice(), MOST_SHOWN);
        }
    }
    text.push_str(word)
}

// Adds an expected line as it is said.
fn push_said_as(alloc: Global, text: &mut String, line: &str) -> Result<(), AllocError> {
    let mut in_text = false;
    for word in line.split(' ') {
        if !text.is_empty() {
            text.push(' ')?;
        }
        in_text = in_text || word.starts_with('\'');
        if in_text {
            text.push_str(word)?;
        } else {
            push_word(alloc, text, word)?;
        }
    }
    Ok(())
}

// An expected line as it is said.
fn said_as(alloc: Global, line: &str) -> Result<String, AllocError> {
    let mut text = String::new(alloc);
    push_said_as(alloc, &mut text, line)?;
    Ok(text)
}

// The line of a text at a place.
fn line_at(text: &str, place: usize) -> Option<&str> {
    text.lines().nth(place)
}

// Adds lines, each behind this mark.
fn push_lines(text: &mut String, mark: &str, lines: &str) -> Result<(), AllocError> {
    for line in lines.lines() {
        writeln!(text, "{mark} {line}")?;
    }
    Ok(())
}

impl Course {
    pub fn new(alloc: Global) -> Result<Course, AllocError> {
        Ok(Course {
            alloc,
            stage: Stage::new(alloc, Names::new(alloc), 0)?,
            values: String::new(alloc),
            turn: 0,
            said: String::new(alloc),
            expected: 0,
            last: String::new(alloc),
            kept: String::new(alloc),
            wrong: String::new(alloc),
        })
    }

    // Begins anew.
    fn begin(&mut self, turn: u64) -> Result<(), AllocError> {
        self.stage = Stage::new(self.alloc, Names::new(self.alloc), turn)?;
        self.stage.names.add(self.values.as_str())?;
        self.turn = turn;
        self.said.clear();
        self.expected = 0;
        self.last.clear();
        self.last.push_str("the beginning")?;
        self.kept.clear();
        Ok(())
    }

    /// Whether nothing is wrong so far.
    pub fn is_right(&self) -> bool
        ensures { IsTrue result ↔ (string_bytes self.now.wrong ≡ []) }
    {
        self.wrong.is_empty()
    }

    // Keeps what was noted, where nothing was before.
    fn keep(&mut self, notes: String)
        ensures right { string_bytes notes ≡ [] → string_bytes self.new.wrong ≡ string_bytes self.old.wrong }
        ensures wrong { string_bytes notes ≢ [] → string_bytes self.new.wrong ≢ [] }
        ensures stays { string_bytes self.old.wrong ≢ [] → string_bytes self.new.wrong ≢ [] }
    {
        if self.wrong.is_empty() {
            self.wrong = notes;
        }
    }

    /// Whether the call that fails in turn was made.
    pub fn is_hit(&self) -> bool {
        self.stage.is_hit()
    }

    // Comes to the end of the lines that are expected of the last one played.
    fn end_line(&mut self) -> Result<(), AllocError> {
        if self.turn > 0 && self.expected == 0 {
            push_lines(&mut self.kept, "=", self.said.as_str())?;
        } else if let Some(line) = line_at(self.said.as_str(), self.expected) {
            let notes = note(self.alloc, self.last.as_str(), "no more lines", line)?;
            self.keep(notes);
        }
        self.said.clear();
        self.expected = 0;
        Ok(())
    }

    // Plays a line.
    fn play_line<P: Player>(&mut self, at: &str, text: &str) -> Result<(), AllocError> {
        self.end_line()?;
        self.last.clear();
        write!(self.last, "{at}: {text}")?;
        match self.stage.play::<P>(text) {
            Ok(said) => {
                self.said = said;
                Ok(())
            }
            Err(Stop::NoMemory) => Err(AllocError),
            Err(stop) => self.is_wrong("a line that can be played", stop.text()),
        }
    }

    fn is_wrong(&mut self, expected: &str, found: &str) -> Result<(), AllocError> {
        let notes = note(self.alloc, self.last.as_str(), expected, found)?;
        self.keep(notes);
        Ok(())
    }

    // Compares an expected line with the one that was said in its place. Nothing more is wrong exactly where they are the same.
    fn expect(&mut self, at: &str, line: &str, found: &str) -> Result<(), AllocError>
        ensures right { line.now ≡ found.now → OnOk result (string_bytes self.new.wrong ≡ string_bytes self.old.wrong) }
        ensures wrong { line.now ≢ found.now → OnOk result (string_bytes self.new.wrong ≢ []) }
        ensures stays { string_bytes self.old.wrong ≢ [] → string_bytes self.new.wrong ≢ [] }
    {
        let notes = compare(self.alloc, self.last.as_str(), at, line, found)?;
        self.keep(notes);
        Ok(())
    }

    // Notes that no line was said in the place of an expected one.
    fn miss(&mut self, at: &str, line: &str) -> Result<(), AllocError>
        ensures wrong { OnOk result (string_bytes self.new.wrong ≢ []) }
        ensures stays { string_bytes self.old.wrong ≢ [] → string_bytes self.new.wrong ≢ [] }
    {
        let notes = compare_missing(self.alloc, self.last.as_str(), at, line)?;
        self.keep(notes);
        Ok(())
    }

    // Takes an expected line, and compares it with the next one that was said.
    fn take_expected(&mut self, at: &str, line: &str) -> Result<(), AllocError> {
        let line = said_as(self.alloc, line)?;
        let said = mem::replace(&mut self.said, String::new(self.alloc));
        match line_at(said.as_str(), self.expected) {
            Some(found) => self.expect(at, line.as_str(), found)?,
            None => self.miss(at, line.as_str())?,
        }
        self.said = said;
        self.expected = self.expected.saturating_add(1);
        Ok(())
    }

    // Takes a line: plays it, or compares it with what was said where it begins with `=`.
    fn take<P: Player>(&mut self, at: &str, text: &str) -> Result<(), AllocError> {
        let Some(expanded) = self.stage.names.expand(text)? else {
            let notes = note(self.alloc, at, "names that stand for something", text)?;
            self.keep(notes);
            return Ok(());
        };
        let (verb, expected) = cut(expanded.as_str());
        if verb == "=" {
            return self.take_expected(at, expected);
        }
        self.play_line::<P>(at, expanded.as_str())
    }

    /// Plays lines from the beginning. `turn` is the call that fails in turn, 0 where none does.
    pub fn play<P: Player>(&mut self, lines: &str, turn: u64) -> Result<(), AllocError> {
        self.begin(turn)?;
        for line in lines.lines() {
            let (at, text) = placed(line);
            if self.is_right() && for_words(text).is_none() {
                self.take::<P>(at, text)?;
            }
        }
        if self.is_right() {
            self.end_line()?;
        }
        if self.is_right() {
            if let Some((expected, found)) = self.stage.unused() {
                self.is_wrong(expected, found)?;
            }
        }
        Ok(())
    }

    /// Adds a line that is expected of a sweep as a line that is kept is written.
    pub fn push_expected(&self, text: &mut String, line: &str) -> Result<(), AllocError> {
        let Some(line) = self.stage.names.expand(line)? else {
            return writeln!(text, "= {line}");
        };
        let line = said_as(self.alloc, line.as_str())?;
        writeln!(text, "= {line}")
    }

    /// What was said in a sweep and not expected, which is to be compared as a whole: lines as rows write them.
    pub fn kept(&self) -> &str {
        self.kept.as_str()
    }

    /// Notes what is wrong with the plays of the row that begins at `at` as a whole.
    pub fn fail(&mut self, at: &str, what: &str) -> Result<(), AllocError> {
        self.turn = 0;
        let notes = format!(in self.alloc; "  at {at}: {what}\n")?;
        self.keep(notes);
        Ok(())
    }

    /// Compares the groups that the sweep that begins at `at` comes to, in which so many calls failed, with those that are expected.
    pub fn judge_groups(
        &mut self,
        at: &str,
        expected: &str,
        found: &str,
        least: u64,
        failed: u64,
    ) -> Result<(), AllocError> {
        self.turn = 0;
        let notes = compare_groups(self.alloc, at, expected, found, least, failed)?;
        self.keep(notes);
        Ok(())
    }

    /// Adds what is wrong, where anything is.
    pub fn tell(&self, text: &mut String) -> Result<(), AllocError>
        ensures { string_bytes self.now.wrong ≡ [] → text.new ≡ text.old }
    {
        if self.is_right() {
            return Ok(());
        }
        push_lines(text, "  for", self.values.as_str())?;
        let turn = self.turn;
        if turn > 0 {
            writeln!(text, "  call {turn}")?;
        }
        text.push_str(self.wrong.as_str())
    }
}
