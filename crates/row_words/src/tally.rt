//! Which rows are right.
ghost use Rattle.std.specs.Prelude.{◌≡◌, ◌≢◌, [], IfOk};
ghost use Rattle.std.specs.String.{string_bytes};
ghost use Rattle.row_words.specs.Rows.{OneMoreRight, OneMoreWrong};

use std::alloc::{AllocError, Global};
use std::marker::Model;

/// How many rows were right, and the names of the wrong ones.
#[derive(Drop)]
pub struct Tally {
    right: u64,
    wrong: u64,
    names: String,
}

// The most bytes of names that are kept, so that all of them stand in the end of an output that is shown.
const MOST: usize = 400;

impl Model for Tally {
    ghost use Rattle.row_words.specs.Rows.{Counted};

    ghost Value = { Counted };

    ghost view = { λ tally. record { right = tally.right; wrong = tally.wrong } };
}

impl Tally {
    /// No row.
    pub fn new(alloc: Global) -> Tally
        ensures right { result.right ≡ 0 }
        ensures wrong { result.wrong ≡ 0 }
    {
        Tally {
            right: 0,
            wrong: 0,
            names: String::new(alloc),
        }
    }

    /// Counts a row with its answer: the expected lines and the found ones. It is right exactly where they are the same. What is to be
    /// printed is nothing of a right row, and `wrong: NAME` with both answers below of another.
    pub fn compared(
        &mut self,
        alloc: Global,
        name: &str,
        expected: &str,
        found: &str,
    ) -> Result<String, AllocError>
        ensures right { expected.now ≡ found.now → OneMoreRight self.old self.new }
        ensures silent { expected.now ≡ found.now → IfOk result (λ text. string_bytes text ≡ []) }
        ensures wrong { expected.now ≢ found.now → OneMoreWrong self.old self.new }
        ensures told { expected.now ≢ found.now → IfOk result (λ text. string_bytes text ≢ []) }
    {
        if expected == found {
            self.right = self.right.saturating_add(1);
            return Ok(String::new(alloc));
        }
        self.count_wrong(name)?;
        let place = first_difference(expected, found);
        format!(in alloc;
            "wrong: {name}\n  they differ from byte {place} on\n  expected:\n{expected}\n  found:\n{found}\n"
        )
    }

    /// Counts a row that isn't read as a wrong one. What is to be printed is `wrong: NAME` with the reason below.
    pub fn unread(&mut self, alloc: Global, name: &str, why: &str) -> Result<String, AllocError>
        ensures wrong { OneMoreWrong self.old self.new }
        ensures told { IfOk result (λ text. string_bytes text ≢ []) }
    {
        self.count_wrong(name)?;
        format!(in alloc; "wrong: {name}\n  not read: {why}\n")
    }

    // Counts a wrong row, and keeps its name while there is room for it.
    fn count_wrong(&mut self, name: &str) -> Result<(), AllocError>
        ensures { OneMoreWrong self.old self.new }
    {
        self.wrong = self.wrong.saturating_add(1);
        if self.names.len() < MOST {
            self.names.push_str("wrong: ")?;
            self.names.push_str(name)?;
            self.names.push('\n')?;
        }
        Ok(())
    }

    /// The number of rows that were right.
    pub fn right(&self) -> u64
        ensures { result ≡ self.now.right }
    {
        self.right
    }

    /// The number of rows that were wrong.
    pub fn wrong(&self) -> u64
        ensures { result ≡ self.now.wrong }
    {
        self.wrong
    }

    /// How many rows were wrong, and below their names, a line each, as far as some hundred bytes hold them; nothing where none was.
    pub fn wrong_names(&self, alloc: Global) -> Result<String, AllocError>
        ensures silent { self.now.wrong ≡ 0 → IfOk result (λ text. string_bytes text ≡ []) }
        ensures told { self.now.wrong ≢ 0 → IfOk result (λ text. string_bytes text ≢ []) }
    {
        if self.wrong == 0 {
            return Ok(String::new(alloc));
        }
        let (names, wrong) = (self.names.as_str(), self.wrong);
        format!(in alloc; "wrong rows: {wrong}\n{names}")
    }
}

/// Whether each row of a file is to be found wrong, which its name says by its end: `.wrong`. A right row of such a file is a surprise,
/// as a wrong row of another file is.
pub fn must_be_wrong(file: &str) -> bool {
    file.ends_with(".wrong")
}

// The place of the first byte in which two texts differ, or the shorter one's length.
fn first_difference(one: &str, other: &str) -> usize {
    let mut place = 0usize;
    for (left, right) in one.as_bytes().iter().zip(other.as_bytes()) {
        if left != right {
            return place;
        }
        place = place.saturating_add(1);
    }
    place
}
