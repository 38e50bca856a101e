//! The rows of files, one after the other.
ghost use Rattle.std.specs.Prelude.{◌≡◌, ◌≢◌, ◌++◌, [], IfOk, codes, string_bytes, take};

use crate::block::{Block, BlockKind, name_given, placed};
use crate::player::Player;
use crate::playing::judge;
use crate::reading::line_fault;
use row_words::{cut, must_be_wrong, number, sum_of};
use std::alloc::{AllocError, Global};
use std::mem;

// How many times a definition is added at most.
const MOST_TIMES: u64 = 1_000;

/// What was read so far: the definitions, and the block that is being read.
#[derive(Drop)]
pub struct Book {
    alloc: Global,
    file: String,
    number: u64,
    // How many rows of the file were judged, and how many lines of them say what is expected.
    rows: u64,
    expected: u64,
    defs: Vec<Block>,
    open: Block,
    // The places of definitions' lines whose names were used, a line each.
    met: String,
    is_right: bool,
    surprises: String,
}

// What is said of a block: that it is right exactly where nothing is wrong with it.
fn verdict(alloc: Global, name: &str, wrong: &str) -> Result<String, AllocError>
    ensures right { wrong.now ≡ [] → IfOk result (λ text. string_bytes text ≡ codes "right: " ++ name.now ++ codes "\n") }
    ensures wrong { wrong.now ≢ [] → IfOk result (λ text. take 7 (string_bytes text) ≡ codes "wrong: ") }
{
    if wrong.is_empty() {
        return format!(in alloc; "right: {name}\n");
    }
    format!(in alloc; "wrong: {name}\n{wrong}")
}

// Adds the places of names that a block has from definitions, and uses.
fn push_met(alloc: Global, met: &mut String, block: &Block) -> Result<(), AllocError> {
    for line in block.used_names.as_str().lines() {
        let (place, name) = placed(line);
        if !has_line(met.as_str(), place) && block.uses(alloc, name)? {
            writeln!(met, "{place}")?;
        }
    }
    Ok(())
}

fn has_line(text: &str, line: &str) -> bool {
    text.lines().any(|other| other == line)
}

// Notes the names that a block gives a meaning and doesn't use.
fn note_unused(alloc: Global, block: &mut Block) -> Result<(), AllocError> {
    let mut unused = String::new(alloc);
    for line in block.own_names.as_str().lines() {
        let (place, name) = placed(line);
        if !block.uses(alloc, name)? {
            writeln!(unused, "  at {place}: a name that nothing uses")?;
        }
    }
    block.wrong.push_str(unused.as_str())
}

// Notes what nothing uses of a definition: itself, or the meaning of a name.
fn note_idle(def: &mut Block, met: &str) -> Result<(), AllocError> {
    if !def.is_used {
        let at = def.at.as_str();
        return writeln!(def.wrong, "  at {at}: a definition that nothing uses");
    }
    for line in def.own_names.as_str().lines() {
        let (place, _) = placed(line);
        if !has_line(met, place) {
            writeln!(def.wrong, "  at {place}: a name that nothing uses")?;
        }
    }
    Ok(())
}

impl Book {
    pub fn new(alloc: Global) -> Book {
        Book {
            alloc,
            file: String::new(alloc),
            number: 0,
            rows: 0,
            expected: 0,
            defs: Vec::new(alloc),
            open: Block::new(alloc),
            met: String::new(alloc),
            is_right: true,
            surprises: String::new(alloc),
        }
    }

    /// Begins a file.
    pub fn open(&mut self, file: &str) -> Result<(), AllocError> {
        self.file = String::from_str(self.alloc, file)?;
        self.number = 0;
        self.rows = 0;
        self.expected = 0;
        Ok(())
    }

    /// Whether no row was wrong.
    pub fn is_right(&self) -> bool {
        self.is_right
    }

    /// The rows that are wrong, and the right ones of files whose rows are to be wrong, a line each.
    pub fn surprises(&self) -> &str {
        self.surprises.as_str()
    }

    // Notes why the block can't be read.
    fn fault(&mut self, what: &str) -> Result<(), AllocError> {
        let (file, number) = (self.file.as_str(), self.number);
        writeln!(self.open.wrong, "  at {file}:{number}: {what}")
    }

    // Whether there is a definition of this name.
    fn is_defined(&self, name: &str) -> bool {
        for def in &self.defs {
            if def.name.as_str() == name {
                return true;
            }
        }
        false
    }

    // Adds the lines of a definition to the block so many times, and says whether there is one.
    fn add_def(&mut self, name: &str, times: u64) -> Result<bool, AllocError> {
        for def in &mut self.defs {
            if def.name.as_str() == name {
                def.is_used = true;
                for _ in 0..times {
                    self.open.add(def)?;
                }
                return Ok(true);
            }
        }
        Ok(false)
    }

    // Adds a line to the block.
    fn add(&mut self, text: &str, begins_group: bool) -> Result<(), AllocError> {
        if self.open.kind.is_none() {
            return self.fault("a line outside of all blocks");
        }
        let (alloc, number) = (self.alloc, self.number);
        let file = self.file.as_str();
        if let Some(name) = name_given(text) {
            writeln!(self.open.own_names, "{file}:{number}\t{name}")?;
        }
        let line = format!(in alloc; "{file}:{number}\t{text}\n")?;
        if begins_group {
            self.open.groups.push_str(line.as_str())
        } else {
            self.open.push(line.as_str())
        }
    }

    // Adds a line that says what is expected.
    fn add_expected(&mut self, text: &str) -> Result<(), AllocError> {
        self.open.expected = self.open.expected.saturating_add(1);
        self.add(text, false)
    }

    // Begins a block.
    fn begin(&mut self, kind: BlockKind, name: &str) -> Result<(), AllocError> {
        if self.open.kind.is_some() {
            return self.fault("a block in a block");
        }
        let (file, number) = (self.file.as_str(), self.number);
        self.open.kind = Some(kind);
        write!(self.open.at, "{file}:{number}")?;
        self.open.name.push_str(name)
    }

    // Says of a block whether it is right.
    fn say(&mut self, block: &Block, file: &str) -> Result<String, AllocError> {
        let (name, is_right) = (block.name.as_str(), block.wrong.is_empty());
        if !is_right {
            self.is_right = false;
        }
        if is_right == must_be_wrong(file) {
            let verdict = if is_right { "right" } else { "wrong" };
            writeln!(self.surprises, "{verdict}: {name} ({file})")?;
        }
        verdict(self.alloc, name, block.wrong.as_str())
    }

    // Judges the row that was read, where nothing is wrong with it so far.
    fn judge<P: Player>(&mut self) -> Result<(), AllocError> {
        self.rows = self.rows.saturating_add(1);
        self.expected = self.expected.saturating_add(self.open.expected);
        if self.open.expected == 0 {
            self.fault("a row that expects nothing")?;
        }
        note_unused(self.alloc, &mut self.open)?;
        push_met(self.alloc, &mut self.met, &self.open)?;
        if self.open.wrong.is_empty() {
            judge::<P>(self.alloc, &mut self.open)?;
        }
        Ok(())
    }

    // Looks whether a definition that was read can be one.
    fn look(&mut self) -> Result<(), AllocError> {
        if self.is_defined(self.open.name.as_str()) {
            self.fault("a definition of that name stands above")?;
        }
        if self.open.lines.is_empty() && self.open.groups.is_empty() {
            self.fault("a definition of nothing")?;
        }
        Ok(())
    }

    // Closes the block that was read, and says what comes of it.
    fn end<P: Player>(&mut self) -> Result<String, AllocError> {
        if self.open.is_definition() {
            self.look()?;
        } else {
            self.judge::<P>()?;
        }
        let block = mem::replace(&mut self.open, Block::new(self.alloc));
        if block.is_definition() && block.wrong.is_empty() {
            self.defs.push(block)?;
            return Ok(String::new(self.alloc));
        }
        let file = self.file.clone()?;
        self.say(&block, file.as_str())
    }

    // Adds the lines of a definition, which there has to be.
    fn use_def(&mut self, name: &str) -> Result<(), AllocError> {
        if self.add_def(name, 1)? {
            return Ok(());
        }
        self.fault("no such definition")
    }

    // Adds the lines of a definition so many times: `COUNT NAME`.
    fn use_times(&mut self, words: &str) -> Result<(), AllocError> {
        let (count, name) = cut(words);
        let count = number(count).unwrap_or(0);
        if (1..=MOST_TIMES).contains(&count) && self.add_def(name, count)? {
            return Ok(());
        }
        self.fault("no such definition so many times")
    }

    // Takes a line that doesn't end a block.
    fn read(&mut self, line: &str) -> Result<(), AllocError> {
        let (verb, rest) = cut(line);
        match verb {
            "def" => self.begin(BlockKind::Def, rest),
            "row" => self.begin(BlockKind::Row, rest),
            "sweep" => self.begin(BlockKind::Sweep, rest),
            "use" => self.use_def(rest),
            "times" => self.use_times(rest),
            "=" => self.add_expected(line),
            "" | "#" => Ok(()),
            _ => self.add(line, verb == "group" || verb == "without"),
        }
    }

    /// Takes a line, and says what comes of it.
    pub fn take<P: Player>(&mut self, line: &str) -> Result<String, AllocError> {
        self.number = self.number.saturating_add(1);
        if let Some(what) = line_fault(line) {
            self.fault(what)?;
        }
        let (verb, _) = cut(line);
        if verb == "end" {
            return self.end::<P>();
        }
        self.read(line)?;
        Ok(String::new(self.alloc))
    }

    /// Ends a file of this text. Says what is wrong with a block that doesn't end, and then how many rows there were, how many lines that say
    /// what is expected, and the sum of the text.
    pub fn close<P: Player>(&mut self, text: &str) -> Result<String, AllocError> {
        let mut said = String::new(self.alloc);
        if self.open.kind.is_some() || !self.open.wrong.is_empty() {
            self.fault("a block that doesn't end")?;
            said = self.end::<P>()?;
        }
        let sum = sum_of(self.alloc, text.as_bytes())?;
        let (file, rows, expected) = (self.file.as_str(), self.rows, self.expected);
        writeln!(
            said,
            "{file}: {rows} rows, {expected} expectations, sha256 {sum}"
        )?;
        Ok(said)
    }

    /// Ends all files, and says which definitions nothing uses, and which names that they give a meaning.
    pub fn finish(&mut self) -> Result<String, AllocError> {
        let mut said = String::new(self.alloc);
        let defs = mem::replace(&mut self.defs, Vec::new(self.alloc));
        for mut def in defs {
            note_idle(&mut def, self.met.as_str())?;
            if !def.wrong.is_empty() {
                let (file, _) = def.at.as_str().split_once(':').unwrap_or(("", ""));
                said.push_str(self.say(&def, file)?.as_str())?;
            }
        }
        Ok(said)
    }
}
