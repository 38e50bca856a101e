//! Blocks of lines.
use row_words::cut;
use std::alloc::{AllocError, Global};

/// What a block is for.
#[derive(Clone, Copy)]
pub enum BlockKind {
    Def,
    Row,
    Sweep,
}

/// A block of lines. Each line has its place in front, and a tab.
#[derive(Drop)]
pub struct Block {
    /// `None` outside of all blocks.
    pub kind: Option<BlockKind>,
    pub name: String,
    /// Where it begins.
    pub at: String,
    pub lines: String,
    /// The lines behind the first that begins a group, with that.
    pub groups: String,
    /// How many lines say what is expected.
    pub expected: u64,
    /// The names that its own lines give a meaning, and those of the definitions that it uses: a line `PLACE\tNAME` each.
    pub own_names: String,
    pub used_names: String,
    /// Whether another block uses it.
    pub is_used: bool,
    /// What is wrong with it, where anything is.
    pub wrong: String,
}

impl Block {
    /// What stands outside of all blocks.
    pub fn new(alloc: Global) -> Block {
        Block {
            kind: None,
            name: String::new(alloc),
            at: String::new(alloc),
            lines: String::new(alloc),
            groups: String::new(alloc),
            expected: 0,
            own_names: String::new(alloc),
            used_names: String::new(alloc),
            is_used: false,
            wrong: String::new(alloc),
        }
    }

    pub fn is_definition(&self) -> bool {
        matches!(self.kind, Some(BlockKind::Def))
    }

    /// Adds lines; they are of a group where one has begun.
    pub fn push(&mut self, lines: &str) -> Result<(), AllocError> {
        if self.groups.is_empty() {
            self.lines.push_str(lines)
        } else {
            self.groups.push_str(lines)
        }
    }

    /// Adds what a definition has.
    pub fn add(&mut self, def: &Block) -> Result<(), AllocError> {
        self.push(def.lines.as_str())?;
        self.groups.push_str(def.groups.as_str())?;
        self.used_names.push_str(def.own_names.as_str())?;
        self.used_names.push_str(def.used_names.as_str())?;
        self.expected = self.expected.saturating_add(def.expected);
        Ok(())
    }

    /// Whether a line has this name in braces.
    pub fn uses(&self, alloc: Global, name: &str) -> Result<bool, AllocError> {
        let word = format!(in alloc; "{{{name}}}")?;
        Ok(
            self.lines.as_str().contains(word.as_str())
                || self.groups.as_str().contains(word.as_str()),
        )
    }
}

/// The place of a line, and its text.
pub fn placed(line: &str) -> (&str, &str) {
    match line.split_once('\t') {
        Some(parts) => parts,
        None => ("", line),
    }
}

/// The words of a line `for NAME VALUE | VALUE ..`.
pub fn for_words(text: &str) -> Option<&str> {
    let (verb, words) = cut(text);
    if verb == "for" { Some(words) } else { None }
}

/// The name that a line gives a meaning.
pub fn name_given(text: &str) -> Option<&str> {
    let (verb, words) = cut(text);
    match verb {
        "for" | "name" | "item" | "inside" => {
            let (name, _) = cut(words);
            Some(name)
        }
        _ => None,
    }
}
