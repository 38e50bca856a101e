//! Files and directories that stay open from one call to the next.

use crate::causes::Cause;
use crate::places::{Node, are_same, is_at_or_below};
use folder_model::FPath;
use std::fs::File;
use std::{fs, mem};

/// A file that was made, the path at which it was, the node that it is, and its mode.
#[derive(Drop)]
pub struct Made {
    pub at: FPath,
    pub file: File,
    pub node: Node,
    pub mode: u32,
}

/// A file or directory that is open, and the path at which it was opened.
#[derive(Drop)]
pub struct Opened {
    pub at: FPath,
    pub file: File,
}

impl Opened {
    /// Opens what stands at a path with this text.
    pub fn open(rt: &HostRuntime, at: &FPath, text: &str) -> Result<Opened, Cause> {
        Ok(Opened {
            at: at.copy()?,
            file: fs::open(rt, text)?,
        })
    }
}

/// The two that were used last.
#[derive(Drop)]
pub struct Pair {
    last: Option<Opened>,
    other: Option<Opened>,
}

impl Pair {
    pub fn new() -> Pair {
        Pair {
            last: None,
            other: None,
        }
    }

    /// The one that is open at this path.
    pub fn open_at(&mut self, at: &FPath) -> Option<&Opened> {
        if !is_at(&self.last, at) {
            if !is_at(&self.other, at) {
                return None;
            }
            mem::swap(&mut self.last, &mut self.other);
        }
        self.last.as_ref()
    }

    /// Keeps one more, in the place of the one that wasn't used last.
    pub fn keep(&mut self, opened: Opened) {
        mem::swap(&mut self.last, &mut self.other);
        self.last = Some(opened);
    }

    /// Closes what was opened at or below a path.
    pub fn close_below(&mut self, at: &FPath) {
        if lies_below(&self.last, at) {
            self.last = None;
        }
        if lies_below(&self.other, at) {
            self.other = None;
        }
    }
}

/// The file that was made last, what was read last, and the directories that were synced last.
#[derive(Drop)]
pub struct Handles {
    made: Option<Made>,
    pub read: Pair,
    pub synced: Pair,
}

impl Handles {
    pub fn new() -> Handles {
        Handles {
            made: None,
            read: Pair::new(),
            synced: Pair::new(),
        }
    }

    pub fn keep_made(&mut self, made: Made) {
        self.made = Some(made);
    }

    /// The file that was made at this path.
    pub fn made_at(&self, at: &FPath) -> Option<&Made> {
        match &self.made {
            Some(made) if are_same(made.at.parts(), at.parts()) => Some(made),
            _ => None,
        }
    }

    /// Closes what was opened at or below a path, where something else comes to stand.
    pub fn close_below(&mut self, at: &FPath) {
        if self
            .made
            .as_ref()
            .is_some_and(|made| is_at_or_below(&made.at, at))
        {
            self.made = None;
        }
        self.read.close_below(at);
        self.synced.close_below(at);
    }
}

fn is_at(opened: &Option<Opened>, at: &FPath) -> bool {
    match opened {
        Some(opened) => are_same(opened.at.parts(), at.parts()),
        None => false,
    }
}

fn lies_below(opened: &Option<Opened>, at: &FPath) -> bool {
    match opened {
        Some(opened) => is_at_or_below(&opened.at, at),
        None => false,
    }
}
