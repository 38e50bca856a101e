//! Directories of claimed folders in which nothing but files stood when they were listed.

use folder_model::{Entry, FPath, Kind};
use std::alloc::{AllocError, Global};
use std::collections::BTreeSet;
use std::mem;
use std::ops::Bound;

// Those in which this process has changed nothing since, and the two of them that were asked for last, which take no search. Nor do the two
// directories in which this process changed something last, as long as none at or below them is kept.
#[derive(Drop)]
pub struct Plain {
    alloc: Global,
    dirs: BTreeSet<FPath, Global>,
    last: Option<FPath>,
    other: Option<FPath>,
    bare: Option<FPath>,
    other_bare: Option<FPath>,
}

impl Plain {
    pub fn new(alloc: Global) -> Plain {
        Plain {
            alloc,
            dirs: BTreeSet::new(alloc),
            last: None,
            other: None,
            bare: None,
            other_bare: None,
        }
    }

    // Keeps a directory that was listed, if it is one and there is memory for it, and else lets go of it.
    pub fn keep(&mut self, dir: &FPath, entries: &[Entry]) {
        if entries.iter().all(|entry| entry.kind == Kind::File) {
            let _ = self.add(dir);
        } else {
            self.last = None;
            self.other = None;
            self.dirs.remove(dir);
        }
    }

    fn add(&mut self, dir: &FPath) -> Result<(), AllocError> {
        self.bare = None;
        self.other_bare = None;
        self.dirs.insert(dir.copy()?)?;
        Ok(())
    }

    // Whether the directory above a path is kept.
    pub fn has_above(&mut self, at: &FPath) -> bool {
        if self.dirs.is_empty() {
            return false;
        }
        if !is_above(&self.last, at) {
            mem::swap(&mut self.last, &mut self.other);
        }
        if !is_above(&self.last, at) {
            self.last = self.found_above(at);
        }
        self.last.is_some()
    }

    fn found_above(&self, at: &FPath) -> Option<FPath> {
        let above = at.parent().ok()?;
        if self.dirs.contains(&above) {
            Some(above)
        } else {
            None
        }
    }

    // Lets go of the directory above a path at which something changes, and of those at and below it; of all without memory for that.
    pub fn forget(&mut self, at: &FPath) {
        if self.dirs.is_empty() || is_above(&self.bare, at) || is_above(&self.other_bare, at) {
            return;
        }
        if is_touched(&self.last, at) {
            self.last = None;
        }
        if is_touched(&self.other, at) {
            self.other = None;
        }
        if self.remove(at).is_err() {
            self.dirs.clear();
            self.last = None;
            self.other = None;
        }
    }

    fn remove(&mut self, at: &FPath) -> Result<(), AllocError> {
        let above = at.parent()?;
        let below = self.found_below(at)?;
        self.dirs.remove(&above);
        for dir in below.as_slice() {
            self.dirs.remove(dir);
        }
        if !self.has_below(&above) {
            mem::swap(&mut self.bare, &mut self.other_bare);
            self.bare = Some(above);
        }
        Ok(())
    }

    // Whether one is kept at or below a path.
    fn has_below(&self, at: &FPath) -> bool {
        let mut from_it = self.dirs.range((Bound::Included(at), Bound::Unbounded));
        match from_it.next() {
            Some(dir) => dir.starts_with(at),
            None => false,
        }
    }

    // Those at and below a path.
    fn found_below(&self, at: &FPath) -> Result<Vec<FPath>, AllocError> {
        let mut below = Vec::new(self.alloc);
        for dir in self.dirs.range((Bound::Included(at), Bound::Unbounded)) {
            if !dir.starts_with(at) {
                break;
            }
            below.push(dir.copy()?)?;
        }
        Ok(below)
    }
}

fn is_above(dir: &Option<FPath>, at: &FPath) -> bool {
    match dir {
        Some(dir) => dir.depth().saturating_add(1) == at.depth() && at.starts_with(dir),
        None => false,
    }
}

// Whether a directory is the one above a path, or at or below it.
fn is_touched(dir: &Option<FPath>, at: &FPath) -> bool {
    match dir {
        Some(known) => is_above(dir, at) || known.starts_with(at),
        None => false,
    }
}
