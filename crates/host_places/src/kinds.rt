//! What stood at the paths of claimed folders that were looked at last.

use crate::listed::Listings;
use crate::places::{are_same, is_at_or_below};
use crate::plain::Plain;
use folder_model::{Entry, FPath, Kind};
use std::alloc::{AllocError, Global};

// How many are kept beside what stands in whole directories.
const MOST: usize = 8;

#[derive(Drop)]
struct Seen {
    at: FPath,
    kind: Kind,
}

/// What stood at some paths, at which no other run changes anything, and at or above which this process changed nothing since.
#[derive(Drop)]
pub struct Kinds {
    seen: Vec<Seen>,
    listed: Listings,
    plain: Plain,
}

impl Kinds {
    pub fn new(alloc: Global) -> Kinds {
        Kinds {
            seen: Vec::new(alloc),
            listed: Listings::new(alloc),
            plain: Plain::new(alloc),
        }
    }

    pub fn kind_at(&mut self, at: &FPath) -> Option<Kind> {
        match self.listed.kind_at(at) {
            Some(kind) => Some(kind),
            None => self.kind_seen(at),
        }
    }

    fn kind_seen(&self, at: &FPath) -> Option<Kind> {
        let seen = self
            .seen
            .iter()
            .find(|seen| are_same(seen.at.parts(), at.parts()))?;
        Some(seen.kind)
    }

    /// Keeps what stands at a path: with what stands in its directory, or in the place of what was kept first.
    pub fn keep(&mut self, at: &FPath, kind: Kind) -> Result<(), AllocError> {
        self.seen
            .retain(|seen| !are_same(seen.at.parts(), at.parts()));
        if self.listed.put(at, Some(kind)) {
            return Ok(());
        }
        if self.seen.len() >= MOST {
            self.seen.remove(0);
        }
        self.seen.push(Seen {
            at: at.copy()?,
            kind,
        })?;
        Ok(())
    }

    /// Keeps what this process has brought about at a path, where what stands in its directory is kept.
    pub fn learn(&mut self, at: &FPath, kind: Kind) {
        self.listed.put(at, Some(kind));
    }

    /// Whether what stands at a path, if something does, is a file.
    pub fn can_be_read(&mut self, at: &FPath) -> bool {
        self.plain.has_above(at) || self.kind_at(at) == Some(Kind::File)
    }

    /// Keeps what stands in a directory.
    pub fn keep_all(&mut self, dir: &FPath, entries: &[Entry]) {
        self.listed.keep(dir, entries);
        self.plain.keep(dir, entries);
    }

    /// Forgets what stood at and below a path, and keeps what stands there now, if that is known, as `learn` does.
    pub fn forget_below(&mut self, at: &FPath, stands: Option<Kind>) {
        self.seen.retain(|seen| !is_at_or_below(&seen.at, at));
        self.listed.forget_below(at, stands);
        self.plain.forget(at);
    }
}
