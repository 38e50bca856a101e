//! What stands in the directories of claimed folders that were listed or made last.

use crate::places::{are_same, is_at_or_below};
use folder_model::{Entry, FPath, Kind};
use std::alloc::{AllocError, Global};
use std::collections::BTreeMap;
use std::mem;
use std::rc::RcStr;

// A name that was listed, by its place among those of its directory, and what stood at it.
#[derive(Clone, Copy)]
struct Name {
    start: usize,
    end: usize,
    kind: Kind,
}

// What stands in a directory: the names that were listed, one behind the other in byte order, and what was learned of a name since, `None`
// where what stands there isn't known any more. At all other names nothing stands.
#[derive(Drop)]
struct Listed {
    dir: FPath,
    text: String,
    names: Vec<Name>,
    learned: BTreeMap<String, Option<Kind>>,
}

impl Listed {
    fn of(alloc: Global, dir: &FPath, entries: &[Entry]) -> Result<Listed, AllocError> {
        let mut listed = Listed {
            dir: dir.copy()?,
            text: String::new(alloc),
            names: Vec::with_capacity(alloc, entries.len())?,
            learned: BTreeMap::new(alloc),
        };
        for entry in entries {
            listed.add(entry)?;
        }
        Ok(listed)
    }

    fn add(&mut self, entry: &Entry) -> Result<(), AllocError> {
        let start = self.text.len();
        self.text.push_str(entry.name.as_str())?;
        self.names.push(Name {
            start,
            end: self.text.len(),
            kind: entry.kind,
        })?;
        Ok(())
    }

    fn kind_of(&self, name: &str) -> Option<Kind> {
        match self.learned.get(name) {
            Some(kind) => *kind,
            None => Some(self.kind_listed(name)),
        }
    }

    fn kind_listed(&self, name: &str) -> Kind {
        let found = self
            .names
            .binary_search_by(|listed| self.text_of(listed).cmp(name));
        match found {
            Ok(index) => self.names[index].kind,
            Err(_) => Kind::Missing,
        }
    }

    fn text_of(&self, name: &Name) -> &str {
        self.text
            .as_str()
            .get(name.start..name.end)
            .unwrap_or_default()
    }

    fn put(&mut self, alloc: Global, name: &str, kind: Option<Kind>) -> Result<(), AllocError> {
        self.learned.insert(String::from_str(alloc, name)?, kind)?;
        Ok(())
    }
}

// The two directories that were used last.
#[derive(Drop)]
pub struct Listings {
    alloc: Global,
    last: Option<Listed>,
    other: Option<Listed>,
}

impl Listings {
    pub fn new(alloc: Global) -> Listings {
        Listings {
            alloc,
            last: None,
            other: None,
        }
    }

    // Keeps what stands in a directory, in the place of the one that wasn't used last.
    pub fn keep(&mut self, dir: &FPath, entries: &[Entry]) {
        if !self.bring(dir.parts()) {
            mem::swap(&mut self.last, &mut self.other);
        }
        self.last = Listed::of(self.alloc, dir, entries).ok();
    }

    // What stands at a path, where that of its directory is kept.
    pub fn kind_at(&mut self, at: &FPath) -> Option<Kind> {
        let (name, above) = at.parts().split_last()?;
        if self.bring(above) {
            self.last.as_ref()?.kind_of(name.as_str())
        } else {
            None
        }
    }

    // Keeps what stands at a path, or that it isn't known, where that of its directory is kept: whether it is.
    pub fn put(&mut self, at: &FPath, kind: Option<Kind>) -> bool {
        let Some((name, above)) = at.parts().split_last() else {
            return false;
        };
        self.bring(above) && self.put_last(name.as_str(), kind)
    }

    // Keeps what stands at a name in the directory that was used last. Without memory for it the whole directory is let go.
    fn put_last(&mut self, name: &str, kind: Option<Kind>) -> bool {
        let put = match &mut self.last {
            Some(listed) => listed.put(self.alloc, name, kind).is_ok(),
            None => false,
        };
        if !put {
            self.last = None;
        }
        put
    }

    // Forgets what stood at and below a path, and keeps what stands there now, or that it isn't known.
    pub fn forget_below(&mut self, at: &FPath, stands: Option<Kind>) {
        if lies_below(&self.last, at) {
            self.last = None;
        }
        if lies_below(&self.other, at) {
            self.other = None;
        }
        self.put(at, stands);
    }

    // Whether what stands in the directory with these parts is kept, which then is the one that was used last.
    fn bring(&mut self, dir: &[RcStr]) -> bool {
        if !is_of(&self.last, dir) {
            if !is_of(&self.other, dir) {
                return false;
            }
            mem::swap(&mut self.last, &mut self.other);
        }
        true
    }
}

fn is_of(listed: &Option<Listed>, dir: &[RcStr]) -> bool {
    match listed {
        Some(listed) => are_same(listed.dir.parts(), dir),
        None => false,
    }
}

fn lies_below(listed: &Option<Listed>, at: &FPath) -> bool {
    match listed {
        Some(listed) => is_at_or_below(&listed.dir, at),
        None => false,
    }
}
