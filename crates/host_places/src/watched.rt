//! When the directories of claimed folders changed last before they were listed.

use crate::causes::Cause;
use crate::places::{metadata_at, text_of};
use folder_model::FPath;
use std::alloc::{AllocError, Global};
use std::collections::BTreeMap;
use std::fs::Metadata;
use std::ops::Bound;
use std::os::unix::fs::MetadataExt;

// When what stands somewhere changed last.
#[derive(Clone, Copy, PartialEq, Eq)]
pub struct Stamp {
    seconds: i64,
    nanoseconds: i64,
}

impl Stamp {
    pub fn of(metadata: &Metadata) -> Stamp {
        Stamp {
            seconds: metadata.ctime(),
            nanoseconds: metadata.ctime_nsec(),
        }
    }
}

/// The directories that were listed and that this process hasn't changed since, each with its stamp from before it was listed first.
#[derive(Drop)]
pub struct Watched {
    alloc: Global,
    stamps: BTreeMap<FPath, Stamp>,
}

impl Watched {
    pub fn new(alloc: Global) -> Watched {
        Watched {
            alloc,
            stamps: BTreeMap::new(alloc),
        }
    }

    /// Keeps when a directory changed last, which is listed now.
    pub fn keep(&mut self, dir: &FPath, stamp: Stamp) -> Result<(), AllocError> {
        if !self.stamps.contains_key(dir) {
            self.stamps.insert(dir.copy()?, stamp)?;
        }
        Ok(())
    }

    /// Lets go of a directory that this process changes.
    pub fn forget(&mut self, dir: &FPath) {
        self.stamps.remove(dir);
    }

    /// Lets go of those at and below a path that this process moves or removes.
    pub fn forget_below(&mut self, at: &FPath) -> Result<(), AllocError> {
        let mut below = Vec::new(self.alloc);
        for (dir, _) in self.stamps.range((Bound::Included(at), Bound::Unbounded)) {
            if !dir.starts_with(at) {
                break;
            }
            below.push(dir.copy()?)?;
        }
        for dir in below.as_slice() {
            self.stamps.remove(dir);
        }
        Ok(())
    }

    /// The first of them that has changed since, if one has.
    pub fn changed(&self, rt: &HostRuntime, base: &str) -> Result<Option<FPath>, Cause> {
        for (dir, stamp) in self.stamps.iter() {
            let text = text_of(self.alloc, base, dir.parts())?;
            if stamp_at(rt, text.as_str())? != Some(*stamp) {
                return Ok(Some(dir.copy()?));
            }
        }
        Ok(None)
    }
}

/// When what stands at a text changed last, if something does.
pub fn stamp_at(rt: &HostRuntime, text: &str) -> Result<Option<Stamp>, Cause> {
    match metadata_at(rt, text)? {
        Some(metadata) => Ok(Some(Stamp::of(&metadata))),
        None => Ok(None),
    }
}
