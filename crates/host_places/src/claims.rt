//! What a run holds for itself while it works, by locks of directories.

ghost use Rattle.std.specs.Prelude.{◌≡◌, IfOk};

use crate::causes::{Cause, number_of};
use crate::places::{Node, metadata_at, text_of, up_to};
use folder_model::FPath;
use std::alloc::{AllocError, Global};
use std::fs::{File, TryLockError};
use std::io::ErrorKind;
use std::{fs, io};

// How often a directory is tried that is exchanged while it is locked.
const TRIES: u32 = 100;

/// Whether other runs may hold the same directory.
#[derive(Clone, Copy)]
pub enum Hold {
    Alone,
    Shared,
}

/// A path that a run claims, before it changes anything.
#[derive(Drop)]
pub struct Wanted {
    pub at: FPath,
    pub hold: Hold,
}

impl Wanted {
    pub fn copy(&self) -> Result<Wanted, AllocError>
        ensures { IfOk result (λ wanted. wanted ≡ self.now) }
    {
        let at = self.at.copy()?;
        Ok(Wanted {
            at,
            hold: self.hold,
        })
    }
}

// A directory that is held: which one, and the handle with its lock, where one was had.
#[derive(Drop)]
struct Held {
    node: Node,
    lock: Option<File>,
}

// A claimed path: what is held of the directories from the base down to it, as far as they stood, and whether all of that is locked; and
// whether a settle tested it since which nothing was to change.
#[derive(Drop)]
struct Claim {
    at: FPath,
    hold: Hold,
    held: Vec<Held>,
    locked: bool,
    fresh: bool,
}

// What came of one try to lock a directory.
#[derive(Drop)]
enum Tried {
    Held(Held),
    Nothing,
    Exchanged,
}

/// The claimed paths, none of which lies in another; and whether another run had taken one of them when something came to stand there.
#[derive(Drop)]
pub struct Claims {
    claims: Vec<Claim>,
    lost: bool,
}

impl Claims {
    pub fn new(alloc: Global) -> Claims {
        Claims {
            claims: Vec::new(alloc),
            lost: false,
        }
    }

    /// Claims a path, unless one is claimed that it lies in or that lies in it.
    pub fn add(
        &mut self,
        rt: &HostRuntime,
        alloc: Global,
        base: &str,
        wanted: &Wanted,
    ) -> Result<(), Cause> {
        if self.meets(&wanted.at) {
            return Ok(());
        }
        let mut claim = Claim {
            at: wanted.at.copy()?,
            hold: wanted.hold,
            held: Vec::new(alloc),
            locked: true,
            fresh: false,
        };
        claim.take_on(rt, alloc, base)?;
        match self.claims.push(claim) {
            Ok(()) => Ok(()),
            Err(_) => Err(Cause::NoMemory),
        }
    }

    fn meets(&self, at: &FPath) -> bool {
        self.claims.iter().any(|claim| claim.at.starts_with(at) || at.starts_with(&claim.at))
    }

    /// Whether a path is that of a claimed directory that is locked, or lies below one.
    pub fn hold(&self, at: &FPath) -> bool {
        self.holding(at).is_some()
    }

    /// Whether a path lies below a claimed directory that is locked.
    pub fn hold_above(&self, at: &FPath) -> bool {
        match self.holding(at) {
            Some(claim) => claim.at.depth() < at.depth(),
            None => false,
        }
    }

    // The claim of a directory that is locked, at a path or above it. There is one at most, since none lies in another.
    fn holding(&self, at: &FPath) -> Option<&Claim> {
        self.claims
            .iter()
            .find(|claim| claim.is_locked() && at.starts_with(&claim.at))
    }

    /// Whether a path is claimed itself.
    pub fn are_at(&self, at: &FPath) -> bool {
        self.claims.iter().any(|claim| claim.at.is(at))
    }

    /// Whether a path is claimed, or lies below one that is.
    pub fn cover(&self, at: &FPath) -> bool {
        self.claims.iter().any(|claim| at.starts_with(&claim.at))
    }

    /// Whether a path is one that is claimed and at which nothing has been taken yet, or lies below one.
    pub fn lack(&self, at: &FPath) -> bool {
        self.claims
            .iter()
            .any(|claim| !claim.is_taken() && at.starts_with(&claim.at))
    }

    /// The claimed path at which this directory is held.
    pub fn path_of(&self, node: Node) -> Option<&FPath> {
        let claim = self
            .claims
            .iter()
            .find(|claim| claim.is_taken() && claim.last() == Some(node))?;
        Some(&claim.at)
    }

    /// Takes what has come to stand at the claimed paths at or above this one. Where another run has it, nothing may be changed any more.
    pub fn take_on(
        &mut self,
        rt: &HostRuntime,
        alloc: Global,
        base: &str,
        at: &FPath,
    ) -> Result<(), Cause> {
        for claim in self.claims.as_mut_slice() {
            if at.starts_with(&claim.at) && !claim.is_taken() {
                match claim.take_on(rt, alloc, base) {
                    Err(Cause::Held) => self.lost = true,
                    answer => answer?,
                }
            }
        }
        Ok(())
    }

    /// Sees to it that what stands now at each claimed path at or above this one is held, and that it is what was held first.
    pub fn renew(
        &mut self,
        rt: &HostRuntime,
        alloc: Global,
        base: &str,
        at: &FPath,
    ) -> Result<(), Cause> {
        self.take_on(rt, alloc, base, at)?;
        if self.lost {
            return Err(Cause::Held);
        }
        for claim in self.claims.as_mut_slice() {
            if at.starts_with(&claim.at) && !claim.fresh {
                claim.test(rt, alloc, base)?;
            }
            claim.fresh = false;
        }
        Ok(())
    }

    /// Tests that at each path that is claimed alone still stands what is held.
    pub fn test(&mut self, rt: &HostRuntime, alloc: Global, base: &str) -> Result<(), Cause> {
        for claim in self.claims.as_mut_slice() {
            if claim.is_alone() {
                claim.test(rt, alloc, base)?;
                claim.fresh = true;
            }
        }
        Ok(())
    }

    /// The claimed path at which what is held doesn't stand any more.
    pub fn gone(&self, rt: &HostRuntime, alloc: Global, base: &str) -> Option<&FPath> {
        for claim in self.claims.as_slice() {
            if let Err(Cause::Exchanged) = claim.test(rt, alloc, base) {
                return Some(&claim.at);
            }
        }
        None
    }

    /// Holds the directory that was made at this path, if it is a claimed one.
    pub fn hold_made(
        &mut self,
        rt: &HostRuntime,
        alloc: Global,
        base: &str,
        at: &FPath,
    ) -> Result<(), Cause> {
        if self.are_at(at) {
            self.take_on(rt, alloc, base, at)?;
        }
        if self.lost { Err(Cause::Held) } else { Ok(()) }
    }

    /// Holds the directory at a text, which is to be moved onto a claimed path.
    pub fn hold_moved(&mut self, rt: &HostRuntime, text: &str, to: &FPath) -> Result<(), Cause> {
        for claim in self.claims.as_mut_slice() {
            if claim.at.is(to) && claim.held.len() == claim.at.depth() {
                claim.hold_next(rt, text)?;
            }
        }
        Ok(())
    }

    /// Ends the claims at and below a path that this run has moved or removed.
    pub fn end_below(&mut self, at: &FPath) {
        self.claims.retain(|claim| !claim.at.starts_with(at));
    }

    /// The device of the directory that stands at a claimed path, or else of the nearest one above it.
    pub fn device_of(&self, at: &FPath) -> Option<u64> {
        let claim = self.claims.iter().find(|claim| claim.at.is(at))?;
        Some(claim.held.last()?.node.device)
    }
}

impl Claim {
    // Whether the directory at the path itself is held, and not only ones above it.
    fn is_taken(&self) -> bool {
        self.held.len() > self.at.depth()
    }

    fn is_locked(&self) -> bool {
        self.locked && self.is_taken()
    }

    fn is_alone(&self) -> bool {
        match self.hold {
            Hold::Alone => true,
            Hold::Shared => false,
        }
    }

    // The directory that is held last.
    fn last(&self) -> Option<Node> {
        self.held.last().map(|held| held.node)
    }

    // Tests that what is held at the path still stands there.
    fn test(&self, rt: &HostRuntime, alloc: Global, base: &str) -> Result<(), Cause> {
        if self.is_taken() {
            self.test_last(rt, alloc, base, self.at.depth())
        } else {
            Ok(())
        }
    }

    // Tests that the directory that is held last stands this deep on the way to the path.
    fn test_last(
        &self,
        rt: &HostRuntime,
        alloc: Global,
        base: &str,
        depth: usize,
    ) -> Result<(), Cause> {
        let text = text_of(alloc, base, up_to(self.at.parts(), depth))?;
        if node_at(rt, text.as_str(), depth)? == self.last() {
            Ok(())
        } else {
            Err(Cause::Exchanged)
        }
    }

    // Holds what stands at the path and above it, as far as it isn't held yet.
    fn take_on(&mut self, rt: &HostRuntime, alloc: Global, base: &str) -> Result<(), Cause> {
        if let Some(above) = self.held.len().checked_sub(1) {
            self.test_last(rt, alloc, base, above)?;
        }
        for depth in self.held.len()..=self.at.depth() {
            let text = text_of(alloc, base, up_to(self.at.parts(), depth))?;
            if !self.hold_next(rt, text.as_str())? {
                break;
            }
        }
        Ok(())
    }

    // Holds the directory at a text, which is the next one on the way to the path; `false` where none stands there.
    fn hold_next(&mut self, rt: &HostRuntime, text: &str) -> Result<bool, Cause> {
        let depth = self.held.len();
        let hold = if depth < self.at.depth() {
            Hold::Shared
        } else {
            self.hold
        };
        match lock(rt, text, depth, hold)? {
            Some(held) => {
                self.locked = self.locked && held.lock.is_some();
                match self.held.push(held) {
                    Ok(()) => Ok(true),
                    Err(_) => Err(Cause::NoMemory),
                }
            }
            None => Ok(false),
        }
    }
}

// The directory at a text of so many parts below the base; `None` where none stands there. A link counts as a directory only at the base.
fn node_at(rt: &HostRuntime, text: &str, depth: usize) -> Result<Option<Node>, Cause> {
    let found = if depth == 0 {
        Some(fs::metadata(rt, text)?)
    } else {
        metadata_at(rt, text)?
    };
    match found {
        Some(metadata) if metadata.is_dir() => Ok(Some(Node::of(&metadata))),
        _ => Ok(None),
    }
}

// Locks the directory at a text; `None` where none stands there.
fn lock(rt: &HostRuntime, text: &str, depth: usize, hold: Hold) -> Result<Option<Held>, Cause> {
    for _ in 0..TRIES {
        match try_lock(rt, text, depth, hold)? {
            Tried::Held(held) => return Ok(Some(held)),
            Tried::Nothing => return Ok(None),
            Tried::Exchanged => {}
        }
    }
    Err(Cause::Held)
}

// Looks at what stands at a text before it is opened, and again once it is locked.
fn try_lock(rt: &HostRuntime, text: &str, depth: usize, hold: Hold) -> Result<Tried, Cause> {
    let Some(node) = node_at(rt, text, depth)? else {
        return Ok(Tried::Nothing);
    };
    let file = match fs::open(rt, text) {
        Ok(file) => file,
        Err(error) => return unopened(node, &error),
    };
    let is_locked = take(&file, hold)?;
    if Node::of(&file.metadata()?) == node && node_at(rt, text, depth)? == Some(node) {
        Ok(Tried::Held(Held {
            node,
            lock: if is_locked { Some(file) } else { None },
        }))
    } else {
        Ok(Tried::Exchanged)
    }
}

// What comes of a directory that isn't opened. One that may not be read can't be locked.
fn unopened(node: Node, error: &io::Error) -> Result<Tried, Cause> {
    match error.kind() {
        ErrorKind::NotFound | ErrorKind::NotADirectory => Ok(Tried::Exchanged),
        ErrorKind::PermissionDenied => Ok(Tried::Held(Held { node, lock: None })),
        ErrorKind::OutOfMemory => Err(Cause::NoMemory),
        kind => Err(Cause::Machine(kind, number_of(error))),
    }
}

// Takes the lock of an open directory, unless another run has it: whether there is one, since some file systems have no locks.
fn take(file: &File, hold: Hold) -> Result<bool, Cause> {
    let taken = match hold {
        Hold::Alone => file.try_lock(),
        Hold::Shared => file.try_lock_shared(),
    };
    match taken {
        Ok(()) => Ok(true),
        Err(TryLockError::WouldBlock) => Err(Cause::Held),
        Err(_) => Ok(false),
    }
}
