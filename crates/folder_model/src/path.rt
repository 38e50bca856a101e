//! Folder paths.
ghost use Rattle.std.specs.Prelude.{◌≡◌, ◌+◌, ◌<◌, [], ◌∷◌, ◌++◌, map, length, string_bytes, Some, None, is_some, IfOk, OnOk, MatchOption, ◌≢◌, IsTrue, IsFalse};
ghost use Rattle.std.specs.List.{list_all};
ghost use Rattle.std.specs.Option.{option_map};
ghost use Rattle.std.specs.Rc.{rc_str_bytes};
ghost use Rattle.folder_spec.specs.Path.{Part, path_eq, below, parent, child};
ghost use Rattle.folder_model.specs.Order.{path_cmp};
ghost use Rattle.folder_model.specs.Text.{is_plain_byte, is_plain_part, is_path_text, parts_of, text_of};

use std::alloc::{AllocError, Global};
use std::cmp::Ordering;
use std::marker::Model;
use std::rc::RcStr;

/// A path in a folder: its parts, from the base down. The base has none. A copy shares its parts.
///
/// Contracts see it as the list of its parts, each a list of bytes.
#[derive(Drop)]
pub struct FPath {
    parts: Vec<RcStr>,
}

impl Model for FPath {
    ghost use Rattle.std.specs.Prelude.{ℕ, List, map};
    ghost use Rattle.std.specs.Rc.{rc_str_bytes};

    ghost Value = { List (List ℕ) };

    ghost view = { λ p. map (λ s. rc_str_bytes s) p.parts.items };
}

/// Why a text is no path.
#[derive(Debug, Clone, Copy, PartialEq, Eq, Drop)]
pub enum FPathFault {
    BadPath,
    NoMemory,
}

impl From<AllocError> for FPathFault {
    ghost use Rattle.std.specs.Prelude.{◌≡◌};
    ghost use Rattle.folder_model.specs.declared.path.FPathFault.TheVariants.{NoMemory};

    ghost from_gives = { λ _ result. result ≡ NoMemory };

    fn from(_fault: AllocError) -> FPathFault {
        FPathFault::NoMemory
    }
}

fn is_part(part: &str) -> bool
    ensures { result ≡ is_plain_part part.now }
{
    !(part.is_empty() || part == "." || part == "..")
}

fn has_plain_bytes(text: &str) -> bool
    ensures { result ≡ list_all is_plain_byte text.now }
{
    text.as_bytes().iter().all(|b| *b >= 0x20 && *b != 0x7f)
}

fn has_plain_parts(text: &str) -> bool
    ensures { result ≡ list_all is_plain_part (parts_of text.now) }
{
    text.split('/').all(is_part)
}

fn is_text(text: &str) -> bool
    ensures { result ≡ is_path_text text.now }
{
    !text.is_empty() && text.len() <= 1024 && has_plain_bytes(text) && has_plain_parts(text)
}

fn push_part(alloc: Global, parts: &mut Vec<RcStr>, part: &str) -> Result<(), AllocError>
    ensures { OnOk result (map (λ s. rc_str_bytes s) parts.new.items ≡ map (λ s. rc_str_bytes s) parts.old.items ++ part.now ∷ []) }
{
    parts.push(RcStr::from_str(alloc, part)?)?;
    Ok(())
}

// Adds the parts, which are shared from then on.
fn push_parts(parts: &mut Vec<RcStr>, more: &[RcStr]) -> Result<(), AllocError>
    ensures { OnOk result (map (λ s. rc_str_bytes s) parts.new.items ≡ map (λ s. rc_str_bytes s) parts.old.items ++ map (λ s. rc_str_bytes s) more.now) }
{
    for part in more {
        parts.push(part.clone()?)?;
    }
    Ok(())
}

// A copy of the parts, with room for so many more.
fn copy_parts(alloc: Global, parts: &[RcStr], more: usize) -> Result<Vec<RcStr>, AllocError>
    ensures { IfOk result (λ v. map (λ s. rc_str_bytes s) v.items ≡ map (λ s. rc_str_bytes s) parts.now) }
{
    let mut copied = Vec::with_capacity(alloc, parts.len().saturating_add(more))?;
    push_parts(&mut copied, parts)?;
    Ok(copied)
}

fn split_parts(alloc: Global, text: &str) -> Result<Vec<RcStr>, AllocError>
    ensures { IfOk result (λ v. map (λ s. rc_str_bytes s) v.items ≡ parts_of text.now) }
{
    let mut parts = Vec::new(alloc);
    for part in text.split('/') {
        push_part(alloc, &mut parts, part)?;
    }
    Ok(parts)
}

fn join_parts(alloc: Global, parts: &[RcStr]) -> Result<String, AllocError>
    ensures { IfOk result (λ text. string_bytes text ≡ text_of (map (λ s. rc_str_bytes s) parts.now)) }
{
    let mut text = String::new(alloc);
    let Some((first, rest)) = parts.split_first() else {
        return Ok(text);
    };
    text.push_str(first.as_str())?;
    for part in rest {
        text.push_str("/")?;
        text.push_str(part.as_str())?;
    }
    Ok(text)
}

// What of the path comes after `front`, if it begins with it.
fn rest_after<'a>(path: &'a [RcStr], front: &[RcStr]) -> Option<&'a [RcStr]>
    ensures { MatchOption result (below (map (λ s. rc_str_bytes s) front.now) (map (λ s. rc_str_bytes s) path.now) ≡ None) (λ rest. below (map (λ s. rc_str_bytes s) front.now) (map (λ s. rc_str_bytes s) path.now) ≡ Some (map (λ s. rc_str_bytes s) rest.now)) }
{
    let depth = front.len();
    if depth > path.len() {
        return None;
    }
    if front == &path[..depth] {
        Some(&path[depth..])
    } else {
        None
    }
}

impl FPath {
    /// Reads parts joined by slashes. A text is no path if it is empty or longer than 1,024 bytes,
    /// if it has a byte below 0x20 or the byte 0x7F, or if a part is empty, `.` or `..`.
    pub fn parse(alloc: Global, text: &str) -> Result<FPath, FPathFault>
        ensures ok { IfOk result (λ p. IsTrue (is_path_text text.now) × (p ≡ parts_of text.now)) }
        ensures bad { result ≡ Err FPathFault.BadPath → IsFalse (is_path_text text.now) }
    {
        if !is_text(text) {
            return Err(FPathFault::BadPath);
        }
        let parts = split_parts(alloc, text)?;
        Ok(FPath { parts })
    }

    /// The base.
    pub fn base(alloc: Global) -> Self
        ensures { result ≡ [] }
    {
        FPath {
            parts: Vec::new(alloc),
        }
    }

    /// The path with these parts.
    pub fn from_parts(parts: Vec<RcStr>) -> Self
        ensures { result ≡ map (λ s. rc_str_bytes s) parts.items }
    {
        FPath { parts }
    }

    pub fn into_parts(self) -> Vec<RcStr>
        ensures { map (λ s. rc_str_bytes s) result.items ≡ self }
    {
        self.parts
    }

    pub fn parts(&self) -> &[RcStr]
        ensures { map (λ s. rc_str_bytes s) result.now ≡ self.now }
    {
        self.parts.as_slice()
    }

    /// The parts joined by slashes.
    pub fn text(&self) -> Result<String, AllocError>
        ensures { IfOk result (λ text. string_bytes text ≡ text_of self.now) }
    {
        join_parts(*self.parts.allocator(), self.parts.as_slice())
    }

    /// How many parts the path has.
    pub fn depth(&self) -> usize
        ensures { result ≡ length self.now }
    {
        self.parts.len()
    }

    /// Whether the two paths are one. Takes no memory.
    pub fn is(&self, other: &FPath) -> bool
        ensures { result ≡ path_eq self.now other.now }
    {
        self.parts.as_slice() == other.parts.as_slice()
    }

    /// How the two paths are ordered: part by part, parts by their bytes, a prefix first.
    pub(crate) fn compared(&self, other: &FPath) -> Ordering
        ensures { result ≡ path_cmp self.now other.now }
    {
        self.parts.as_slice().cmp(other.parts.as_slice())
    }

    /// Whether the path is the other one or lies below it. Takes no memory.
    pub fn starts_with(&self, other: &FPath) -> bool
        ensures { result ≡ is_some (below other.now self.now) }
    {
        rest_after(self.parts.as_slice(), other.parts.as_slice()).is_some()
    }

    /// The path one part further down.
    pub fn child(&self, part: &str) -> Result<FPath, AllocError>
        ensures { IfOk result (λ p. p ≡ child self.now part.now) }
    {
        let alloc = *self.parts.allocator();
        let mut parts = copy_parts(alloc, self.parts.as_slice(), 1)?;
        push_part(alloc, &mut parts, part)?;
        Ok(FPath { parts })
    }

    /// The path without its last part. The base is its own parent.
    pub fn parent(&self) -> Result<FPath, AllocError>
        ensures { IfOk result (λ p. p ≡ parent self.now) }
    {
        let depth = self.parts.len().saturating_sub(1);
        let parts = copy_parts(*self.parts.allocator(), &self.parts[..depth], 0)?;
        Ok(FPath { parts })
    }

    pub fn copy(&self) -> Result<FPath, AllocError>
        ensures { IfOk result (λ p. p ≡ self.now) }
    {
        let parts = copy_parts(*self.parts.allocator(), self.parts.as_slice(), 0)?;
        Ok(FPath { parts })
    }

    /// The path with the other one behind it.
    pub fn joined(&self, rest: &FPath) -> Result<FPath, AllocError>
        ensures { IfOk result (λ p. p ≡ self.now ++ rest.now) }
    {
        self.followed_by(rest.parts.as_slice())
    }

    // The path with these parts behind it.
    fn followed_by(&self, rest: &[RcStr]) -> Result<FPath, AllocError>
        ensures { IfOk result (λ p. p ≡ self.now ++ map (λ s. rc_str_bytes s) rest.now) }
    {
        let mut parts = copy_parts(*self.parts.allocator(), self.parts.as_slice(), rest.len())?;
        push_parts(&mut parts, rest)?;
        Ok(FPath { parts })
    }

    /// If the path is `from` or lies below it: the path with `to` in the place of `from`.
    pub(crate) fn rebased(&self, from: &FPath, to: &FPath) -> Result<Option<FPath>, AllocError>
        ensures { IfOk result (λ r. r ≡ option_map (λ rest. to.now ++ rest) (below from.now self.now)) }
    {
        match rest_after(self.parts.as_slice(), from.parts.as_slice()) {
            Some(rest) => Ok(Some(to.followed_by(rest)?)),
            None => Ok(None),
        }
    }

    /// The name of the entry of `at` that the path is.
    pub(crate) fn entry_of(&self, at: &FPath) -> Option<&str>
        ensures { MatchOption result ((a : Part) → self.now ≢ child at.now a) (λ name. self.now ≡ child at.now name.now) }
    {
        let rest = rest_after(self.parts.as_slice(), at.parts.as_slice())?;
        if rest.len() != 1 {
            return None;
        }
        Some(rest[0].as_str())
    }
}
