//! Paths of the plain tree.
ghost use Rattle.std.specs.Prelude.{◌≡◌, ◌≤◌, [], ◌∷◌, ◌++◌, IsTrue, IsFalse, IfOk, Some, None, string_bytes, length};
ghost use Rattle.std.specs.List.{list_all, flat_map};
ghost use Rattle.plain_tree.specs.Names.{is_name};
ghost use Rattle.plain_tree.specs.Mapped.{mapped_path};
ghost use Rattle.plain_tree.specs.Shown.{shown, shown_path};
ghost use Rattle.plain_tree.specs.Reading.{read_path};

use crate::name::{Name, NameNewFault};
use crate::name_map::{NameMap, map_names};
use crate::reading::{MAX_PARTS, read_path};
use std::alloc::{AllocError, Global};
use std::marker::Model;

/// A path of the plain tree: its names from the root down. The root has none. Contracts see it as
/// the list of its names. Paths are ordered name by name, a prefix first.
#[derive(Drop)]
pub struct PlainPath {
    names: Vec<Name>,
}

impl Model for PlainPath {
    ghost use Rattle.std.specs.Prelude.{ℕ, List, IsTrue};
    ghost use Rattle.std.specs.List.{list_all};
    ghost use Rattle.plain_tree.specs.Names.{is_name};

    ghost Value = { List (List ℕ) };

    ghost view = { λ path. path.names.items };

    ghost invariant = { λ path. IsTrue (list_all is_name path.names.items) };
}

/// Why a text gave no path.
#[derive(Clone, Copy, PartialEq, Eq)]
pub enum PathFault {
    /// The text is no path.
    BadPath,
    /// Memory was refused.
    NoMemory,
}

impl From<AllocError> for PathFault {
    ghost use Rattle.std.specs.Prelude.{◌≡◌};
    ghost use Rattle.plain_tree.specs.declared.path.PathFault.TheVariants.{NoMemory};

    ghost from_gives = { λ _ fault. fault ≡ NoMemory };

    fn from(_error: AllocError) -> PathFault {
        PathFault::NoMemory
    }
}

impl PlainPath {
    /// The root. It takes no memory.
    pub fn root(alloc: Global) -> PlainPath
        ensures { result ≡ [] }
    {
        PlainPath {
            names: Vec::new(alloc),
        }
    }

    /// The path that a text writes, as shown forms do: the empty text is the root, slashes part the
    /// names, `\xHH` with lower-case digits is a byte, and other bytes stand for themselves. It is
    /// refused where a backslash doesn't begin such an escape, a part isn't a name, or there are
    /// more than 64 parts.
    pub fn parse(alloc: Global, text: &str) -> Result<PlainPath, PathFault>
        ensures value { IfOk result (λ path. read_path text.now ≡ Some path) }
        ensures refused { result ≡ Err PathFault.BadPath → read_path text.now ≡ None }
    {
        match read_path(alloc, text)? {
            Some(names) => Ok(PlainPath { names }),
            None => Err(PathFault::BadPath),
        }
    }

    /// The path of that name in the directory that this path leads to.
    pub fn child(&self, name: &Name) -> Result<PlainPath, AllocError>
        ensures { IfOk result (λ path. path ≡ self.now ++ name.now ∷ []) }
    {
        let mut names = copy_names(*self.names.allocator(), self.names())?;
        names.push(name.copy()?)?;
        Ok(PlainPath { names })
    }

    /// An equal path.
    pub fn copy(&self) -> Result<PlainPath, AllocError>
        ensures { IfOk result (λ path. path ≡ self.now) }
    {
        Ok(PlainPath {
            names: copy_names(*self.names.allocator(), self.names())?,
        })
    }

    /// The path whose names are what the rule makes of this one's. It is refused exactly where one of that is no name.
    pub fn mapped(&self, names: NameMap) -> Result<PlainPath, NameNewFault>
        ensures value { IfOk result (λ path. path ≡ mapped_path names self.now) }
        ensures named { IfOk result (λ path. IsTrue (list_all is_name (mapped_path names self.now))) }
        ensures refused { result ≡ Err NameNewFault.BadName → IsFalse (list_all is_name (mapped_path names self.now)) }
    {
        match map_names(*self.names.allocator(), names, self.names())? {
            Some(mapped) => Ok(PlainPath { names: mapped }),
            None => Err(NameNewFault::BadName),
        }
    }

    /// Its names in order.
    pub fn names(&self) -> &[Name]
        ensures value { result.now ≡ self.now }
        ensures named { IsTrue (list_all is_name self.now) }
    {
        self.names.as_slice()
    }

    /// The shown form of the path: those of its names, joined by `/`. The root's is empty.
    pub fn shown(&self) -> Result<String, AllocError>
        ensures value { IfOk result (λ text. string_bytes text ≡ shown_path self.now) }
        ensures reads_back { IfOk result (λ text. length self.now ≤ 64 → read_path (string_bytes text) ≡ Some self.now) }
    {
        shown_names(*self.names.allocator(), self.names())
    }
}

fn copy_names(alloc: Global, names: &[Name]) -> Result<Vec<Name>, AllocError>
    ensures { IfOk result (λ copied. copied.items ≡ names.now) }
{
    let mut copied = Vec::new(alloc);
    for name in names {
        copied.push(name.copy()?)?;
    }
    Ok(copied)
}

// The shown forms of the names, with a slash between each two.
#[tactic(auto, unfolding(crate::specs::Shown::shown_path))]
fn shown_names(alloc: Global, names: &[Name]) -> Result<String, AllocError>
    ensures { IfOk result (λ text. string_bytes text ≡ shown_path names.now) }
{
    match names {
        [] => Ok(String::new(alloc)),
        [first, others @ ..] => shown_before(first.shown()?, others),
    }
}

// The text, and then the shown form of each other name behind a slash.
fn shown_before(mut text: String, others: &[Name]) -> Result<String, AllocError>
    ensures { IfOk result (λ whole. string_bytes whole ≡ string_bytes text ++ flat_map (λ name. (47 ∷ []) ++ shown name) others.now) }
{
    for name in others {
        text.push('/')?;
        text.push_str(name.shown()?.as_str())?;
    }
    Ok(text)
}
