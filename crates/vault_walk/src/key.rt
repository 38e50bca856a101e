//! Directories, in an order of their own.
ghost use Rattle.std.specs.Prelude.{◌≡◌, Some, IfOk, refl};
ghost use Rattle.std.specs.Cmp.{partial_equiv_from_equiv};
ghost use Rattle.std.specs.Cmp.Lexicographic.{nat_list_eq_equiv, nat_list_cmp_total, texts_ties, texts_po};
ghost use Rattle.plain_tree.specs.Order.{name_cmp, name_eq};
ghost use Rattle.vault_walk.specs.Nodes.{node_of};

use folder_model::FPath;
use std::alloc::{AllocError, Global};
use std::cmp::Ordering;
use std::marker::Model;
use vault_read::Directory;

/// The key of a directory, ordered by its bytes.
#[derive(Drop)]
pub(crate) struct Key {
    bytes: Vec<u8>,
}

impl Model for Key {
    ghost use Rattle.std.specs.Prelude.{ℕ, List};

    ghost Value = { List ℕ };

    ghost view = { λ key. key.bytes.items };
}

impl PartialEq for Key {
    ghost eq = { name_eq };

    ghost laws = { partial_equiv_from_equiv nat_list_eq_equiv };

    fn eq(&self, other: &Key) -> bool {
        self.bytes.as_slice() == other.bytes.as_slice()
    }
}

impl Eq for Key {
    ghost laws = { nat_list_eq_equiv };
}

impl PartialOrd for Key {
    ghost partial_cmp = { λ x y. Some (name_cmp x y) };

    ghost laws = { texts_po };

    fn partial_cmp(&self, other: &Key) -> Option<Ordering> {
        Some(self.cmp(other))
    }
}

impl Ord for Key {
    ghost cmp = { name_cmp };

    ghost total = { nat_list_cmp_total };

    ghost matches_partial_cmp = { λ x y. refl };

    ghost matches_eq = { texts_ties };

    fn cmp(&self, other: &Key) -> Ordering {
        self.bytes.as_slice().cmp(other.bytes.as_slice())
    }
}

impl Key {
    // The key of these bytes.
    pub(crate) fn new(alloc: Global, bytes: &[u8]) -> Result<Key, AllocError>
        ensures { IfOk result (λ key. key ≡ bytes.now) }
    {
        Ok(Key {
            bytes: Vec::from_slice(alloc, bytes)?,
        })
    }

    fn copy(&self) -> Result<Key, AllocError>
        ensures { IfOk result (λ key. key ≡ self.now) }
    {
        Key::new(*self.bytes.allocator(), self.bytes.as_slice())
    }
}

/// A directory, ordered by its folder and its key.
#[derive(PartialEq, Eq, PartialOrd, Ord, Drop)]
pub(crate) struct Node {
    pub(crate) folder: FPath,
    pub(crate) key: Key,
}

impl Node {
    pub(crate) fn copy(&self) -> Result<Node, AllocError>
        ensures { IfOk result (λ node. node ≡ self.now) }
    {
        Ok(Node {
            folder: self.folder.copy()?,
            key: self.key.copy()?,
        })
    }
}

// The node of a directory.
pub(crate) fn node_of(alloc: Global, dir: &Directory) -> Result<Node, AllocError>
    ensures { IfOk result (λ node. node ≡ node_of dir.now) }
{
    Ok(Node {
        folder: dir.folder.copy()?,
        key: Key::new(alloc, dir.key.as_slice())?,
    })
}
