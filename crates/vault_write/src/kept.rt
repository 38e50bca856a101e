//! What placing an item keeps for the next one.
ghost use Rattle.std.specs.Prelude.{◌≡◌, None};

use content_writing::Buffers;
use plain_tree::PlainPath;
use std::alloc::{AllocError, Global};
use vault_read::{DirPlace, Vault};

/// A directory of a vault that was entered, with its plain path.
#[derive(Drop)]
pub struct KeptDir {
    pub path: PlainPath,
    pub dir: DirPlace,
}

/// What is kept from one item to the next: the directory that was entered last, and the buffers of contents.
#[derive(Drop)]
pub struct Kept {
    pub dir: Option<KeptDir>,
    pub buffers: Option<Buffers>,
}

impl Kept {
    /// Nothing yet. It takes no memory.
    pub fn new() -> Kept
        ensures dir { result.dir ≡ None }
        ensures buffers { result.buffers ≡ None }
    {
        Kept {
            dir: None,
            buffers: None,
        }
    }
}

// The buffers that are kept, or new ones.
pub(crate) fn kept_or_new(
    alloc: Global,
    vault: &Vault,
    kept: Option<Buffers>,
) -> Result<Buffers, AllocError> {
    match kept {
        Some(buffers) => Ok(buffers),
        None => Buffers::new(alloc, vault.content_keys()),
    }
}
