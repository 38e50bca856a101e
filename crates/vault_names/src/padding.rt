//! Padding to whole blocks by PKCS#7 (RFC 5652, section 6.3): 1 to 16 bytes are added, each the number of bytes added.
ghost use Rattle.std.specs.Prelude.{◌≡◌, ◌≢◌, ℕ, ◌%◌, ◌≤◌, ◌↔◌, List, length, IfOk, MatchOption, IsTrue};
ghost use Rattle.vault_names.specs.Gocryptfs.{padded_bytes};

use std::alloc::{AllocError, Global};

/// The size of a block in bytes.
pub(crate) const BLOCK_SIZE: usize = 16;

/// The bytes with their padding.
#[tactic(auto, unfolding(crate::specs::Gocryptfs::padded_bytes))]
pub(crate) fn padded_bytes(alloc: Global, bytes: &[u8]) -> Result<Vec<u8>, AllocError>
    ensures { IfOk result (λ whole. whole.items ≡ padded_bytes bytes.now) }
{
    let added = BLOCK_SIZE - bytes.len() % BLOCK_SIZE;
    let mut whole = Vec::from_slice(alloc, bytes)?;
    whole.resize(bytes.len() + added, added as u8)?;
    Ok(whole)
}

/// The bytes whose padding gives these whole blocks, or `None` where there are none.
pub(crate) fn unpadded_bytes(whole: &[u8]) -> Option<&[u8]>
    requires { length whole.now % 16 ≡ 0 }
    ensures { MatchOption result ((bytes : List ℕ) → padded_bytes bytes ≢ whole.now) (λ bytes. padded_bytes bytes.now ≡ whole.now) }
{
    let last = *whole.last()?;
    let added = usize::from(last);
    if !may_be_added(added) {
        return None;
    }
    whole.strip_suffix(&[last; BLOCK_SIZE][..added])
}

// Whether padding can be of so many bytes.
fn may_be_added(count: usize) -> bool
    ensures { IsTrue result ↔ ((1 ≤ count) × (count ≤ 16)) }
{
    1 <= count && count <= BLOCK_SIZE
}
