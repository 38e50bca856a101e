//! What comparing two vaults answers.
ghost use Rattle.std.specs.Prelude.{◌≡◌};
ghost use Rattle.tree_match.specs.Matching.{where_of};

use chunk_files::ChunkFault;
use folder_model::FPath;
use plain_tree::PlainPath;
use std::alloc::AllocError;
use vault_faults::{CatFault, Limit};

/// How an item of a vault differs from what another holds.
#[derive(Clone, Copy, PartialEq, Eq)]
pub enum How {
    /// No item there has its path.
    Missing,
    /// One is a directory and the other a file.
    Kind,
    /// Both are files, and their contents differ.
    Content,
}

/// How two vaults differ at a path.
#[derive(Clone, Copy, PartialEq, Eq)]
pub enum Where {
    Missing,
    Kind,
    Content,
    /// Only the vault that is to hold the other has an item there.
    Extra,
}

/// How a vault that is to hold another differs from it.
pub fn where_of(how: How) -> Where
    ensures { result ≡ where_of how }
{
    match how {
        How::Missing => Where::Missing,
        How::Kind => Where::Kind,
        How::Content => Where::Content,
    }
}

/// Whether a vault holds all items of another.
#[derive(Drop)]
pub enum Match {
    /// It does, and it holds no other items.
    Same,
    /// It does, and the item at this path is its first further one.
    Contained(PlainPath),
    /// It doesn't: the item at this path is the first that differs.
    Differs(PlainPath, How),
}

/// Why a plan isn't mapped.
#[derive(Drop)]
pub enum MapFault {
    /// A name of the item at this path, mapped, is no name. It is the first such item.
    NotAName(PlainPath),
    /// The items at these two paths have the same mapped path. The second is the first item that has that of an earlier one.
    Meet(PlainPath, PlainPath),
    NoMemory,
}

impl From<AllocError> for MapFault {
    ghost use Rattle.std.specs.Prelude.{◌≡◌};
    ghost use Rattle.tree_match.specs.declared.answer.MapFault.TheVariants.{NoMemory};

    ghost from_gives = { λ _ fault. fault ≡ NoMemory };

    fn from(_fault: AllocError) -> MapFault {
        MapFault::NoMemory
    }
}

/// Why two vaults aren't compared to the end.
#[derive(Drop)]
pub enum MatchFault {
    /// The content file at this path has this fault.
    Damaged(FPath, ChunkFault),
    /// The content file at the limit's path has more bytes than are read.
    Limit(Limit),
    /// The folder failed.
    Failed,
    NoMemory,
}

impl From<AllocError> for MatchFault {
    ghost use Rattle.std.specs.Prelude.{◌≡◌};
    ghost use Rattle.tree_match.specs.declared.answer.MatchFault.TheVariants.{NoMemory};

    ghost from_gives = { λ _ fault. fault ≡ NoMemory };

    fn from(_fault: AllocError) -> MatchFault {
        MatchFault::NoMemory
    }
}

impl From<CatFault> for MatchFault {
    ghost use Rattle.std.specs.Prelude.{◌≡◌};
    ghost use Rattle.tree_match.specs.Pieces.{of_reader};

    ghost from_gives = { λ fault result. result ≡ of_reader fault };

    fn from(fault: CatFault) -> MatchFault {
        match fault {
            CatFault::Damaged(at, fault) => MatchFault::Damaged(at, fault),
            CatFault::Limit(limit) => MatchFault::Limit(limit),
            CatFault::NoMemory => MatchFault::NoMemory,
            // a reader looks for no path and writes nothing
            CatFault::Find(_) | CatFault::Sink | CatFault::Failed => MatchFault::Failed,
        }
    }
}
