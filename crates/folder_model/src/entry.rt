//! The entries of directories.
ghost use Rattle.std.specs.Prelude.{◌≡◌, string_bytes};

use folder_spec::Kind;
use std::marker::Model;

/// One entry of a directory: its name and what stands there.
///
/// Contracts see the name as a list of bytes.
#[derive(Drop)]
pub struct Entry {
    pub name: String,
    pub kind: Kind,
}

impl Model for Entry {
    ghost use Rattle.std.specs.Prelude.{string_bytes};
    ghost use Rattle.folder_spec.specs.Listing.{Item};

    ghost Value = { Item };

    ghost view = { λ e. record { name = string_bytes e.name; kind = e.kind } };
}

impl Entry {
    pub fn new(name: String, kind: Kind) -> Self
        ensures name { result.name ≡ string_bytes name }
        ensures kind { result.kind ≡ kind }
    {
        Entry { name, kind }
    }
}
