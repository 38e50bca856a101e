//! The entries of a directory, in order.
ghost use Rattle.std.specs.Prelude.{◌≡◌, OnOk, MatchOption, string_bytes};
ghost use Rattle.folder_spec.specs.State.{Table, kind_of};
ghost use Rattle.folder_spec.specs.Path.{Path, child};
ghost use Rattle.folder_model.specs.Entries.{HasName, IsPlace, AddsItem, AddsEntry};

use crate::entry::Entry;
use folder_spec::{Kind, Spot};
use std::alloc::{AllocError, Global};
use std::cmp::Ordering;

/// What stands at a spot.
pub fn kind_at(spot: Spot) -> Kind
    ensures { result ≡ kind_of spot }
{
    match spot {
        Spot::Nothing => Kind::Missing,
        Spot::Directory => Kind::Dir,
        Spot::FileNode(_) => Kind::File,
        Spot::Odd => Kind::Other,
    }
}

// Where an entry of that name is to stand, if there is none.
fn place_of(entries: &[Entry], name: &str) -> Option<usize>
    ensures { MatchOption result (HasName entries.now name.now) (IsPlace entries.now name.now) }
{
    for (i, entry) in entries.iter().enumerate() {
        match entry.name.as_str().cmp(name) {
            Ordering::Less => {}
            Ordering::Equal => return None,
            Ordering::Greater => return Some(i),
        }
    }
    Some(entries.len())
}

fn add_entry(entries: &mut Vec<Entry>, name: String, kind: Kind) -> Result<(), AllocError>
    ensures { OnOk result (AddsItem (record { name = string_bytes name; kind = kind }) entries.old.items entries.new.items) }
{
    let Some(place) = place_of(entries.as_slice(), name.as_str()) else {
        return Ok(());
    };
    entries.insert(place, Entry::new(name, kind))?;
    Ok(())
}

/// Adds what stands at a spot under that name, if anything does and is not there yet.
pub fn add_spot(
    alloc: Global,
    entries: &mut Vec<Entry>,
    name: &str,
    spot: Spot,
) -> Result<(), AllocError>
    ensures { OnOk result ((t : Table) (at : Path) → t (child at name.now) ≡ spot → AddsEntry t at name.now entries.old.items entries.new.items) }
{
    match kind_at(spot) {
        Kind::Missing => Ok(()),
        kind => add_entry(entries, String::from_str(alloc, name)?, kind),
    }
}
