//! The entries of a directory of the machine.

ghost use Rattle.std.specs.Prelude.{IsErr, IfOk};
ghost use Rattle.std.specs.Cmp.Lexicographic.{slice_cmp};
ghost use Rattle.std.specs.List.Sorted.{IsSortedByKey};
ghost use Rattle.std.specs.Ordering.{nat_cmp};
ghost use Rattle.folder_spec.specs.Listing.{Item};

use crate::causes::{Cause, kind_of};
use folder_model::Entry;
use std::alloc::Global;
use std::fs::DirEntry;
use std::io::ErrorKind;
use std::{fs, io};

/// The entries of the directory at a text, in byte order of their names.
pub fn entries_of(rt: &HostRuntime, alloc: Global, text: &str) -> Result<Vec<Entry>, Cause>
    ensures { IfOk result (λ entries. IsSortedByKey (λ (entry : Item). entry.name) (slice_cmp nat_cmp) entries.items) }
{
    let found = fs::read_dir(rt, text)?;
    let mut entries = Vec::new(alloc);
    for entry in found {
        add_found(alloc, &mut entries, entry)?;
    }
    sort(entries.as_mut_slice());
    if has_twins(entries.as_slice()) {
        return Err(Cause::NameTwice);
    }
    Ok(entries)
}

// Whether two neighbours have one name: a directory that changes while it is listed, or a damaged one, may show one twice.
fn has_twins(entries: &[Entry]) -> bool {
    for (one, next) in entries.iter().zip(entries.iter().skip(1)) {
        if one.name.as_str() == next.name.as_str() {
            return true;
        }
    }
    false
}

// Adds an entry that was found.
fn add_found(
    alloc: Global,
    entries: &mut Vec<Entry>,
    found: io::Result<DirEntry<HostRuntime, Global>>,
) -> Result<(), Cause>
    ensures { IsErr found → IsErr result }
{
    match found {
        Ok(found) => add(entries, entry_of(alloc, &found)?),
        Err(error) => Err(unlisted(error)),
    }
}

fn add(entries: &mut Vec<Entry>, entry: Entry) -> Result<(), Cause> {
    match entries.push(entry) {
        Ok(()) => Ok(()),
        Err(_) => Err(Cause::NoMemory),
    }
}

// An entry that was found.
fn entry_of(alloc: Global, found: &DirEntry<HostRuntime, Global>) -> Result<Entry, Cause> {
    let stands = found.file_type()?;
    let name = String::from_str(alloc, found.file_name())?;
    Ok(Entry::new(name, kind_of(stands)))
}

// Why an entry isn't listed. A name that isn't UTF-8 is found as an error.
fn unlisted(error: io::Error) -> Cause {
    match error.kind() {
        ErrorKind::InvalidFilename => Cause::NotText,
        _ => Cause::from(error),
    }
}

// Brings entries into byte order of their names.
fn sort(entries: &mut [Entry])
    ensures { IsSortedByKey (λ (entry : Item). entry.name) (slice_cmp nat_cmp) entries.new }
{
    entries.sort_unstable_by(|x, y| x.name.as_str().cmp(y.name.as_str()));
}
