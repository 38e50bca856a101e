//! Where the paths of a folder stand on the machine, and what stands there.

ghost use Rattle.std.specs.Prelude.{◌≡◌, ◌∷◌, ◌++◌, ◌==◌, ◌||◌, not, map, IfOk, IfSome, IsSome, IsTrue, OnOk, string_bytes};
ghost use Rattle.std.specs.List.{list_all};
ghost use Rattle.std.specs.Rc.{rc_str_bytes};
ghost use Rattle.folder_model.specs.Text.{is_plain_part};
ghost use Rattle.folder_spec.specs.Path.{parent};
ghost use Rattle.host_places.specs.Noted.{Sees, has};
ghost use Rattle.host_places.specs.Places.{is_entry_name, names_entries, place_text};

use crate::causes::{Cause, kind_of};
use crate::noted::Noted;
use folder_model::{FPath, Kind};
use std::alloc::{AllocError, Global};
use std::fs;
use std::fs::Metadata;
use std::io::ErrorKind;
use std::os::unix::fs::MetadataExt;
use std::rc::RcStr;

/// What was found at a path: its text on the machine and what stands there, or none where no directory stands above it.
#[derive(Drop)]
pub struct Place {
    pub text: String,
    pub kind: Option<Kind>,
    pub metadata: Option<Metadata>,
}

/// Which of the machine's nodes a file or directory is.
#[derive(Clone, Copy, PartialEq, Eq)]
pub struct Node {
    pub device: u64,
    pub number: u64,
}

impl Node {
    pub fn of(metadata: &Metadata) -> Node {
        Node {
            device: metadata.dev(),
            number: metadata.ino(),
        }
    }
}

// Whether the part isn't empty, `.` or `..`.
fn is_plain(part: &str) -> bool
    ensures { result ≡ is_plain_part part.now }
{
    !(part.is_empty() || part == "." || part == "..")
}

// Whether the part has neither a slash nor the zero byte.
fn is_one_part(part: &str) -> bool
    ensures { result ≡ list_all (λ b. not (b == 47 || b == 0)) part.now }
{
    let bytes = part.as_bytes();
    !(bytes.contains(&b'/') || bytes.contains(&0))
}

// Whether the part names one entry of a directory.
fn is_entry_name(part: &str) -> bool
    ensures { result ≡ is_entry_name part.now }
{
    is_plain(part) && is_one_part(part)
}

// Whether each part of a path does.
fn are_entry_names(parts: &[RcStr]) -> bool
    ensures { result ≡ list_all (λ s. is_entry_name (rc_str_bytes s)) parts.now }
{
    parts.iter().all(|part| is_entry_name(part.as_str()))
}

/// Each part of a path must name an entry.
pub fn test_names(at: &FPath) -> Result<(), Cause>
    ensures { OnOk result (IsTrue (names_entries at.now)) }
{
    if are_entry_names(at.parts()) {
        Ok(())
    } else {
        Err(Cause::BadName)
    }
}

// The last part of a path must name an entry.
pub fn test_last_name(at: &FPath) -> Result<(), Cause>
    ensures { OnOk result (IsTrue (names_entries (parent at.now)) → IsTrue (names_entries at.now)) }
{
    let Some((name, _)) = at.parts().split_last() else {
        return Ok(());
    };
    if is_entry_name(name.as_str()) {
        Ok(())
    } else {
        Err(Cause::BadName)
    }
}

/// What the machine says of what stands at a text, without following a link there; `None` where nothing does.
pub fn metadata_at(rt: &HostRuntime, text: &str) -> Result<Option<Metadata>, Cause> {
    match fs::symlink_metadata(rt, text) {
        Ok(metadata) => Ok(Some(metadata)),
        Err(error) if error.kind() == ErrorKind::NotFound => Ok(None),
        Err(error) => Err(Cause::from(error)),
    }
}

// Whether a directory stands at a text.
fn is_directory(rt: &HostRuntime, text: &str) -> Result<bool, Cause> {
    match metadata_at(rt, text)? {
        Some(metadata) => Ok(metadata.is_dir()),
        None => Ok(false),
    }
}

/// The text of the path with these parts.
pub fn text_of(alloc: Global, base: &str, parts: &[RcStr]) -> Result<String, AllocError>
    ensures { IfOk result (λ text. string_bytes text ≡ place_text base.now (map (λ s. rc_str_bytes s) parts.now)) }
{
    let mut text = String::with_capacity(alloc, room_of(base, parts))?;
    text.push_str(base)?;
    add_parts(&mut text, parts)?;
    Ok(text)
}

// How many bytes the text of the path with these parts has.
fn room_of(base: &str, parts: &[RcStr]) -> usize {
    let mut room = base.len();
    for part in parts {
        room = room.saturating_add(part.len()).saturating_add(1);
    }
    room
}

// Adds each of these parts behind a slash.
fn add_parts(text: &mut String, parts: &[RcStr]) -> Result<(), AllocError>
    ensures { OnOk result (string_bytes text.new ≡ place_text (string_bytes text.old) (map (λ s. rc_str_bytes s) parts.now)) }
{
    for part in parts {
        add_part(text, part.as_str())?;
    }
    Ok(())
}

// Adds a part behind a slash.
fn add_part(text: &mut String, part: &str) -> Result<(), AllocError>
    ensures { OnOk result (string_bytes text.new ≡ string_bytes text.old ++ 47 ∷ part.now) }
{
    text.push_str("/")?;
    text.push_str(part)
}

// The first of these parts, at most so many.
pub fn up_to(parts: &[RcStr], most: usize) -> &[RcStr] {
    let count = most.min(parts.len());
    &parts[..count]
}

// Whether two lists of parts are one. Those that are compared mostly have one front, so the last parts are looked at first.
pub fn are_same(one: &[RcStr], other: &[RcStr]) -> bool {
    one.len() == other.len() && one.last() == other.last() && one == other
}

// Whether a path is another one or lies below it.
pub fn is_at_or_below(path: &FPath, at: &FPath) -> bool {
    are_same(up_to(path.parts(), at.depth()), at.parts())
}

// Goes down to a directory from a base, which is taken to be one, and looks at each path on the way of which no entry was seen: whether
// it is a directory, and no link leads there. How many of the directory's parts lead on.
fn walk(
    rt: &HostRuntime,
    alloc: Global,
    base: &str,
    noted: &Noted,
    dir: &FPath,
) -> Result<usize, Cause> {
    let mut here = FPath::base(alloc);
    let mut text = String::from_str(alloc, base)?;
    for (index, part) in dir.parts().iter().enumerate() {
        if !goes_down(rt, noted, &mut here, &mut text, part.as_str())? {
            return Ok(index);
        }
    }
    Ok(dir.depth())
}

// Goes one part further down from a path and its text: whether a directory stands there. What was found once isn't looked at again.
fn goes_down(
    rt: &HostRuntime,
    noted: &Noted,
    here: &mut FPath,
    text: &mut String,
    part: &str,
) -> Result<bool, Cause> {
    *here = here.child(part)?;
    add_part(text, part)?;
    Ok(noted.knows(here) || is_directory(rt, text.as_str())?)
}

// Whether a directory stands above a path, and no link leads there. Each part of the path must name an entry. What was found once isn't
// looked at again.
#[tactic(auto, using(crate::proofs::Dirs::sees_same, crate::proofs::Dirs::sees_after))]
fn reaches(
    rt: &HostRuntime,
    alloc: Global,
    base: &str,
    noted: &mut Noted,
    at: &FPath,
) -> Result<bool, Cause>
    ensures names { OnOk result (IsTrue (names_entries at.now)) }
    ensures sees { Sees noted.old noted.new }
    ensures known { IfOk result (λ reached. IsTrue reached → IsTrue (has noted.new.known (parent at.now))) }
    ensures changed { noted.new.changed ≡ noted.old.changed }
{
    if noted.knows_above(at)? {
        return Ok(true);
    }
    let dir = at.parent()?;
    let down = walk(rt, alloc, base, noted, &dir)?;
    let reached = down == dir.depth();
    noted.see_down(&dir, down.saturating_add(1), reached)?;
    Ok(reached)
}

/// Looks at what stands above a path, and notes that an entry there is seen: the path's text, or `None` where no directory stands
/// above it.
#[tactic(auto, using(crate::proofs::Dirs::sees_same, crate::proofs::Dirs::sees_after))]
pub fn reach(
    rt: &HostRuntime,
    alloc: Global,
    base: &str,
    noted: &mut Noted,
    at: &FPath,
) -> Result<Option<String>, Cause>
    ensures names { OnOk result (IsTrue (names_entries at.now)) }
    ensures text { IfOk result (λ reached. IfSome reached (λ text. string_bytes text ≡ place_text base.now at.now)) }
    ensures sees { Sees noted.old noted.new }
    ensures known { IfOk result (λ reached. IsSome reached → IsTrue (has noted.new.known (parent at.now))) }
    ensures changed { noted.new.changed ≡ noted.old.changed }
{
    if !reaches(rt, alloc, base, noted, at)? {
        return Ok(None);
    }
    Ok(Some(text_of(alloc, base, at.parts())?))
}

/// Looks at a path, and at what stands above it. A directory of which an entry was seen isn't looked at again.
#[tactic(auto, using(crate::proofs::Dirs::sees_same, crate::proofs::Dirs::sees_after))]
pub fn look(
    rt: &HostRuntime,
    alloc: Global,
    base: &str,
    noted: &mut Noted,
    at: &FPath,
) -> Result<Place, Cause>
    ensures names { OnOk result (IsTrue (names_entries at.now)) }
    ensures text { IfOk result (λ place. IsSome place.kind → string_bytes place.text ≡ place_text base.now at.now) }
    ensures sees { Sees noted.old noted.new }
    ensures known { IfOk result (λ place. IsSome place.kind → IsTrue (has noted.new.known (parent at.now))) }
    ensures changed { noted.new.changed ≡ noted.old.changed }
{
    match reach(rt, alloc, base, noted, at)? {
        Some(text) if noted.knew(at) => Ok(Place {
            text,
            kind: Some(Kind::Dir),
            metadata: None,
        }),
        Some(text) => place_at(rt, text, at.depth()),
        None => Ok(Place {
            text: String::new(alloc),
            kind: None,
            metadata: None,
        }),
    }
}

// What stands at the text of a path of so many parts. The base is taken to be a directory.
fn place_at(rt: &HostRuntime, text: String, depth: usize) -> Result<Place, Cause>
    ensures { IfOk result (λ place. string_bytes place.text ≡ string_bytes text) }
{
    if depth == 0 {
        return Ok(Place {
            text,
            kind: Some(Kind::Dir),
            metadata: None,
        });
    }
    let metadata = metadata_at(rt, text.as_str())?;
    let kind = match &metadata {
        Some(metadata) => kind_of(metadata.file_type()),
        None => Kind::Missing,
    };
    Ok(Place {
        text,
        kind: Some(kind),
        metadata,
    })
}
