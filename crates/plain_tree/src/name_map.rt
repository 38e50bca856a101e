//! Rules by which names come to another form.
ghost use Rattle.std.specs.Prelude.{◌≡◌, IsTrue, IsFalse, IfOk, Err, Some, None, if◌then◌else◌};
ghost use Rattle.std.specs.List.{list_all};
ghost use Rattle.std.specs.Option.{option_map};
ghost use Rattle.plain_tree.specs.Names.{is_name};
ghost use Rattle.plain_tree.specs.Mapped.{mapped_name, mapped_path};

use crate::name::{Name, NameNewFault};
use std::alloc::{AllocError, Global};
use std::str;
use unicode_normalization::to_nfc;

/// What becomes of names on the way from one vault into another.
#[derive(Clone, Copy, PartialEq, Eq)]
pub enum NameMap {
    /// Each name stays as it is.
    Same,
    /// A name that is UTF-8 comes to Unicode's normalization form C. Any other stays as it is.
    Nfc,
}

impl NameMap {
    /// What the rule makes of a name. It is refused exactly where that is no name: form C can be longer than 255 bytes.
    pub fn apply(&self, alloc: Global, name: &Name) -> Result<Name, NameNewFault>
        ensures value { IfOk result (λ mapped. mapped ≡ mapped_name self.now name.now) }
        ensures named { IfOk result (λ mapped. IsTrue (is_name (mapped_name self.now name.now))) }
        ensures refused { result ≡ Err NameNewFault.BadName → IsFalse (is_name (mapped_name self.now name.now)) }
    {
        match map_name(alloc, *self, name)? {
            Some(mapped) => Ok(mapped),
            None => Err(NameNewFault::BadName),
        }
    }
}

// What the rule makes of each of these names, or `None` where one of that is no name.
pub(crate) fn map_names(
    alloc: Global,
    names: NameMap,
    path: &[Name],
) -> Result<Option<Vec<Name>>, AllocError>
    ensures { IfOk result (λ found. option_map (λ v. v.items) found ≡ (if list_all is_name (mapped_path names path.now) then Some (mapped_path names path.now) else None)) }
{
    let mut mapped = Vec::new(alloc);
    for name in path {
        match map_name(alloc, names, name)? {
            Some(new) => mapped.push(new)?,
            None => return Ok(None),
        }
    }
    Ok(Some(mapped))
}

// What the rule makes of a name, or `None` where that is no name.
fn map_name(alloc: Global, names: NameMap, name: &Name) -> Result<Option<Name>, AllocError>
    ensures { IfOk result (λ found. found ≡ (if is_name (mapped_name names name.now) then Some (mapped_name names name.now) else None)) }
{
    match names {
        NameMap::Same => Ok(Some(name.copy()?)),
        NameMap::Nfc => Ok(Name::from_vec(nfc_of(alloc, name.bytes())?)),
    }
}

// The form C of bytes that are UTF-8, or the bytes where they aren't.
fn nfc_of(alloc: Global, bytes: &[u8]) -> Result<Vec<u8>, AllocError>
    ensures { IfOk result (λ mapped. mapped.items ≡ mapped_name NameMap.Nfc bytes.now) }
{
    match str::from_utf8(bytes) {
        Ok(text) => Ok(to_nfc(alloc, text)?.into_bytes()),
        Err(_) => Vec::from_slice(alloc, bytes),
    }
}
