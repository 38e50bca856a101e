//! Looking at single paths of a folder.
ghost use Rattle.std.specs.Prelude.{◌≡◌, ◌<◌, IfOk};
ghost use Rattle.folder_spec.specs.View.{kind_found};
ghost use Rattle.folder_spec.specs.Seen.{IfSeen, ShowsFile, under};
ghost use Rattle.folder_model.specs.Answers.{CountsAbove};
ghost use Rattle.vault_read.specs.Looking.{small_file};

use folder_model::{FPath, Folder, Kind};
use folder_spec::FolderFault;
use std::alloc::Global;
use vault_values::Bytes;

/// What stands where a small file is looked for.
#[derive(Drop)]
pub enum SmallFile {
    Missing,
    /// Something that is no file.
    Other,
    /// A file of more bytes than the limit.
    TooLarge,
    /// A file with these bytes.
    Whole(Bytes),
}

/// What stands at a path behind a root.
pub fn kind_under<F: Folder>(
    folder: &mut F,
    root: &FPath,
    rest: &FPath,
) -> Result<Kind, FolderFault>
    ensures told { F.told folder.new ≡ F.told folder.old }
    ensures kind { IfOk result (λ kind. IfSeen (F.told folder.old) (λ v. kind ≡ kind_found (under root.now v rest.now))) }
    ensures counts { CountsAbove (F.faults folder.old) (F.faults folder.new) result }
{
    let at = root.joined(rest)?;
    folder.kind(&at)
}

// The file of at most so many bytes at a path behind a root.
pub(crate) fn read_under<F: Folder>(
    alloc: Global,
    folder: &mut F,
    root: &FPath,
    rest: &FPath,
    limit: usize,
) -> Result<SmallFile, FolderFault>
    requires { limit < 18446744073709551615 }
    ensures told { F.told folder.new ≡ F.told folder.old }
    ensures file { IfOk result (λ file. IfSeen (F.told folder.old) (λ v. file ≡ small_file limit (under root.now v rest.now))) }
    ensures counts { CountsAbove (F.faults folder.old) (F.faults folder.new) result }
{
    let at = root.joined(rest)?;
    read_small(alloc, folder, &at, limit)
}

/// The file of at most so many bytes at a path. It takes the memory of that many, and one more.
pub fn read_small<F: Folder>(
    alloc: Global,
    folder: &mut F,
    at: &FPath,
    limit: usize,
) -> Result<SmallFile, FolderFault>
    requires { limit < 18446744073709551615 }
    ensures told { F.told folder.new ≡ F.told folder.old }
    ensures file { IfOk result (λ file. IfSeen (F.told folder.old) (λ v. file ≡ small_file limit (v at.now))) }
    ensures counts { CountsAbove (F.faults folder.old) (F.faults folder.new) result }
{
    match folder.kind(at)? {
        Kind::Missing => Ok(SmallFile::Missing),
        Kind::File => read_file(alloc, folder, at, limit),
        Kind::Dir => Ok(SmallFile::Other),
        Kind::Other => Ok(SmallFile::Other),
    }
}

// A file's bytes, if there are at most so many.
fn read_file<F: Folder>(
    alloc: Global,
    folder: &mut F,
    at: &FPath,
    limit: usize,
) -> Result<SmallFile, FolderFault>
    requires limit { limit < 18446744073709551615 }
    requires file { IfSeen (F.told folder.old) (λ v. ShowsFile v at.now) }
    ensures told { F.told folder.new ≡ F.told folder.old }
    ensures file { IfOk result (λ file. IfSeen (F.told folder.old) (λ v. file ≡ small_file limit (v at.now))) }
    ensures counts { CountsAbove (F.faults folder.old) (F.faults folder.new) result }
{
    let mut bytes = vec![in alloc; 0u8; limit + 1]?;
    let length = folder.read(at, 0, bytes.as_mut_slice())?;
    if length > limit {
        return Ok(SmallFile::TooLarge);
    }
    bytes.truncate(length);
    Ok(SmallFile::Whole(Bytes::new(bytes)))
}
