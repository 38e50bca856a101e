//! Places of a folder that a command names.
ghost use Rattle.std.specs.Prelude.{◌≡◌, ◌⊎◌, ◌≤◌, Err, IfErr, OnOk, IsTrue};
ghost use Rattle.folder_spec.specs.Seen.{IfSeen, ShowsFree};
ghost use Rattle.folder_spec.specs.View.{NoEntry};
ghost use Rattle.port_model.specs.Counts.{CountRose};
ghost use Rattle.open_for_reading.specs.Tests.{is_of_readying, is_of_moving};
ghost use Rattle.open_for_reading.specs.Places.{OfFree, OfMissing, overlap};
ghost use Rattle.open_for_reading.specs.Refusing.{Unless};

use command_answers::{Answer, Named};
use folder_model::{FPath, Folder, Kind};

/// Whether one of the paths begins with the other.
pub fn do_overlap(one: &FPath, other: &FPath) -> bool
    ensures { result ≡ overlap one.now other.now }
{
    other.starts_with(one) || one.starts_with(other)
}

/// That these paths overlap.
pub fn overlapping(one: &FPath, other: &FPath) -> Answer
    ensures { (result ≡ Answer.Overlap one.now other.now) ⊎ (result ≡ Answer.OutOfMemory) }
{
    let (Ok(one), Ok(other)) = (one.copy(), other.copy()) else {
        return Answer::OutOfMemory;
    };
    Answer::Overlap(one, other)
}

/// Nothing stands at a path, and a directory above it.
pub fn test_free<F: Folder>(folder: &mut F, at: &FPath) -> Result<(), Answer>
    ensures told { F.told folder.new ≡ F.told folder.old }
    ensures free { OnOk result (IfSeen (F.told folder.old) (λ v. ShowsFree v at.now)) }
    ensures refused { IfErr result (λ answer. IfSeen (F.told folder.old) (λ v. Unless answer (OfFree v at.now answer ⊥))) }
    ensures own { IfErr result (λ answer. IsTrue (is_of_moving answer)) }
    ensures readying { IfErr result (λ answer. IsTrue (is_of_readying answer)) }
    ensures grows { F.faults folder.old ≤ F.faults folder.new }
    ensures failed { result ≡ Err Answer.FolderFault → CountRose (F.faults folder.old) (F.faults folder.new) }
{
    let above = at.parent()?;
    match folder.kind(&above)? {
        Kind::Missing => Err(Answer::NotFound(Named::Folder(above))),
        Kind::Dir => test_missing(folder, at),
        _ => Err(Answer::WrongKind(Named::Folder(above))),
    }
}

// Nothing stands at a path.
fn test_missing<F: Folder>(folder: &mut F, at: &FPath) -> Result<(), Answer>
    ensures told { F.told folder.new ≡ F.told folder.old }
    ensures free { OnOk result (IfSeen (F.told folder.old) (λ v. v at.now ≡ NoEntry)) }
    ensures refused { IfErr result (λ answer. IfSeen (F.told folder.old) (λ v. Unless answer (OfMissing at.now (v at.now) answer ⊥))) }
    ensures own { IfErr result (λ answer. IsTrue (is_of_moving answer)) }
    ensures readying { IfErr result (λ answer. IsTrue (is_of_readying answer)) }
    ensures grows { F.faults folder.old ≤ F.faults folder.new }
    ensures failed { result ≡ Err Answer.FolderFault → CountRose (F.faults folder.old) (F.faults folder.new) }
{
    match folder.kind(at)? {
        Kind::Missing => Ok(()),
        _ => Err(Answer::NotEmpty(at.copy()?)),
    }
}
