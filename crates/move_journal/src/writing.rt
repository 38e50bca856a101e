//! Writing the journal's file.
ghost use Rattle.std.specs.Prelude.{◌≤◌, OnOk};
ghost use Rattle.folder_spec.specs.Seen.{IfSeen};
ghost use Rattle.folder_model.specs.Answers.{CountsAbove};
ghost use Rattle.folder_model.specs.Text.{IsParsed};
ghost use Rattle.move_journal.specs.Writing.{IsWorkFolder, Writes, WritesOnce, HasWritten};

use crate::journal::Journal;
use crate::text::text_of;
use folder_model::{FPath, Folder};
use folder_spec::FolderFault;
use folder_spec::laws::replaced_files_are_old_or_new;
use folder_staging::replace_file;
use std::alloc::Global;

/// Writes the journal in the work folder, in the place of one that may stand there.
///
/// At every moment a crash leaves the old journal or the new one. The new one is written, in the second form, to `journal.new`, synced,
/// renamed onto `journal`, and then the folder is settled.
pub fn write<F: Folder>(
    alloc: Global,
    folder: &mut F,
    work: &FPath,
    journal: &Journal,
) -> Result<(), FolderFault>
    requires source { IsParsed journal.now.source }
    requires target { IsParsed journal.now.target }
    requires items { journal.now.items ≤ 200000 }
    requires work_folder { IfSeen (F.told folder.old) (λ v. IsWorkFolder v work.now) }
    ensures moments { Writes work.now journal.now (F.told folder.old) (F.told folder.new) }
    ensures once { WritesOnce work.now journal.now (F.told folder.old) (F.told folder.new) }
    ensures written { OnOk result (HasWritten work.now journal.now (F.told folder.old) (F.told folder.new)) }
    ensures counts { CountsAbove (F.faults folder.old) (F.faults folder.new) result }
{
    replaced_files_are_old_or_new();
    let text = text_of(alloc, journal)?;
    let new = work.child("journal.new")?;
    let at = work.child("journal")?;
    replace_file(folder, &new, &at, text.as_bytes())
}
