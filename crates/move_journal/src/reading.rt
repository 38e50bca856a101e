//! Reading the journal's file.
ghost use Rattle.std.specs.Prelude.{◌≡◌, ◌≤◌, Err, IfOk};
ghost use Rattle.folder_spec.specs.Seen.{IfSeen};
ghost use Rattle.port_model.specs.Counts.{CountRose};
ghost use Rattle.move_journal.specs.declared.journal.JournalFault.TheVariants.{Failed};
ghost use Rattle.move_journal.specs.Journal.{IsJournal};
ghost use Rattle.move_journal.specs.Reading.{ReadsAs, journal_bytes};

use crate::journal::{Journal, JournalFault};
use crate::parse::parse;
use folder_model::{FPath, Folder, Kind};
use std::alloc::Global;

/// Reads the journal in the work folder.
///
/// A journal that is accepted has its text in one of the two forms, and no more than 65,536 bytes. Otherwise the answer names the first line
/// that fits no journal.
pub fn read<F: Folder>(alloc: Global, folder: &mut F, work: &FPath) -> Result<Journal, JournalFault>
    ensures told { F.told folder.new ≡ F.told folder.old }
    ensures answer { IfSeen (F.told folder.old) (λ v. ReadsAs (journal_bytes v work.now) result) }
    ensures journal { IfOk result (λ journal. IsJournal journal) }
    ensures grows { F.faults folder.old ≤ F.faults folder.new }
    ensures failed { result ≡ Err Failed → CountRose (F.faults folder.old) (F.faults folder.new) }
{
    let at = work.child("journal")?;
    match folder.kind(&at)? {
        Kind::File => {}
        _ => return Err(JournalFault::NoJournal),
    }
    let mut buffer = vec![in alloc; 0u8; 65_537]?;
    let bytes = buffer.as_mut_slice();
    let length = folder.read(&at, 0, bytes)?;
    if length > 65_536 {
        return Err(JournalFault::TooLarge);
    }
    parse(alloc, &bytes[..length])
}
