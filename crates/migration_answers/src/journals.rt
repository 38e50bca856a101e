//! The answers to a journal that isn't of use.
ghost use Rattle.std.specs.Prelude.{◌≡◌, ◌⊎◌, IsTrue};
ghost use Rattle.migration_answers.specs.Faults.{of_journal};
ghost use Rattle.migration_answers.specs.Stops.{is_of_told_stop};

use command_answers::{Answer, Flaw, Limit};
use folder_model::FPath;
use move_journal::JournalFault;

/// The answer to a journal that isn't read.
pub(crate) fn answer_to_journal(work: &FPath, fault: JournalFault) -> Answer
    ensures answers { (result ≡ Answer.OutOfMemory) ⊎ (result ≡ of_journal work.now fault) }
    ensures failed { result ≡ Answer.FolderFault → fault ≡ JournalFault.Failed }
    ensures own { IsTrue (is_of_told_stop result) }
{
    match fault {
        JournalFault::NoJournal => unusable(work, Flaw::Missing),
        JournalFault::BadJournal(number) => unusable(work, Flaw::Line(number)),
        JournalFault::TooLarge => match work.child("journal") {
            Ok(at) => Answer::Limit(Limit::Length(at)),
            Err(_) => Answer::OutOfMemory,
        },
        JournalFault::Failed => Answer::FolderFault,
        JournalFault::NoMemory => Answer::OutOfMemory,
    }
}

/// That the journal in a work folder is of no use.
pub(crate) fn unusable(work: &FPath, why: Flaw) -> Answer
    ensures { (result ≡ Answer.OutOfMemory) ⊎ (result ≡ Answer.Unusable work.now why) }
{
    match work.copy() {
        Ok(work) => Answer::Unusable(work, why),
        Err(_) => Answer::OutOfMemory,
    }
}
