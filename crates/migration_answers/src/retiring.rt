//! The answer to a source that isn't retired.
ghost use Rattle.std.specs.Prelude.{◌≡◌, ◌⊎◌, IsTrue};
ghost use Rattle.migration_answers.specs.Faults.{of_retire};
ghost use Rattle.migration_answers.specs.Stops.{is_of_refusal};
ghost use Rattle.retire_core.specs.Faults.{IsRetireFault};

use crate::faults::{answer_to_match, answer_to_walk, difference_of};
use crate::journals::{answer_to_journal, unusable};
use command_answers::{Answer, Flaw, Limit};
use folder_model::FPath;
use open_for_changing::answer_to_work;
use open_for_reading::answer_to_load;
use retire_core::RetireFault;

/// The answer to a source that isn't retired. `root` is that of the vault that isn't opened, if there is one.
pub fn answer_to_retire(work: &FPath, root: &FPath, fault: RetireFault) -> Answer
    ensures answers { (result ≡ Answer.OutOfMemory) ⊎ (result ≡ of_retire work.now root.now fault) }
    ensures own { IsRetireFault fault → IsTrue (is_of_refusal result) }
    ensures failed { result ≡ Answer.FolderFault → IsRetireFault fault → fault ≡ RetireFault.Failed }
{
    match fault {
        RetireFault::Work(fault) => answer_to_work(work, fault),
        RetireFault::Journal(fault) => answer_to_journal(work, fault),
        RetireFault::Unfinished => unusable(work, Flaw::Building),
        RetireFault::Overlap(first, second) => Answer::Overlap(first, second),
        RetireFault::Load(_, fault) => answer_to_load(root, fault),
        RetireFault::Walk(fault) => answer_to_walk(fault),
        RetireFault::NotAllowed(path) => Answer::NotAllowed(path),
        RetireFault::Meet(one, other) => Answer::Meet(one, other),
        RetireFault::Match(fault) => answer_to_match(fault),
        RetireFault::Differ(path, how) => Answer::Differ(path, difference_of(how)),
        RetireFault::Depth => Answer::Limit(Limit::Removal),
        RetireFault::Failed => Answer::FolderFault,
        RetireFault::NoMemory => Answer::OutOfMemory,
    }
}
