//! The answer to a migration that stops.
ghost use Rattle.std.specs.Prelude.{◌≡◌, ◌⊎◌, IsTrue};
ghost use Rattle.folder_spec.specs.Path.{Path};
ghost use Rattle.migrate_core.specs.Faults.{IsMoveFault, is_of_begin};
ghost use Rattle.migration_answers.specs.Faults.{of_move};
ghost use Rattle.migration_answers.specs.Stops.{is_of_stop, is_of_told_stop};

use crate::faults::{answer_to_match, answer_to_walk, difference_of};
use crate::journals::answer_to_journal;
use command_answers::Answer;
use content_writing::PutFault;
use folder_model::FPath;
use migrate_core::MoveFault;
use open_for_changing::{answer_to_put, answer_to_work};
use open_for_reading::answer_to_load;

/// The answer to a migration that stops. `root` is that of the vault that isn't opened, if there is one.
pub fn answer_to_move(work: &FPath, root: &FPath, fault: MoveFault) -> Answer
    ensures answers { (result ≡ Answer.OutOfMemory) ⊎ (result ≡ of_move work.now root.now fault) }
    ensures failed { result ≡ Answer.FolderFault → IsMoveFault fault → fault ≡ MoveFault.Failed }
    ensures drawn { result ≡ Answer.RandomFault → fault ≡ MoveFault.Place PutFault.Random }
    ensures zeros { result ≡ Answer.ZeroRandom → fault ≡ MoveFault.Place PutFault.ZeroRandom }
    ensures taken { (at : Path) → result ≡ Answer.Taken at → fault ≡ MoveFault.Place (PutFault.Taken at) }
    ensures overlap { (first second : Path) → result ≡ Answer.Overlap first second → fault ≡ MoveFault.Overlap first second }
    ensures begins { IsMoveFault fault → IsTrue (is_of_begin fault) → IsTrue (is_of_stop result) }
    ensures goes_on { IsMoveFault fault → IsTrue (is_of_told_stop result) }
{
    match fault {
        MoveFault::Work(fault) => answer_to_work(work, fault),
        MoveFault::Journal(fault) => answer_to_journal(work, fault),
        MoveFault::Overlap(first, second) => Answer::Overlap(first, second),
        MoveFault::Load(_, fault) => answer_to_load(root, fault),
        MoveFault::Walk(fault) => answer_to_walk(fault),
        MoveFault::NotEmpty(at) => Answer::NotEmpty(at),
        MoveFault::NotAllowed(path) => Answer::NotAllowed(path),
        MoveFault::Meet(one, other) => Answer::Meet(one, other),
        MoveFault::Changed(plan, items, plan_now, items_now) => {
            Answer::Changed(plan, items, plan_now, items_now)
        }
        MoveFault::Match(fault) => answer_to_match(fault),
        MoveFault::Differ(path, how) => Answer::Differ(path, difference_of(how)),
        MoveFault::Place(fault) => answer_to_put(fault),
        MoveFault::SourceGone => match work.copy() {
            Ok(work) => Answer::Retired(work),
            Err(_) => Answer::OutOfMemory,
        },
        MoveFault::Failed => Answer::FolderFault,
        MoveFault::NoMemory => Answer::OutOfMemory,
    }
}
