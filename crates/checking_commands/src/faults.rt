//! The answers to a check that doesn't come to its end.
ghost use Rattle.std.specs.Prelude.{◌≡◌};
ghost use Rattle.checking_commands.specs.Faults.{of_check};

use command_answers::Answer;
use open_for_reading::limit_of;
use vault_check::CheckFault;

/// The answer to a check that doesn't come to its end.
pub(crate) fn answer_to_check(fault: CheckFault) -> Answer
    ensures { result ≡ of_check fault }
{
    match fault {
        CheckFault::Limit(limit) => Answer::Limit(limit_of(limit)),
        CheckFault::Failed => Answer::FolderFault,
        CheckFault::NoMemory => Answer::OutOfMemory,
    }
}
