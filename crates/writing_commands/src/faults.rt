//! The answers to what is made.
ghost use Rattle.std.specs.Prelude.{◌≡◌};
ghost use Rattle.writing_commands.specs.Faults.{answer_to_making};

use command_answers::Answer;
use open_for_changing::answer_to_put;
use vault_write::PutFault;

/// The answer to a call that makes something.
pub(crate) fn answer_to_making(made: Result<(), PutFault>) -> Answer
    ensures { result ≡ answer_to_making made }
{
    match made {
        Ok(()) => Answer::Done,
        Err(fault) => answer_to_put(fault),
    }
}
