//! The answers to an item that isn't made.
ghost use Rattle.std.specs.Prelude.{◌≡◌};
ghost use Rattle.open_for_changing.specs.Faults.{of_put};

use command_answers::{Answer, Damage};
use open_for_reading::{answer_to_find, limit_of};
use vault_write::PutFault;

/// The answer to an item that isn't made.
pub fn answer_to_put(fault: PutFault) -> Answer
    ensures { result ≡ of_put fault }
{
    match fault {
        PutFault::Find(fault) => answer_to_find(fault),
        PutFault::NotAllowed(path) => Answer::NotAllowed(path),
        PutFault::Taken(at) => Answer::Taken(at),
        PutFault::Damaged(at, fault) => Answer::Damaged(at, Damage::Content(fault)),
        PutFault::Limit(limit) => Answer::Limit(limit_of(limit)),
        PutFault::ZeroRandom => Answer::ZeroRandom,
        PutFault::Source => Answer::InputFault,
        PutFault::Random => Answer::RandomFault,
        PutFault::Failed => Answer::FolderFault,
        PutFault::NoMemory => Answer::OutOfMemory,
    }
}
