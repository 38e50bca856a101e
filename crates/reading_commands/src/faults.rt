//! The answers to a content that isn't written whole.
ghost use Rattle.std.specs.Prelude.{◌≡◌};
ghost use Rattle.reading_commands.specs.Faults.{of_cat};

use crate::decrypting::DecryptEnd;
use command_answers::{Answer, Damage, Limit};
use open_for_reading::{answer_to_find, limit_of};
use vault_faults::CatFault;

/// The answer to a content that isn't written whole.
pub(crate) fn answer_to_cat(fault: CatFault) -> Answer
    ensures { result ≡ of_cat fault }
{
    match fault {
        CatFault::Find(fault) => answer_to_find(fault),
        CatFault::Damaged(at, fault) => Answer::Damaged(at, Damage::Content(fault)),
        CatFault::Limit(limit) => Answer::Limit(limit_of(limit)),
        CatFault::Sink => Answer::OutputFault,
        CatFault::Failed => Answer::FolderFault,
        CatFault::NoMemory => Answer::OutOfMemory,
    }
}

impl From<DecryptEnd> for Answer {
    ghost use Rattle.std.specs.Prelude.{◌≡◌};
    ghost use Rattle.reading_commands.specs.DecryptFile.{answer_to_end};

    ghost from_gives = { λ end answer. answer ≡ answer_to_end end };

    fn from(end: DecryptEnd) -> Answer {
        match end {
            DecryptEnd::Done => Answer::Done,
            DecryptEnd::OutOfMemory => Answer::OutOfMemory,
            DecryptEnd::InputFault => Answer::InputFault,
            DecryptEnd::OutputFault => Answer::OutputFault,
            DecryptEnd::Damaged(fault) => Answer::DamagedInput(fault),
            DecryptEnd::TooLong => Answer::Limit(Limit::Input),
        }
    }
}
