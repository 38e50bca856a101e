//! The answers to faults of reading a vault.
ghost use Rattle.std.specs.Prelude.{◌≡◌};
ghost use Rattle.open_for_reading.specs.Faults.{of_find, of_limit};

use command_answers::{Answer, Damage, Limit, Named};
use vault_faults::FindFault;

/// The answer to a plain path that isn't found or entered.
pub fn answer_to_find(fault: FindFault) -> Answer
    ensures { result ≡ of_find fault }
{
    match fault {
        FindFault::NotFound(path) => Answer::NotFound(Named::Plain(path)),
        FindFault::WrongKind(path) => Answer::WrongKind(Named::Plain(path)),
        FindFault::NoDirKey(at) => Answer::Damaged(at, Damage::NoDirKey),
        FindFault::NoFolder(at) => Answer::Damaged(at, Damage::NoFolder),
        FindFault::Failed => Answer::FolderFault,
        FindFault::NoMemory => Answer::OutOfMemory,
    }
}

/// The limit that reading passes.
pub fn limit_of(limit: vault_faults::Limit) -> Limit
    ensures { result ≡ of_limit limit }
{
    match limit {
        vault_faults::Limit::Depth => Limit::Depth,
        vault_faults::Limit::Items => Limit::Items,
        vault_faults::Limit::Length(at) => Limit::Length(at),
        vault_faults::Limit::Input => Limit::Input,
    }
}
