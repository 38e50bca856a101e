//! The answers to faults of the calls that both share.
ghost use Rattle.std.specs.Prelude.{◌≡◌};
ghost use Rattle.migration_answers.specs.Faults.{of_match, of_walk, of_where};

use command_answers::{Answer, Damage, Difference};
use open_for_reading::limit_of;
use tree_match::{MatchFault, Where};
use vault_walk::WalkFault;

/// The answer to a vault that isn't clean, or passes a limit.
pub(crate) fn answer_to_walk(fault: WalkFault) -> Answer
    ensures { result ≡ of_walk fault }
{
    match fault {
        WalkFault::NotClean(finding) => Answer::NotClean(finding.at, finding.number),
        WalkFault::Limit(limit) => Answer::Limit(limit_of(limit)),
        WalkFault::Failed => Answer::FolderFault,
        WalkFault::NoMemory => Answer::OutOfMemory,
    }
}

/// Where two trees differ.
pub(crate) fn difference_of(how: Where) -> Difference
    ensures { result ≡ of_where how }
{
    match how {
        Where::Missing => Difference::Missing,
        Where::Kind => Difference::Kind,
        Where::Content => Difference::Content,
        Where::Extra => Difference::Extra,
    }
}

/// The answer to vaults that aren't compared to the end.
pub(crate) fn answer_to_match(fault: MatchFault) -> Answer
    ensures { result ≡ of_match fault }
{
    match fault {
        MatchFault::Damaged(at, fault) => Answer::Damaged(at, Damage::Content(fault)),
        MatchFault::Limit(limit) => Answer::Limit(limit_of(limit)),
        MatchFault::Failed => Answer::FolderFault,
        MatchFault::NoMemory => Answer::OutOfMemory,
    }
}
