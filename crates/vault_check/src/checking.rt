//! Checking a vault.
ghost use Rattle.std.specs.Prelude.{◌≡◌, IfOk, IfErr, Err};
ghost use Rattle.folder_spec.specs.Path.{Path};
ghost use Rattle.folder_spec.specs.Seen.{IfSeen, IsSeen, under};
ghost use Rattle.folder_spec.specs.View.{View};
ghost use Rattle.folder_model.specs.Answers.{OnlyLooks};
ghost use Rattle.vault_faults.specs.declared.fault.Limit.TheVariants.{Depth, Items, Length};
ghost use Rattle.vault_spec.specs.Vault.{format_of};
ghost use Rattle.vault_walk.specs.Survey.{HasTooMany};
ghost use Rattle.vault_walk.specs.Surveyed.{IsOnlyTooDeep, IsWithin};
ghost use Rattle.vault_check.specs.Answers.{IsCheckFault};
ghost use Rattle.vault_check.specs.Checking.{IsReport, IsTooLong, NamesTooLong};

use crate::contents::{contents_of, damaged_contents};
use crate::fault::CheckFault;
use crate::order::findings_in_order;
use folder_model::{FPath, Folder};
use std::alloc::Global;
use vault_read::Vault;
use vault_read::laws::files_have_their_contents;
use vault_spec::laws::what_stands_is_found_step_by_step;
use vault_walk::{Finding, Surveyed, survey};

/// What a check of a vault tells: its findings, which have the numbers 1 to 13, and its notes, which have the number 14.
#[derive(Drop)]
pub struct Report {
    pub findings: Vec<Finding>,
    pub notes: Vec<FPath>,
}

/// The findings and the notes of a vault, with the first fault of each damaged content.
///
/// Findings are in order of their paths, and at one path of their numbers. Notes are in order of their paths. All contents are read, in order of their paths, and
/// the first of more than 2^40 bytes without a fault in these is a limit.
pub fn check<F: Folder>(alloc: Global, folder: &mut F, vault: &Vault) -> Result<Report, CheckFault>
    ensures looks { OnlyLooks (F.told folder.old) (F.told folder.new) (result ≡ Err CheckFault.Failed) (F.faults folder.old) (F.faults folder.new) }
    ensures report { IfOk result (λ report. IfSeen (F.told folder.old) (λ v. IsReport vault.now.root (format_of vault.now.vault) (under vault.now.root v) report)) }
    ensures within { IfOk result (λ report. IfSeen (F.told folder.old) (λ v. IsWithin (format_of vault.now.vault) (under vault.now.root v))) }
    ensures short { IfOk result (λ report. IfSeen (F.told folder.old) (λ v. (at : Path) → ¬ IsTooLong (format_of vault.now.vault) (under vault.now.root v) at)) }
    ensures items { result ≡ Err (CheckFault.Limit Items) → IfSeen (F.told folder.old) (λ v. HasTooMany (format_of vault.now.vault) (under vault.now.root v)) }
    ensures depth { result ≡ Err (CheckFault.Limit Depth) → IfSeen (F.told folder.old) (λ v. IsOnlyTooDeep (format_of vault.now.vault) (under vault.now.root v)) }
    ensures length { (at : Path) → result ≡ Err (CheckFault.Limit (Length at)) → (v : View) → IsSeen (F.told folder.old) v
        → NamesTooLong vault.now.root (format_of vault.now.vault) (under vault.now.root v) at }
    ensures limits_first { (at : Path) → result ≡ Err (CheckFault.Limit (Length at)) → IfSeen (F.told folder.old) (λ v. IsWithin (format_of vault.now.vault) (under vault.now.root v)) }
    ensures fault { IfErr result (λ fault. IsCheckFault fault) }
{
    what_stands_is_found_step_by_step();
    files_have_their_contents();
    let Surveyed {
        plan,
        mut findings,
        notes,
    } = survey(alloc, folder, vault)?;
    let contents = contents_of(alloc, plan.items.as_slice())?;
    let mut damaged = damaged_contents(alloc, folder, vault, contents.as_slice())?;
    findings.append(&mut damaged)?;
    Ok(Report {
        findings: findings_in_order(findings),
        notes,
    })
}
