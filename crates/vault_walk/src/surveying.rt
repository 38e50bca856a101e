//! Surveys and walks of vaults.
ghost use Rattle.std.specs.Prelude.{◌≡◌, ◌≤◌, ◌↔◌, ◌++◌, [], map, length, List, ◌∷◌, IfOk, IfErr, MatchOption, Err, IsTrue, Contains};
ghost use Rattle.std.specs.BTreeSet.{contains};
ghost use Rattle.std.specs.List.Sorted.{IsStrictlySortedBy};
ghost use Rattle.folder_model.specs.Answers.{CountsAbove, OnlyLooks};
ghost use Rattle.folder_model.specs.Order.{path_cmp};
ghost use Rattle.folder_spec.specs.Path.{Path};
ghost use Rattle.folder_spec.specs.Seen.{IfSeen, IsSeen, under, ShowsFile};
ghost use Rattle.folder_spec.specs.View.{View};
ghost use Rattle.plain_tree.specs.declared.NodeKind.TheVariants as node;
ghost use Rattle.vault_read.specs.OwnFolders.{HasOwnFolders};
ghost use Rattle.vault_faults.specs.declared.fault.Limit.TheVariants.{Depth, Items};
ghost use Rattle.vault_spec.specs.Findings.{IsClean};
ghost use Rattle.vault_spec.specs.Plan.{Planned};
ghost use Rattle.vault_spec.specs.Vault.{format_of};
ghost use Rattle.vault_walk.specs.Found.{found_cmp};
ghost use Rattle.vault_walk.specs.Survey.{HasTooMany, IsOrdered, item_limit};
ghost use Rattle.vault_walk.specs.Surveyed.{findings_behind, notes_behind, placed, AreInOrder, ArePlaced, AreTold, HaveMet, IsFirstFinding, IsOnlyTooDeep, IsPlanOf, IsSurveyed, IsSurveyFault, IsWalkFault, IsWithin, ListsEachOnce};
ghost use Rattle.vault_walk.specs.Walking as walking;

use crate::apart::found_apart;
use crate::fault::{Finding, WalkFault};
use crate::found::Found;
use crate::laws::each_item_once_is_the_plan;
use crate::levels::{Walk, Way, walked};
use crate::order::in_order;
use crate::plan::{Plan, PlanItem, PlanItems};
use crate::twice::{Target, found_twice};
use folder_model::{FPath, Folder};
use folder_spec::FolderFault;
use std::alloc::{AllocError, Global};
use std::collections::BTreeSet;
use vault_read::Vault;
use vault_read::laws::clean_vaults_are_orderly;
use vault_spec::laws::what_stands_is_found_step_by_step;

/// What a survey tells of a vault: its items, its findings, which have the numbers 1 to 11, and its notes, which have the number 14.
#[derive(Drop)]
pub struct Surveyed {
    pub plan: Plan,
    pub findings: Vec<Finding>,
    pub notes: Vec<FPath>,
}

/// The items, the findings and the notes of a vault.
///
/// Findings are in order of their paths, and at one path of their numbers. Notes are in order of their paths. Items are in order of
/// their paths, and where there is a finding, each directory's items have the path by which it was reached first.
pub fn survey<F: Folder>(
    alloc: Global,
    folder: &mut F,
    vault: &Vault,
) -> Result<Surveyed, WalkFault>
    ensures looks { OnlyLooks (F.told folder.old) (F.told folder.new) (result ≡ Err WalkFault.Failed) (F.faults folder.old) (F.faults folder.new) }
    ensures survey { IfOk result (λ surveyed. IfSeen (F.told folder.old) (λ v. IsSurveyed vault.now.root (format_of vault.now.vault) (under vault.now.root v) surveyed)) }
    ensures plan { IfOk result (λ surveyed. IfSeen (F.told folder.old) (λ v. IsClean (format_of vault.now.vault) (under vault.now.root v) → HasOwnFolders vault.now.vault (under vault.now.root v)
        → IsPlanOf vault.now.root (format_of vault.now.vault) (under vault.now.root v) surveyed.plan.items)) }
    ensures files { IfOk result (λ surveyed. IfSeen (F.told folder.old) (λ v. (item : Planned) → Contains surveyed.plan.items item → item.node ≡ node.File → ShowsFile v item.at)) }
    ensures behind { IfOk result (λ surveyed. (item : Planned) → Contains surveyed.plan.items item → (rest : Path) × (item.at ≡ vault.now.root ++ rest)) }
    ensures within { IfOk result (λ surveyed. IfSeen (F.told folder.old) (λ v. IsWithin (format_of vault.now.vault) (under vault.now.root v))) }
    ensures size { IfOk result (λ surveyed. length surveyed.plan.items ≤ item_limit) }
    ensures items { result ≡ Err (WalkFault.Limit Items) → IfSeen (F.told folder.old) (λ v. HasTooMany (format_of vault.now.vault) (under vault.now.root v)) }
    ensures depth { result ≡ Err (WalkFault.Limit Depth) → IfSeen (F.told folder.old) (λ v. IsOnlyTooDeep (format_of vault.now.vault) (under vault.now.root v)) }
    ensures fault { IfErr result (λ fault. IsSurveyFault fault) }
{
    what_stands_is_found_step_by_step();
    each_item_once_is_the_plan();
    clean_vaults_are_orderly();
    let Walk {
        visits,
        items,
        found,
        targets,
        ..
    } = walked(alloc, folder, vault)?;
    let found = all_found(alloc, folder, vault, visits.as_slice(), found, targets)?;
    Ok(survey_of(alloc, vault.root(), items, found)?)
}

/// The items of a clean vault, in order of their paths. Where a vault isn't clean, the first finding.
pub fn walk<F: Folder>(alloc: Global, folder: &mut F, vault: &Vault) -> Result<Plan, WalkFault>
    ensures looks { OnlyLooks (F.told folder.old) (F.told folder.new) (result ≡ Err WalkFault.Failed) (F.faults folder.old) (F.faults folder.new) }
    ensures clean { IfOk result (λ plan. IfSeen (F.told folder.old) (λ v. IsClean (format_of vault.now.vault) (under vault.now.root v))) }
    ensures plan { IfOk result (λ plan. IfSeen (F.told folder.old) (λ v. HasOwnFolders vault.now.vault (under vault.now.root v)
        → IsPlanOf vault.now.root (format_of vault.now.vault) (under vault.now.root v) plan.items)) }
    ensures each { IfOk result (λ plan. IfSeen (F.told folder.old) (λ v. ListsEachOnce vault.now.root (format_of vault.now.vault) (under vault.now.root v) plan.items)) }
    ensures ordered { IfOk result (λ plan. IfSeen (F.told folder.old) (λ v. IsOrdered plan.items)) }
    ensures files { IfOk result (λ plan. IfSeen (F.told folder.old) (λ v. (item : Planned) → Contains plan.items item → item.node ≡ node.File → ShowsFile v item.at)) }
    ensures behind { IfOk result (λ plan. (item : Planned) → Contains plan.items item → (rest : Path) × (item.at ≡ vault.now.root ++ rest)) }
    ensures size { IfOk result (λ plan. length plan.items ≤ item_limit) }
    ensures not_clean { (finding : Finding) → result ≡ Err (WalkFault.NotClean finding) → (v : View) → IsSeen (F.told folder.old) v
        → IsFirstFinding vault.now.root (format_of vault.now.vault) (under vault.now.root v) finding }
    ensures items { result ≡ Err (WalkFault.Limit Items) → IfSeen (F.told folder.old) (λ v. HasTooMany (format_of vault.now.vault) (under vault.now.root v)) }
    ensures depth { result ≡ Err (WalkFault.Limit Depth) → IfSeen (F.told folder.old) (λ v. IsOnlyTooDeep (format_of vault.now.vault) (under vault.now.root v)) }
    ensures within { IfOk result (λ plan. IfSeen (F.told folder.old) (λ v. IsWithin (format_of vault.now.vault) (under vault.now.root v))) }
    ensures limits_first { (finding : Finding) → result ≡ Err (WalkFault.NotClean finding) → IfSeen (F.told folder.old) (λ v. IsWithin (format_of vault.now.vault) (under vault.now.root v)) }
    ensures fault { IfErr result (λ fault. IsWalkFault fault) }
{
    let Surveyed { plan, findings, .. } = survey(alloc, folder, vault)?;
    match first_of(findings) {
        Some(first) => Err(WalkFault::NotClean(first)),
        None => Ok(plan),
    }
}

// The first finding, if there is one.
fn first_of(findings: Vec<Finding>) -> Option<Finding>
    ensures { MatchOption result (findings.items ≡ []) (λ first. (rest : List Finding) × (findings.items ≡ first ∷ rest)) }
{
    findings.into_iter().next()
}

// All that is found in a vault, in order: what was found in the directories that were visited, what is found apart from these, and
// their items that have one directory.
fn all_found<F: Folder>(
    alloc: Global,
    folder: &mut F,
    vault: &Vault,
    visits: &[Way],
    mut found: Vec<Found>,
    targets: Vec<Target>,
) -> Result<Vec<Found>, FolderFault>
    ensures told { F.told folder.new ≡ F.told folder.old }
    ensures ordered { IfOk result (λ all. IsStrictlySortedBy found_cmp all.items) }
    ensures found { IfOk result (λ all. IfSeen (F.told folder.old) (λ v. HaveMet (format_of vault.now.vault) (under vault.now.root v) visits.now found.items targets.items
        → AreTold (format_of vault.now.vault) (under vault.now.root v) all.items)) }
    ensures counts { CountsAbove (F.faults folder.old) (F.faults folder.new) result }
{
    what_stands_is_found_step_by_step();
    let reached = folders_of(alloc, visits)?;
    let mut apart = found_apart(alloc, folder, vault, &reached)?;
    let mut twice = found_twice(alloc, targets)?;
    found.append(&mut apart)?;
    found.append(&mut twice)?;
    Ok(in_order(found))
}

// The folders of directories.
fn folders_of(alloc: Global, visits: &[Way]) -> Result<BTreeSet<FPath>, AllocError>
    ensures { IfOk result (λ folders. (at : Path) → IsTrue (contains path_cmp folders at) ↔ ((way : walking.Way) × Contains visits.now way × (way.dir.folder ≡ at))) }
{
    let mut folders = BTreeSet::new(alloc);
    for way in visits {
        folders.insert(way.dir.folder.copy()?)?;
    }
    Ok(folders)
}

// What a survey tells, by the items of a vault and all that is found there, behind the vault's root.
fn survey_of(
    alloc: Global,
    root: &FPath,
    items: Vec<PlanItem>,
    found: Vec<Found>,
) -> Result<Surveyed, AllocError>
    ensures plan { IfOk result (λ surveyed. ArePlaced root.now items.items surveyed.plan.items) }
    ensures findings { IfOk result (λ surveyed. surveyed.findings.items ≡ findings_behind root.now found.items) }
    ensures notes { IfOk result (λ surveyed. surveyed.notes.items ≡ notes_behind root.now found.items) }
{
    let items = sorted(items);
    Ok(Surveyed {
        plan: plan_of(alloc, root, items)?,
        findings: findings_of(alloc, root, found.as_slice())?,
        notes: notes_of(alloc, root, found.as_slice())?,
    })
}

/// The same items in order of their paths, where each has a path of its own. It takes no memory.
pub fn sorted(mut items: Vec<PlanItem>) -> Vec<PlanItem>
    ensures { AreInOrder items.items result.items }
{
    items.sort_unstable_by(|one, other| one.path.cmp(&other.path));
    items
}

// The plan of these items, with their places behind the vault's root.
fn plan_of(alloc: Global, root: &FPath, items: Vec<PlanItem>) -> Result<Plan, AllocError>
    ensures { IfOk result (λ plan. plan.items ≡ map (placed root.now) items.items) }
{
    let mut placed = Vec::new(alloc);
    for item in items {
        placed.push(item_behind(root, item)?)?;
    }
    Ok(Plan {
        items: PlanItems::new(placed),
    })
}

fn item_behind(root: &FPath, item: PlanItem) -> Result<PlanItem, AllocError>
    ensures { IfOk result (λ behind. behind ≡ placed root.now item) }
{
    let at = root.joined(&item.at)?;
    Ok(PlanItem { at, ..item })
}

// Those with the numbers 1 to 11, with their paths behind the vault's root.
fn findings_of(alloc: Global, root: &FPath, found: &[Found]) -> Result<Vec<Finding>, AllocError>
    ensures { IfOk result (λ findings. findings.items ≡ findings_behind root.now found.now) }
{
    let mut findings = Vec::new(alloc);
    for one in found {
        if one.number <= 11 {
            findings.push(Finding {
                at: root.joined(&one.at)?,
                number: one.number,
                fault: None,
            })?;
        }
    }
    Ok(findings)
}

// Those with the number 14, with their paths behind the vault's root.
fn notes_of(alloc: Global, root: &FPath, found: &[Found]) -> Result<Vec<FPath>, AllocError>
    ensures { IfOk result (λ notes. notes.items ≡ notes_behind root.now found.now) }
{
    let mut notes = Vec::new(alloc);
    for one in found {
        if one.number == 14 {
            notes.push(root.joined(&one.at)?)?;
        }
    }
    Ok(notes)
}
