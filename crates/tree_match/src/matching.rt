//! Whether a vault holds all items of another.
ghost use Rattle.std.specs.Prelude.{◌≡◌, IfOk, IfErr, Ok, Err, Option, Some, option_copied};
ghost use Rattle.folder_spec.specs.View.{View};
ghost use Rattle.folder_spec.specs.Seen.{IfSeen, IsSeen, ShowsFile};
ghost use Rattle.folder_model.specs.Answers.{OnlyLooks};
ghost use Rattle.plain_tree.specs.declared.NodeKind.TheVariants.{File};
ghost use Rattle.vault_spec.specs.Plan.{Planned};
ghost use Rattle.vault_spec.specs.Vault.{format_of};
ghost use Rattle.vault_walk.specs.Survey.{IsOrdered};
ghost use Rattle.tree_match.specs.Comparing.{Answers};
ghost use Rattle.tree_match.specs.Matching.{IsMatchable, first_further, held_by, matched};
ghost use Rattle.tree_match.specs.Pieces.{CanFault, first_with, from_path};

use crate::answer::{How, Match, MatchFault};
use crate::comparing::{Pair, same_contents};
use folder_model::Folder;
use plain_tree::{NodeKind, PlainPath};
use std::alloc::{AllocError, Global};
use std::cmp::Ordering;
use vault_read::Vault;
use vault_walk::{Plan, PlanItem};

/// Whether the vault `b` holds all items that `a` does, by the plans of the two.
///
/// It goes through a's items in order. The first that isn't in b, is of another kind there or has another content differs. Where none
/// does, b's first further item is named, if it has one.
///
/// Contents are compared from the front, piece by piece. Damage of a content, and more than 2^40 bytes of it, are told only where they
/// stand before the place at which the two contents part, or at that place: a's first.
///
/// The plans have to be in order of their paths, with each path once, and a file has to stand where each of their files is.
pub fn holds_all<F: Folder>(
    alloc: Global,
    folder: &mut F,
    a: &Vault,
    a_plan: &Plan,
    b: &Vault,
    b_plan: &Plan,
) -> Result<Match, MatchFault>
    requires a { IfSeen (F.told folder.old) (λ v. IsMatchable v a_plan.now.items) }
    requires b { IfSeen (F.told folder.old) (λ v. IsMatchable v b_plan.now.items) }
    ensures looks { OnlyLooks (F.told folder.old) (F.told folder.new) (result ≡ Err MatchFault.Failed) (F.faults folder.old) (F.faults folder.new) }
    ensures answers { (v : View) → IsSeen (F.told folder.old) v
        → Answers (matched (format_of a.now.vault).content a_plan.now.items (format_of b.now.vault).content b_plan.now.items v) result }
    ensures fault { IfErr result (λ fault. CanFault fault) }
{
    let mut kept = None;
    compare_items(alloc, folder, &mut kept, a, a_plan, b, b_plan)
}

// Goes through the items as `holds_all` does. What was opened for those before serves again.
fn compare_items<F: Folder>(
    alloc: Global,
    folder: &mut F,
    kept: &mut Option<Pair>,
    a: &Vault,
    a_plan: &Plan,
    b: &Vault,
    b_plan: &Plan,
) -> Result<Match, MatchFault>
    requires a { IfSeen (F.told folder.old) (λ v. IsMatchable v a_plan.now.items) }
    requires b { IfSeen (F.told folder.old) (λ v. IsMatchable v b_plan.now.items) }
    ensures looks { OnlyLooks (F.told folder.old) (F.told folder.new) (result ≡ Err MatchFault.Failed) (F.faults folder.old) (F.faults folder.new) }
    ensures answers { (v : View) → IsSeen (F.told folder.old) v
        → Answers (matched (format_of a.now.vault).content a_plan.now.items (format_of b.now.vault).content b_plan.now.items v) result }
    ensures fault { IfErr result (λ fault. CanFault fault) }
{
    let items = a_plan.items.as_slice();
    let others = b_plan.items.as_slice();
    let mut rest = others;
    for item in items {
        rest = from_path(rest, &item.path);
        let other = first_at(rest, &item.path);
        if let Some(how) = difference(alloc, folder, kept, a, item, b, other)? {
            return Ok(Match::Differs(item.path.copy()?, how));
        }
    }
    Ok(further(items, others)?)
}

// How an item of a vault differs from the item of another that has its path, if it does. What was opened for the items before serves
// again.
fn difference<F: Folder>(
    alloc: Global,
    folder: &mut F,
    kept: &mut Option<Pair>,
    a: &Vault,
    item: &PlanItem,
    b: &Vault,
    other: Option<&PlanItem>,
) -> Result<Option<How>, MatchFault>
    requires item { IfSeen (F.told folder.old) (λ v. item.now.node ≡ File → ShowsFile v item.now.at) }
    requires other { IfSeen (F.told folder.old) (λ v. (x : Planned) → option_copied other ≡ Some x → x.node ≡ File → ShowsFile v x.at) }
    ensures looks { OnlyLooks (F.told folder.old) (F.told folder.new) (result ≡ Err MatchFault.Failed) (F.faults folder.old) (F.faults folder.new) }
    ensures answers { (v : View) → IsSeen (F.told folder.old) v
        → Answers (held_by (format_of a.now.vault).content (format_of b.now.vault).content v item.now (option_copied other.entry)) result }
    ensures fault { IfErr result (λ fault. CanFault fault) }
{
    let Some(other) = other else {
        return Ok(Some(How::Missing));
    };
    match (item.node, other.node) {
        (NodeKind::Dir, NodeKind::Dir) => Ok(None),
        (NodeKind::File, NodeKind::File) => {
            if same_contents(alloc, folder, kept, a, &item.at, b, &other.at)? {
                Ok(None)
            } else {
                Ok(Some(How::Content))
            }
        }
        _ => Ok(Some(How::Kind)),
    }
}

// The first of the others that is none of the items, if there is one.
fn further(items: &[PlanItem], others: &[PlanItem]) -> Result<Match, AllocError>
    ensures { IfOk result (λ answer. IsOrdered items.now → IsOrdered others.now → answer ≡ first_further items.now others.now) }
{
    let mut rest = items;
    for other in others {
        rest = from_path(rest, &other.path);
        if first_at(rest, &other.path).is_none() {
            return Ok(Match::Contained(other.path.copy()?));
        }
    }
    Ok(Match::Same)
}

// The items from the first on whose path isn't before this one.
fn from_path<'a>(items: &'a [PlanItem], path: &PlainPath) -> &'a [PlanItem]
    ensures { result.now ≡ from_path path.now items.now }
{
    let mut rest = items;
    'passed: while let Some((first, others)) = rest.split_first() {
        match first.path.cmp(path) {
            Ordering::Less => rest = others,
            _ => return rest,
        }
    }
    rest
}

// The first of the items, if it has this path.
fn first_at<'a>(items: &'a [PlanItem], path: &PlainPath) -> Option<&'a PlanItem>
    ensures { option_copied result ≡ first_with path.now items.now }
{
    match items.split_first() {
        Some((first, _)) if first.path == *path => Some(first),
        _ => None,
    }
}
