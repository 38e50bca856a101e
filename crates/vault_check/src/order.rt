//! Putting what was gathered in order.
ghost use Rattle.std.specs.Prelude.{◌≡◌, ◌↔◌, AllPairs, Contains};
ghost use Rattle.std.specs.List.Sorted.{IsPermutation};
ghost use Rattle.std.specs.declared.cmp.Ordering.TheVariants.{Less};
ghost use Rattle.folder_model.specs.Order.{path_cmp};
ghost use Rattle.folder_spec.specs.Path.{Path};
ghost use Rattle.vault_check.specs.Orders.{AreDifferent, AreInOrder};
ghost use Rattle.vault_walk.specs.declared.fault.Finding.{Finding};

use folder_model::FPath;
use vault_walk::Finding;

// The same paths in order, each once.
pub(crate) fn paths_in_order(mut paths: Vec<FPath>) -> Vec<FPath>
    ensures ordered { AllPairs (λ (x y : Path). path_cmp x y ≡ Less) result.items }
    ensures same { (at : Path) → Contains result.items at ↔ Contains paths.items at }
{
    paths.sort_unstable();
    paths.dedup();
    paths
}

// The same findings by path, and at one path by number.
pub(crate) fn findings_in_order(mut findings: Vec<Finding>) -> Vec<Finding>
    ensures ordered { AreDifferent findings.items → AreInOrder result.items }
    ensures same { IsPermutation findings.items result.items }
{
    findings.sort_unstable_by(|one, other| {
        one.at.cmp(&other.at).then(one.number.cmp(&other.number))
    });
    findings
}
