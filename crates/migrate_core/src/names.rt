//! The names of the items that are moved: tested, and brought to the form that the migration's rule gives them.
ghost use Rattle.std.specs.Prelude.{◌≡◌, ◌⊎◌, IfErr, IfOk, OnOk, Ok};
ghost use Rattle.vault_spec.specs.Mapped.{AllowsMapped};
ghost use Rattle.migration_sides.specs.Tests.{nothing_follows};
ghost use Rattle.tree_match.specs.Mapping.{IsMappedPlan, MapsTo};
ghost use Rattle.vault_spec.specs.Vault.{format_of};
ghost use Rattle.migrate_core.specs.Causes.{ForbidsMappedLast, Refuses, TestsMapped, TestsNames, Unless};
ghost use Rattle.migrate_core.specs.Faults.{Blamed, IsOfTest, is_of_apart};
ghost use Rattle.migrate_core.specs.Limits.{StopsElsewhere};
ghost use Rattle.migrate_core.specs.Sides.{AllowsEach, AllowsEachMapped, AllowsMappedLast};
ghost use Rattle.migrate_core.specs.declared.fault.MoveFault.TheVariants.{NoMemory};

use crate::fault::MoveFault;
use migration_sides::Sides;
use plain_tree::{Name, NameMap, NameNewFault, PlainPath};
use std::alloc::Global;
use tree_match::map_plan;
use vault_read::{Vault, VaultKind};
use vault_walk::{Plan, PlanItem};

// The items of the source at their mapped paths, of which the target allows each name.
pub(crate) fn map_allowed(alloc: Global, sides: &Sides, plan: &Plan) -> Result<Plan, MoveFault>
    ensures mapped { IfOk result (λ mapped. IsMappedPlan sides.now.names plan.now.items mapped.items) }
    ensures allowed { IfOk result (λ mapped. AllowsEach (format_of sides.now.target.vault) mapped.items) }
    ensures named { OnOk result (AllowsEachMapped sides.now.names (format_of sides.now.target.vault) plan.now.items) }
    ensures tested { IfErr result IsOfTest }
    ensures uncompared { IfErr result StopsElsewhere }
    ensures blamed { IfErr result (Blamed is_of_apart ⊥ ⊥) }
    ensures passed { OnOk result (TestsNames sides.now.names (format_of sides.now.target.vault) plan.now.items (Ok tt)) }
    ensures maps { IfOk result (λ mapped. MapsTo sides.now.names plan.now.items (Ok mapped)) }
    ensures cause { IfErr result (Refuses (TestsMapped sides.now.names (format_of sides.now.target.vault) plan.now.items nothing_follows)) }
{
    test_names(alloc, &sides.target, sides.names, plan.items.as_slice())?;
    Ok(map_plan(alloc, plan, sides.names)?)
}

// The vault allows each name of these items, mapped: in a Cryptomator vault those in NFC.
fn test_names(
    alloc: Global,
    vault: &Vault,
    names: NameMap,
    items: &[PlanItem],
) -> Result<(), MoveFault>
    ensures allowed { OnOk result (AllowsEachMapped names (format_of vault.now.vault) items.now) }
    ensures tested { IfErr result IsOfTest }
    ensures uncompared { IfErr result StopsElsewhere }
    ensures blamed { IfErr result (Blamed is_of_apart ⊥ ⊥) }
    ensures cause { Unless result (TestsNames names (format_of vault.now.vault) items.now result) }
{
    for item in items {
        test_name(alloc, vault, names, &item.path)?;
    }
    Ok(())
}

// The last name of a path, mapped, is a name that the vault allows.
fn test_name(
    alloc: Global,
    vault: &Vault,
    names: NameMap,
    path: &PlainPath,
) -> Result<(), MoveFault>
    ensures allowed { OnOk result (AllowsMappedLast names (format_of vault.now.vault) path.now) }
    ensures tested { IfErr result IsOfTest }
    ensures uncompared { IfErr result StopsElsewhere }
    ensures blamed { IfErr result (Blamed is_of_apart ⊥ ⊥) }
    ensures forbids { IfErr result (λ fault. (fault ≡ NoMemory) ⊎ (ForbidsMappedLast names (format_of vault.now.vault) path.now × (fault ≡ MoveFault.NotAllowed path.now))) }
{
    match path.names().split_last() {
        Some((name, _)) => allow(alloc, vault, names, path, name),
        None => Ok(()),
    }
}

// A name, mapped, is a name that the vault allows.
fn allow(
    alloc: Global,
    vault: &Vault,
    names: NameMap,
    path: &PlainPath,
    name: &Name,
) -> Result<(), MoveFault>
    ensures allowed { OnOk result (AllowsMapped names (format_of vault.now.vault) name.now) }
    ensures tested { IfErr result IsOfTest }
    ensures uncompared { IfErr result StopsElsewhere }
    ensures blamed { IfErr result (Blamed is_of_apart ⊥ ⊥) }
    ensures forbids { IfErr result (λ fault. (fault ≡ NoMemory) ⊎ ((¬ AllowsMapped names (format_of vault.now.vault) name.now) × (fault ≡ MoveFault.NotAllowed path.now))) }
{
    let mapped = match names.apply(alloc, name) {
        Ok(mapped) => mapped,
        Err(NameNewFault::BadName) => return Err(MoveFault::NotAllowed(path.copy()?)),
        Err(NameNewFault::NoMemory) => return Err(MoveFault::NoMemory),
    };
    if vault.kind() == VaultKind::Cryptomator && !mapped.is_nfc()? {
        return Err(MoveFault::NotAllowed(path.copy()?));
    }
    Ok(())
}
