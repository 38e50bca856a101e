//! The two vaults of a migration, and their plans.
ghost use Rattle.std.specs.Prelude.{◌≡◌, ◌≤◌, IfErr, IfOk, OnOk, Ok};
ghost use Rattle.folder_spec.specs.Seen.{IfSeen, under};
ghost use Rattle.migration_sides.specs.Causes.{Opens, Refuses, of_refusal, TestsApart, TestsPair, Unless, Walks, WalksBoth};
ghost use Rattle.migration_sides.specs.Faults.{IsApartFault, IsBlamed, of_walk};
ghost use Rattle.migration_sides.specs.Sides.{IsWalked};
ghost use Rattle.folder_spec.specs.Apart.{AreSeparate, AreApart};
ghost use Rattle.migration_sides.specs.Tests.{Then, nothing_follows, own};
ghost use Rattle.port_model.specs.Counts.{CountRose};
ghost use Rattle.vault_spec.specs.Vault.{IsVault, Loads};

use crate::fault::{Side, StepFault};
use folder_model::{FPath, Folder};
use plain_tree::NameMap;
use std::alloc::Global;
use vault_read::{LoadFault, Vault};
use vault_walk::{Plan, walk};

/// The source and the target of a migration, and its rule for names.
#[derive(Drop)]
pub struct Sides {
    pub source: Vault,
    pub target: Vault,
    pub names: NameMap,
}

/// Their items.
#[derive(Drop)]
pub struct Plans {
    pub source: Plan,
    pub target: Plan,
}

/// Opens the vaults that two roots and their passphrases are, the source first.
pub fn load_both<F: Folder>(
    alloc: Global,
    folder: &mut F,
    source: &FPath,
    source_pass: &[u8],
    target: &FPath,
    target_pass: &[u8],
    names: NameMap,
) -> Result<Sides, StepFault>
    ensures told { F.told folder.new ≡ F.told folder.old }
    ensures source { IfOk result (λ sides. sides.source.root ≡ source.now) }
    ensures target { IfOk result (λ sides. sides.target.root ≡ target.now) }
    ensures names { IfOk result (λ sides. sides.names ≡ names) }
    ensures opens_source { IfOk result (λ sides. IfSeen (F.told folder.old) (λ v. IsVault (under source.now v) source_pass.now sides.source.vault)) }
    ensures opens_target { IfOk result (λ sides. IfSeen (F.told folder.old) (λ v. IsVault (under target.now v) target_pass.now sides.target.vault)) }
    ensures grows { F.faults folder.old ≤ F.faults folder.new }
    ensures blamed { IfErr result (IsBlamed (CountRose (F.faults folder.old) (F.faults folder.new))) }
    ensures cause { IfErr result (λ fault. IfSeen (F.told folder.old) (λ v. Refuses (Opens own v source.now target.now source_pass.now target_pass.now (λ from. nothing_follows)) fault)) }
{
    let source = load(alloc, folder, Side::Source, source, source_pass)?;
    let target = load(alloc, folder, Side::Target, target, target_pass)?;
    Ok(Sides {
        source,
        target,
        names,
    })
}

fn load<F: Folder>(
    alloc: Global,
    folder: &mut F,
    side: Side,
    root: &FPath,
    pass: &[u8],
) -> Result<Vault, StepFault>
    ensures told { F.told folder.new ≡ F.told folder.old }
    ensures root { IfOk result (λ vault. vault.root ≡ root.now) }
    ensures vault { IfOk result (λ vault. IfSeen (F.told folder.old) (λ v. IsVault (under root.now v) pass.now vault.vault)) }
    ensures grows { F.faults folder.old ≤ F.faults folder.new }
    ensures blamed { IfErr result (IsBlamed (CountRose (F.faults folder.old) (F.faults folder.new))) }
    ensures cause { IfErr result (λ fault. IfSeen (F.told folder.old) (λ v. Refuses (Then (of_refusal side root.now) (Loads (under root.now v) pass.now) nothing_follows) fault)) }
{
    match Vault::load(alloc, folder, root, pass) {
        Ok(vault) => Ok(vault),
        Err(LoadFault::Failed) => Err(StepFault::Failed),
        Err(LoadFault::NoMemory) => Err(StepFault::NoMemory),
        Err(fault) => Err(StepFault::Load(side, fault)),
    }
}

/// The items of two clean vaults, the source's first.
pub fn walk_both<F: Folder>(
    alloc: Global,
    folder: &mut F,
    sides: &Sides,
) -> Result<Plans, StepFault>
    ensures told { F.told folder.new ≡ F.told folder.old }
    ensures source { IfOk result (λ plans. IsWalked (F.told folder.old) sides.now.source plans.source.items) }
    ensures target { IfOk result (λ plans. IsWalked (F.told folder.old) sides.now.target plans.target.items) }
    ensures passed_source { IfOk result (λ plans. IfSeen (F.told folder.old) (λ v. Walks sides.now.source v (Ok plans.source.items))) }
    ensures passed_target { IfOk result (λ plans. IfSeen (F.told folder.old) (λ v. Walks sides.now.target v (Ok plans.target.items))) }
    ensures grows { F.faults folder.old ≤ F.faults folder.new }
    ensures blamed { IfErr result (IsBlamed (CountRose (F.faults folder.old) (F.faults folder.new))) }
    ensures cause { IfErr result (λ fault. IfSeen (F.told folder.old) (λ v. Refuses (WalksBoth own sides.now.source sides.now.target v (λ items. nothing_follows)) fault)) }
{
    let source = walk_one(alloc, folder, &sides.source)?;
    let target = walk_one(alloc, folder, &sides.target)?;
    Ok(Plans { source, target })
}

/// The items of a clean vault.
pub fn walk_one<F: Folder>(alloc: Global, folder: &mut F, vault: &Vault) -> Result<Plan, StepFault>
    ensures told { F.told folder.new ≡ F.told folder.old }
    ensures walked { IfOk result (λ plan. IsWalked (F.told folder.old) vault.now plan.items) }
    ensures passed { IfOk result (λ plan. IfSeen (F.told folder.old) (λ v. Walks vault.now v (Ok plan.items))) }
    ensures grows { F.faults folder.old ≤ F.faults folder.new }
    ensures blamed { IfErr result (IsBlamed (CountRose (F.faults folder.old) (F.faults folder.new))) }
    ensures cause { IfErr result (λ fault. IfSeen (F.told folder.old) (λ v. Refuses (Then of_walk (Walks vault.now v) nothing_follows) fault)) }
{
    Ok(walk(alloc, folder, vault)?)
}

/// Tests that no two of the three folders overlap: the source and the target first, then each with the work folder.
pub fn test_apart(source: &FPath, target: &FPath, work: &FPath) -> Result<(), StepFault>
    ensures apart { OnOk result (AreSeparate source.now target.now work.now) }
    ensures own { IfErr result IsApartFault }
    ensures cause { Unless result (TestsApart source.now target.now work.now result) }
{
    test_pair(source, target)?;
    test_pair(source, work)?;
    test_pair(target, work)
}

fn test_pair(first: &FPath, second: &FPath) -> Result<(), StepFault>
    ensures apart { OnOk result (AreApart first.now second.now) }
    ensures own { IfErr result IsApartFault }
    ensures cause { Unless result (TestsPair first.now second.now result) }
{
    if first.starts_with(second) || second.starts_with(first) {
        return Err(StepFault::Overlap(first.copy()?, second.copy()?));
    }
    Ok(())
}
