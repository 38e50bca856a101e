//! The plan of a vault whose names come to another form on the way.
ghost use Rattle.std.specs.Prelude.{◌≡◌, ◌<◌, length, slice_index_or, ◌++◌, [], ◌∷◌, Some, map, IfOk, IfErr, OnOk, MatchOption, IsTrue, if◌then◌else◌};
ghost use Rattle.std.specs.BTreeMap.{get};
ghost use Rattle.std.specs.Ordering.{is_eq};
ghost use Rattle.plain_tree.specs.Names as plain;
ghost use Rattle.plain_tree.specs.Order.{path_cmp};
ghost use Rattle.vault_spec.specs.Plan.{Planned};
ghost use Rattle.tree_match.specs.Mapping.{AreAlone, AreFirstAlike, AreNamed, MapsTo, RefusesFirst, RefusesItem, is_named, mapped_item};

use crate::answer::MapFault;
use plain_tree::{NameMap, NameNewFault, PlainPath};
use std::alloc::{AllocError, Global};
use std::cmp::Ordering;
use std::collections::BTreeMap;
use vault_walk::surveying::sorted;
use vault_walk::{Plan, PlanItem, PlanItems};

/// The items of a plan at what a rule makes of their paths, in order of these. Their places stay.
///
/// It is refused exactly where a mapped name is no name, with the first item that has one; else exactly where two items have the same mapped
/// path, with the first item that has that of an earlier one, behind that one.
pub fn map_plan(alloc: Global, plan: &Plan, names: NameMap) -> Result<Plan, MapFault>
    ensures { MapsTo names plan.now.items result }
{
    let items = plan.items.as_slice();
    let mapped = mapped_items(alloc, items, names)?;
    if let Some((early, late)) = first_to_meet(alloc, mapped.as_slice())? {
        return Err(meeting(items, early, late)?);
    }
    Ok(Plan {
        items: PlanItems::new(sorted(mapped)),
    })
}

// The fault that the items at these two places meet.
fn meeting(items: &[PlanItem], early: usize, late: usize) -> Result<MapFault, AllocError>
    requires early { early < length items.now }
    requires late { late < length items.now }
    ensures { (d : Planned) → IfOk result (λ fault. fault ≡ MapFault.Meet (slice_index_or items.now early d).path (slice_index_or items.now late d).path) }
{
    let earlier = &items[early];
    let later = &items[late];
    Ok(MapFault::Meet(earlier.path.copy()?, later.path.copy()?))
}

// The items at what the rule makes of their paths, one by one.
fn mapped_items(
    alloc: Global,
    items: &[PlanItem],
    names: NameMap,
) -> Result<Vec<PlanItem>, MapFault>
    ensures named { IfOk result (λ mapped. AreNamed names items.now) }
    ensures mapped { IfOk result (λ mapped. mapped.items ≡ map (mapped_item names) items.now) }
    ensures refused { IfErr result (λ fault. RefusesFirst names items.now fault) }
{
    let mut mapped = Vec::new(alloc);
    for item in items {
        let new = mapped_item(item, names)?;
        add(&mut mapped, new)?;
    }
    Ok(mapped)
}

fn add(items: &mut Vec<PlanItem>, item: PlanItem) -> Result<(), AllocError>
    ensures { OnOk result (items.new.items ≡ items.old.items ++ item ∷ []) }
{
    items.push(item)?;
    Ok(())
}

// An item at what the rule makes of its path.
fn mapped_item(item: &PlanItem, names: NameMap) -> Result<PlanItem, MapFault>
    ensures named { IfOk result (λ mapped. IsTrue (is_named names item.now)) }
    ensures mapped { IfOk result (λ mapped. mapped ≡ mapped_item names item.now) }
    ensures refused { IfErr result (λ fault. RefusesItem names item.now fault) }
{
    match item.path.mapped(names) {
        Ok(path) => Ok(PlanItem {
            path,
            node: item.node,
            at: item.at.copy()?,
        }),
        Err(NameNewFault::BadName) => Err(MapFault::NotAName(item.path.copy()?)),
        Err(NameNewFault::NoMemory) => Err(MapFault::NoMemory),
    }
}

// The places of the first item that has the path of an earlier one, and of that one, which comes first.
fn first_to_meet(alloc: Global, items: &[PlanItem]) -> Result<Option<(usize, usize)>, AllocError>
    ensures { IfOk result (λ found. MatchOption found (AreAlone items.now) (λ places. AreFirstAlike items.now places.0 places.1)) }
{
    if are_ascending(items) {
        return Ok(None);
    }
    let mut places = BTreeMap::new(alloc);
    for (place, item) in items.iter().enumerate() {
        if let Some(early) = put_place(&mut places, &item.path, place)? {
            return Ok(Some((early, place)));
        }
    }
    Ok(None)
}

// Whether each path comes before the next one, as it does where no name changes: then no two are one.
fn are_ascending(items: &[PlanItem]) -> bool
    ensures { IsTrue result → AreAlone items.now }
{
    'pairs: for i in 1..items.len() {
        let earlier = &items[i - 1];
        let later = &items[i];
        if earlier.path.cmp(&later.path) != Ordering::Less {
            return false;
        }
    }
    true
}

// Keeps the place at which a path stands, and gives the one at which it stood before, if it did.
fn put_place(
    places: &mut BTreeMap<PlainPath, usize>,
    path: &PlainPath,
    place: usize,
) -> Result<Option<usize>, AllocError>
    ensures before { IfOk result (λ before. before ≡ get path_cmp places.old path.now) }
    ensures put { OnOk result ((other : plain.Path) → get path_cmp places.new other ≡ (if is_eq (path_cmp path.now other) then Some place else get path_cmp places.old other)) }
{
    Ok(places.insert(path.copy()?, place)?)
}
