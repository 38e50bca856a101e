//! Whether the target of a migration holds its source.
ghost use Rattle.std.specs.Prelude.{◌≡◌, ◌≤◌, IfErr, OnOk};
ghost use Rattle.port_model.specs.Counts.{CountRose};
ghost use Rattle.folder_spec.specs.Seen.{IfSeen};
ghost use Rattle.migration_sides.specs.Sides.{IsWalked};
ghost use Rattle.retire_core.specs.Causes.{TestsMapped, TestsVaults, Unless};
ghost use Rattle.retire_core.specs.Faults.{Blamed, IsLaterFault};
ghost use Rattle.retire_core.specs.Retiring.{AreHeld};

use crate::fault::RetireFault;
use folder_model::Folder;
use migration_sides::{Plans, Sides, walk_both};
use std::alloc::Global;
use tree_match::laws::{mapped_plans_can_be_compared, what_is_held_opens_the_same};
use tree_match::{Match, holds_all, map_plan, where_of};

// The target holds all that the source does, each item at its mapped path, and may hold more.
pub(crate) fn test_held<F: Folder>(
    alloc: Global,
    folder: &mut F,
    sides: &Sides,
) -> Result<(), RetireFault>
    ensures told { F.told folder.new ≡ F.told folder.old }
    ensures held { OnOk result (IfSeen (F.told folder.old) (λ v. AreHeld sides.now.names sides.now.source sides.now.target v)) }
    ensures grows { F.faults folder.old ≤ F.faults folder.new }
    ensures blamed { IfErr result (Blamed IsLaterFault (CountRose (F.faults folder.old) (F.faults folder.new))) }
    ensures cause { IfSeen (F.told folder.old) (λ v. Unless result (TestsVaults sides.now.names sides.now.source sides.now.target v result)) }
{
    let plans = walk_both(alloc, folder, sides)?;
    compare(alloc, folder, sides, &plans)
}

// The same by what walks of the two told.
fn compare<F: Folder>(
    alloc: Global,
    folder: &mut F,
    sides: &Sides,
    plans: &Plans,
) -> Result<(), RetireFault>
    requires source { IsWalked (F.told folder.old) sides.now.source plans.now.source.items }
    requires target { IsWalked (F.told folder.old) sides.now.target plans.now.target.items }
    ensures told { F.told folder.new ≡ F.told folder.old }
    ensures held { OnOk result (IfSeen (F.told folder.old) (λ v. AreHeld sides.now.names sides.now.source sides.now.target v)) }
    ensures grows { F.faults folder.old ≤ F.faults folder.new }
    ensures blamed { IfErr result (Blamed IsLaterFault (CountRose (F.faults folder.old) (F.faults folder.new))) }
    ensures cause { IfSeen (F.told folder.old) (λ v. Unless result (TestsMapped sides.now.names sides.now.source plans.now.source.items sides.now.target plans.now.target.items v result)) }
{
    mapped_plans_can_be_compared();
    what_is_held_opens_the_same();
    let mapped = map_plan(alloc, &plans.source, sides.names)?;
    match holds_all(
        alloc,
        folder,
        &sides.source,
        &mapped,
        &sides.target,
        &plans.target,
    )? {
        Match::Same => Ok(()),
        // what the target has besides is of no account
        Match::Contained(_) => Ok(()),
        Match::Differs(path, how) => Err(RetireFault::Differ(path, where_of(how))),
    }
}
