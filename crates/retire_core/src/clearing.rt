//! Removing a work folder with all that stands in it.
ghost use Rattle.std.specs.Prelude.{◌≡◌, ◌≢◌, ◌≤◌, [], IfErr, OnOk, codes};
ghost use Rattle.port_model.specs.Counts.{CountRose};
ghost use Rattle.folder_spec.specs.Path.{child};
ghost use Rattle.folder_spec.specs.Seen.{IfSeen};
ghost use Rattle.migration_sides.specs.Lasting.{Lasts};
ghost use Rattle.migration_spec.specs.Guard.{Migration};
ghost use Rattle.retire_core.specs.Causes.{IsOfFolder, TestsRemoval, TestsRemovals, Unless};
ghost use Rattle.retire_core.specs.Clearing.{ClearsEntry, ClearsOnly, ClearsRest, HasOnlyJournal, IsGone, IsInOrder, KeepsBeside, KeepsJournal, Leaves};
ghost use Rattle.retire_core.specs.Faults.{Blamed, IsLaterFault, IsOfRemoval};
ghost use Rattle.retire_core.specs.Guarding.{KeepsRetiring};

use crate::fault::RetireFault;
use folder_model::{FPath, Folder, Kind};
use folder_spec::laws::roots_show_their_own;
use folder_staging::laws::removals_leave_the_rest;
use folder_staging::remove_all;

// Removes all in a work folder, the journal last, and then the work folder. So what the journal tells stands while `old` does.
pub(crate) fn clear<F: Folder>(folder: &mut F, work: &FPath) -> Result<(), RetireFault>
    requires below_base { work.now ≢ [] }
    requires order { IfSeen (F.told folder.old) (λ v. IsInOrder v work.now) }
    ensures guard { (g : Migration) → g.work ≡ work.now → KeepsRetiring g (F.told folder.old) (F.told folder.new) }
    ensures clears { ClearsOnly work.now (F.told folder.old) (F.told folder.new) }
    ensures beside { KeepsBeside work.now (F.told folder.old) (F.told folder.new) }
    ensures gone { OnOk result (IsGone work.now (F.told folder.new)) }
    ensures lasts { OnOk result (Lasts (F.told folder.new)) }
    ensures grows { F.faults folder.old ≤ F.faults folder.new }
    ensures blamed { IfErr result (Blamed IsLaterFault (CountRose (F.faults folder.old) (F.faults folder.new))) }
    ensures refused { IfErr result IsOfRemoval }
    ensures cause { IfSeen (F.told folder.old) (λ v. Unless result (TestsRemovals work.now v result)) }
{
    clear_beside(folder, work)?;
    clear_rest(folder, work)
}

// Removes all but the journal.
fn clear_beside<F: Folder>(folder: &mut F, work: &FPath) -> Result<(), RetireFault>
    requires order { IfSeen (F.told folder.old) (λ v. IsInOrder v work.now) }
    ensures guard { (g : Migration) → g.work ≡ work.now → KeepsRetiring g (F.told folder.old) (F.told folder.new) }
    ensures clears { ClearsOnly work.now (F.told folder.old) (F.told folder.new) }
    ensures journal { KeepsJournal work.now (F.told folder.old) (F.told folder.new) }
    ensures cleared { OnOk result (IfSeen (F.told folder.new) (λ v. HasOnlyJournal v work.now)) }
    ensures grows { F.faults folder.old ≤ F.faults folder.new }
    ensures blamed { IfErr result (Blamed IsLaterFault (CountRose (F.faults folder.old) (F.faults folder.new))) }
    ensures refused { IfErr result IsOfRemoval }
    ensures cause { IfSeen (F.told folder.old) (λ v. Unless result (TestsRemovals work.now v result)) }
{
    clear_entry(folder, work, "old")?;
    clear_entry(folder, work, "stage")?;
    clear_entry(folder, work, "journal.new")
}

// Removes an entry of the work folder and all below it, if it is there.
fn clear_entry<F: Folder>(folder: &mut F, work: &FPath, name: &str) -> Result<(), RetireFault>
    requires other { name.now ≢ codes "journal" }
    ensures guard { (g : Migration) → g.work ≡ work.now → KeepsRetiring g (F.told folder.old) (F.told folder.new) }
    ensures clears { ClearsEntry (child work.now name.now) (F.told folder.old) (F.told folder.new) }
    ensures leaves { Leaves (child work.now name.now) (F.told folder.old) (F.told folder.new) }
    ensures gone { OnOk result (IsGone (child work.now name.now) (F.told folder.new)) }
    ensures grows { F.faults folder.old ≤ F.faults folder.new }
    ensures blamed { IfErr result (Blamed IsLaterFault (CountRose (F.faults folder.old) (F.faults folder.new))) }
    ensures refused { IfErr result IsOfRemoval }
    ensures cause { IfSeen (F.told folder.old) (λ v. Unless result (TestsRemoval (child work.now name.now) v result)) }
{
    removals_leave_the_rest();
    roots_show_their_own();
    let at = work.child(name)?;
    match folder.kind(&at)? {
        Kind::Missing => Ok(()),
        _ => Ok(remove_all(folder, &at)?),
    }
}

// Removes the journal, which stands alone in the work folder, and the work folder.
fn clear_rest<F: Folder>(folder: &mut F, work: &FPath) -> Result<(), RetireFault>
    requires below_base { work.now ≢ [] }
    requires alone { IfSeen (F.told folder.old) (λ v. HasOnlyJournal v work.now) }
    ensures guard { (g : Migration) → g.work ≡ work.now → KeepsRetiring g (F.told folder.old) (F.told folder.new) }
    ensures clears { ClearsRest work.now (F.told folder.old) (F.told folder.new) }
    ensures gone { OnOk result (IsGone work.now (F.told folder.new)) }
    ensures lasts { OnOk result (Lasts (F.told folder.new)) }
    ensures grows { F.faults folder.old ≤ F.faults folder.new }
    ensures blamed { IfErr result (Blamed IsLaterFault (CountRose (F.faults folder.old) (F.faults folder.new))) }
    ensures fails { IfErr result IsOfFolder }
{
    roots_show_their_own();
    let journal = work.child("journal")?;
    folder.remove_file(&journal)?;
    folder.remove_dir(work)?;
    Ok(folder.settle()?)
}
