//! Retiring the source of a migration.
ghost use Rattle.std.specs.Prelude.{◌≡◌, ◌≢◌, ◌⊎◌, ◌≤◌, IfErr, IfOk, Ok, OnOk};
ghost use Rattle.port_model.specs.Counts.{CountRose};
ghost use Rattle.folder_spec.specs.Seen.{IfSeen, IsSeen, moved_view};
ghost use Rattle.folder_spec.specs.View.{Folder, NoEntry, View};
ghost use Rattle.folder_spec.specs.Apart.{AreSeparate, AreApart};
ghost use Rattle.migration_sides.specs.Lasting.{Lasts};
ghost use Rattle.migration_sides.specs.Unchanged.{ChangesNothing};
ghost use Rattle.migration_spec.specs.Alone.{KeepsGuarded};
ghost use Rattle.migration_spec.specs.Guard.{AreOpenedBy, Migration, old_path};
ghost use Rattle.move_journal.specs.Journal.{IsJournal};
ghost use Rattle.move_journal.specs.Reading.{StandsIn};
ghost use Rattle.retire_core.specs.Causes.{IsOfFolder, PassesTests, ReadsDone, Retires, RetiresTold, TestsAway, TestsFree, TestsHeld, Unless, moved_away};
ghost use Rattle.retire_core.specs.Clearing.{IsGone, IsInOrder, KeepsBeside, MovesHeldOnly, MovesOnly};
ghost use Rattle.retire_core.specs.Completing.{CanRetire};
ghost use Rattle.retire_core.specs.Faults.{Blamed, IsLaterFault, IsOfRemoval, IsRetireFault};
ghost use Rattle.retire_core.specs.Guarding.{ComesFromDone, ComesToRetiring, KeepsDone, KeepsFromRest};
ghost use Rattle.retire_core.specs.Retiring.{HasRetired, KeepsInOrder, RemovesOnly, TouchesOnly, retiring_by};

use crate::clearing::clear;
use crate::fault::RetireFault;
use crate::holding::test_held;
use crate::laws::{clean_vaults_have_only_files_and_directories, what_can_be_retired_is_retired};
use folder_model::{FPath, Folder, Kind};
use folder_spec::laws::{images_show_views, roots_show_their_own};
use migration_sides::{load_both, test_apart};
use migration_spec::laws::settling_and_entering_keep_migrations_guarded;
use move_journal::laws::journals_are_read_back;
use move_journal::{Journal, Phase, read};
use std::alloc::Global;
use work_folder::{Work, WorkFault};

/// What was retired.
#[derive(Clone, Copy, PartialEq, Eq)]
pub struct Retired {
    /// How many items the source had.
    pub items: u64,
}

/// Removes the source of the migration that the journal in a work folder tells of, once the target holds all that it holds, and the work
/// folder.
///
/// The tests, in their order: the journal is there and says that all is done; the three folders don't overlap; nothing foreign is in the
/// work folder. Where the source is there: it wasn't moved into the work folder before; both vaults open and are clean; and the target
/// holds each item of the source at its path mapped by the journal's rule. Then the source is moved into the work folder, to `old`, at once.
/// All is removed from there, and the journal last, so that a stop at any moment leaves the source whole in its place, or the target with
/// all that it held. Where the source isn't there, only what is left to be removed is.
pub fn retire<F: Folder>(
    alloc: Global,
    folder: &mut F,
    work: &FPath,
    source_pass: &[u8],
    target_pass: &[u8],
) -> Result<Retired, RetireFault>
    ensures guard { (g : Migration) → g.work ≡ work.now → KeepsGuarded g (F.told folder.old) (F.told folder.new) }
    ensures touches { (v : View) (journal : Journal) → IsSeen (F.told folder.old) v → IsJournal journal → StandsIn work.now journal v
        → TouchesOnly (retiring_by work.now source_pass.now target_pass.now journal) (F.told folder.old) (F.told folder.new) }
    ensures removes { (v : View) (journal : Journal) → IsSeen (F.told folder.old) v → IsJournal journal → StandsIn work.now journal v
        → RemovesOnly (retiring_by work.now source_pass.now target_pass.now journal) (F.told folder.old) (F.told folder.new) }
    ensures retired { IfOk result (λ retired. IfSeen (F.told folder.old) (λ v. HasRetired work.now retired.items (F.told folder.new) v)) }
    ensures order { KeepsInOrder work.now (F.told folder.old) (F.told folder.new) }
    ensures lasts { OnOk result (Lasts (F.told folder.new)) }
    ensures completes { (g : Migration) → IfSeen (F.told folder.old) (λ v. g.work ≡ work.now → AreOpenedBy g source_pass.now target_pass.now v → CanRetire g v → IfErr result IsOfFolder) }
    ensures grows { F.faults folder.old ≤ F.faults folder.new }
    ensures blamed { IfErr result (Blamed IsRetireFault (CountRose (F.faults folder.old) (F.faults folder.new))) }
    ensures tested { ChangesNothing (F.told folder.old) (F.told folder.new) ⊎ IfSeen (F.told folder.old) (λ v. IfErr result IsOfRemoval × PassesTests work.now source_pass.now target_pass.now v) }
    ensures cause { IfSeen (F.told folder.old) (λ v. Unless result (Retires work.now source_pass.now target_pass.now v result)) }
{
    settling_and_entering_keep_migrations_guarded();
    what_can_be_retired_is_retired();
    folder.settle()?;
    retire_settled(alloc, folder, work, source_pass, target_pass)
}

// Retires it once no change is pending.
fn retire_settled<F: Folder>(
    alloc: Global,
    folder: &mut F,
    work: &FPath,
    source_pass: &[u8],
    target_pass: &[u8],
) -> Result<Retired, RetireFault>
    ensures guard { (g : Migration) → g.work ≡ work.now → KeepsFromRest g (F.told folder.old) (F.told folder.new) }
    ensures touches { (v : View) (journal : Journal) → IsSeen (F.told folder.old) v → IsJournal journal → StandsIn work.now journal v
        → TouchesOnly (retiring_by work.now source_pass.now target_pass.now journal) (F.told folder.old) (F.told folder.new) }
    ensures removes { (v : View) (journal : Journal) → IsSeen (F.told folder.old) v → IsJournal journal → StandsIn work.now journal v
        → RemovesOnly (retiring_by work.now source_pass.now target_pass.now journal) (F.told folder.old) (F.told folder.new) }
    ensures retired { IfOk result (λ retired. IfSeen (F.told folder.old) (λ v. HasRetired work.now retired.items (F.told folder.new) v)) }
    ensures beside { KeepsBeside work.now (F.told folder.old) (F.told folder.new) }
    ensures lasts { OnOk result (Lasts (F.told folder.new)) }
    ensures grows { F.faults folder.old ≤ F.faults folder.new }
    ensures blamed { IfErr result (Blamed IsRetireFault (CountRose (F.faults folder.old) (F.faults folder.new))) }
    ensures tested { (F.told folder.new ≡ F.told folder.old) ⊎ IfSeen (F.told folder.old) (λ v. IfErr result IsOfRemoval × PassesTests work.now source_pass.now target_pass.now v) }
    ensures cause { IfSeen (F.told folder.old) (λ v. Unless result (Retires work.now source_pass.now target_pass.now v result)) }
{
    journals_are_read_back();
    let journal = read_done(alloc, folder, work)?;
    test_apart(&journal.source, &journal.target, work)?;
    Work::look_again(folder, work, true)?;
    retire_told(alloc, folder, work, &journal, source_pass, target_pass)
}

// The journal, which says that all is done.
fn read_done<F: Folder>(alloc: Global, folder: &mut F, work: &FPath) -> Result<Journal, RetireFault>
    ensures told { F.told folder.new ≡ F.told folder.old }
    ensures journal { IfOk result (λ journal. IsJournal journal) }
    ensures phase { IfOk result (λ journal. journal.phase ≡ Phase.Done) }
    ensures stands { IfOk result (λ journal. IfSeen (F.told folder.old) (λ v. StandsIn work.now journal v)) }
    ensures grows { F.faults folder.old ≤ F.faults folder.new }
    ensures blamed { IfErr result (Blamed IsRetireFault (CountRose (F.faults folder.old) (F.faults folder.new))) }
    ensures cause { IfSeen (F.told folder.old) (λ v. Unless result (ReadsDone work.now v result)) }
{
    let journal = read(alloc, folder, work)?;
    match journal.phase {
        Phase::Building => Err(RetireFault::Unfinished),
        Phase::Done => Ok(journal),
    }
}

// Retires the source that a journal tells.
fn retire_told<F: Folder>(
    alloc: Global,
    folder: &mut F,
    work: &FPath,
    journal: &Journal,
    source_pass: &[u8],
    target_pass: &[u8],
) -> Result<Retired, RetireFault>
    requires journal { IsJournal journal.now }
    requires phase { journal.now.phase ≡ Phase.Done }
    requires apart { AreSeparate journal.now.source journal.now.target work.now }
    requires stands { IfSeen (F.told folder.old) (λ v. StandsIn work.now journal.now v) }
    requires order { IfSeen (F.told folder.old) (λ v. IsInOrder v work.now) }
    ensures guard { (g : Migration) → g.work ≡ work.now → KeepsFromRest g (F.told folder.old) (F.told folder.new) }
    ensures touches { TouchesOnly (retiring_by work.now source_pass.now target_pass.now journal.now) (F.told folder.old) (F.told folder.new) }
    ensures removes { RemovesOnly (retiring_by work.now source_pass.now target_pass.now journal.now) (F.told folder.old) (F.told folder.new) }
    ensures source { OnOk result (IsGone journal.now.source (F.told folder.new)) }
    ensures work { OnOk result (IsGone work.now (F.told folder.new)) }
    ensures beside { KeepsBeside work.now (F.told folder.old) (F.told folder.new) }
    ensures lasts { OnOk result (Lasts (F.told folder.new)) }
    ensures items { IfOk result (λ retired. retired.items ≡ journal.now.items) }
    ensures grows { F.faults folder.old ≤ F.faults folder.new }
    ensures blamed { IfErr result (Blamed IsLaterFault (CountRose (F.faults folder.old) (F.faults folder.new))) }
    ensures tested { (F.told folder.new ≡ F.told folder.old) ⊎ IfSeen (F.told folder.old) (λ v. IfErr result IsOfRemoval × TestsAway work.now source_pass.now target_pass.now journal.now v (Ok tt)) }
    ensures cause { IfSeen (F.told folder.old) (λ v. Unless result (RetiresTold work.now source_pass.now target_pass.now journal.now v result)) }
{
    images_show_views();
    roots_show_their_own();
    put_away(alloc, folder, work, journal, source_pass, target_pass)?;
    clear(folder, work)?;
    Ok(Retired {
        items: journal.items,
    })
}

// Moves the source into the work folder, where it is still there.
fn put_away<F: Folder>(
    alloc: Global,
    folder: &mut F,
    work: &FPath,
    journal: &Journal,
    source_pass: &[u8],
    target_pass: &[u8],
) -> Result<(), RetireFault>
    requires journal { IsJournal journal.now }
    requires phase { journal.now.phase ≡ Phase.Done }
    requires apart { AreSeparate journal.now.source journal.now.target work.now }
    requires stands { IfSeen (F.told folder.old) (λ v. StandsIn work.now journal.now v) }
    requires order { IfSeen (F.told folder.old) (λ v. IsInOrder v work.now) }
    ensures guard { (g : Migration) → g.work ≡ work.now → KeepsFromRest g (F.told folder.old) (F.told folder.new) }
    ensures comes { OnOk result ((g : Migration) → g.work ≡ work.now → ComesToRetiring g (F.told folder.old) (F.told folder.new)) }
    ensures moves { MovesHeldOnly (retiring_by work.now source_pass.now target_pass.now journal.now) (F.told folder.old) (F.told folder.new) }
    ensures unmoved { IfSeen (F.told folder.old) (λ v. v journal.now.source ≡ NoEntry → F.told folder.new ≡ F.told folder.old) }
    ensures gone { OnOk result (IsGone journal.now.source (F.told folder.new)) }
    ensures order { OnOk result (IfSeen (F.told folder.new) (λ v. IsInOrder v work.now)) }
    ensures grows { F.faults folder.old ≤ F.faults folder.new }
    ensures blamed { IfErr result (Blamed IsLaterFault (CountRose (F.faults folder.old) (F.faults folder.new))) }
    ensures tested { (F.told folder.new ≡ F.told folder.old) ⊎ IfSeen (F.told folder.old) (λ v. IfErr result IsOfRemoval × TestsAway work.now source_pass.now target_pass.now journal.now v (Ok tt)) }
    ensures cause { IfSeen (F.told folder.old) (λ v. Unless result (TestsAway work.now source_pass.now target_pass.now journal.now v result)) }
    ensures seen { OnOk result ((v w : View) → IsSeen (F.told folder.old) v → IsSeen (F.told folder.new) w → w ≡ moved_away (v journal.now.source) journal.now.source work.now v) }
{
    journals_are_read_back();
    if folder.kind(&journal.source)? == Kind::Missing {
        return Ok(());
    }
    test_free(folder, work)?;
    move_held(alloc, folder, work, journal, source_pass, target_pass)
}

// No source was moved into the work folder before.
fn test_free<F: Folder>(folder: &mut F, work: &FPath) -> Result<(), RetireFault>
    ensures told { F.told folder.new ≡ F.told folder.old }
    ensures free { OnOk result (IsGone (old_path work.now) (F.told folder.old)) }
    ensures grows { F.faults folder.old ≤ F.faults folder.new }
    ensures blamed { IfErr result (Blamed IsLaterFault (CountRose (F.faults folder.old) (F.faults folder.new))) }
    ensures cause { IfSeen (F.told folder.old) (λ v. Unless result (TestsFree work.now v result)) }
{
    let old = work.child("old")?;
    match folder.kind(&old)? {
        Kind::Missing => Ok(()),
        _ => Err(RetireFault::Work(WorkFault::Foreign(old))),
    }
}

// Moves the source once the target holds all that it holds.
fn move_held<F: Folder>(
    alloc: Global,
    folder: &mut F,
    work: &FPath,
    journal: &Journal,
    source_pass: &[u8],
    target_pass: &[u8],
) -> Result<(), RetireFault>
    requires apart { AreApart journal.now.source work.now }
    requires there { IfSeen (F.told folder.old) (λ v. v journal.now.source ≢ NoEntry) }
    requires free { IsGone (old_path work.now) (F.told folder.old) }
    requires folder { IfSeen (F.told folder.old) (λ v. v work.now ≡ Folder) }
    ensures guard { (g : Migration) → g.source.root ≡ journal.now.source → g.work ≡ work.now → KeepsDone g (F.told folder.old) (F.told folder.new) }
    ensures comes { OnOk result ((g : Migration) → g.source.root ≡ journal.now.source → g.work ≡ work.now → ComesFromDone g (F.told folder.old) (F.told folder.new)) }
    ensures moves { MovesHeldOnly (retiring_by work.now source_pass.now target_pass.now journal.now) (F.told folder.old) (F.told folder.new) }
    ensures gone { OnOk result (IsGone journal.now.source (F.told folder.new)) }
    ensures leaves { (v w : View) → IsSeen (F.told folder.old) v → IsSeen (F.told folder.new) w → IsInOrder v work.now → IsInOrder w work.now }
    ensures grows { F.faults folder.old ≤ F.faults folder.new }
    ensures blamed { IfErr result (Blamed IsLaterFault (CountRose (F.faults folder.old) (F.faults folder.new))) }
    ensures tested { (F.told folder.new ≡ F.told folder.old) ⊎ IfSeen (F.told folder.old) (λ v. IfErr result IsOfRemoval × TestsHeld journal.now.names journal.now.source journal.now.target source_pass.now target_pass.now v (Ok tt)) }
    ensures cause { IfSeen (F.told folder.old) (λ v. Unless result (TestsHeld journal.now.names journal.now.source journal.now.target source_pass.now target_pass.now v result)) }
    ensures seen { OnOk result ((v w : View) → IsSeen (F.told folder.old) v → IsSeen (F.told folder.new) w → w ≡ moved_view v journal.now.source (old_path work.now)) }
{
    let sides = load_both(
        alloc,
        folder,
        &journal.source,
        source_pass,
        &journal.target,
        target_pass,
        journal.names,
    )?;
    test_held(alloc, folder, &sides)?;
    move_source(folder, &journal.source, work)
}

// Moves the source at once, so that it is never there in part.
fn move_source<F: Folder>(folder: &mut F, source: &FPath, work: &FPath) -> Result<(), RetireFault>
    requires apart { AreApart source.now work.now }
    requires there { IfSeen (F.told folder.old) (λ v. v source.now ≢ NoEntry) }
    requires free { IsGone (old_path work.now) (F.told folder.old) }
    requires folder { IfSeen (F.told folder.old) (λ v. v work.now ≡ Folder) }
    ensures guard { (g : Migration) → g.source.root ≡ source.now → g.work ≡ work.now → KeepsDone g (F.told folder.old) (F.told folder.new) }
    ensures comes { OnOk result ((g : Migration) → g.source.root ≡ source.now → g.work ≡ work.now → ComesFromDone g (F.told folder.old) (F.told folder.new)) }
    ensures moves { MovesOnly source.now work.now (F.told folder.old) (F.told folder.new) }
    ensures gone { OnOk result (IsGone source.now (F.told folder.new)) }
    ensures leaves { (v w : View) → IsSeen (F.told folder.old) v → IsSeen (F.told folder.new) w → IsInOrder v work.now → IsInOrder w work.now }
    ensures grows { F.faults folder.old ≤ F.faults folder.new }
    ensures blamed { IfErr result (Blamed IsLaterFault (CountRose (F.faults folder.old) (F.faults folder.new))) }
    ensures fails { IfErr result IsOfFolder }
    ensures seen { OnOk result ((v w : View) → IsSeen (F.told folder.old) v → IsSeen (F.told folder.new) w → w ≡ moved_view v source.now (old_path work.now)) }
{
    clean_vaults_have_only_files_and_directories();
    images_show_views();
    roots_show_their_own();
    settling_and_entering_keep_migrations_guarded();
    let old = work.child("old")?;
    folder.rename(source, &old)?;
    Ok(folder.settle()?)
}
