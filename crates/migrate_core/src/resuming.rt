//! Going on with a migration.
ghost use Rattle.std.specs.Prelude.{◌≡◌, ◌≢◌, ◌⊎◌, ◌≤◌, ◌∷◌, [], IfErr, IfOk, Ok, OnOk};
ghost use Rattle.port_model.specs.Counts.{CountRose};
ghost use Rattle.port_model.specs.Draws.{Draws};
ghost use Rattle.folder_spec.specs.Seen.{IfSeen, IsSeen};
ghost use Rattle.folder_spec.specs.View.{NoEntry, View};
ghost use Rattle.move_journal.specs.Journal.{IsJournal, journal_text};
ghost use Rattle.move_journal.specs.Reading.{StandsIn};
ghost use Rattle.migration_spec.specs.Alone.{KeepsGuarded, Finished};
ghost use Rattle.migration_spec.specs.Guard.{AreOpenedBy, Migration};
ghost use Rattle.vault_spec.specs.Vault.{format_of};
ghost use Rattle.work_folder.specs.Entering.{Empties};
ghost use Rattle.migrate_core.specs.Causes.{IsOfPlacing, Moves, PassesResume, PassesTold, Refuses, Resumes, ResumesTold, ResumesWith, TestsItems, TestsMatch, TestsSource, TestsToResume, TestsTold, Unless, is_done, where_in};
ghost use Rattle.migrate_core.specs.Completing.{CanResume, IsOfChance};
ghost use Rattle.migrate_core.specs.Copying.{MayBegin, StayGood};
ghost use Rattle.migrate_core.specs.Drawing.{DrewBy};
ghost use Rattle.migrate_core.specs.Faults.{Blamed, IsOfTest, is_of_resume};
ghost use Rattle.migrate_core.specs.Lasting.{Clears, EndsEach, EndsEachSettled, HaveToldTrees, KeepsEachJournal, KeepsEachText, KeepsTexts};
ghost use Rattle.migrate_core.specs.Leading.{KeepsSettled, LeadsTold, progress_of};
ghost use Rattle.migrate_core.specs.Limits.{StopsElsewhere, EndsBy, IsOfLimit, PassesAsTold, PassesInTree, PassesSeen};
ghost use Rattle.migrate_core.specs.Moved.{HaveMappedTree, done_of, Moved, MovesTold, MovesTree, Placed, lacking};
ghost use Rattle.migrate_core.specs.Moving.{MovesOnly};
ghost use Rattle.migrate_core.specs.Written.{MayWriteBy, MayWriteTold, MayWriteTreeBy, WritesBeside, WritesBy, done_texts, lacked};
ghost use Rattle.migrate_core.specs.Sharing.{IsFilled, IsOfTaken, SharesAsTold, SharesFrom, SharesInTree, SharesSeen};
ghost use Rattle.migrate_core.specs.Sides.{AllowsEach, AreItemsToMove, AreTold, IsInUse, IsMappedWalk};
ghost use Rattle.migration_sides.specs.Lasting.{Lasts};
ghost use Rattle.migration_sides.specs.Sides.{IsWalked};
ghost use Rattle.folder_spec.specs.Apart.{AreSeparate};
ghost use Rattle.migration_sides.specs.Tests.{all_pass, nothing_follows};
ghost use Rattle.migration_sides.specs.Unchanged.{ChangesNothing};
ghost use Rattle.tree_match.specs.Mapping.{IsMappedPlan};

use crate::fault::MoveFault;
use crate::finishing::{Items, go_on};
use crate::laws::what_can_resume_is_done;
use crate::names::map_allowed;
use crate::placing::Done;
use folder_model::{FPath, Folder, Kind};
use migration_sides::{Plans, Sides, load_both, test_apart, walk_both};
use migration_spec::laws::{
    guarded_migrations_are_seen, settling_and_entering_keep_migrations_guarded,
};
use move_journal::laws::journals_are_read_back;
use move_journal::{Journal, Phase, read};
use port_model::Randoms;
use port_model::laws::draws_compose;
use std::alloc::Global;
use tree_match::laws::{walks_tell_the_tree, what_is_held_opens_the_same};
use tree_match::{How, Match, Where, holds_all};
use vault_read::laws::{clean_vaults_are_orderly, roots_have_one_answer};
use vault_walk::{Plan, plan_digest};
use work_folder::Work;

/// Goes on with the migration that the journal in a work folder tells of, from whatever a stop left.
///
/// The tests, in their order: the journal is there; the three folders don't overlap; nothing foreign is in the work folder; the source is
/// there still; both vaults open and are clean; the source has the items that the journal names; the target allows each name, mapped by
/// the journal's rule; no two items come to one path; and each item of the target is so among the mapped ones.
pub fn resume<F: Folder, R: Randoms>(
    alloc: Global,
    folder: &mut F,
    work: &FPath,
    source_pass: &[u8],
    target_pass: &[u8],
    random: &mut R,
) -> Result<Done, MoveFault>
    ensures guard { (g : Migration) → g.work ≡ work.now → IfSeen (F.told folder.old) (λ v. AreOpenedBy g source_pass.now target_pass.now v) → KeepsGuarded g (F.told folder.old) (F.told folder.new) }
    ensures moves { (v : View) (journal : Journal) → IsSeen (F.told folder.old) v → IsJournal journal → StandsIn work.now journal v
        → MovesOnly work.now journal.target (F.told folder.old) (F.told folder.new) }
    ensures moved { IfOk result (λ done. IfSeen (F.told folder.old) (λ v. MovesTold work.now source_pass.now target_pass.now done (F.told folder.old) (F.told folder.new) v)) }
    ensures finishes { OnOk result (EndsEach work.now source_pass.now target_pass.now (F.told folder.old) (F.told folder.new)) }
    ensures lasts { OnOk result (Lasts (F.told folder.new)) }
    ensures clears { OnOk result (Clears work.now (F.told folder.old) (F.told folder.new)) }
    ensures journal { KeepsEachJournal (HaveToldTrees source_pass.now target_pass.now) work.now (F.told folder.old) (F.told folder.new) }
    ensures grows { F.faults folder.old ≤ F.faults folder.new }
    ensures random { R.faults random.old ≤ R.faults random.new }
    ensures blamed { IfErr result (Blamed is_of_resume (CountRose (F.faults folder.old) (F.faults folder.new)) (CountRose (R.faults random.old) (R.faults random.new))) }
    ensures drew { DrewBy result (R.left random.old) (R.left random.new) }
    ensures cause { IfSeen (F.told folder.old) (λ v. Unless result (Resumes work.now source_pass.now target_pass.now v result)) }
    ensures written { IfSeen (F.told folder.old) (λ v. MayWriteTold result work.now source_pass.now target_pass.now (R.left random.old) (R.left random.new) (F.told folder.old) (F.told folder.new) v) }
    ensures tested { ChangesNothing (F.told folder.old) (F.told folder.new) ⊎ IfSeen (F.told folder.old) (λ v. IfErr result IsOfPlacing × PassesResume work.now source_pass.now target_pass.now v) }
    ensures undrawn { Draws (R.left random.old) (R.left random.new) [] ⊎ IfSeen (F.told folder.old) (λ v. IfErr result IsOfPlacing × PassesResume work.now source_pass.now target_pass.now v) }
    ensures completes { (g : Migration) → IfSeen (F.told folder.old) (λ v. g.work ≡ work.now → AreOpenedBy g source_pass.now target_pass.now v → CanResume g v → IfErr result IsOfChance) }
    ensures too_long { IfSeen (F.told folder.old) (λ v. IfErr result (IsOfLimit (PassesAsTold work.now source_pass.now target_pass.now (F.told folder.old) (F.told folder.new) v))) }
    ensures shared { IfSeen (F.told folder.old) (λ v. IfErr result (IsOfTaken (SharesAsTold work.now source_pass.now target_pass.now (R.left random.old) (R.left random.new) (F.told folder.old) (F.told folder.new) v))) }
{
    draws_compose();
    what_can_resume_is_done();
    settling_and_entering_keep_migrations_guarded();
    folder.settle()?;
    resume_settled(alloc, folder, work, source_pass, target_pass, random)
}

// Goes on once no change is pending.
fn resume_settled<F: Folder, R: Randoms>(
    alloc: Global,
    folder: &mut F,
    work: &FPath,
    source_pass: &[u8],
    target_pass: &[u8],
    random: &mut R,
) -> Result<Done, MoveFault>
    ensures guard { (g : Migration) → g.work ≡ work.now → IfSeen (F.told folder.old) (λ v. AreOpenedBy g source_pass.now target_pass.now v) → KeepsSettled g (F.told folder.old) (F.told folder.new) }
    ensures moves { (v : View) (journal : Journal) → IsSeen (F.told folder.old) v → IsJournal journal → StandsIn work.now journal v
        → MovesOnly work.now journal.target (F.told folder.old) (F.told folder.new) }
    ensures moved { IfOk result (λ done. IfSeen (F.told folder.old) (λ v. MovesTold work.now source_pass.now target_pass.now done (F.told folder.old) (F.told folder.new) v)) }
    ensures clears { OnOk result (Clears work.now (F.told folder.old) (F.told folder.new)) }
    ensures lasts { OnOk result (Lasts (F.told folder.new)) }
    ensures journal { KeepsEachText (HaveToldTrees source_pass.now target_pass.now) work.now (F.told folder.old) (F.told folder.new) }
    ensures finishes { OnOk result (EndsEachSettled work.now source_pass.now target_pass.now (F.told folder.old) (F.told folder.new)) }
    ensures grows { F.faults folder.old ≤ F.faults folder.new }
    ensures random { R.faults random.old ≤ R.faults random.new }
    ensures blamed { IfErr result (Blamed is_of_resume (CountRose (F.faults folder.old) (F.faults folder.new)) (CountRose (R.faults random.old) (R.faults random.new))) }
    ensures drew { DrewBy result (R.left random.old) (R.left random.new) }
    ensures cause { IfSeen (F.told folder.old) (λ v. Unless result (Resumes work.now source_pass.now target_pass.now v result)) }
    ensures too_long { IfSeen (F.told folder.old) (λ v. IfErr result (IsOfLimit (PassesAsTold work.now source_pass.now target_pass.now (F.told folder.old) (F.told folder.new) v))) }
    ensures shared { IfSeen (F.told folder.old) (λ v. IfErr result (IsOfTaken (SharesAsTold work.now source_pass.now target_pass.now (R.left random.old) (R.left random.new) (F.told folder.old) (F.told folder.new) v))) }
    ensures written { IfSeen (F.told folder.old) (λ v. MayWriteTold result work.now source_pass.now target_pass.now (R.left random.old) (R.left random.new) (F.told folder.old) (F.told folder.new) v) }
    ensures tested { (F.told folder.new ≡ F.told folder.old) ⊎ IfSeen (F.told folder.old) (λ v. IfErr result IsOfPlacing × PassesResume work.now source_pass.now target_pass.now v) }
    ensures undrawn { Draws (R.left random.old) (R.left random.new) [] ⊎ IfSeen (F.told folder.old) (λ v. IfErr result IsOfPlacing × PassesResume work.now source_pass.now target_pass.now v) }
{
    draws_compose();
    journals_are_read_back();
    let journal = read(alloc, folder, work)?;
    test_apart(&journal.source, &journal.target, work)?;
    Work::look_again(folder, work, is_done(journal.phase))?;
    resume_told(
        alloc,
        folder,
        work,
        journal,
        source_pass,
        target_pass,
        random,
    )
}

// Whether all is done in this phase.
fn is_done(phase: Phase) -> bool
    ensures { result ≡ is_done phase }
{
    match phase {
        Phase::Building => false,
        Phase::Done => true,
    }
}

// Goes on with the migration that a journal tells.
fn resume_told<F: Folder, R: Randoms>(
    alloc: Global,
    folder: &mut F,
    work: &FPath,
    journal: Journal,
    source_pass: &[u8],
    target_pass: &[u8],
    random: &mut R,
) -> Result<Done, MoveFault>
    requires journal { IsJournal journal }
    requires apart { AreSeparate journal.source journal.target work.now }
    requires used { IfSeen (F.told folder.old) (λ v. IsInUse v work.now journal) }
    ensures guard { (g : Migration) → g.work ≡ work.now → IfSeen (F.told folder.old) (λ v. AreOpenedBy g source_pass.now target_pass.now v) → KeepsSettled g (F.told folder.old) (F.told folder.new) }
    ensures moves { MovesOnly work.now journal.target (F.told folder.old) (F.told folder.new) }
    ensures moved { IfOk result (λ done. MovesTree journal.names journal.source journal.target work.now source_pass.now target_pass.now done (F.told folder.old) (F.told folder.new)) }
    ensures clears { OnOk result (Clears work.now (F.told folder.old) (F.told folder.new)) }
    ensures lasts { OnOk result (Lasts (F.told folder.new)) }
    ensures journal { IfSeen (F.told folder.old) (λ v. KeepsTexts (HaveToldTrees source_pass.now target_pass.now v journal) work.now journal (F.told folder.old) (F.told folder.new)) }
    ensures finishes { OnOk result (EndsEachSettled work.now source_pass.now target_pass.now (F.told folder.old) (F.told folder.new)) }
    ensures grows { F.faults folder.old ≤ F.faults folder.new }
    ensures random { R.faults random.old ≤ R.faults random.new }
    ensures blamed { IfErr result (Blamed is_of_resume (CountRose (F.faults folder.old) (F.faults folder.new)) (CountRose (R.faults random.old) (R.faults random.new))) }
    ensures drew { DrewBy result (R.left random.old) (R.left random.new) }
    ensures cause { IfSeen (F.told folder.old) (λ v. Unless result (ResumesTold work.now source_pass.now target_pass.now v journal result)) }
    ensures too_long { IfErr result (IsOfLimit (PassesInTree journal.names journal.source journal.target source_pass.now target_pass.now (F.told folder.old) (F.told folder.new))) }
    ensures shared { IfErr result (IsOfTaken (SharesInTree journal.names journal.source journal.target work.now source_pass.now target_pass.now (R.left random.old) (R.left random.new) (F.told folder.old) (F.told folder.new))) }
    ensures written { IfSeen (F.told folder.old) (λ v. MayWriteTreeBy (λ items. done_texts journal) result journal.names journal.source journal.target work.now source_pass.now target_pass.now (R.left random.old) (R.left random.new) (F.told folder.old) (F.told folder.new)) }
    ensures tested { (F.told folder.new ≡ F.told folder.old) ⊎ IfSeen (F.told folder.old) (λ v. IfErr result IsOfPlacing × PassesTold work.now source_pass.now target_pass.now journal v) }
    ensures undrawn { Draws (R.left random.old) (R.left random.new) [] ⊎ IfSeen (F.told folder.old) (λ v. IfErr result IsOfPlacing × PassesTold work.now source_pass.now target_pass.now journal v) }
{
    draws_compose();
    journals_are_read_back();
    roots_have_one_answer();
    guarded_migrations_are_seen();
    test_source(folder, &journal, work)?;
    let sides = load_both(
        alloc,
        folder,
        &journal.source,
        source_pass,
        &journal.target,
        target_pass,
        journal.names,
    )?;
    resume_with(alloc, folder, work, &sides, journal, random)
}

// The source is there, and hasn't been moved into the work folder.
fn test_source<F: Folder>(folder: &mut F, journal: &Journal, work: &FPath) -> Result<(), MoveFault>
    ensures told { F.told folder.new ≡ F.told folder.old }
    ensures there { OnOk result ((journal.now.phase ≡ Phase.Building) ⊎ (IfSeen (F.told folder.old) (λ v. v journal.now.source ≢ NoEntry))) }
    ensures grows { F.faults folder.old ≤ F.faults folder.new }
    ensures tested { IfErr result IsOfTest }
    ensures uncompared { IfErr result StopsElsewhere }
    ensures blamed { IfErr result (Blamed is_of_resume (CountRose (F.faults folder.old) (F.faults folder.new)) ⊥) }
    ensures cause { IfSeen (F.told folder.old) (λ v. Unless result (TestsSource journal.now.phase work.now journal.now.source v result)) }
{
    if journal.phase == Phase::Building {
        return Ok(());
    }
    let old = work.child("old")?;
    if folder.kind(&old)? != Kind::Missing || folder.kind(&journal.source)? == Kind::Missing {
        return Err(MoveFault::SourceGone);
    }
    Ok(())
}

// Goes on between two vaults.
fn resume_with<F: Folder, R: Randoms>(
    alloc: Global,
    folder: &mut F,
    work: &FPath,
    sides: &Sides,
    journal: Journal,
    random: &mut R,
) -> Result<Done, MoveFault>
    requires journal { IsJournal journal }
    requires apart { AreSeparate sides.now.source.root sides.now.target.root work.now }
    requires used { IfSeen (F.told folder.old) (λ v. IsInUse v work.now journal) }
    requires source_named { journal.source ≡ sides.now.source.root }
    requires target_named { journal.target ≡ sides.now.target.root }
    requires names_named { journal.names ≡ sides.now.names }
    ensures moved { Moved journal.names sides.now.source sides.now.target work.now (F.told folder.new) result }
    ensures clears { OnOk result (Clears work.now (F.told folder.old) (F.told folder.new)) }
    ensures lasts { OnOk result (Lasts (F.told folder.new)) }
    ensures journal { KeepsTexts (HaveMappedTree sides.now.names sides.now.source sides.now.target) work.now journal (F.told folder.old) (F.told folder.new) }
    ensures placed { Placed sides.now.names sides.now.source sides.now.target (F.told folder.old) result }
    ensures guard { LeadsTold sides.now.source sides.now.target work.now journal (progress_of journal.phase) Finished (F.told folder.old) (F.told folder.new) result }
    ensures moves { MovesOnly work.now sides.now.target.root (F.told folder.old) (F.told folder.new) }
    ensures grows { F.faults folder.old ≤ F.faults folder.new }
    ensures random { R.faults random.old ≤ R.faults random.new }
    ensures blamed { IfErr result (Blamed is_of_resume (CountRose (F.faults folder.old) (F.faults folder.new)) (CountRose (R.faults random.old) (R.faults random.new))) }
    ensures drew { DrewBy result (R.left random.old) (R.left random.new) }
    ensures cause { IfSeen (F.told folder.old) (λ v. Unless result (ResumesWith sides.now.source sides.now.target work.now journal v result)) }
    ensures ends { EndsBy (StayGood sides.now.source sides.now.target (F.told folder.old) (F.told folder.new)) (SharesSeen sides.now.names sides.now.source sides.now.target work.now (R.left random.old) (R.left random.new) (F.told folder.old) (F.told folder.new)) sides.now.names sides.now.source sides.now.target (F.told folder.new) result }
    ensures written { IfSeen (F.told folder.old) (λ v. MayWriteBy (λ items. done_texts journal) result journal.names sides.now.source sides.now.target work.now (R.left random.old) (R.left random.new) (F.told folder.old) (F.told folder.new)) }
    ensures tested { (F.told folder.new ≡ F.told folder.old) ⊎ IfSeen (F.told folder.old) (λ v. IfErr result IsOfPlacing × TestsToResume sides.now.source sides.now.target journal v all_pass (Ok tt)) }
    ensures undrawn { Draws (R.left random.old) (R.left random.new) [] ⊎ IfSeen (F.told folder.old) (λ v. IfErr result IsOfPlacing × TestsToResume sides.now.source sides.now.target journal v all_pass (Ok tt)) }
{
    draws_compose();
    walks_tell_the_tree();
    what_is_held_opens_the_same();
    clean_vaults_are_orderly();
    let plans = walk_both(alloc, folder, sides)?;
    let mapped = test_plans(alloc, folder, sides, &plans, &journal)?;
    let Plans { source, target } = plans;
    let items = Items {
        own: source,
        mapped,
    };
    place_rest(alloc, folder, work, sides, &items, &target, journal, random)
}

// The items of the source at their mapped paths: the source has those that the journal names, the target allows each mapped name, no two
// come to one path, and each item of the target is so among them.
fn test_plans<F: Folder>(
    alloc: Global,
    folder: &mut F,
    sides: &Sides,
    plans: &Plans,
    journal: &Journal,
) -> Result<Plan, MoveFault>
    requires source { IsWalked (F.told folder.old) sides.now.source plans.now.source.items }
    requires target { IsWalked (F.told folder.old) sides.now.target plans.now.target.items }
    requires names { journal.now.names ≡ sides.now.names }
    ensures told { F.told folder.new ≡ F.told folder.old }
    ensures grows { F.faults folder.old ≤ F.faults folder.new }
    ensures mapped { IfOk result (λ mapped. IsMappedPlan sides.now.names plans.now.source.items mapped.items) }
    ensures allowed { IfOk result (λ mapped. AllowsEach (format_of sides.now.target.vault) mapped.items) }
    ensures named { OnOk result (AreTold journal.now plans.now.source.items) }
    ensures tested { IfErr result IsOfTest }
    ensures limit { IfErr result (PassesSeen sides.now.names sides.now.source sides.now.target (F.told folder.old)) }
    ensures blamed { IfErr result (Blamed is_of_resume (CountRose (F.faults folder.old) (F.faults folder.new)) ⊥) }
    ensures passed { IfOk result (λ mapped. IfSeen (F.told folder.old) (λ v. TestsItems {Y = Unit {0}} sides.now.source sides.now.target journal.now v plans.now.source.items plans.now.target.items (λ items answer. (items ≡ mapped.items) × (answer ≡ Ok tt)) (Ok tt))) }
    ensures cause { IfErr result (λ fault. IfSeen (F.told folder.old) (λ v. Refuses (TestsItems sides.now.source sides.now.target journal.now v plans.now.source.items plans.now.target.items nothing_follows) fault)) }
{
    test_changed(journal, &plans.source)?;
    let mapped = map_allowed(alloc, sides, &plans.source)?;
    test_held(alloc, folder, sides, &mapped, &plans.target)?;
    Ok(mapped)
}

// The source has the items that the journal names.
fn test_changed(journal: &Journal, plan: &Plan) -> Result<(), MoveFault>
    ensures told { OnOk result (AreTold journal.now plan.now.items) }
    ensures tested { IfErr result IsOfTest }
    ensures uncompared { IfErr result StopsElsewhere }
    ensures blamed { IfErr result (Blamed is_of_resume ⊥ ⊥) }
    ensures cause { Unless result (TestsTold journal.now plan.now.items result) }
{
    let digest = plan_digest(plan)?;
    let items = plan.items.as_slice().len() as u64;
    if digest != journal.plan || items != journal.items {
        return Err(MoveFault::Changed(journal.plan, journal.items, digest, items));
    }
    Ok(())
}

// Each item of the target is so among those of the source at their mapped paths.
fn test_held<F: Folder>(
    alloc: Global,
    folder: &mut F,
    sides: &Sides,
    mapped: &Plan,
    target: &Plan,
) -> Result<(), MoveFault>
    requires source { IsMappedWalk sides.now.names (F.told folder.old) sides.now.source mapped.now.items }
    requires target { IsWalked (F.told folder.old) sides.now.target target.now.items }
    ensures told { F.told folder.new ≡ F.told folder.old }
    ensures grows { F.faults folder.old ≤ F.faults folder.new }
    ensures tested { IfErr result IsOfTest }
    ensures limit { IfErr result (PassesSeen sides.now.names sides.now.source sides.now.target (F.told folder.old)) }
    ensures blamed { IfErr result (Blamed is_of_resume (CountRose (F.faults folder.old) (F.faults folder.new)) ⊥) }
    ensures cause { IfSeen (F.told folder.old) (λ v. Unless result (TestsMatch sides.now.target target.now.items sides.now.source mapped.now.items v (λ answer. answer ≡ Ok tt) result)) }
{
    match holds_all(alloc, folder, &sides.target, target, &sides.source, mapped)? {
        Match::Same | Match::Contained(_) => Ok(()),
        Match::Differs(path, how) => Err(MoveFault::Differ(path, where_in(how))),
    }
}

// An item of the target that the source lacks is further there.
fn where_in(how: How) -> Where
    ensures { result ≡ where_in how }
{
    match how {
        How::Missing => Where::Extra,
        How::Kind => Where::Kind,
        How::Content => Where::Content,
    }
}

// Makes the stage ready, and places each item that the target lacks.
fn place_rest<F: Folder, R: Randoms>(
    alloc: Global,
    folder: &mut F,
    work: &FPath,
    sides: &Sides,
    items: &Items,
    target: &Plan,
    journal: Journal,
    random: &mut R,
) -> Result<Done, MoveFault>
    requires journal { IsJournal journal }
    requires apart { AreSeparate sides.now.source.root sides.now.target.root work.now }
    requires used { IfSeen (F.told folder.old) (λ v. IsInUse v work.now journal) }
    requires source { AreItemsToMove sides.now.names (F.told folder.old) sides.now.source items.now.own.items items.now.mapped.items }
    requires target { IsWalked (F.told folder.old) sides.now.target target.now.items }
    requires allowed { AllowsEach (format_of sides.now.target.vault) items.now.mapped.items }
    requires copying { MayBegin sides.now.names sides.now.source sides.now.target target.now.items (F.told folder.old) }
    requires source_named { journal.source ≡ sides.now.source.root }
    requires target_named { journal.target ≡ sides.now.target.root }
    requires names_named { journal.names ≡ sides.now.names }
    requires items_named { AreTold journal items.now.own.items }
    ensures moved { Moved journal.names sides.now.source sides.now.target work.now (F.told folder.new) result }
    ensures clears { OnOk result (Clears work.now (F.told folder.old) (F.told folder.new)) }
    ensures lasts { OnOk result (Lasts (F.told folder.new)) }
    ensures journal { KeepsTexts (HaveMappedTree sides.now.names sides.now.source sides.now.target) work.now journal (F.told folder.old) (F.told folder.new) }
    ensures placed { IfOk result (λ done. IfSeen (F.told folder.old) (λ v. done.placed ≡ lacking target.now.items items.now.mapped.items)) }
    ensures guard { LeadsTold sides.now.source sides.now.target work.now journal (progress_of journal.phase) Finished (F.told folder.old) (F.told folder.new) result }
    ensures moves { MovesOnly work.now sides.now.target.root (F.told folder.old) (F.told folder.new) }
    ensures grows { F.faults folder.old ≤ F.faults folder.new }
    ensures random { R.faults random.old ≤ R.faults random.new }
    ensures blamed { IfErr result (Blamed is_of_resume (CountRose (F.faults folder.old) (F.faults folder.new)) (CountRose (R.faults random.old) (R.faults random.new))) }
    ensures drew { DrewBy result (R.left random.old) (R.left random.new) }
    ensures cause { IfSeen (F.told folder.old) (λ v. Unless result (Moves (Empties v work.now) sides.now.source sides.now.target v items.now.mapped.items result)) }
    ensures ends { EndsBy (StayGood sides.now.source sides.now.target (F.told folder.old) (F.told folder.new)) (SharesFrom (IsFilled sides.now.names sides.now.source sides.now.target target.now.items) sides.now.target work.now items.now.mapped.items (R.left random.old) (R.left random.new) (F.told folder.old) (F.told folder.new)) sides.now.names sides.now.source sides.now.target (F.told folder.new) result }
    ensures unready { WritesBeside sides.now.target.root (λ file. ⊥) (F.told folder.old) (F.told folder.new) ⊎ IfSeen (F.told folder.old) (λ v. Empties v work.now (Ok tt)) }
    ensures written { IfSeen (F.told folder.old) (λ v. WritesBy result sides.now.source sides.now.target (lacked target.now.items items.now.mapped.items) (done_texts journal) (R.left random.old) (R.left random.new) (F.told folder.old) (F.told folder.new)) }
{
    draws_compose();
    guarded_migrations_are_seen();
    settling_and_entering_keep_migrations_guarded();
    walks_tell_the_tree();
    let again = Work::again(folder, work)?;
    let there = target.items.as_slice();
    go_on(alloc, folder, &again, sides, items, there, journal, random)
}
