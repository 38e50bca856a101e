//! Beginning a migration.
ghost use Rattle.std.specs.Prelude.{◌≡◌, ◌⊎◌, ◌≤◌, [], IfErr, IfOk, IsTrue, Ok, OnOk};
ghost use Rattle.port_model.specs.Counts.{CountRose};
ghost use Rattle.port_model.specs.Draws.{Draws};
ghost use Rattle.folder_spec.specs.Seen.{IfSeen};
ghost use Rattle.folder_model.specs.Text.{IsParsed};
ghost use Rattle.migration_spec.specs.Alone.{KeepsGuarded, Finished, Unbegun};
ghost use Rattle.migration_spec.specs.Guard.{AreOpenedBy, Migration};
ghost use Rattle.vault_spec.specs.Vault.{format_of};
ghost use Rattle.work_folder.specs.Entering.{Empties, EntersAs};
ghost use Rattle.migrate_core.specs.Causes.{Begins, BeginsApart, BeginsWith, IsOfPlacing, Moves, PassesBegin, TestsEmpty, TestsToBegin, Unless};
ghost use Rattle.migrate_core.specs.Completing.{CanBegin, IsOfChance};
ghost use Rattle.migrate_core.specs.Copying.{MayBegin, StayGood};
ghost use Rattle.migrate_core.specs.Drawing.{DrewBy};
ghost use Rattle.migrate_core.specs.Faults.{Blamed, IsOfTest, is_of_apart, is_of_begin};
ghost use Rattle.migrate_core.specs.Lasting.{BringsBetween, BringsJournal, Finishes, FinishesSettled};
ghost use Rattle.migrate_core.specs.Leading.{KeepsSettled, LeadsEach};
ghost use Rattle.migrate_core.specs.Limits.{StopsElsewhere, EndsBy, IsOfLimit, PassesInTree};
ghost use Rattle.migrate_core.specs.Moved.{IsTidyWork, Moved, MovesTree, Placed, lacking};
ghost use Rattle.migrate_core.specs.Moving.{MovesOnly};
ghost use Rattle.migrate_core.specs.Written.{MayWriteBy, MayWriteTree, WritesBeside, WritesBy, journal_texts, lacked};
ghost use Rattle.migrate_core.specs.Sharing.{IsFilled, IsOfTaken, SharesFrom, SharesInTree, SharesSeen};
ghost use Rattle.migrate_core.specs.Sides.{AllowsEach, AllowsEachMapped, AreItemsToMove, IsAsked};
ghost use Rattle.folder_spec.specs.Apart.{AreSeparate};
ghost use Rattle.migration_sides.specs.Lasting.{Lasts};
ghost use Rattle.migration_sides.specs.Tests.{all_pass};
ghost use Rattle.migration_sides.specs.Unchanged.{ChangesNothing};

use crate::fault::MoveFault;
use crate::finishing::{Items, go_on};
use crate::laws::what_can_begin_is_done;
use crate::names::map_allowed;
use crate::placing::{Done, journal_of};
use folder_model::{FPath, Folder};
use migration_sides::{Sides, load_both, test_apart, walk_both};
use migration_spec::laws::{
    guarded_migrations_are_seen, journals_keep_migrations_guarded,
    settling_and_entering_keep_migrations_guarded,
};
use move_journal::write;
use plain_tree::NameMap;
use port_model::Randoms;
use port_model::laws::draws_compose;
use std::alloc::Global;
use tree_match::laws::{mapped_walks_tell_the_mapped_tree, walks_tell_the_tree};
use vault_read::laws::{clean_vaults_are_orderly, roots_have_one_answer};
use vault_spec::laws::what_stands_is_found_step_by_step;
use vault_walk::PlanItem;
use work_folder::Work;

/// Begins to move the source's tree into the target, and goes on to its end.
///
/// `names` is the rule that brings the names to another form on the way. The tests, in their order: the three folders don't overlap; the
/// work folder can be made ready; both vaults open and are clean; the target is empty, and allows each mapped name; and no two items come
/// to one path. Nothing is changed before these.
pub fn begin<F: Folder, R: Randoms>(
    alloc: Global,
    folder: &mut F,
    source: &FPath,
    target: &FPath,
    work: &FPath,
    names: NameMap,
    source_pass: &[u8],
    target_pass: &[u8],
    random: &mut R,
) -> Result<Done, MoveFault>
    requires source { IsParsed source.now }
    requires target { IsParsed target.now }
    ensures moved { IfOk result (λ done. MovesTree names source.now target.now work.now source_pass.now target_pass.now done (F.told folder.old) (F.told folder.new)) }
    ensures finishes { OnOk result ((g : Migration) → IsAsked g names source.now target.now work.now → IfSeen (F.told folder.old) (λ v. AreOpenedBy g source_pass.now target_pass.now v) → Finishes g (F.told folder.old) (F.told folder.new)) }
    ensures lasts { OnOk result (Lasts (F.told folder.new)) }
    ensures guard { (g : Migration) → IsAsked g names source.now target.now work.now → IfSeen (F.told folder.old) (λ v. AreOpenedBy g source_pass.now target_pass.now v) → KeepsGuarded g (F.told folder.old) (F.told folder.new) }
    ensures tidy { IfOk result (λ done. IfSeen (F.told folder.new) (λ v. IsTidyWork work.now v)) }
    ensures journal { IfSeen (F.told folder.old) (λ v. BringsJournal names source.now target.now work.now source_pass.now target_pass.now (F.told folder.old) (F.told folder.new) v) }
    ensures moves { MovesOnly work.now target.now (F.told folder.old) (F.told folder.new) }
    ensures grows { F.faults folder.old ≤ F.faults folder.new }
    ensures random { R.faults random.old ≤ R.faults random.new }
    ensures blamed { IfErr result (Blamed is_of_begin (CountRose (F.faults folder.old) (F.faults folder.new)) (CountRose (R.faults random.old) (R.faults random.new))) }
    ensures drew { DrewBy result (R.left random.old) (R.left random.new) }
    ensures apart { AreSeparate source.now target.now work.now → IfErr result (λ fault. IsTrue (is_of_apart fault)) }
    ensures cause { IfSeen (F.told folder.old) (λ v. Unless result (Begins names source.now target.now work.now source_pass.now target_pass.now v result)) }
    ensures written { IfSeen (F.told folder.old) (λ v. MayWriteTree result names source.now target.now work.now source_pass.now target_pass.now (R.left random.old) (R.left random.new) (F.told folder.old) (F.told folder.new)) }
    ensures tested { ChangesNothing (F.told folder.old) (F.told folder.new) ⊎ IfSeen (F.told folder.old) (λ v. IfErr result IsOfPlacing × PassesBegin names source.now target.now work.now source_pass.now target_pass.now v) }
    ensures undrawn { Draws (R.left random.old) (R.left random.new) [] ⊎ IfSeen (F.told folder.old) (λ v. IfErr result IsOfPlacing × PassesBegin names source.now target.now work.now source_pass.now target_pass.now v) }
    ensures completes { (g : Migration) → IfSeen (F.told folder.old) (λ v. IsAsked g names source.now target.now work.now → AreOpenedBy g source_pass.now target_pass.now v → CanBegin g v → IfErr result IsOfChance) }
    ensures too_long { IfErr result (IsOfLimit (PassesInTree names source.now target.now source_pass.now target_pass.now (F.told folder.old) (F.told folder.new))) }
    ensures shared { IfErr result (IsOfTaken (SharesInTree names source.now target.now work.now source_pass.now target_pass.now (R.left random.old) (R.left random.new) (F.told folder.old) (F.told folder.new))) }
{
    draws_compose();
    what_can_begin_is_done();
    settling_and_entering_keep_migrations_guarded();
    test_apart(source, target, work)?;
    folder.settle()?;
    begin_settled(
        alloc,
        folder,
        source,
        target,
        work,
        names,
        source_pass,
        target_pass,
        random,
    )
}

// Begins once no change is pending.
fn begin_settled<F: Folder, R: Randoms>(
    alloc: Global,
    folder: &mut F,
    source: &FPath,
    target: &FPath,
    work: &FPath,
    names: NameMap,
    source_pass: &[u8],
    target_pass: &[u8],
    random: &mut R,
) -> Result<Done, MoveFault>
    requires source { IsParsed source.now }
    requires target { IsParsed target.now }
    requires apart { AreSeparate source.now target.now work.now }
    ensures moved { IfOk result (λ done. MovesTree names source.now target.now work.now source_pass.now target_pass.now done (F.told folder.old) (F.told folder.new)) }
    ensures finishes { OnOk result ((g : Migration) → IsAsked g names source.now target.now work.now → IfSeen (F.told folder.old) (λ v. AreOpenedBy g source_pass.now target_pass.now v) → FinishesSettled g (F.told folder.old) (F.told folder.new)) }
    ensures lasts { OnOk result (Lasts (F.told folder.new)) }
    ensures guard { (g : Migration) → IsAsked g names source.now target.now work.now → IfSeen (F.told folder.old) (λ v. AreOpenedBy g source_pass.now target_pass.now v) → KeepsSettled g (F.told folder.old) (F.told folder.new) }
    ensures tidy { IfOk result (λ done. IfSeen (F.told folder.new) (λ v. IsTidyWork work.now v)) }
    ensures journal { IfSeen (F.told folder.old) (λ v. BringsJournal names source.now target.now work.now source_pass.now target_pass.now (F.told folder.old) (F.told folder.new) v) }
    ensures moves { MovesOnly work.now target.now (F.told folder.old) (F.told folder.new) }
    ensures grows { F.faults folder.old ≤ F.faults folder.new }
    ensures random { R.faults random.old ≤ R.faults random.new }
    ensures blamed { IfErr result (Blamed is_of_apart (CountRose (F.faults folder.old) (F.faults folder.new)) (CountRose (R.faults random.old) (R.faults random.new))) }
    ensures drew { DrewBy result (R.left random.old) (R.left random.new) }
    ensures cause { IfSeen (F.told folder.old) (λ v. Unless result (BeginsApart names source.now target.now work.now source_pass.now target_pass.now v result)) }
    ensures too_long { IfErr result (IsOfLimit (PassesInTree names source.now target.now source_pass.now target_pass.now (F.told folder.old) (F.told folder.new))) }
    ensures shared { IfErr result (IsOfTaken (SharesInTree names source.now target.now work.now source_pass.now target_pass.now (R.left random.old) (R.left random.new) (F.told folder.old) (F.told folder.new))) }
    ensures written { IfSeen (F.told folder.old) (λ v. MayWriteTree result names source.now target.now work.now source_pass.now target_pass.now (R.left random.old) (R.left random.new) (F.told folder.old) (F.told folder.new)) }
    ensures tested { (F.told folder.new ≡ F.told folder.old) ⊎ IfSeen (F.told folder.old) (λ v. IfErr result IsOfPlacing × PassesBegin names source.now target.now work.now source_pass.now target_pass.now v) }
    ensures undrawn { Draws (R.left random.old) (R.left random.new) [] ⊎ IfSeen (F.told folder.old) (λ v. IfErr result IsOfPlacing × PassesBegin names source.now target.now work.now source_pass.now target_pass.now v) }
{
    draws_compose();
    roots_have_one_answer();
    guarded_migrations_are_seen();
    Work::look(folder, work)?;
    let sides = load_both(
        alloc,
        folder,
        source,
        source_pass,
        target,
        target_pass,
        names,
    )?;
    begin_with(alloc, folder, work, &sides, random)
}

// Begins between two vaults.
fn begin_with<F: Folder, R: Randoms>(
    alloc: Global,
    folder: &mut F,
    work: &FPath,
    sides: &Sides,
    random: &mut R,
) -> Result<Done, MoveFault>
    requires source { IsParsed sides.now.source.root }
    requires target { IsParsed sides.now.target.root }
    requires apart { AreSeparate sides.now.source.root sides.now.target.root work.now }
    ensures moved { Moved sides.now.names sides.now.source sides.now.target work.now (F.told folder.new) result }
    ensures lasts { OnOk result (Lasts (F.told folder.new)) }
    ensures placed { Placed sides.now.names sides.now.source sides.now.target (F.told folder.old) result }
    ensures guard { LeadsEach sides.now.names sides.now.source sides.now.target work.now Unbegun Finished (F.told folder.old) (F.told folder.new) result }
    ensures tidy { IfOk result (λ done. IfSeen (F.told folder.new) (λ v. IsTidyWork work.now v)) }
    ensures journal { BringsBetween sides.now.names sides.now.source sides.now.target work.now (F.told folder.old) (F.told folder.new) }
    ensures moves { MovesOnly work.now sides.now.target.root (F.told folder.old) (F.told folder.new) }
    ensures grows { F.faults folder.old ≤ F.faults folder.new }
    ensures random { R.faults random.old ≤ R.faults random.new }
    ensures blamed { IfErr result (Blamed is_of_apart (CountRose (F.faults folder.old) (F.faults folder.new)) (CountRose (R.faults random.old) (R.faults random.new))) }
    ensures drew { DrewBy result (R.left random.old) (R.left random.new) }
    ensures cause { IfSeen (F.told folder.old) (λ v. Unless result (BeginsWith sides.now.names sides.now.source sides.now.target work.now v result)) }
    ensures ends { EndsBy (StayGood sides.now.source sides.now.target (F.told folder.old) (F.told folder.new)) (SharesSeen sides.now.names sides.now.source sides.now.target work.now (R.left random.old) (R.left random.new) (F.told folder.old) (F.told folder.new)) sides.now.names sides.now.source sides.now.target (F.told folder.new) result }
    ensures written { MayWriteBy (journal_texts sides.now.names sides.now.source.root sides.now.target.root) result sides.now.names sides.now.source sides.now.target work.now (R.left random.old) (R.left random.new) (F.told folder.old) (F.told folder.new) }
    ensures tested { (F.told folder.new ≡ F.told folder.old) ⊎ IfSeen (F.told folder.old) (λ v. IfErr result IsOfPlacing × TestsToBegin sides.now.names sides.now.source sides.now.target v all_pass (Ok tt)) }
    ensures undrawn { Draws (R.left random.old) (R.left random.new) [] ⊎ IfSeen (F.told folder.old) (λ v. IfErr result IsOfPlacing × TestsToBegin sides.now.names sides.now.source sides.now.target v all_pass (Ok tt)) }
{
    draws_compose();
    walks_tell_the_tree();
    clean_vaults_are_orderly();
    let plans = walk_both(alloc, folder, sides)?;
    test_empty(plans.target.items.as_slice())?;
    let mapped = map_allowed(alloc, sides, &plans.source)?;
    let items = Items {
        own: plans.source,
        mapped,
    };
    move_all(alloc, folder, work, sides, &items, random)
}

// There are no items.
fn test_empty(items: &[PlanItem]) -> Result<(), MoveFault>
    ensures empty { OnOk result (items.now ≡ []) }
    ensures tested { IfErr result IsOfTest }
    ensures uncompared { IfErr result StopsElsewhere }
    ensures blamed { IfErr result (Blamed is_of_apart ⊥ ⊥) }
    ensures cause { Unless result (TestsEmpty items.now result) }
{
    match items.first() {
        None => Ok(()),
        Some(item) => Err(MoveFault::NotEmpty(item.at.copy()?)),
    }
}

// Makes the work folder ready, writes the journal, and places each item.
fn move_all<F: Folder, R: Randoms>(
    alloc: Global,
    folder: &mut F,
    work: &FPath,
    sides: &Sides,
    items: &Items,
    random: &mut R,
) -> Result<Done, MoveFault>
    requires source { IsParsed sides.now.source.root }
    requires target { IsParsed sides.now.target.root }
    requires apart { AreSeparate sides.now.source.root sides.now.target.root work.now }
    requires walked { AreItemsToMove sides.now.names (F.told folder.old) sides.now.source items.now.own.items items.now.mapped.items }
    requires allowed { AllowsEach (format_of sides.now.target.vault) items.now.mapped.items }
    requires named { AllowsEachMapped sides.now.names (format_of sides.now.target.vault) items.now.own.items }
    requires copying { MayBegin sides.now.names sides.now.source sides.now.target [] (F.told folder.old) }
    ensures moved { Moved sides.now.names sides.now.source sides.now.target work.now (F.told folder.new) result }
    ensures lasts { OnOk result (Lasts (F.told folder.new)) }
    ensures placed { IfOk result (λ done. IfSeen (F.told folder.old) (λ v. done.placed ≡ lacking [] items.now.mapped.items)) }
    ensures guard { LeadsEach sides.now.names sides.now.source sides.now.target work.now Unbegun Finished (F.told folder.old) (F.told folder.new) result }
    ensures tidy { IfOk result (λ done. IfSeen (F.told folder.new) (λ v. IsTidyWork work.now v)) }
    ensures journal { BringsBetween sides.now.names sides.now.source sides.now.target work.now (F.told folder.old) (F.told folder.new) }
    ensures moves { MovesOnly work.now sides.now.target.root (F.told folder.old) (F.told folder.new) }
    ensures grows { F.faults folder.old ≤ F.faults folder.new }
    ensures random { R.faults random.old ≤ R.faults random.new }
    ensures blamed { IfErr result (Blamed is_of_apart (CountRose (F.faults folder.old) (F.faults folder.new)) (CountRose (R.faults random.old) (R.faults random.new))) }
    ensures drew { DrewBy result (R.left random.old) (R.left random.new) }
    ensures cause { IfSeen (F.told folder.old) (λ v. Unless result (Moves (EntersAs v work.now) sides.now.source sides.now.target v items.now.mapped.items result)) }
    ensures ends { EndsBy (StayGood sides.now.source sides.now.target (F.told folder.old) (F.told folder.new)) (SharesFrom (IsFilled sides.now.names sides.now.source sides.now.target []) sides.now.target work.now items.now.mapped.items (R.left random.old) (R.left random.new) (F.told folder.old) (F.told folder.new)) sides.now.names sides.now.source sides.now.target (F.told folder.new) result }
    ensures unready { WritesBeside sides.now.target.root (λ file. ⊥) (F.told folder.old) (F.told folder.new) ⊎ IfSeen (F.told folder.old) (λ v. Empties v work.now (Ok tt)) }
    ensures written { WritesBy result sides.now.source sides.now.target (lacked [] items.now.mapped.items) (journal_texts sides.now.names sides.now.source.root sides.now.target.root items.now.own.items) (R.left random.old) (R.left random.new) (F.told folder.old) (F.told folder.new) }
{
    draws_compose();
    guarded_migrations_are_seen();
    journals_keep_migrations_guarded();
    settling_and_entering_keep_migrations_guarded();
    mapped_walks_tell_the_mapped_tree();
    walks_tell_the_tree();
    what_stands_is_found_step_by_step();
    let entered = Work::enter(folder, work)?;
    let journal = journal_of(
        sides.source.root(),
        sides.target.root(),
        sides.names,
        &items.own,
    )?;
    write(alloc, folder, work, &journal)?;
    go_on(alloc, folder, &entered, sides, items, &[], journal, random)
}
