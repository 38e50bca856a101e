//! Ending a migration.
ghost use Rattle.std.specs.Prelude.{◌≡◌, ◌≤◌, ◌∷◌, [], Contains, IfErr, IfOk, OnOk};
ghost use Rattle.port_model.specs.Counts.{CountRose};
ghost use Rattle.folder_spec.specs.Path.{Path};
ghost use Rattle.folder_spec.specs.Seen.{IfSeen};
ghost use Rattle.move_journal.specs.Journal.{IsJournal, journal_text};
ghost use Rattle.move_journal.specs.Writing.{IsWorkFolder};
ghost use Rattle.move_journal.specs.Reading.{StandsIn};
ghost use Rattle.migration_spec.specs.Alone.{Begun, Finished};
ghost use Rattle.tree_match.specs.Comparing.{Is};
ghost use Rattle.folder_spec.specs.Apart.{AreApart, AreSeparate};
ghost use Rattle.tree_match.specs.Trees.{IsSameOrTooLong, match_of, side_of};
ghost use Rattle.tree_match.specs.declared.answer.Match.TheVariants.{Same};
ghost use Rattle.vault_spec.specs.Vault.{format_of};
ghost use Rattle.vault_walk.specs.Survey.{IsOrdered};
ghost use Rattle.work_folder.specs.Entering.{IsReady};
ghost use Rattle.migrate_core.specs.Causes.{IsStop, StopsLater, StopsSeen, nothing_stops};
ghost use Rattle.migrate_core.specs.Copying.{CopiesAll, HasCopied};
ghost use Rattle.migrate_core.specs.Drawing.{DrewBy};
ghost use Rattle.migrate_core.specs.Faults.{Blamed, IsOfTest, is_of_apart};
ghost use Rattle.migrate_core.specs.Lasting.{Clears, ClearsReady, KeepsTexts, StaysBeside};
ghost use Rattle.migrate_core.specs.Leading.{FinishesEach, LeadsTold, progress_of};
ghost use Rattle.migrate_core.specs.Limits.{StopsElsewhere, EndsBy, PassesSeen};
ghost use Rattle.migrate_core.specs.Moved.{HaveMappedTree, Moved, StaysTidyWork, done_of, lacking};
ghost use Rattle.migrate_core.specs.Moving.{MovesOnly};
ghost use Rattle.migrate_core.specs.Written.{WritesBeside, WritesBy, done_texts, lacked};
ghost use Rattle.migrate_core.specs.Sharing.{IsFilled, SharesFrom};
ghost use Rattle.migrate_core.specs.Sides.{AllowsEach, AreItemsToMove, AreTold, IsMappedWalk, StandAll};
ghost use Rattle.migration_sides.specs.Lasting.{Lasts};
ghost use Rattle.migration_sides.specs.Sides.{IsWalked};

use crate::fault::MoveFault;
use crate::placing::{Done, place_missing};
use folder_model::{FPath, Folder};
use migration_sides::{Sides, walk_one};
use migration_spec::laws::{
    guarded_migrations_are_seen, journals_keep_migrations_guarded,
    settling_and_entering_keep_migrations_guarded,
};
use move_journal::{Journal, Phase, write};
use port_model::Randoms;
use port_model::laws::draws_compose;
use std::alloc::Global;
use tree_match::laws::{
    mapped_walks_tell_the_mapped_tree, walks_tell_the_tree, what_is_held_opens_the_same,
};
use tree_match::{Match, Where, holds_all, where_of};
use vault_read::laws::files_have_their_contents;
use vault_spec::laws::{mapped_trees_are_held, what_stands_is_found_step_by_step};
use vault_walk::{Plan, PlanItem};
use work_folder::Work;

// The items of the source: as a walk answered them, and at their mapped paths.
#[derive(Drop)]
pub(crate) struct Items {
    pub(crate) own: Plan,
    pub(crate) mapped: Plan,
}

// Places what the target lacks of the source, and ends the migration.
pub(crate) fn go_on<F: Folder, R: Randoms>(
    alloc: Global,
    folder: &mut F,
    work: &Work,
    sides: &Sides,
    items: &Items,
    there: &[PlanItem],
    journal: Journal,
    random: &mut R,
) -> Result<Done, MoveFault>
    requires apart { AreSeparate sides.now.source.root sides.now.target.root work.now }
    requires walked { AreItemsToMove sides.now.names (F.told folder.old) sides.now.source items.now.own.items items.now.mapped.items }
    requires allowed { AllowsEach (format_of sides.now.target.vault) items.now.mapped.items }
    requires ready { IfSeen (F.told folder.old) (λ v. IsReady v work.now) }
    requires there { IfSeen (F.told folder.old) (λ v. IsOrdered there.now) }
    requires journal { IsJournal journal }
    requires work_folder { IfSeen (F.told folder.old) (λ v. IsWorkFolder v work.now) }
    requires stands { journal.phase ≡ Phase.Done → IfSeen (F.told folder.old) (λ v. StandsIn work.now journal v) }
    requires source { journal.source ≡ sides.now.source.root }
    requires target { journal.target ≡ sides.now.target.root }
    requires names { journal.names ≡ sides.now.names }
    requires items { AreTold journal items.now.own.items }
    ensures moved { Moved journal.names sides.now.source sides.now.target work.now (F.told folder.new) result }
    ensures placed { IfOk result (λ done. IfSeen (F.told folder.old) (λ v. done.placed ≡ lacking there.now items.now.mapped.items)) }
    ensures building { journal.phase ≡ Phase.Building → LeadsTold sides.now.source sides.now.target work.now journal Begun Finished (F.told folder.old) (F.told folder.new) result }
    ensures done { journal.phase ≡ Phase.Done → StandAll items.now.mapped.items there.now → LeadsTold sides.now.source sides.now.target work.now journal Finished Finished (F.told folder.old) (F.told folder.new) result }
    ensures tidy { IfOk result (λ done. StaysTidyWork work.now (F.told folder.old) (F.told folder.new)) }
    ensures clears { OnOk result (Clears work.now (F.told folder.old) (F.told folder.new)) }
    ensures lasts { OnOk result (Lasts (F.told folder.new)) }
    ensures journal { KeepsTexts (HaveMappedTree sides.now.names sides.now.source sides.now.target) work.now journal (F.told folder.old) (F.told folder.new) }
    ensures moves { MovesOnly work.now sides.now.target.root (F.told folder.old) (F.told folder.new) }
    ensures grows { F.faults folder.old ≤ F.faults folder.new }
    ensures random { R.faults random.old ≤ R.faults random.new }
    ensures blamed { IfErr result (Blamed is_of_apart (CountRose (F.faults folder.old) (F.faults folder.new)) (CountRose (R.faults random.old) (R.faults random.new))) }
    ensures drew { DrewBy result (R.left random.old) (R.left random.new) }
    ensures moving { IfErr result (StopsSeen (HasCopied sides.now.names sides.now.source sides.now.target there.now) (F.told folder.old) sides.now.source items.now.mapped.items) }
    ensures ends { EndsBy (CopiesAll sides.now.names sides.now.source sides.now.target there.now items.now.mapped.items (F.told folder.old) (F.told folder.new)) (SharesFrom (IsFilled sides.now.names sides.now.source sides.now.target there.now) sides.now.target work.now items.now.mapped.items (R.left random.old) (R.left random.new) (F.told folder.old) (F.told folder.new)) sides.now.names sides.now.source sides.now.target (F.told folder.new) result }
    ensures written { IsOrdered there.now → WritesBy result sides.now.source sides.now.target (lacked there.now items.now.mapped.items) (done_texts journal) (R.left random.old) (R.left random.new) (F.told folder.old) (F.told folder.new) }
{
    draws_compose();
    let mapped = items.mapped.items.as_slice();
    let placed = place_missing(alloc, folder, work, sides, mapped, there, random)?;
    finish(alloc, folder, work.at(), sides, items, journal, placed)
}

// Compares the two vaults once all is placed, and says in the journal that all is done.
pub(crate) fn finish<F: Folder>(
    alloc: Global,
    folder: &mut F,
    work: &FPath,
    sides: &Sides,
    items: &Items,
    journal: Journal,
    placed: u64,
) -> Result<Done, MoveFault>
    requires apart { AreSeparate sides.now.source.root sides.now.target.root work.now }
    requires walked { AreItemsToMove sides.now.names (F.told folder.old) sides.now.source items.now.own.items items.now.mapped.items }
    requires journal { IsJournal journal }
    requires work_folder { IfSeen (F.told folder.old) (λ v. IsWorkFolder v work.now) }
    requires stands { journal.phase ≡ Phase.Done → IfSeen (F.told folder.old) (λ v. StandsIn work.now journal v) }
    requires source { journal.source ≡ sides.now.source.root }
    requires target { journal.target ≡ sides.now.target.root }
    requires names { journal.names ≡ sides.now.names }
    requires items { AreTold journal items.now.own.items }
    ensures moved { Moved journal.names sides.now.source sides.now.target work.now (F.told folder.new) result }
    ensures placed { IfOk result (λ done. done.placed ≡ placed) }
    ensures guard { LeadsTold sides.now.source sides.now.target work.now journal (progress_of journal.phase) Finished (F.told folder.old) (F.told folder.new) result }
    ensures tidy { IfOk result (λ done. StaysTidyWork work.now (F.told folder.old) (F.told folder.new)) }
    ensures clears { OnOk result (ClearsReady work.now (F.told folder.old) (F.told folder.new)) }
    ensures lasts { OnOk result (Lasts (F.told folder.new)) }
    ensures journal { KeepsTexts (HaveMappedTree sides.now.names sides.now.source sides.now.target) work.now journal (F.told folder.old) (F.told folder.new) }
    ensures moves { MovesOnly work.now sides.now.target.root (F.told folder.old) (F.told folder.new) }
    ensures grows { F.faults folder.old ≤ F.faults folder.new }
    ensures blamed { IfErr result (Blamed is_of_apart (CountRose (F.faults folder.old) (F.faults folder.new)) ⊥) }
    ensures tested { IfErr result IsOfTest }
    ensures moving { IfErr result (StopsLater (HasCopied sides.now.names sides.now.source sides.now.target items.now.mapped.items) (F.told folder.old)) }
    ensures ends { EndsBy (CopiesAll sides.now.names sides.now.source sides.now.target items.now.mapped.items items.now.mapped.items (F.told folder.old) (F.told folder.new)) (Unit {0}) sides.now.names sides.now.source sides.now.target (F.told folder.new) result }
    ensures written { WritesBeside sides.now.target.root (λ file. Contains (done_texts journal) file) (F.told folder.old) (F.told folder.new) }
{
    files_have_their_contents();
    guarded_migrations_are_seen();
    mapped_trees_are_held();
    mapped_walks_tell_the_mapped_tree();
    walks_tell_the_tree();
    what_is_held_opens_the_same();
    what_stands_is_found_step_by_step();
    let target = walk_one(alloc, folder, &sides.target)?;
    test_same(alloc, folder, sides, &items.mapped, &target)?;
    say_done(alloc, folder, work, journal)?;
    Ok(Done {
        placed,
        items: target.items.as_slice().len() as u64,
    })
}

// The target holds the same as the source at its mapped paths.
fn test_same<F: Folder>(
    alloc: Global,
    folder: &mut F,
    sides: &Sides,
    mapped: &Plan,
    target: &Plan,
) -> Result<(), MoveFault>
    requires source { IsMappedWalk sides.now.names (F.told folder.old) sides.now.source mapped.now.items }
    requires target { IsWalked (F.told folder.old) sides.now.target target.now.items }
    ensures told { F.told folder.new ≡ F.told folder.old }
    ensures same { OnOk result (IfSeen (F.told folder.old) (λ v. match_of v (side_of sides.now.source mapped.now.items) (side_of sides.now.target target.now.items) ≡ Is Same)) }
    ensures grows { F.faults folder.old ≤ F.faults folder.new }
    ensures blamed { IfErr result (Blamed is_of_apart (CountRose (F.faults folder.old) (F.faults folder.new)) ⊥) }
    ensures tested { IfErr result IsOfTest }
    ensures moving { IfErr result (StopsLater (λ v. IsSameOrTooLong (match_of v (side_of sides.now.source mapped.now.items) (side_of sides.now.target target.now.items))) (F.told folder.old)) }
    ensures limit { IfErr result (PassesSeen sides.now.names sides.now.source sides.now.target (F.told folder.old)) }
{
    match holds_all(alloc, folder, &sides.source, mapped, &sides.target, target)? {
        Match::Same => Ok(()),
        Match::Contained(path) => Err(MoveFault::Differ(path, Where::Extra)),
        Match::Differs(path, how) => Err(MoveFault::Differ(path, where_of(how))),
    }
}

// Writes the journal anew where it doesn't say yet that all is done; and else settles, so that what was done before lasts.
fn say_done<F: Folder>(
    alloc: Global,
    folder: &mut F,
    work: &FPath,
    journal: Journal,
) -> Result<(), MoveFault>
    requires journal { IsJournal journal }
    requires work_folder { IfSeen (F.told folder.old) (λ v. IsWorkFolder v work.now) }
    requires stands { journal.phase ≡ Phase.Done → IfSeen (F.told folder.old) (λ v. StandsIn work.now journal v) }
    ensures says { OnOk result (IfSeen (F.told folder.new) (λ v. StandsIn work.now (done_of journal) v)) }
    ensures tidy { OnOk result (StaysTidyWork work.now (F.told folder.old) (F.told folder.new)) }
    ensures clears { OnOk result (ClearsReady work.now (F.told folder.old) (F.told folder.new)) }
    ensures lasts { OnOk result (Lasts (F.told folder.new)) }
    ensures journal { KeepsTexts (StaysBeside work.now (F.told folder.old)) work.now journal (F.told folder.old) (F.told folder.new) }
    ensures guard { FinishesEach work.now journal (F.told folder.old) (F.told folder.new) result }
    ensures moves { (root : Path) → AreApart root work.now → MovesOnly work.now root (F.told folder.old) (F.told folder.new) }
    ensures grows { F.faults folder.old ≤ F.faults folder.new }
    ensures blamed { IfErr result (Blamed is_of_apart (CountRose (F.faults folder.old) (F.faults folder.new)) ⊥) }
    ensures uncompared { IfErr result StopsElsewhere }
    ensures moving { IfErr result (IsStop (Unit {0}) nothing_stops) }
    ensures written { (root : Path) → AreApart root work.now → WritesBeside root (λ file. Contains (done_texts journal) file) (F.told folder.old) (F.told folder.new) }
{
    guarded_migrations_are_seen();
    journals_keep_migrations_guarded();
    settling_and_entering_keep_migrations_guarded();
    match journal.phase {
        Phase::Done => Ok(folder.settle()?),
        Phase::Building => {
            let done = Journal {
                phase: Phase::Done,
                ..journal
            };
            Ok(write(alloc, folder, work, &done)?)
        }
    }
}
