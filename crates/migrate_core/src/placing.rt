//! Placing the source's items in the target.
ghost use Rattle.std.specs.Prelude.{◌≡◌, ◌≤◌, ◌∷◌, [], not, IfErr, IfOk, Some};
ghost use Rattle.port_model.specs.Counts.{CountRose};
ghost use Rattle.chunk_files.specs.Decoding.{started};
ghost use Rattle.folder_spec.specs.Seen.{IfSeen};
ghost use Rattle.folder_spec.specs.View.{Found};
ghost use Rattle.move_journal.specs.Journal.{IsDigest};
ghost use Rattle.migration_spec.specs.Alone.{Begun};
ghost use Rattle.vault_spec.specs.Vault.{format_of};
ghost use Rattle.vault_walk.specs.Survey.{IsOrdered};
ghost use Rattle.vault_faults.specs.Limits.{content_limit};
ghost use Rattle.item_making.specs.Making.{is_apart};
ghost use Rattle.vault_write.specs.ContentsComing.{coming_read};
ghost use Rattle.vault_write.specs.VaultContents.{coming_of, path_of};
ghost use Rattle.vault_write.specs.Calls.{IsKept};
ghost use Rattle.work_folder.specs.Entering.{IsReady};
ghost use Rattle.migrate_core.specs.Causes.{IsStop, StopsSeen, nothing_stops};
ghost use Rattle.migrate_core.specs.Copying.{CopiesAll, CopiesMissing, CopiesOne, Enters, HasCopied};
ghost use Rattle.migrate_core.specs.Drawing.{DrewBy};
ghost use Rattle.migrate_core.specs.Faults.{Blamed, is_of_apart};
ghost use Rattle.migrate_core.specs.Leading.{LeadsEach};
ghost use Rattle.migrate_core.specs.Limits.{StopsElsewhere, StopsFor};
ghost use Rattle.migrate_core.specs.Moved.{is_there, lacking};
ghost use Rattle.migrate_core.specs.Moving.{MovesBeside};
ghost use Rattle.migrate_core.specs.Written.{WritesBy, lacked};
ghost use Rattle.migrate_core.specs.Sharing.{IsFilled, Lacks, LacksOther, SharesFrom};
ghost use Rattle.migrate_core.specs.Sides.{AllowsEach, AllowsLast, IsItemOf, IsMappedWalk, StandAll, StandsIn, new_journal};
ghost use Rattle.folder_spec.specs.Apart.{AreSeparate};

use crate::fault::MoveFault;
use folder_model::{FPath, Folder};
use migration_sides::Sides;
use migration_spec::laws::{guarded_migrations_are_seen, placing_keeps_migrations_guarded};
use move_journal::{Journal, Phase};
use plain_tree::laws::prefix_comes_first;
use plain_tree::{NameMap, NodeKind};
use port_model::Randoms;
use port_model::laws::draws_compose;
use std::alloc::{AllocError, Global};
use tree_match::laws::{mapped_walks_tell_the_mapped_tree, walks_tell_the_tree};
use vault_read::laws::{files_have_their_contents, items_keep_vaults};
use vault_read::{ContentReader, Vault};
use vault_spec::laws::{what_is_found_stands, what_stands_is_found_step_by_step};
use vault_walk::{Plan, PlanItem, plan_digest};
use vault_write::laws::files_fit_as_contents;
use vault_write::{Kept, VaultContent, place_dir_keeping, place_file_keeping};
use work_folder::Work;

/// What a migration has done: how many items it placed, and how many the target has.
#[derive(Clone, Copy, PartialEq, Eq)]
pub struct Done {
    pub placed: u64,
    pub items: u64,
}

// The journal of a migration that begins.
pub(crate) fn journal_of(
    source: &FPath,
    target: &FPath,
    names: NameMap,
    plan: &Plan,
) -> Result<Journal, MoveFault>
    ensures new { IfOk result (λ journal. journal ≡ new_journal names source.now target.now plan.now.items) }
    ensures digest { IfOk result (λ journal. IsDigest journal.plan) }
    ensures blamed { IfErr result (Blamed is_of_apart ⊥ ⊥) }
    ensures uncompared { IfErr result StopsElsewhere }
    ensures moving { IfErr result (IsStop (Unit {0}) nothing_stops) }
{
    Ok(Journal {
        phase: Phase::Building,
        names,
        source: source.copy()?,
        target: target.copy()?,
        items: plan.items.as_slice().len() as u64,
        plan: plan_digest(plan)?,
    })
}

// Places each item that the target lacks, in order of the mapped paths. Both plans are in order of their paths.
pub(crate) fn place_missing<F: Folder, R: Randoms>(
    alloc: Global,
    folder: &mut F,
    work: &Work,
    sides: &Sides,
    items: &[PlanItem],
    there: &[PlanItem],
    random: &mut R,
) -> Result<u64, MoveFault>
    requires apart { AreSeparate sides.now.source.root sides.now.target.root work.now }
    requires walked { IsMappedWalk sides.now.names (F.told folder.old) sides.now.source items.now }
    requires allowed { AllowsEach (format_of sides.now.target.vault) items.now }
    requires ready { IfSeen (F.told folder.old) (λ v. IsReady v work.now) }
    requires there { IfSeen (F.told folder.old) (λ v. IsOrdered there.now) }
    ensures guard { LeadsEach sides.now.names sides.now.source sides.now.target work.now Begun Begun (F.told folder.old) (F.told folder.new) result }
    ensures moves { MovesBeside (is_apart work.now sides.now.target.root) work.now sides.now.target.root (F.told folder.old) (F.told folder.new) }
    ensures ready { IfOk result (λ placed. IfSeen (F.told folder.new) (λ v. IsReady v work.now)) }
    ensures none { StandAll items.now there.now → F.told folder.new ≡ F.told folder.old }
    ensures counted { IfOk result (λ placed. IsOrdered there.now → placed ≡ lacking there.now items.now) }
    ensures grows { F.faults folder.old ≤ F.faults folder.new }
    ensures random { R.faults random.old ≤ R.faults random.new }
    ensures blamed { IfErr result (Blamed is_of_apart (CountRose (F.faults folder.old) (F.faults folder.new)) (CountRose (R.faults random.old) (R.faults random.new))) }
    ensures drew { DrewBy result (R.left random.old) (R.left random.new) }
    ensures stops { IfErr result (StopsFor (SharesFrom (IsFilled sides.now.names sides.now.source sides.now.target there.now) sides.now.target work.now items.now (R.left random.old) (R.left random.new) (F.told folder.old) (F.told folder.new))) }
    ensures copies { IfOk result (λ placed. CopiesAll sides.now.names sides.now.source sides.now.target there.now items.now (F.told folder.old) (F.told folder.new)) }
    ensures moving { IfErr result (StopsSeen (HasCopied sides.now.names sides.now.source sides.now.target there.now) (F.told folder.old) sides.now.source items.now) }
    ensures written { IsOrdered there.now → WritesBy result sides.now.source sides.now.target (lacked there.now items.now) [] (R.left random.old) (R.left random.new) (F.told folder.old) (F.told folder.new) }
{
    draws_compose();
    prefix_comes_first();
    mapped_walks_tell_the_mapped_tree();
    walks_tell_the_tree();
    what_is_found_stands();
    what_stands_is_found_step_by_step();
    let mut placed = 0;
    let mut carried = Carried {
        content: None,
        kept: Kept::new(),
    };
    for item in items {
        if place_missing_one(
            alloc,
            folder,
            work,
            sides,
            item,
            there,
            &mut carried,
            random,
        )? {
            placed += 1;
        }
    }
    Ok(placed)
}

// What is carried from one item to the next: the content read last, and what placing it in the target kept.
#[derive(Drop)]
struct Carried {
    content: Option<VaultContent>,
    kept: Kept,
}

// Places an item where it isn't there, and says whether it did.
fn place_missing_one<F: Folder, R: Randoms>(
    alloc: Global,
    folder: &mut F,
    work: &Work,
    sides: &Sides,
    item: &PlanItem,
    there: &[PlanItem],
    carried: &mut Carried,
    random: &mut R,
) -> Result<bool, MoveFault>
    requires kept { IsKept sides.now.target (F.told folder.old) carried.old.kept.dir }
    requires apart { AreSeparate sides.now.source.root sides.now.target.root work.now }
    requires item { IsItemOf sides.now.names (F.told folder.old) sides.now.source item.now }
    requires allowed { AllowsLast (format_of sides.now.target.vault) item.now.path }
    requires ready { IfSeen (F.told folder.old) (λ v. IsReady v work.now) }
    requires there { IfSeen (F.told folder.old) (λ v. IsOrdered there.now) }
    ensures kept { IfOk result (λ placed. IsKept sides.now.target (F.told folder.new) carried.new.kept.dir) }
    ensures guard { LeadsEach sides.now.names sides.now.source sides.now.target work.now Begun Begun (F.told folder.old) (F.told folder.new) result }
    ensures moves { MovesBeside (is_apart work.now sides.now.target.root) work.now sides.now.target.root (F.told folder.old) (F.told folder.new) }
    ensures ready { IfOk result (λ placed. IfSeen (F.told folder.new) (λ v. IsReady v work.now)) }
    ensures none { StandsIn item.now there.now → F.told folder.new ≡ F.told folder.old }
    ensures counted { IfOk result (λ placed. IsOrdered there.now → placed ≡ not (is_there there.now item.now)) }
    ensures copies { IfOk result (λ placed. CopiesMissing sides.now.names sides.now.source sides.now.target there.now item.now (F.told folder.old) (F.told folder.new)) }
    ensures grows { F.faults folder.old ≤ F.faults folder.new }
    ensures random { R.faults random.old ≤ R.faults random.new }
    ensures blamed { IfErr result (Blamed is_of_apart (CountRose (F.faults folder.old) (F.faults folder.new)) (CountRose (R.faults random.old) (R.faults random.new))) }
    ensures drew { DrewBy result (R.left random.old) (R.left random.new) }
    ensures stops { IfErr result (StopsFor (SharesFrom (LacksOther sides.now.names sides.now.source sides.now.target there.now item.now) sides.now.target work.now (item.now ∷ []) (R.left random.old) (R.left random.new) (F.told folder.old) (F.told folder.new))) }
    ensures moving { IfErr result (StopsSeen (Enters sides.now.target item.now) (F.told folder.old) sides.now.source (item.now ∷ [])) }
    ensures written { IsOrdered there.now → WritesBy result sides.now.source sides.now.target (lacked there.now (item.now ∷ [])) [] (R.left random.old) (R.left random.new) (F.told folder.old) (F.told folder.new) }
{
    draws_compose();
    if stands(there, item) {
        return Ok(false);
    }
    place(alloc, folder, work, sides, item, carried, random)?;
    Ok(true)
}

// Whether one of these has the item's path.
fn stands(there: &[PlanItem], item: &PlanItem) -> bool
    ensures { IsOrdered there.now → result ≡ is_there there.now item.now }
{
    there
        .binary_search_by(|other| other.path.cmp(&item.path))
        .is_ok()
}

// Places one item of the source in the target.
fn place<F: Folder, R: Randoms>(
    alloc: Global,
    folder: &mut F,
    work: &Work,
    sides: &Sides,
    item: &PlanItem,
    carried: &mut Carried,
    random: &mut R,
) -> Result<(), MoveFault>
    requires kept { IsKept sides.now.target (F.told folder.old) carried.old.kept.dir }
    requires apart { AreSeparate sides.now.source.root sides.now.target.root work.now }
    requires item { IsItemOf sides.now.names (F.told folder.old) sides.now.source item.now }
    requires allowed { AllowsLast (format_of sides.now.target.vault) item.now.path }
    requires ready { IfSeen (F.told folder.old) (λ v. IsReady v work.now) }
    ensures kept { IfOk result (λ placed. IsKept sides.now.target (F.told folder.new) carried.new.kept.dir) }
    ensures guard { LeadsEach sides.now.names sides.now.source sides.now.target work.now Begun Begun (F.told folder.old) (F.told folder.new) result }
    ensures moves { MovesBeside (is_apart work.now sides.now.target.root) work.now sides.now.target.root (F.told folder.old) (F.told folder.new) }
    ensures ready { IfOk result (λ placed. IfSeen (F.told folder.new) (λ v. IsReady v work.now)) }
    ensures copies { IfOk result (λ placed. CopiesOne sides.now.names sides.now.source sides.now.target item.now (F.told folder.old) (F.told folder.new)) }
    ensures grows { F.faults folder.old ≤ F.faults folder.new }
    ensures random { R.faults random.old ≤ R.faults random.new }
    ensures blamed { IfErr result (Blamed is_of_apart (CountRose (F.faults folder.old) (F.faults folder.new)) (CountRose (R.faults random.old) (R.faults random.new))) }
    ensures drew { DrewBy result (R.left random.old) (R.left random.new) }
    ensures stops { IfErr result (StopsFor (SharesFrom (Lacks sides.now.names sides.now.source sides.now.target item.now) sides.now.target work.now (item.now ∷ []) (R.left random.old) (R.left random.new) (F.told folder.old) (F.told folder.new))) }
    ensures moving { IfErr result (StopsSeen (Enters sides.now.target item.now) (F.told folder.old) sides.now.source (item.now ∷ [])) }
    ensures written { WritesBy result sides.now.source sides.now.target (item.now ∷ []) [] (R.left random.old) (R.left random.new) (F.told folder.old) (F.told folder.new) }
{
    files_have_their_contents();
    guarded_migrations_are_seen();
    items_keep_vaults();
    placing_keeps_migrations_guarded();
    mapped_walks_tell_the_mapped_tree();
    what_is_found_stands();
    what_stands_is_found_step_by_step();
    let _named = item.path.names();
    match item.node {
        NodeKind::Dir => Ok(place_dir_keeping(
            alloc,
            folder,
            work,
            &sides.target,
            &mut carried.kept,
            &item.path,
            random,
        )?),
        NodeKind::File => place_content(alloc, folder, work, sides, item, carried, random),
    }
}

// Places a file of the source, of which its content comes.
fn place_content<F: Folder, R: Randoms>(
    alloc: Global,
    folder: &mut F,
    work: &Work,
    sides: &Sides,
    item: &PlanItem,
    carried: &mut Carried,
    random: &mut R,
) -> Result<(), MoveFault>
    requires kept { IsKept sides.now.target (F.told folder.old) carried.old.kept.dir }
    requires file { item.now.node ≡ NodeKind.File }
    requires apart { AreSeparate sides.now.source.root sides.now.target.root work.now }
    requires item { IsItemOf sides.now.names (F.told folder.old) sides.now.source item.now }
    requires allowed { AllowsLast (format_of sides.now.target.vault) item.now.path }
    requires ready { IfSeen (F.told folder.old) (λ v. IsReady v work.now) }
    ensures kept { IfOk result (λ placed. IsKept sides.now.target (F.told folder.new) carried.new.kept.dir) }
    ensures guard { LeadsEach sides.now.names sides.now.source sides.now.target work.now Begun Begun (F.told folder.old) (F.told folder.new) result }
    ensures moves { MovesBeside (is_apart work.now sides.now.target.root) work.now sides.now.target.root (F.told folder.old) (F.told folder.new) }
    ensures ready { IfOk result (λ placed. IfSeen (F.told folder.new) (λ v. IsReady v work.now)) }
    ensures copies { IfOk result (λ placed. CopiesOne sides.now.names sides.now.source sides.now.target item.now (F.told folder.old) (F.told folder.new)) }
    ensures grows { F.faults folder.old ≤ F.faults folder.new }
    ensures random { R.faults random.old ≤ R.faults random.new }
    ensures blamed { IfErr result (Blamed is_of_apart (CountRose (F.faults folder.old) (F.faults folder.new)) (CountRose (R.faults random.old) (R.faults random.new))) }
    ensures drew { DrewBy result (R.left random.old) (R.left random.new) }
    ensures stops { IfErr result (StopsFor (SharesFrom (Lacks sides.now.names sides.now.source sides.now.target item.now) sides.now.target work.now (item.now ∷ []) (R.left random.old) (R.left random.new) (F.told folder.old) (F.told folder.new))) }
    ensures moving { IfErr result (StopsSeen (Enters sides.now.target item.now) (F.told folder.old) sides.now.source (item.now ∷ [])) }
    ensures written { WritesBy result sides.now.source sides.now.target (item.now ∷ []) [] (R.left random.old) (R.left random.new) (F.told folder.old) (F.told folder.new) }
{
    draws_compose();
    files_fit_as_contents();
    files_have_their_contents();
    guarded_migrations_are_seen();
    items_keep_vaults();
    placing_keeps_migrations_guarded();
    mapped_walks_tell_the_mapped_tree();
    what_is_found_stands();
    what_stands_is_found_step_by_step();
    let _named = item.path.names();
    let mut content = content_at(alloc, &sides.source, &item.at, carried.content.take())?;
    let placed = place_file_keeping(
        alloc,
        folder,
        work,
        &sides.target,
        &mut carried.kept,
        &item.path,
        &mut content,
        random,
    );
    carried.content = Some(content);
    Ok(placed?)
}

// The content of the file at a path of the source: the last one, which goes on with it, or a new one.
fn content_at(
    alloc: Global,
    vault: &Vault,
    at: &FPath,
    last: Option<VaultContent>,
) -> Result<VaultContent, AllocError>
    ensures reads { IfOk result (λ content. path_of content ≡ Some at.now) }
    ensures coming { IfOk result (λ content. (found : Found) → coming_of content found
        ≡ coming_read (record { at = at.now; decoding = started (format_of vault.now.vault).content }) content_limit [] found) }
{
    let Some(mut content) = last else {
        let reader = ContentReader::start(alloc, vault, at)?;
        return Ok(VaultContent::new(alloc, reader));
    };
    content.turn_to(vault, at)?;
    Ok(content)
}
