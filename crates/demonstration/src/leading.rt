//! One migration of the demonstration: its target is made, it is done, and its source is retired.
ghost use Rattle.std.specs.Prelude.{◌≡◌, ◌≤◌, ℕ, Err, IfErr, IfOk, OnOk, IsTrue};
ghost use Rattle.demo_core.specs.Drawing.{Drew};
ghost use Rattle.demo_core.specs.Making as making;
ghost use Rattle.demo_core.specs.Making.{CanMake, IsFailed, IsMakeFault, MakesBeside, making_folder};
ghost use Rattle.demo_core.specs.Sharing.{GoesOn};
ghost use Rattle.demonstration.specs.Demo.{EndsSo, EndsWork, IsStatus, OnRetired, PrintsLed, chances, chances_by, is_of_fault, is_of_folder};
ghost use Rattle.demonstration.specs.DemoSteps.{CanCarry, CanLead, HasCarried, Sees};
ghost use Rattle.demonstration.specs.DemoTrees.{Carries, IsMoved, IsNewAt, Leads, LeavesSource, WhereTold, kind_to, source_of, target_of};
ghost use Rattle.folder_spec.specs.Seen.{IfSeen};
ghost use Rattle.migrate_core.specs.Faults.{IsMoveFault, is_of_begin};
ghost use Rattle.folder_model.specs.Text.{IsParsed};
ghost use Rattle.migration_answers.specs.Stops.{is_of_refusal, is_of_stop};
ghost use Rattle.port_model.specs.Counts.{CountRose};
ghost use Rattle.retire_core.specs.Causes.{IsOfFolder};
ghost use Rattle.retire_core.specs.Faults.{IsRetireFault};
ghost use Rattle.work_folder.specs.Entering.{IsFresh};

use crate::faults::answer_to_make;
use crate::telling::tell_moved;
use command_answers::Answer;
use content_writing::PutFault;
use demo_core::laws::{
    items_are_directories_or_short_files, names_of_items_are_allowed, trees_have_so_many_items,
    trees_of_items_pass_no_limit,
};
use demo_core::{MakeFault, PASSPHRASE, make_vault, place};
use folder_model::{FPath, Folder};
use folder_spec::laws::roots_show_their_own;
use migrate_core::MoveFault;
use migrate_core::laws::small_contents_pass_no_limit;
use migration_answers::{answer_to_move, answer_to_retire};
use migration_sides::Side;
use move_journal::laws::journals_are_read_back;
use plain_tree::NameMap;
use port_model::laws::draws_compose;
use port_model::{Randoms, Sink};
use retire_core::RetireFault;
use std::alloc::{AllocError, Global};
use tree_match::laws::{plans_stay_by_same, walks_tell_the_tree, what_is_held_opens_the_same};
use vault_read::VaultKind;
use vault_read::laws::roots_have_one_answer;
use vault_spec::laws::{plans_are_the_tree, trees_stay_by_same};
use work_folder::Work;

/// One of the two migrations: from `g` to `c`, or from `c` to `h`.
#[derive(Clone, Copy, PartialEq, Eq)]
pub(crate) enum Leg {
    There,
    Back,
}

impl Leg {
    fn source(self, alloc: Global) -> Result<FPath, AllocError>
        ensures is { IfOk result (λ path. path ≡ source_of self) }
        ensures parsed { IfOk result IsParsed }
    {
        match self {
            Leg::There => place(alloc, "g"),
            Leg::Back => place(alloc, "c"),
        }
    }

    fn target(self, alloc: Global) -> Result<FPath, AllocError>
        ensures is { IfOk result (λ path. path ≡ target_of self) }
        ensures parsed { IfOk result IsParsed }
    {
        match self {
            Leg::There => place(alloc, "c"),
            Leg::Back => place(alloc, "h"),
        }
    }
}

/// How one migration ends.
#[derive(Clone, Copy)]
pub(crate) enum Led {
    /// With a status other than 0.
    Stopped(u8),
    /// It is done, and its source had so many items.
    Retired(u64),
}

/// Does a migration, writes its status, and retires its source.
pub(crate) fn lead<F: Folder, R: Randoms, O: Sink>(
    alloc: Global,
    folder: &mut F,
    leg: Leg,
    random: &mut R,
    out: &mut O,
) -> Result<Led, Answer>
    ensures own { IfErr result (λ answer. IsTrue (is_of_fault answer)) }
    ensures ends { (count : ℕ) → IfErr result (EndsSo (chances (F.faults folder.old) (F.faults folder.new) (R.faults random.old) (R.faults random.new) (R.left random.old) (R.left random.new) (F.told folder.old) (F.told folder.new) count (Sees (CanLead leg) count (F.told folder.old)))) }
    ensures prints { (count : ℕ) → PrintsLed (chances (F.faults folder.old) (F.faults folder.new) (R.faults random.old) (R.faults random.new) (R.left random.old) (R.left random.new) (F.told folder.old) (F.told folder.new) count (Sees (CanLead leg) count (F.told folder.old))) count leg result (O.taken out.old) (O.taken out.new) }
    ensures drew { (count : ℕ) → Sees (CanLead leg) count (F.told folder.old) → Drew ⊥ (R.left random.old) (R.left random.new) }
    ensures goes { IfOk result (OnRetired ((count : ℕ) → Sees (CanLead leg) count (F.told folder.old) → GoesOn (F.told folder.old) (F.told folder.new))) }
    ensures next { IfOk result (OnRetired ((count : ℕ) → leg ≡ Leg.There → Sees (CanLead leg) count (F.told folder.old) → Sees (CanLead Leg.Back) count (F.told folder.new))) }
    ensures folder_fault { result ≡ Err Answer.FolderFault → CountRose (F.faults folder.old) (F.faults folder.new) }
    ensures random_fault { result ≡ Err Answer.RandomFault → CountRose (R.faults random.old) (R.faults random.new) }
    ensures output_fault { result ≡ Err Answer.OutputFault → CountRose (O.faults out.old) (O.faults out.new) }
    ensures grows { F.faults folder.old ≤ F.faults folder.new }
    ensures counted { R.faults random.old ≤ R.faults random.new }
    ensures written { O.faults out.old ≤ O.faults out.new }
    ensures leads { IfOk result (OnRetired (WhereTold (Leads (kind_to leg) (source_of leg) (target_of leg)) (F.told folder.old) (F.told folder.new))) }
{
    let status = move_to(alloc, folder, leg, random)?;
    tell_moved(alloc, leg, status, out)?;
    if status != 0 {
        return Ok(Led::Stopped(status));
    }
    Ok(Led::Retired(retire_source(alloc, folder, leg)?))
}

// Makes the target of a migration, does the migration, and answers its status. Want of memory ends the work.
fn move_to<F: Folder, R: Randoms>(
    alloc: Global,
    folder: &mut F,
    leg: Leg,
    random: &mut R,
) -> Result<u8, Answer>
    ensures status { (count : ℕ) → IfOk result (IsStatus (chances (F.faults folder.old) (F.faults folder.new) (R.faults random.old) (R.faults random.new) (R.left random.old) (R.left random.new) (F.told folder.old) (F.told folder.new) count (Sees (CanLead leg) count (F.told folder.old)))) }
    ensures ends { (count : ℕ) → IfErr result (EndsSo (chances (F.faults folder.old) (F.faults folder.new) (R.faults random.old) (R.faults random.new) (R.left random.old) (R.left random.new) (F.told folder.old) (F.told folder.new) count (Sees (CanLead leg) count (F.told folder.old)))) }
    ensures goes { GoesOn (F.told folder.old) (F.told folder.new) }
    ensures drew { (count : ℕ) → Sees (CanLead leg) count (F.told folder.old) → Drew ⊥ (R.left random.old) (R.left random.new) }
    ensures carried { IfOk result (λ status. status ≡ 0 → (count : ℕ) → Sees (CanLead leg) count (F.told folder.old) → Sees (HasCarried leg) count (F.told folder.new)) }
    ensures own { IfErr result (λ answer. IsTrue (is_of_stop answer)) }
    ensures folder_fault { result ≡ Err Answer.FolderFault → CountRose (F.faults folder.old) (F.faults folder.new) }
    ensures random_fault { result ≡ Err Answer.RandomFault → CountRose (R.faults random.old) (R.faults random.new) }
    ensures grows { F.faults folder.old ≤ F.faults folder.new }
    ensures counted { R.faults random.old ≤ R.faults random.new }
    ensures carries { IfOk result (λ status. status ≡ 0 → WhereTold (Carries (kind_to leg) (source_of leg) (target_of leg)) (F.told folder.old) (F.told folder.new)) }
{
    draws_compose();
    roots_have_one_answer();
    roots_show_their_own();
    trees_stay_by_same();
    make_target(alloc, folder, leg, random)?;
    migrate(alloc, folder, leg, random)
}

// Makes the target of a migration.
fn make_target<F: Folder, R: Randoms>(
    alloc: Global,
    folder: &mut F,
    leg: Leg,
    random: &mut R,
) -> Result<(), Answer>
    ensures own { IfErr result (λ answer. IsTrue (is_of_stop answer)) }
    ensures folder_fault { result ≡ Err Answer.FolderFault → CountRose (F.faults folder.old) (F.faults folder.new) }
    ensures random_fault { result ≡ Err Answer.RandomFault → CountRose (R.faults random.old) (R.faults random.new) }
    ensures grows { F.faults folder.old ≤ F.faults folder.new }
    ensures counted { R.faults random.old ≤ R.faults random.new }
    ensures goes { GoesOn (F.told folder.old) (F.told folder.new) }
    ensures drew { Drew ⊥ (R.left random.old) (R.left random.new) }
    ensures ends { (count : ℕ) → IfErr result (EndsSo (chances (F.faults folder.old) (F.faults folder.new) (R.faults random.old) (R.faults random.new) (R.left random.old) (R.left random.new) (F.told folder.old) (F.told folder.new) count (Sees (CanLead leg) count (F.told folder.old)))) }
    ensures stands { OnOk result ((count : ℕ) → Sees (CanLead leg) count (F.told folder.old) → Sees (CanCarry leg) count (F.told folder.new)) }
    ensures beside { OnOk result (MakesBeside (target_of leg) (F.told folder.old) (F.told folder.new)) }
    ensures new { OnOk result (IsNewAt (kind_to leg) (target_of leg) (F.told folder.new)) }
{
    draws_compose();
    roots_show_their_own();
    let root = leg.target(alloc)?;
    match make_vault_of(alloc, folder, leg, random) {
        Ok(_) => Ok(()),
        Err(fault) => Err(answer_to_make(alloc, &root, fault)),
    }
}

// Makes the vault that a migration goes to.
fn make_vault_of<F: Folder, R: Randoms>(
    alloc: Global,
    folder: &mut F,
    leg: Leg,
    random: &mut R,
) -> Result<Work, MakeFault>
    ensures fresh { IfOk result (λ work. IfSeen (F.told folder.new) (λ v. IsFresh v making_folder)) }
    ensures stands { IfOk result (λ work. IsNewAt (kind_to leg) (target_of leg) (F.told folder.new)) }
    ensures beside { MakesBeside (target_of leg) (F.told folder.old) (F.told folder.new) }
    ensures failed { IfErr result (λ fault. IsFailed fault → CountRose (F.faults folder.old) (F.faults folder.new)) }
    ensures own { IfErr result (λ fault. IsMakeFault fault) }
    ensures chance { IfErr result (λ fault. IfSeen (F.told folder.old) (λ v. CanMake (target_of leg) v → making.IsOfChance fault)) }
    ensures random { result ≡ Err (MakeFault.Put PutFault.Random) → CountRose (R.faults random.old) (R.faults random.new) }
    ensures goes { GoesOn (F.told folder.old) (F.told folder.new) }
    ensures drew { Drew (result ≡ Err (MakeFault.Put PutFault.ZeroRandom)) (R.left random.old) (R.left random.new) }
    ensures grows { F.faults folder.old ≤ F.faults folder.new }
    ensures counted { R.faults random.old ≤ R.faults random.new }
{
    match leg {
        Leg::There => make_vault(alloc, folder, VaultKind::Cryptomator, "c", random),
        Leg::Back => make_vault(alloc, folder, VaultKind::Gocryptfs, "h", random),
    }
}

// Does a migration, and answers its status.
fn migrate<F: Folder, R: Randoms>(
    alloc: Global,
    folder: &mut F,
    leg: Leg,
    random: &mut R,
) -> Result<u8, Answer>
    ensures status { (count : ℕ) → IfOk result (IsStatus (chances (F.faults folder.old) (F.faults folder.new) (R.faults random.old) (R.faults random.new) (R.left random.old) (R.left random.new) (F.told folder.old) (F.told folder.new) count (Sees (CanCarry leg) count (F.told folder.old)))) }
    ensures memory { IfErr result (λ answer. answer ≡ Answer.OutOfMemory) }
    ensures grows { F.faults folder.old ≤ F.faults folder.new }
    ensures counted { R.faults random.old ≤ R.faults random.new }
    ensures goes { GoesOn (F.told folder.old) (F.told folder.new) }
    ensures drew { (count : ℕ) → Sees (CanCarry leg) count (F.told folder.old) → Drew ⊥ (R.left random.old) (R.left random.new) }
    ensures carried { IfOk result (λ status. status ≡ 0 → (count : ℕ) → Sees (CanCarry leg) count (F.told folder.old) → Sees (HasCarried leg) count (F.told folder.new)) }
    ensures moved { IfOk result (λ status. status ≡ 0 → IsMoved (source_of leg) (target_of leg) (F.told folder.old) (F.told folder.new)) }
{
    draws_compose();
    items_are_directories_or_short_files();
    names_of_items_are_allowed();
    plans_are_the_tree();
    plans_stay_by_same();
    roots_have_one_answer();
    roots_show_their_own();
    small_contents_pass_no_limit();
    trees_have_so_many_items();
    trees_of_items_pass_no_limit();
    trees_stay_by_same();
    walks_tell_the_tree();
    what_is_held_opens_the_same();
    let source = leg.source(alloc)?;
    let target = leg.target(alloc)?;
    let work = place(alloc, "m")?;
    match migrate_core::begin(
        alloc,
        folder,
        &source,
        &target,
        &work,
        NameMap::Same,
        PASSPHRASE,
        PASSPHRASE,
        random,
    ) {
        Ok(_) => Ok(0),
        Err(fault) => status_of(&work, &source, &target, fault),
    }
}

// The status of a migration that stops.
fn status_of(work: &FPath, source: &FPath, target: &FPath, fault: MoveFault) -> Result<u8, Answer>
    ensures status { IsMoveFault fault → IsTrue (is_of_begin fault) → IfOk result (EndsWork (chances_by fault)) }
    ensures memory { IfErr result (λ answer. answer ≡ Answer.OutOfMemory) }
{
    let root = match fault {
        MoveFault::Load(Side::Target, _) => target,
        _ => source,
    };
    match answer_to_move(work, root, fault) {
        Answer::OutOfMemory => Err(Answer::OutOfMemory),
        answer => Ok(answer.status()),
    }
}

// Retires the source of a migration, and answers how many items it had.
fn retire_source<F: Folder>(alloc: Global, folder: &mut F, leg: Leg) -> Result<u64, Answer>
    ensures own { IfErr result (λ answer. IsTrue (is_of_refusal answer)) }
    ensures folder_fault { result ≡ Err Answer.FolderFault → CountRose (F.faults folder.old) (F.faults folder.new) }
    ensures grows { F.faults folder.old ≤ F.faults folder.new }
    ensures ends { (count : ℕ) → Sees (HasCarried leg) count (F.told folder.old) → IfErr result (λ answer. IsTrue (is_of_folder answer)) }
    ensures items { IfOk result (λ items. (count : ℕ) → Sees (HasCarried leg) count (F.told folder.old) → items ≡ count) }
    ensures next { IfOk result (λ items. (count : ℕ) → leg ≡ Leg.There → Sees (HasCarried leg) count (F.told folder.old) → Sees (CanLead Leg.Back) count (F.told folder.new)) }
    ensures leaves { IfOk result (λ items. LeavesSource leg items (F.told folder.old) (F.told folder.new)) }
{
    items_are_directories_or_short_files();
    journals_are_read_back();
    names_of_items_are_allowed();
    roots_show_their_own();
    small_contents_pass_no_limit();
    trees_of_items_pass_no_limit();
    trees_stay_by_same();
    walks_tell_the_tree();
    let work = place(alloc, "m")?;
    let source = leg.source(alloc)?;
    let target = leg.target(alloc)?;
    match retire_core::retire(alloc, folder, &work, PASSPHRASE, PASSPHRASE) {
        Ok(retired) => Ok(retired.items),
        Err(fault) => Err(refused(&work, &source, &target, fault)),
    }
}

// The answer to a source that isn't retired.
fn refused(work: &FPath, source: &FPath, target: &FPath, fault: RetireFault) -> Answer
    ensures own { IsRetireFault fault → IsTrue (is_of_refusal result) }
    ensures failed { result ≡ Answer.FolderFault → IsRetireFault fault → fault ≡ RetireFault.Failed }
    ensures folder { IsOfFolder fault → IsTrue (is_of_folder result) }
{
    let root = match fault {
        RetireFault::Load(Side::Target, _) => target,
        _ => source,
    };
    answer_to_retire(work, root, fault)
}
