//! How a command that changes a vault begins.
ghost use Rattle.std.specs.Prelude.{◌≡◌, ◌⊎◌, ◌≤◌, true, false, Ok, Err, IfErr, IfOk, IsTrue};
ghost use Rattle.folder_spec.specs.Seen.{IfSeen};
ghost use Rattle.port_model.specs.Counts.{CountRose};
ghost use Rattle.work_folder.specs.Entering.{EntersAs, IsFresh, IsReady};
ghost use Rattle.open_for_reading.specs.Tests.{is_of_beginning, is_of_readying};
ghost use Rattle.open_for_changing.specs.Beginning.{ChangesWork};
ghost use Rattle.open_for_reading.specs.Places.{overlap};
ghost use Rattle.open_for_changing.specs.Faults.{of_work};
ghost use Rattle.open_for_reading.specs.Opening.{IsPhrase, Opens};
ghost use Rattle.open_for_reading.specs.Refusing.{RefusesPass};
ghost use Rattle.open_for_changing.specs.Refusing.{RefusesSite, RefusesWork};
ghost use Rattle.open_for_changing.specs.Staying.{Leaves};
ghost use Rattle.item_making.specs.Placing.{MayMake};

use command_answers::{Answer, Limit, Named};
use command_words::commands::Change;
use folder_model::{FPath, Folder};
use folder_spec::laws::roots_show_their_own;
use open_for_reading::{do_overlap, load, overlapping, read_pass};
use std::alloc::Global;
use vault_read::Vault;
use vault_values::Bytes;
use work_folder::{Work, WorkFault};

/// An opened vault that is to be changed, and a work folder that is ready.
#[derive(Drop)]
pub struct Site {
    pub work: Work,
    pub vault: Vault,
}

/// Makes the work folder of a change ready, and opens the vault.
pub fn begin<F: Folder>(alloc: Global, change: &Change, folder: &mut F) -> Result<Site, Answer>
    ensures work { IfOk result (λ site. site.work ≡ change.now.work) }
    ensures root { IfOk result (λ site. site.vault.root ≡ change.now.target.vault) }
    ensures opened { IfOk result (λ site. IfSeen (F.told folder.old) (λ v. Opens v change.now.target.vault change.now.target.pass site.vault.vault)) }
    ensures may { IfOk result (λ site. MayMake (F.told folder.new) site.work site.vault.root) }
    ensures fresh { IfOk result (λ site. IfSeen (F.told folder.new) (λ v. IsFresh v change.now.work)) }
    ensures entered { IfOk result (λ site. IfSeen (F.told folder.old) (λ v. EntersAs v change.now.work (Ok tt))) }
    ensures apart { IfOk result (λ site. overlap change.now.target.vault change.now.work ≡ false) }
    ensures overlapping { IfErr result (λ answer. overlap change.now.target.vault change.now.work ≡ true → ((answer ≡ Answer.Overlap change.now.target.vault change.now.work) ⊎ (answer ≡ Answer.OutOfMemory)) × (F.told folder.new ≡ F.told folder.old)) }
    ensures refused { IfErr result (λ answer. overlap change.now.target.vault change.now.work ≡ false → IfSeen (F.told folder.old) (λ v. RefusesSite change.now v answer)) }
    ensures own { IfErr result (λ answer. overlap change.now.target.vault change.now.work ≡ false → IsTrue (is_of_beginning answer)) }
    ensures moments { ChangesWork change.now.work (F.told folder.old) (F.told folder.new) }
    ensures leaves { Leaves change.now.work (F.told folder.old) (F.told folder.new) }
    ensures grows { F.faults folder.old ≤ F.faults folder.new }
    ensures failed { result ≡ Err Answer.FolderFault → CountRose (F.faults folder.old) (F.faults folder.new) }
{
    roots_show_their_own();
    let target = &change.target;
    let phrase = read_apart(alloc, folder, &target.vault, &change.work, &target.pass)?;
    let work = enter_settled(folder, &change.work)?;
    let vault = load(alloc, folder, &target.vault, phrase.as_slice())?;
    Ok(Site { work, vault })
}

/// The passphrase in a file, for a vault and a work folder that don't overlap.
pub fn read_apart<F: Folder>(
    alloc: Global,
    folder: &mut F,
    vault: &FPath,
    work: &FPath,
    pass: &FPath,
) -> Result<Bytes, Answer>
    ensures told { F.told folder.new ≡ F.told folder.old }
    ensures apart { IfOk result (λ phrase. overlap vault.now work.now ≡ false) }
    ensures phrase { IfOk result (λ phrase. IfSeen (F.told folder.old) (λ v. IsPhrase (v pass.now) phrase)) }
    ensures overlapping { IfErr result (λ answer. overlap vault.now work.now ≡ true → (answer ≡ Answer.Overlap vault.now work.now) ⊎ (answer ≡ Answer.OutOfMemory)) }
    ensures refused { IfErr result (λ answer. overlap vault.now work.now ≡ false → IfSeen (F.told folder.old) (λ v. RefusesPass pass.now (v pass.now) answer)) }
    ensures own { IfErr result (λ answer. overlap vault.now work.now ≡ false → IsTrue (is_of_readying answer)) }
    ensures grows { F.faults folder.old ≤ F.faults folder.new }
    ensures failed { result ≡ Err Answer.FolderFault → CountRose (F.faults folder.old) (F.faults folder.new) }
{
    if do_overlap(vault, work) {
        return Err(overlapping(vault, work));
    }
    read_pass(alloc, folder, pass)
}

/// Settles the folder, and makes the work folder ready.
pub fn enter_settled<F: Folder>(folder: &mut F, work: &FPath) -> Result<Work, Answer>
    ensures path { IfOk result (λ entered. entered ≡ work.now) }
    ensures ready { IfOk result (λ entered. IfSeen (F.told folder.new) (λ v. IsReady v work.now)) }
    ensures fresh { IfOk result (λ entered. IfSeen (F.told folder.new) (λ v. IsFresh v work.now)) }
    ensures entered { IfOk result (λ entered. IfSeen (F.told folder.old) (λ v. EntersAs v work.now (Ok tt))) }
    ensures refused { IfErr result (λ answer. IfSeen (F.told folder.old) (λ v. RefusesWork v work.now answer)) }
    ensures own { IfErr result (λ answer. IsTrue (is_of_readying answer)) }
    ensures moments { ChangesWork work.now (F.told folder.old) (F.told folder.new) }
    ensures leaves { Leaves work.now (F.told folder.old) (F.told folder.new) }
    ensures grows { F.faults folder.old ≤ F.faults folder.new }
    ensures failed { result ≡ Err Answer.FolderFault → CountRose (F.faults folder.old) (F.faults folder.new) }
{
    folder.settle()?;
    match Work::enter(folder, work) {
        Ok(work) => Ok(work),
        Err(fault) => Err(answer_to_work(work, fault)),
    }
}

/// The answer to a work folder that isn't ready.
pub fn answer_to_work(work: &FPath, fault: WorkFault) -> Answer
    ensures answers { (result ≡ Answer.OutOfMemory) ⊎ (result ≡ of_work work.now fault) }
    ensures failed { result ≡ Answer.FolderFault → fault ≡ WorkFault.Failed }
    ensures own { IsTrue (is_of_readying result) }
{
    match fault {
        WorkFault::NoParent(above) => Answer::NotFound(Named::Folder(above)),
        WorkFault::WrongKind(there) => Answer::WrongKind(Named::Folder(there)),
        WorkFault::Foreign(entry) => Answer::NotEmpty(entry),
        WorkFault::Begun => match work.copy() {
            Ok(work) => Answer::Begun(work),
            Err(_) => Answer::OutOfMemory,
        },
        WorkFault::Depth => Answer::Limit(Limit::Removal),
        WorkFault::Failed => Answer::FolderFault,
        WorkFault::NoMemory => Answer::OutOfMemory,
    }
}
