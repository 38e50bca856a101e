//! Moving strays out of a vault.
ghost use Rattle.std.specs.Prelude.{◌≡◌, ◌⊎◌, ◌<◌, ◌^◌, [], List, IfOk, IfErr, IfSome, OnOk, Err};
ghost use Rattle.folder_model.specs.Answers.{CountsAbove, OnlyLooks};
ghost use Rattle.folder_spec.specs.Event.{FromTo, IsFree};
ghost use Rattle.folder_spec.specs.Path.{Path};
ghost use Rattle.folder_spec.specs.Seen.{IfSeen, IsSeen, under};
ghost use Rattle.folder_spec.specs.View.{View};
ghost use Rattle.folder_spec.specs.State.{present};
ghost use Rattle.port_model.specs.Counts.{Blames};
ghost use Rattle.vault_faults.specs.declared.fault.Limit.{Limit};
ghost use Rattle.vault_faults.specs.declared.fault.Limit.TheVariants.{Depth, Items};
ghost use Rattle.vault_spec.specs.Vault.{format_of};
ghost use Rattle.vault_walk.specs.Survey.{HasTooMany};
ghost use Rattle.vault_walk.specs.Surveyed.{IsOnlyTooDeep, IsWithin};
ghost use Rattle.vault_check.specs.Answers.{IsRepairFault};
ghost use Rattle.vault_check.specs.Repairing.{AreMovable, AreMoved, AreStraysBehind, HasMadeAll, HasMadeLost, HasMoved, HasMovedAll, HasMovedEach, HasNoStrays, MayMoveTo, Moves, RepairsAt, Stays, StopsIn, StopsMoving, making_calls, moving_calls, place_of, renames, repair_calls};

use crate::fault::CheckFault;
use crate::strays::outer_strays;
use folder_model::{FPath, Folder};
use folder_spec::FolderFault;
use std::alloc::{AllocError, Global};
use vault_read::Vault;
use vault_read::laws::strays_go_alone;
use vault_walk::survey;

/// The strays of a vault: each path with a finding of number 1, 3, 4, 7, 8 or 10 that is below no other, in order.
pub fn strays_of<F: Folder>(
    alloc: Global,
    folder: &mut F,
    vault: &Vault,
) -> Result<Vec<FPath>, CheckFault>
    ensures looks { OnlyLooks (F.told folder.old) (F.told folder.new) (result ≡ Err CheckFault.Failed) (F.faults folder.old) (F.faults folder.new) }
    ensures strays { IfOk result (λ strays. IfSeen (F.told folder.old) (λ v. AreStraysBehind vault.now.root (format_of vault.now.vault) (under vault.now.root v) strays.items)) }
    ensures within { IfOk result (λ strays. IfSeen (F.told folder.old) (λ v. IsWithin (format_of vault.now.vault) (under vault.now.root v))) }
    ensures items { result ≡ Err (CheckFault.Limit Items) → IfSeen (F.told folder.old) (λ v. HasTooMany (format_of vault.now.vault) (under vault.now.root v)) }
    ensures depth { result ≡ Err (CheckFault.Limit Depth) → IfSeen (F.told folder.old) (λ v. IsOnlyTooDeep (format_of vault.now.vault) (under vault.now.root v)) }
    ensures fault { IfErr result (λ fault. IsRepairFault fault) }
{
    let surveyed = survey(alloc, folder, vault)?;
    Ok(outer_strays(alloc, surveyed.findings.as_slice())?)
}

/// Moves the strays of a vault to `lost/1`, `lost/2` and so on, in order, and settles; it settles before `lost` is made and behind it, too.
///
/// With nothing to move it changes nothing. It stops where a call of the folder fails, and what was moved stays moved.
pub fn move_strays<F: Folder>(
    alloc: Global,
    folder: &mut F,
    vault: &Vault,
    strays: &[FPath],
    lost: &FPath,
) -> Result<(), FolderFault>
    requires place { IfSeen (F.told folder.old) (λ v. MayMoveTo v vault.now.root lost.now) }
    requires strays { IfSeen (F.told folder.old) (λ v. AreStraysBehind vault.now.root (format_of vault.now.vault) (under vault.now.root v) strays.now) }
    ensures moments { RepairsAt vault.now.root (format_of vault.now.vault) lost.now (F.told folder.old) (F.told folder.new) }
    ensures moved { OnOk result (FromTo (λ a b. AreMoved vault.now.root (format_of vault.now.vault) lost.now strays.now a b) (F.told folder.old) (F.told folder.new)) }
    ensures stops { IfErr result (λ _. FromTo (StopsIn (repair_calls lost.now strays.now)) (F.told folder.old) (F.told folder.new)) }
    ensures all { OnOk result (FromTo (HasMadeAll (repair_calls lost.now strays.now)) (F.told folder.old) (F.told folder.new)) }
    ensures nothing { strays.now ≡ [] → F.told folder.new ≡ F.told folder.old }
    ensures counts { CountsAbove (F.faults folder.old) (F.faults folder.new) result }
{
    strays_go_alone();
    if strays.is_empty() {
        return Ok(());
    }
    move_all(alloc, folder, strays, lost)
}

/// Moves the strays of a vault by `strays_of` and `move_strays`, and answers their old paths.
pub fn repair<F: Folder>(
    alloc: Global,
    folder: &mut F,
    vault: &Vault,
    lost: &FPath,
) -> Result<Vec<FPath>, CheckFault>
    requires { IfSeen (F.told folder.old) (λ v. MayMoveTo v vault.now.root lost.now) }
    ensures moments { RepairsAt vault.now.root (format_of vault.now.vault) lost.now (F.told folder.old) (F.told folder.new) }
    ensures moved { IfOk result (λ moved. FromTo (λ a b. AreMoved vault.now.root (format_of vault.now.vault) lost.now moved.items a b) (F.told folder.old) (F.told folder.new)) }
    ensures stops { IfErr result (λ _. (F.told folder.new ≡ F.told folder.old) ⊎ FromTo (StopsMoving vault.now.root (format_of vault.now.vault) lost.now) (F.told folder.old) (F.told folder.new)) }
    ensures all { IfOk result (λ moved. FromTo (HasMadeAll (repair_calls lost.now moved.items)) (F.told folder.old) (F.told folder.new)) }
    ensures nothing { IfOk result (λ moved. moved.items ≡ [] → F.told folder.new ≡ F.told folder.old) }
    ensures bare { (v : View) → IsSeen (F.told folder.old) v → HasNoStrays (format_of vault.now.vault) (under vault.now.root v) → F.told folder.new ≡ F.told folder.old }
    ensures limits { (limit : Limit) → result ≡ Err (CheckFault.Limit limit) → F.told folder.new ≡ F.told folder.old }
    ensures within { IfOk result (λ moved. IfSeen (F.told folder.old) (λ v. IsWithin (format_of vault.now.vault) (under vault.now.root v))) }
    ensures items { result ≡ Err (CheckFault.Limit Items) → IfSeen (F.told folder.old) (λ v. HasTooMany (format_of vault.now.vault) (under vault.now.root v)) }
    ensures depth { result ≡ Err (CheckFault.Limit Depth) → IfSeen (F.told folder.old) (λ v. IsOnlyTooDeep (format_of vault.now.vault) (under vault.now.root v)) }
    ensures fault { IfErr result (λ fault. IsRepairFault fault) }
    ensures blames { Blames (result ≡ Err CheckFault.Failed) (F.faults folder.old) (F.faults folder.new) }
{
    let strays = strays_of(alloc, folder, vault)?;
    move_strays(alloc, folder, vault, strays.as_slice(), lost)?;
    Ok(strays)
}

// Makes the folder of lost ones, moves the strays into it and settles.
fn move_all<F: Folder>(
    alloc: Global,
    folder: &mut F,
    strays: &[FPath],
    lost: &FPath,
) -> Result<(), FolderFault>
    requires free { IfSome (F.told folder.old) (λ a. IsFree (present a.state) lost.now) }
    requires strays { IfSome (F.told folder.old) (λ a. AreMovable lost.now strays.now (present a.state)) }
    ensures moments { Moves lost.now strays.now (F.told folder.old) (F.told folder.new) }
    ensures stops { IfErr result (λ _. FromTo (StopsIn (moving_calls lost.now strays.now)) (F.told folder.old) (F.told folder.new)) }
    ensures moved { OnOk result (FromTo (HasMovedAll lost.now strays.now) (F.told folder.old) (F.told folder.new)) }
    ensures counts { CountsAbove (F.faults folder.old) (F.faults folder.new) result }
{
    make_lost(folder, lost)?;
    move_each(alloc, folder, strays, lost)?;
    folder.settle()
}

// Makes the folder of lost ones where no change waits to be kept, so that it stays.
fn make_lost<F: Folder>(folder: &mut F, lost: &FPath) -> Result<(), FolderFault>
    requires free { IfSome (F.told folder.old) (λ a. IsFree (present a.state) lost.now) }
    ensures moments { (strays : List Path) → Moves lost.now strays (F.told folder.old) (F.told folder.new) }
    ensures stops { IfErr result (λ _. FromTo (StopsIn (making_calls lost.now)) (F.told folder.old) (F.told folder.new)) }
    ensures made { OnOk result (FromTo (HasMadeLost lost.now) (F.told folder.old) (F.told folder.new)) }
    ensures counts { CountsAbove (F.faults folder.old) (F.faults folder.new) result }
{
    folder.settle()?;
    folder.make_dir(lost)?;
    folder.settle()
}

// Moves each to its place.
fn move_each<F: Folder>(
    alloc: Global,
    folder: &mut F,
    strays: &[FPath],
    lost: &FPath,
) -> Result<(), FolderFault>
    requires bare { IfSome (F.told folder.old) (λ a. HasMoved lost.now [] (present a.state) (present a.state)) }
    requires stays { IfSome (F.told folder.old) (λ a. Stays lost.now a.state) }
    requires strays { IfSome (F.told folder.old) (λ a. AreMovable lost.now strays.now (present a.state)) }
    ensures moments { Moves lost.now strays.now (F.told folder.old) (F.told folder.new) }
    ensures stops { IfErr result (λ _. FromTo (StopsIn (renames lost.now 0 strays.now)) (F.told folder.old) (F.told folder.new)) }
    ensures moved { OnOk result (FromTo (HasMovedEach lost.now strays.now) (F.told folder.old) (F.told folder.new)) }
    ensures counts { CountsAbove (F.faults folder.old) (F.faults folder.new) result }
{
    for (k, stray) in strays.iter().enumerate() {
        let place = place_of(alloc, lost, k)?;
        folder.rename(stray, &place)?;
    }
    Ok(())
}

// The place of the stray of this number, counted from 0.
fn place_of(alloc: Global, lost: &FPath, k: usize) -> Result<FPath, AllocError>
    requires { k < 2 ^ 63 }
    ensures { IfOk result (λ place. place ≡ place_of lost.now k) }
{
    let number = k + 1;
    let name = format!(in alloc; "{number}")?;
    lost.child(name.as_str())
}
