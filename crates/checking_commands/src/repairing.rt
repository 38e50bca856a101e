//! `repair`: moves the strays of a vault into a folder of lost ones.
ghost use Rattle.std.specs.Prelude.{◌≡◌, ◌⊎◌, ◌++◌, ℕ, ⊤, Bool, false, List, Option, Err, IfErr, IfOk, IsTrue, OnOk, string_bytes, Some};
ghost use Rattle.folder_spec.specs.Event.{FromTo};
ghost use Rattle.folder_spec.specs.Seen.{IfSeen, IsSeen, under};
ghost use Rattle.folder_spec.specs.View.{View};
ghost use Rattle.port_model.specs.Counts.{CountRose};
ghost use Rattle.open_for_reading.specs.Places.{overlap};
ghost use Rattle.open_for_reading.specs.Carrying.{CarriesOut};
ghost use Rattle.open_for_reading.specs.World.{World};
ghost use Rattle.open_for_reading.specs.Refusing.{Unless};
ghost use Rattle.checking_commands.specs.Repair.{HasStopped, IsOfMoving, MovesStrays, OfRepairing, RepairsVault, TellsMoved, TellsMovedStrays, is_of_test, moved_line, moved_text};
ghost use Rattle.vault_check.specs.Repairing.{HasNoStrays, MayMoveTo, RepairsAt, StopsMoving};
ghost use Rattle.vault_spec.specs.Vault.{format_of};
ghost use Rattle.vault_walk.specs.Surveyed.{IsWithin};
ghost use Rattle.open_for_reading.specs.Tests.{is_of_moving};
ghost use Rattle.command_words.specs.declared.commands.Command.TheVariants.{Repair};

use crate::faults::answer_to_check;
use command_answers::{Answer, print, shown_folder};
use command_words::commands::Repairing;
use folder_model::{FPath, Folder};
use open_for_reading::{do_overlap, open, overlapping, test_free};
use port_model::{Randoms, Sink, Source};
use std::alloc::{AllocError, Global};
use vault_check::laws::{repaired_vaults_have_no_strays, repairs_keep_what_opens};
use vault_check::{CheckFault, strays_of};
use vault_read::Vault;
use vault_read::laws::roots_have_one_answer;

/// Moves the strays of a vault, and then writes their old paths, one a line. Once they are moved, no want of memory can hide it.
pub fn repair<F: Folder, R: Randoms, I: Source, O: Sink>(
    alloc: Global,
    target: &Repairing,
    folder: &mut F,
    random: &mut R,
    input: &mut I,
    out: &mut O,
) -> Answer
    ensures { CarriesOut (Repair target.now) (RepairsVault target.now) (λ v. ⊤) result
        (record { told = F.told folder.old; left = I.left input.old; ended = I.ended input.old; taken = O.taken out.old; random = R.left random.old })
        (record { told = F.told folder.new; left = I.left input.new; ended = I.ended input.new; taken = O.taken out.new; random = R.left random.new })
        (CountRose (F.faults folder.old) (F.faults folder.new)) (CountRose (I.faults input.old) (I.faults input.new))
        (CountRose (O.faults out.old) (O.faults out.new)) (CountRose (R.faults random.old) (R.faults random.new)) }
{
    if do_overlap(&target.vault, &target.lost) {
        return overlapping(&target.vault, &target.lost);
    }
    roots_have_one_answer();
    match move_strays(alloc, target, folder) {
        Ok(text) => print(text.as_str(), out),
        Err(answer) => answer,
    }
}

// Opens the vault, tests the place of lost ones and moves the strays there. It gives the text that tells their old paths.
fn move_strays<F: Folder>(
    alloc: Global,
    target: &Repairing,
    folder: &mut F,
) -> Result<String, Answer>
    requires { overlap target.now.vault target.now.lost ≡ false }
    ensures moved { IfOk result (λ text. TellsMovedStrays target.now (string_bytes text) (F.told folder.old) (F.told folder.new)) }
    ensures passed { IfOk result (λ text. IfSeen (F.told folder.old) (λ v. OfRepairing target.now v Answer.Done)) }
    ensures cause { IfErr result (λ answer. IfSeen (F.told folder.old) (λ v. Unless answer (OfRepairing target.now v answer))) }
    ensures tested { IfErr result (λ answer. IsTrue (is_of_test answer) → F.told folder.new ≡ F.told folder.old) }
    ensures moves { (F.told folder.new ≡ F.told folder.old) ⊎ MovesStrays target.now (F.told folder.old) (F.told folder.new) }
    ensures stops { IfErr result (λ answer. (F.told folder.new ≡ F.told folder.old) ⊎ HasStopped target.now (F.told folder.old) (F.told folder.new)) }
    ensures own { IfErr result (λ answer. IsTrue (is_of_moving answer)) }
    ensures failed { result ≡ Err Answer.FolderFault → CountRose (F.faults folder.old) (F.faults folder.new) }
{
    let vault = open(alloc, folder, &target.vault, &target.pass)?;
    test_free(folder, &target.lost)?;
    repairs_keep_what_opens(&vault);
    repaired_vaults_have_no_strays(&vault);
    move_strays_of(alloc, folder, &vault, &target.lost)
}

// Moves the strays of a vault. The text that tells their old paths is made before, so that it is there once they are moved.
fn move_strays_of<F: Folder>(
    alloc: Global,
    folder: &mut F,
    vault: &Vault,
    lost: &FPath,
) -> Result<String, Answer>
    requires { IfSeen (F.told folder.old) (λ v. MayMoveTo v vault.now.root lost.now) }
    ensures moved { IfOk result (λ text. TellsMoved vault.now.vault vault.now.root lost.now (string_bytes text) (F.told folder.old) (F.told folder.new)) }
    ensures within { IfOk result (λ text. IfSeen (F.told folder.old) (λ v. IsWithin (format_of vault.now.vault) (under vault.now.root v))) }
    ensures cause { IfErr result (λ answer. IfSeen (F.told folder.old) (λ v. Unless answer (IsOfMoving (format_of vault.now.vault) (under vault.now.root v) answer))) }
    ensures tested { IfErr result (λ answer. IsTrue (is_of_test answer) → F.told folder.new ≡ F.told folder.old) }
    ensures moments { RepairsAt vault.now.root (format_of vault.now.vault) lost.now (F.told folder.old) (F.told folder.new) }
    ensures bare { (v : View) → IsSeen (F.told folder.old) v → HasNoStrays (format_of vault.now.vault) (under vault.now.root v) → F.told folder.new ≡ F.told folder.old }
    ensures stops { IfErr result (λ answer. (F.told folder.new ≡ F.told folder.old) ⊎ FromTo (StopsMoving vault.now.root (format_of vault.now.vault) lost.now) (F.told folder.old) (F.told folder.new)) }
    ensures own { IfErr result (λ answer. IsTrue (is_of_moving answer)) }
    ensures failed { result ≡ Err Answer.FolderFault → CountRose (F.faults folder.old) (F.faults folder.new) }
{
    let strays = match strays_of(alloc, folder, vault) {
        Ok(strays) => strays,
        Err(fault) => return Err(answer_to_check(fault)),
    };
    let Ok(text) = text_of(alloc, strays.as_slice()) else {
        return Err(Answer::OutOfMemory);
    };
    match vault_check::move_strays(alloc, folder, vault, strays.as_slice(), lost) {
        Ok(()) => Ok(text),
        Err(fault) => Err(answer_to_check(CheckFault::from(fault))),
    }
}

// A line for each path.
fn text_of(alloc: Global, moved: &[FPath]) -> Result<String, AllocError>
    ensures { IfOk result (λ text. string_bytes text ≡ moved_text moved.now) }
{
    let mut text = String::new(alloc);
    for at in moved {
        push_moved(alloc, &mut text, at)?;
    }
    Ok(text)
}

// Adds a path's line.
fn push_moved(alloc: Global, text: &mut String, at: &FPath) -> Result<(), AllocError>
    ensures { OnOk result (string_bytes text.new ≡ string_bytes text.old ++ moved_line at.now) }
{
    text.push_str("moved ")?;
    text.push_str(shown_folder(alloc, at)?.as_str())?;
    text.push('\n')
}
