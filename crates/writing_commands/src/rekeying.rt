//! `passwd`: changes the passphrase of a vault.
ghost use Rattle.std.specs.Prelude.{◌≡◌, ◌⊎◌, ◌≤◌, ⊤, ℕ, Bool, List, Option, true, false, Ok, Err, IfErr, IfOk, IsTrue};
ghost use Rattle.folder_spec.specs.Seen.{IfSeen};
ghost use Rattle.port_model.specs.Counts.{CountRose};
ghost use Rattle.passwd_core.specs.declared.fault.PassFault.TheVariants as fault;
ghost use Rattle.passwd_core.specs.Rekeying.{IsTold};
ghost use Rattle.open_for_reading.specs.Carrying.{CarriesOut};
ghost use Rattle.open_for_reading.specs.Opening.{IsPhrase, OfPassFile};
ghost use Rattle.open_for_reading.specs.Places.{overlap};
ghost use Rattle.open_for_reading.specs.Refusing.{Unless};
ghost use Rattle.open_for_reading.specs.Shown.{refused};
ghost use Rattle.open_for_reading.specs.Tests.{is_of_readying};
ghost use Rattle.open_for_reading.specs.World.{World};
ghost use Rattle.command_words.specs.declared.commands.Command.TheVariants.{Passwd};
ghost use Rattle.writing_commands.specs.Passwd.{ChangesPassphrase, answer_to_change};

use command_answers::Answer;
use command_words::commands::NewPass;
use folder_model::{FPath, Folder};
use folder_spec::laws::{images_show_views, roots_show_their_own};
use open_for_changing::{enter_settled, read_apart};
use open_for_reading::{answer_to_load, read_pass};
use passwd_core::{PassFault, change_pass};
use port_model::laws::draws_compose;
use port_model::{Randoms, Sink, Source};
use std::alloc::Global;
use vault_values::Bytes;

// The old passphrase and the new one.
#[derive(Drop)]
struct Phrases {
    old: Bytes,
    new: Bytes,
}

/// Puts another passphrase in the place of a vault's.
pub fn passwd<F: Folder, R: Randoms, I: Source, O: Sink>(
    alloc: Global,
    new: &NewPass,
    folder: &mut F,
    random: &mut R,
    input: &mut I,
    out: &mut O,
) -> Answer
    ensures { CarriesOut (Passwd new.now) (ChangesPassphrase new.now) (λ v. ⊤) result
        (record { told = F.told folder.old; left = I.left input.old; ended = I.ended input.old; taken = O.taken out.old; random = R.left random.old })
        (record { told = F.told folder.new; left = I.left input.new; ended = I.ended input.new; taken = O.taken out.new; random = R.left random.new })
        (CountRose (F.faults folder.old) (F.faults folder.new)) (CountRose (I.faults input.old) (I.faults input.new))
        (CountRose (O.faults out.old) (O.faults out.new)) (CountRose (R.faults random.old) (R.faults random.new)) }
{
    draws_compose();
    match read_both(alloc, new, folder) {
        Ok(phrases) => rekey_apart(alloc, new, folder, &phrases, random),
        Err(answer) => answer,
    }
}

// Both passphrases, for a vault and a work folder that don't overlap.
fn read_both<F: Folder>(alloc: Global, new: &NewPass, folder: &mut F) -> Result<Phrases, Answer>
    ensures told { F.told folder.new ≡ F.told folder.old }
    ensures apart { IfOk result (λ phrases. overlap new.now.vault new.now.work ≡ false) }
    ensures old { IfOk result (λ phrases. IfSeen (F.told folder.old) (λ v. IsPhrase (v new.now.pass) phrases.old)) }
    ensures new { IfOk result (λ phrases. IfSeen (F.told folder.old) (λ v. IsPhrase (v new.now.new_pass) phrases.new)) }
    ensures overlapping { IfErr result (λ answer. overlap new.now.vault new.now.work ≡ true → (answer ≡ Answer.Overlap new.now.vault new.now.work) ⊎ (answer ≡ Answer.OutOfMemory)) }
    ensures refused { IfErr result (λ answer. overlap new.now.vault new.now.work ≡ false → IfSeen (F.told folder.old) (λ v.
        Unless answer (OfPassFile new.now.pass (v new.now.pass) (refused answer) (λ phrase. OfPassFile new.now.new_pass (v new.now.new_pass) (refused answer) (λ new_phrase. ⊥))))) }
    ensures own { IfErr result (λ answer. overlap new.now.vault new.now.work ≡ false → IsTrue (is_of_readying answer)) }
    ensures grows { F.faults folder.old ≤ F.faults folder.new }
    ensures failed { result ≡ Err Answer.FolderFault → CountRose (F.faults folder.old) (F.faults folder.new) }
{
    let old = read_apart(alloc, folder, &new.vault, &new.work, &new.pass)?;
    let new = read_pass(alloc, folder, &new.new_pass)?;
    Ok(Phrases { old, new })
}

// Changes the passphrase of a vault that doesn't overlap the work folder.
fn rekey_apart<F: Folder, R: Randoms>(
    alloc: Global,
    new: &NewPass,
    folder: &mut F,
    phrases: &Phrases,
    random: &mut R,
) -> Answer
    requires apart { overlap new.now.vault new.now.work ≡ false }
    requires old { IfSeen (F.told folder.old) (λ v. IsPhrase (v new.now.pass) phrases.now.old) }
    requires new { IfSeen (F.told folder.old) (λ v. IsPhrase (v new.now.new_pass) phrases.now.new) }
    ensures changes { (left : Option (List ℕ)) (ended : Bool) (taken : Option (List ℕ)) → ChangesPassphrase new.now result
        (record { told = F.told folder.old; left = left; ended = ended; taken = taken; random = R.left random.old })
        (record { told = F.told folder.new; left = left; ended = ended; taken = taken; random = R.left random.new }) }
    ensures folder_fault { result ≡ Answer.FolderFault → CountRose (F.faults folder.old) (F.faults folder.new) }
    ensures random_fault { result ≡ Answer.RandomFault → CountRose (R.faults random.old) (R.faults random.new) }
{
    images_show_views();
    roots_show_their_own();
    draws_compose();
    match enter_settled(folder, &new.work) {
        Ok(work) => answer_to_change(
            &new.vault,
            change_pass(
                alloc,
                folder,
                &work,
                &new.vault,
                phrases.old.as_slice(),
                phrases.new.as_slice(),
                random,
            ),
        ),
        Err(answer) => answer,
    }
}

// The answer to a passphrase that is changed, or isn't.
fn answer_to_change(root: &FPath, changed: Result<(), PassFault>) -> Answer
    requires { IsTold changed }
    ensures answers { (result ≡ Answer.OutOfMemory) ⊎ (result ≡ answer_to_change root.now changed) }
    ensures done { result ≡ Answer.Done → changed ≡ Ok tt }
    ensures failed { result ≡ Answer.FolderFault → changed ≡ Err fault.Failed }
    ensures undrawn { result ≡ Answer.RandomFault → changed ≡ Err fault.Random }
{
    match changed {
        Ok(()) => Answer::Done,
        Err(PassFault::Load(fault)) => answer_to_load(root, fault),
        Err(PassFault::ZeroRandom) => Answer::ZeroRandom,
        Err(PassFault::Random) => Answer::RandomFault,
        Err(PassFault::Failed) => Answer::FolderFault,
        Err(PassFault::NoMemory) => Answer::OutOfMemory,
    }
}
