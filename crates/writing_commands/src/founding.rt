//! `init`: makes a vault.
ghost use Rattle.std.specs.Prelude.{◌≡◌, ◌⊎◌, ◌≤◌, ℕ, Bool, false, List, Option, ⊤, Err};
ghost use Rattle.folder_spec.specs.Seen.{IfSeen};
ghost use Rattle.port_model.specs.Counts.{CountRose};
ghost use Rattle.vault_write.specs.Founding.{MayFound};
ghost use Rattle.item_making.specs.Placing.{MayMake};
ghost use Rattle.open_for_reading.specs.Places.{overlap};
ghost use Rattle.writing_commands.specs.Init.{cost_of, FoundsAs, FoundsNew, MakesVault, OfPlace, RefusesPlace};
ghost use Rattle.open_for_reading.specs.Opening.{IsPhrase};
ghost use Rattle.open_for_reading.specs.Refusing.{Unless};
ghost use Rattle.open_for_reading.specs.Carrying.{CarriesOut};
ghost use Rattle.open_for_reading.specs.World.{World};
ghost use Rattle.command_words.specs.declared.commands.Command.TheVariants.{Init};

use crate::faults::answer_to_making;
use command_answers::Answer;
use command_words::Format;
use command_words::commands::NewVault;
use cryptomator_conf::Combo;
use folder_model::Folder;
use kdf_suite::ScryptCost;
use open_for_changing::{enter_settled, read_apart};
use open_for_reading::test_free;
use port_model::laws::draws_compose;
use port_model::{Randoms, Sink, Source};
use std::alloc::Global;
use vault_write::{PutFault, init_cm, init_cm_combo, init_go};
use work_folder::Work;

/// Makes a vault where nothing stands.
pub fn init<F: Folder, R: Randoms, I: Source, O: Sink>(
    alloc: Global,
    new: &NewVault,
    folder: &mut F,
    random: &mut R,
    input: &mut I,
    out: &mut O,
) -> Answer
    ensures { CarriesOut (Init new.now) (MakesVault new.now) (λ v. ⊤) result
        (record { told = F.told folder.old; left = I.left input.old; ended = I.ended input.old; taken = O.taken out.old; random = R.left random.old })
        (record { told = F.told folder.new; left = I.left input.new; ended = I.ended input.new; taken = O.taken out.new; random = R.left random.new })
        (CountRose (F.faults folder.old) (F.faults folder.new)) (CountRose (I.faults input.old) (I.faults input.new))
        (CountRose (O.faults out.old) (O.faults out.new)) (CountRose (R.faults random.old) (R.faults random.new)) }
{
    draws_compose();
    match read_apart(alloc, folder, &new.vault, &new.work, &new.pass) {
        Ok(phrase) => make_apart(alloc, new, folder, phrase.as_slice(), random),
        Err(answer) => answer,
    }
}

// Makes a vault whose folder and work folder don't overlap.
fn make_apart<F: Folder, R: Randoms>(
    alloc: Global,
    new: &NewVault,
    folder: &mut F,
    phrase: &[u8],
    random: &mut R,
) -> Answer
    requires apart { overlap new.now.vault new.now.work ≡ false }
    requires phrase { IfSeen (F.told folder.old) (λ v. IsPhrase (v new.now.pass) phrase.now) }
    ensures makes { (left : Option (List ℕ)) (ended : Bool) (taken : Option (List ℕ)) → MakesVault new.now result
        (record { told = F.told folder.old; left = left; ended = ended; taken = taken; random = R.left random.old })
        (record { told = F.told folder.new; left = left; ended = ended; taken = taken; random = R.left random.new }) }
    ensures folder_fault { result ≡ Answer.FolderFault → CountRose (F.faults folder.old) (F.faults folder.new) }
    ensures random_fault { result ≡ Answer.RandomFault → CountRose (R.faults random.old) (R.faults random.new) }
{
    draws_compose();
    match enter_settled(folder, &new.work) {
        Ok(work) => make_in(alloc, new, folder, &work, phrase, random),
        Err(answer) => answer,
    }
}

// Makes a vault from a work folder that is ready.
fn make_in<F: Folder, R: Randoms>(
    alloc: Global,
    new: &NewVault,
    folder: &mut F,
    work: &Work,
    phrase: &[u8],
    random: &mut R,
) -> Answer
    requires work { work.now ≡ new.now.work }
    requires may { MayMake (F.told folder.old) work.now new.now.vault }
    ensures cause { IfSeen (F.told folder.old) (λ v. Unless result (OfPlace new.now v result)) }
    ensures made { RefusesPlace result (F.told folder.old) (F.told folder.new) (R.left random.old) (R.left random.new) ⊎ FoundsAs new.now phrase.now result (F.told folder.old) (F.told folder.new) (R.left random.old) (R.left random.new) }
    ensures folder_fault { result ≡ Answer.FolderFault → CountRose (F.faults folder.old) (F.faults folder.new) }
    ensures random_fault { result ≡ Answer.RandomFault → CountRose (R.faults random.old) (R.faults random.new) }
    ensures grows { F.faults folder.old ≤ F.faults folder.new }
{
    match test_free(folder, &new.vault) {
        Ok(()) => answer_to_making(found(alloc, new, folder, work, phrase, random)),
        Err(answer) => answer,
    }
}

// Makes a vault of the kind that is asked for.
fn found<F: Folder, R: Randoms>(
    alloc: Global,
    new: &NewVault,
    folder: &mut F,
    work: &Work,
    phrase: &[u8],
    random: &mut R,
) -> Result<(), PutFault>
    requires { MayFound (F.told folder.old) work.now new.now.vault }
    ensures founds { FoundsNew new.now.format work.now new.now.vault phrase.now (R.left random.old) (R.left random.new) (F.told folder.old) (F.told folder.new) result }
    ensures failed { result ≡ Err PutFault.Failed → CountRose (F.faults folder.old) (F.faults folder.new) }
    ensures random { result ≡ Err PutFault.Random → CountRose (R.faults random.old) (R.faults random.new) }
    ensures grows { F.faults folder.old ≤ F.faults folder.new }
    ensures counted { R.faults random.old ≤ R.faults random.new }
{
    let cost = cost_of(new.format);
    let at = &new.vault;
    match new.format {
        Format::Gocryptfs => init_go(alloc, folder, work, at, phrase, &cost, random),
        Format::Cryptomator => init_cm(alloc, folder, work, at, phrase, &cost, random),
        Format::CryptomatorCtrMac => {
            let combo = Combo::SivCtrMac;
            init_cm_combo(alloc, folder, work, at, phrase, &cost, combo, random)
        }
    }
}

// The cost of scrypt in new vaults of a kind.
fn cost_of(kind: Format) -> ScryptCost
    ensures { result ≡ cost_of kind }
{
    match kind {
        Format::Gocryptfs => ScryptCost::new(65_536, 8, 1).unwrap(),
        Format::Cryptomator | Format::CryptomatorCtrMac => ScryptCost::new(32_768, 8, 1).unwrap(),
    }
}
