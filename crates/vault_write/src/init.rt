//! Making vaults.
ghost use Rattle.std.specs.Prelude.{◌≡◌, ◌≤◌, ◌∷◌, [], List, ℕ, Err, IfOk, OnOk, IsTrue, length};
ghost use Rattle.std.specs.List.{list_all};
ghost use Rattle.kdf_suite.specs.ScryptCost.{IsCost};
ghost use Rattle.port_model.specs.Counts.{CountRose};
ghost use Rattle.folder_spec.specs.Path.{child};
ghost use Rattle.folder_spec.specs.State.{present};
ghost use Rattle.folder_spec.specs.Event.{FromTo};
ghost use Rattle.folder_spec.specs.Edit.{folder_view};
ghost use Rattle.folder_spec.specs.Replace.{IsNewFile};
ghost use Rattle.folder_spec.specs.Seen.{IfSeen, ShowsFree};
ghost use Rattle.folder_model.specs.Answers.{CountsAbove};
ghost use Rattle.folder_staging.specs.Folders.{StagesFolder, IsStagedFolder};
ghost use Rattle.folder_staging.specs.Pieces.{Stages};
ghost use Rattle.folder_staging.specs.Places.{IsPlace};
ghost use Rattle.vault_names.specs.Base32.{is_base32};
ghost use Rattle.vault_spec.specs.Cryptomator.{top};
ghost use Rattle.vault_spec.specs.NewVault.{cm_files, new_cm_vault};
ghost use Rattle.vault_write.specs.Founding.{MayFound, Founds, FoundsGo, FoundsCm, StagesWhole, StagesHome, cm_two, go_two, texts, with_home};

use crate::drawing::{draw_cm, draw_go};
use crate::stage::staged_at;
use content_writing::PutFault;
use cryptomator_conf::laws::made_files_give_back_their_keys;
use cryptomator_conf::{CmDraw, Combo};
use folder_model::{FPath, Folder};
use folder_spec::FolderFault;
use folder_staging::laws::{
    staged_folders_are_seen, staged_folders_gain_entries, staged_folders_gain_files,
    stagings_are_of_more_files,
};
use folder_staging::{begin_folder, place_folder, stage_file};
use gocrypt_conf::laws::made_texts_give_back_their_keys;
use kdf_suite::ScryptCost;
use port_model::Randoms;
use std::alloc::Global;
use vault_names::cm_folder;
use vault_names::laws::cm_folders_are_plain;
use vault_spec::laws::{
    new_vaults_of_cryptomator_are_empty, new_vaults_of_gocryptfs_are_empty,
    vaults_of_cryptomator_stay_tidy, vaults_of_gocryptfs_stay_tidy,
};
use vault_values::CmKeys;
use work_folder::Work;

/// Makes a new gocryptfs vault at a path where nothing stands. It comes there whole, at once, and lasts.
///
/// It draws the master key, the salt, the nonce and the key of the root, and takes the memory of scrypt.
pub fn init_go<F: Folder, R: Randoms>(
    alloc: Global,
    folder: &mut F,
    work: &Work,
    at: &FPath,
    pass: &[u8],
    cost: &ScryptCost,
    random: &mut R,
) -> Result<(), PutFault>
    requires { MayFound (F.told folder.old) work.now at.now }
    ensures founds { FoundsGo work.now at.now pass.now cost.now (R.left random.old) (R.left random.new) (F.told folder.old) (F.told folder.new) result }
    ensures failed { result ≡ Err PutFault.Failed → CountRose (F.faults folder.old) (F.faults folder.new) }
    ensures random { result ≡ Err PutFault.Random → CountRose (R.faults random.old) (R.faults random.new) }
    ensures grows { F.faults folder.old ≤ F.faults folder.new }
    ensures counted { R.faults random.old ≤ R.faults random.new }
{
    made_texts_give_back_their_keys();
    new_vaults_of_gocryptfs_are_empty();
    vaults_of_gocryptfs_stay_tidy();
    cost_is_one(cost);
    let drawn = draw_go(random)?;
    let conf = gocrypt_conf::make(alloc, pass, cost, &drawn.draw)?;
    Ok(found_go(folder, work, at, conf.as_slice(), &drawn.key)?)
}

/// Makes a new Cryptomator vault with SIV_GCM, as `init_cm_combo` does.
pub fn init_cm<F: Folder, R: Randoms>(
    alloc: Global,
    folder: &mut F,
    work: &Work,
    at: &FPath,
    pass: &[u8],
    cost: &ScryptCost,
    random: &mut R,
) -> Result<(), PutFault>
    requires { MayFound (F.told folder.old) work.now at.now }
    ensures founds { FoundsCm work.now at.now pass.now cost.now Combo.SivGcm (R.left random.old) (R.left random.new) (F.told folder.old) (F.told folder.new) result }
    ensures failed { result ≡ Err PutFault.Failed → CountRose (F.faults folder.old) (F.faults folder.new) }
    ensures random { result ≡ Err PutFault.Random → CountRose (R.faults random.old) (R.faults random.new) }
    ensures grows { F.faults folder.old ≤ F.faults folder.new }
    ensures counted { R.faults random.old ≤ R.faults random.new }
{
    init_cm_combo(alloc, folder, work, at, pass, cost, Combo::SivGcm, random)
}

/// Makes a new Cryptomator vault with these ciphers at a path where nothing stands. It comes there whole, at once, and lasts.
///
/// It draws the two keys, the salt and the vault's id, and takes the memory of scrypt.
pub fn init_cm_combo<F: Folder, R: Randoms>(
    alloc: Global,
    folder: &mut F,
    work: &Work,
    at: &FPath,
    pass: &[u8],
    cost: &ScryptCost,
    combo: Combo,
    random: &mut R,
) -> Result<(), PutFault>
    requires { MayFound (F.told folder.old) work.now at.now }
    ensures founds { FoundsCm work.now at.now pass.now cost.now combo (R.left random.old) (R.left random.new) (F.told folder.old) (F.told folder.new) result }
    ensures failed { result ≡ Err PutFault.Failed → CountRose (F.faults folder.old) (F.faults folder.new) }
    ensures random { result ≡ Err PutFault.Random → CountRose (R.faults random.old) (R.faults random.new) }
    ensures grows { F.faults folder.old ≤ F.faults folder.new }
    ensures counted { R.faults random.old ≤ R.faults random.new }
{
    made_files_give_back_their_keys();
    new_vaults_of_cryptomator_are_empty();
    vaults_of_cryptomator_stay_tidy();
    cost_is_one(cost);
    let drawn = draw_cm(random)?;
    Ok(found_drawn(alloc, folder, work, at, pass, cost, combo, &drawn)?)
}

// Puts the Cryptomator vault of what was drawn at the path.
fn found_drawn<F: Folder>(
    alloc: Global,
    folder: &mut F,
    work: &Work,
    at: &FPath,
    pass: &[u8],
    cost: &ScryptCost,
    combo: Combo,
    drawn: &CmDraw,
) -> Result<(), FolderFault>
    requires { MayFound (F.told folder.old) work.now at.now }
    ensures founds { Founds work.now at.now (new_cm_vault pass.now cost.now combo drawn.now) (cm_files pass.now cost.now combo drawn.now) (F.told folder.old) (F.told folder.new) result }
    ensures counts { CountsAbove (F.faults folder.old) (F.faults folder.new) result }
{
    cm_folders_are_plain();
    let keys = CmKeys {
        enc: drawn.enc,
        mac: drawn.mac,
    };
    let files = cryptomator_conf::make_combo(alloc, pass, cost, combo, drawn)?;
    let home = cm_folder(alloc, &keys, &[])?;
    let master = files.master.as_slice();
    let vault = files.vault.as_slice();
    found_cm(folder, work, at, master, vault, home.as_str())
}

// A cost is one at which scrypt works.
fn cost_is_one(cost: &ScryptCost)
    ensures { IsCost cost.now }
{
    let _n = cost.n();
}

// Puts a gocryptfs vault of these two files at the path.
fn found_go<F: Folder>(
    folder: &mut F,
    work: &Work,
    at: &FPath,
    conf: &[u8],
    key: &[u8],
) -> Result<(), FolderFault>
    requires { MayFound (F.told folder.old) work.now at.now }
    ensures founds { Founds work.now at.now (folder_view (go_two conf.now key.now)) (go_two conf.now key.now) (F.told folder.old) (F.told folder.new) result }
    ensures counts { CountsAbove (F.faults folder.old) (F.faults folder.new) result }
{
    let staged = staged_at(work, "f")?;
    stage_files(
        folder,
        &staged,
        "gocryptfs.diriv",
        key,
        "gocryptfs.conf",
        conf,
    )?;
    place_folder(folder, &staged, at)
}

// Puts a Cryptomator vault of these two files, and the content folder of this text, at the path.
fn found_cm<F: Folder>(
    folder: &mut F,
    work: &Work,
    at: &FPath,
    master: &[u8],
    vault: &[u8],
    home: &str,
) -> Result<(), FolderFault>
    requires may { MayFound (F.told folder.old) work.now at.now }
    requires size { length home.now ≡ 32 }
    requires characters { IsTrue (list_all is_base32 home.now) }
    ensures founds { Founds work.now at.now (with_home home.now (folder_view (cm_two master.now vault.now))) (cm_two master.now vault.now) (F.told folder.old) (F.told folder.new) result }
    ensures counts { CountsAbove (F.faults folder.old) (F.faults folder.new) result }
{
    let staged = staged_at(work, "f")?;
    stage_cm(folder, &staged, master, vault, home)?;
    place_folder(folder, &staged, at)
}

// Stages a Cryptomator vault.
fn stage_cm<F: Folder>(
    folder: &mut F,
    staged: &FPath,
    master: &[u8],
    vault: &[u8],
    home: &str,
) -> Result<(), FolderFault>
    requires free { IfSeen (F.told folder.old) (λ v. ShowsFree v staged.now) }
    requires size { length home.now ≡ 32 }
    requires characters { IsTrue (list_all is_base32 home.now) }
    ensures staged { StagesWhole staged.now (with_home home.now (folder_view (cm_two master.now vault.now))) (texts (cm_two master.now vault.now)) (F.told folder.old) (F.told folder.new) result }
    ensures counts { CountsAbove (F.faults folder.old) (F.faults folder.new) result }
{
    staged_folders_are_seen();
    stage_files(
        folder,
        staged,
        "vault.cryptomator",
        vault,
        "masterkey.cryptomator",
        master,
    )?;
    stage_home(folder, staged, home)
}

// Stages a folder of two files.
fn stage_files<F: Folder>(
    folder: &mut F,
    staged: &FPath,
    first: &str,
    first_bytes: &[u8],
    second: &str,
    second_bytes: &[u8],
) -> Result<(), FolderFault>
    requires { IfSeen (F.told folder.old) (λ v. ShowsFree v staged.now) }
    ensures staged { let files : List (List ℕ × List ℕ) = (second.now, second_bytes.now) ∷ (first.now, first_bytes.now) ∷ [] in StagesWhole staged.now (folder_view files) (texts files) (F.told folder.old) (F.told folder.new) result }
    ensures counts { CountsAbove (F.faults folder.old) (F.faults folder.new) result }
{
    stagings_are_of_more_files();
    staged_folders_gain_files();
    staged_folders_are_seen();
    begin_folder(folder, staged)?;
    stage_in(folder, staged, first, first_bytes)?;
    stage_in(folder, staged, second, second_bytes)
}

// Stages a file in a staged folder.
fn stage_in<F: Folder>(
    folder: &mut F,
    staged: &FPath,
    name: &str,
    bytes: &[u8],
) -> Result<(), FolderFault>
    requires { IsPlace (F.told folder.old) (child staged.now name.now) }
    ensures moments { Stages (bytes.now ∷ []) (child staged.now name.now) (F.told folder.old) (F.told folder.new) }
    ensures written { OnOk result (FromTo (λ a b. IsNewFile bytes.now a.state b.state (present b.state (child staged.now name.now))) (F.told folder.old) (F.told folder.new)) }
    ensures counts { CountsAbove (F.faults folder.old) (F.faults folder.new) result }
{
    let at = staged.child(name)?;
    stage_file(folder, &at, bytes)
}

// Stages `d` and below it the content folder that a base32 text of 32 characters names.
fn stage_home<F: Folder>(folder: &mut F, staged: &FPath, text: &str) -> Result<(), FolderFault>
    requires free { IfSeen (F.told folder.old) (λ v. ShowsFree v (child staged.now top)) }
    requires size { length text.now ≡ 32 }
    requires characters { IsTrue (list_all is_base32 text.now) }
    ensures home { StagesHome staged.now text.now (F.told folder.old) (F.told folder.new) result }
    ensures counts { CountsAbove (F.faults folder.old) (F.faults folder.new) result }
{
    staged_folders_gain_entries();
    staged_folders_are_seen();
    let (shelf, rest) = text.split_at(2);
    let top = stage_directory(folder, staged, "d")?;
    let shelf = stage_directory(folder, &top, shelf)?;
    let _home = stage_directory(folder, &shelf, rest)?;
    Ok(())
}

// Stages a directory in another one that is staged, and answers its path.
fn stage_directory<F: Folder>(
    folder: &mut F,
    above: &FPath,
    name: &str,
) -> Result<FPath, FolderFault>
    requires { IfSeen (F.told folder.old) (λ v. ShowsFree v (child above.now name.now)) }
    ensures path { IfOk result (λ at. at ≡ child above.now name.now) }
    ensures stages { (contents : List (List ℕ)) → StagesFolder contents (child above.now name.now) (F.told folder.old) (F.told folder.new) }
    ensures staged { OnOk result ((contents : List (List ℕ)) → IsStagedFolder contents (child above.now name.now) [] (F.told folder.old) (F.told folder.new)) }
    ensures counts { CountsAbove (F.faults folder.old) (F.faults folder.new) result }
{
    let at = above.child(name)?;
    begin_folder(folder, &at)?;
    Ok(at)
}
