//! Making the vaults of the demonstration, and the items of the first.
ghost use Rattle.std.specs.Prelude.{◌≡◌, ◌≢◌, ◌≤◌, ◌<◌, ◌+◌, ◌⊎◌, ◌++◌, ◌∷◌, [], ℕ, None, Some, Ok, Err, IfErr, IfOk, OnOk, IsTrue, codes, replicate};
ghost use Rattle.std.specs.Int.{to_le_bytes, w64};
ghost use Rattle.folder_model.specs.Text.{IsParsed, is_path_text, parts_of};
ghost use Rattle.folder_spec.specs.Event.{FromTo, Told};
ghost use Rattle.folder_spec.specs.Path.{below};
ghost use Rattle.folder_spec.specs.Seen.{IfSeen, ShowsFree};
ghost use Rattle.folder_spec.specs.View.{kind_found};
ghost use Rattle.port_model.specs.Counts.{CountRose};
ghost use Rattle.work_folder.specs.Entering.{IsFresh, IsReady};
ghost use Rattle.vault_read.specs.Opened.{kind_of};
ghost use Rattle.vault_write.specs.Founding.{MayFound};
ghost use Rattle.item_making.specs.Making.{is_apart};
ghost use Rattle.item_making.specs.Placing.{MayMake};
ghost use Rattle.demo_core.specs.Drawing.{Drew, seed_stream};
ghost use Rattle.demo_core.specs.Making.{CanMake, HoldsAlone, HoldsInOrder, HoldsItems, IsBeside, IsFailed, IsItemFault, IsMakeFault, IsNotPut, IsOfChance, IsOfItem, IsOfItems, IsPutOfChance, IsPutTaken, IsTaken, MakesBeside, StandsNew, making_folder, phrase};
ghost use Rattle.demo_core.specs.Sharing.{SharesPlace};

use crate::bytes::MadeBytes;
use crate::fault::MakeFault;
use crate::items::{is_directory, path_of};
use content_writing::PutFault;
use folder_model::{FPath, FPathFault, Folder, Kind};
use folder_spec::FolderFault;
use folder_spec::laws::roots_show_their_own;
use kdf_suite::ScryptCost;
use port_model::laws::draws_compose;
use port_model::{MemRandoms, Randoms};
use rand_chacha::ChaCha20Rng;
use rand_core::SeedableRng;
use std::alloc::{AllocError, Global};
use vault_read::laws::{files_have_their_contents, items_keep_vaults, roots_have_one_answer};
use vault_read::{Vault, VaultKind};
use vault_spec::laws::{what_is_found_stands, what_stands_is_found_step_by_step};
use vault_write::{init_cm, init_go, place_dir, place_file};
use work_folder::Work;

/// The passphrase of all vaults of the demonstration.
pub const PASSPHRASE: &[u8] = b"demo";

/// The random source of the demonstration: the stream of ChaCha20 whose seed is this number, in 32 bytes from the lowest.
pub fn random_of(seed: u64) -> MemRandoms<ChaCha20Rng>
    ensures stream { ⟦<MemRandoms<ChaCha20Rng> as Randoms>⟧.left result ≡ Some (seed_stream seed) }
    ensures faults { ⟦<MemRandoms<ChaCha20Rng> as Randoms>⟧.faults result ≡ 0 }
{
    let mut bytes = [0; 32];
    bytes[..8].copy_from_slice(&seed.to_le_bytes());
    MemRandoms::new(ChaCha20Rng::from_seed(bytes))
}

/// The path that a text writes.
pub fn place(alloc: Global, text: &str) -> Result<FPath, AllocError>
    requires { IsTrue (is_path_text text.now) }
    ensures is { IfOk result (λ path. path ≡ parts_of text.now) }
    ensures parsed { IfOk result IsParsed }
{
    let _utf8 = text.as_bytes();
    match FPath::parse(alloc, text) {
        Ok(path) => Ok(path),
        Err(FPathFault::NoMemory) => Err(AllocError),
        Err(FPathFault::BadPath) => unreachable!(),
    }
}

/// Makes the first vault, a gocryptfs vault at `g`, with so many items.
pub fn make_first<F: Folder, R: Randoms>(
    alloc: Global,
    folder: &mut F,
    seed: u64,
    count: u32,
    random: &mut R,
) -> Result<(), MakeFault>
    requires count { count ≤ 2000 }
    ensures holds { OnOk result (IfSeen (F.told folder.new) (λ v. HoldsItems VaultKind.Gocryptfs (codes "g" ∷ []) seed count v)) }
    ensures beside { MakesBeside (codes "g" ∷ []) (F.told folder.old) (F.told folder.new) }
    ensures alone { OnOk result ((a : Told) → F.told folder.new ≡ Some a → HoldsInOrder VaultKind.Gocryptfs (codes "g" ∷ []) seed count a.state) }
    ensures fresh { OnOk result (IfSeen (F.told folder.new) (λ v. IsFresh v making_folder)) }
    ensures failed { IfErr result (λ fault. IsFailed fault → CountRose (F.faults folder.old) (F.faults folder.new)) }
    ensures own { IfErr result (λ fault. IsMakeFault fault) }
    ensures chance { IfErr result (λ fault. IfSeen (F.told folder.old) (λ v. CanMake (codes "g" ∷ []) v → IsOfItems fault)) }
    ensures shared { IfErr result (λ fault. IsTaken fault → IfSeen (F.told folder.old) (λ v. CanMake (codes "g" ∷ []) v → SharesPlace (codes "g" ∷ []) (F.told folder.old) (F.told folder.new) (R.left random.old) (R.left random.new) count)) }
    ensures random { result ≡ Err (MakeFault.Put PutFault.Random) → CountRose (R.faults random.old) (R.faults random.new) }
    ensures drew { Drew ((F.told folder.old ≢ None) × (result ≡ Err (MakeFault.Put PutFault.ZeroRandom))) (R.left random.old) (R.left random.new) }
    ensures grows { F.faults folder.old ≤ F.faults folder.new }
    ensures counted { R.faults random.old ≤ R.faults random.new }
{
    draws_compose();
    let work = make_vault(alloc, folder, VaultKind::Gocryptfs, "g", random)?;
    let vault = load(alloc, folder, "g")?;
    Ok(place_items(alloc, folder, &work, &vault, seed, count, random)?)
}

/// Makes an empty vault from the work folder `w`, and answers the work folder.
pub fn make_vault<F: Folder, R: Randoms>(
    alloc: Global,
    folder: &mut F,
    kind: VaultKind,
    name: &str,
    random: &mut R,
) -> Result<Work, MakeFault>
    requires path { IsTrue (is_path_text name.now) }
    requires apart { below making_folder (parts_of name.now) ≡ None }
    requires beside { below (parts_of name.now) making_folder ≡ None }
    ensures work { IfOk result (λ work. work ≡ making_folder) }
    ensures fresh { IfOk result (λ work. IfSeen (F.told folder.new) (λ v. IsFresh v work)) }
    ensures stands { IfOk result (λ work. (a : Told) → F.told folder.new ≡ Some a → StandsNew kind (parts_of name.now) a.state) }
    ensures beside { MakesBeside (parts_of name.now) (F.told folder.old) (F.told folder.new) }
    ensures failed { IfErr result (λ fault. IsFailed fault → CountRose (F.faults folder.old) (F.faults folder.new)) }
    ensures own { IfErr result (λ fault. IsMakeFault fault) }
    ensures chance { IfErr result (λ fault. IfSeen (F.told folder.old) (λ v. CanMake (parts_of name.now) v → IsOfChance fault)) }
    ensures random { result ≡ Err (MakeFault.Put PutFault.Random) → CountRose (R.faults random.old) (R.faults random.new) }
    ensures drew { Drew (result ≡ Err (MakeFault.Put PutFault.ZeroRandom)) (R.left random.old) (R.left random.new) }
    ensures grows { F.faults folder.old ≤ F.faults folder.new }
    ensures counted { R.faults random.old ≤ R.faults random.new }
{
    draws_compose();
    let at = place(alloc, name)?;
    let work = Work::enter(folder, &place(alloc, "w")?)?;
    test_free(folder, &at)?;
    found(alloc, folder, kind, &work, &at, random)?;
    Ok(work)
}

// Nothing stands at a path, in a directory.
fn test_free<F: Folder>(folder: &mut F, at: &FPath) -> Result<(), PutFault>
    ensures told { F.told folder.new ≡ F.told folder.old }
    ensures free { OnOk result (IfSeen (F.told folder.old) (λ v. ShowsFree v at.now)) }
    ensures fault { IfErr result (λ fault. (fault ≡ PutFault.Taken at.now) ⊎ ((fault ≡ PutFault.Failed) ⊎ (fault ≡ PutFault.NoMemory))) }
    ensures chance { IfErr result (λ fault. IfSeen (F.told folder.old) (λ v. ShowsFree v at.now → IsPutOfChance fault)) }
    ensures failed { result ≡ Err PutFault.Failed → CountRose (F.faults folder.old) (F.faults folder.new) }
    ensures grows { F.faults folder.old ≤ F.faults folder.new }
{
    let above = at.parent()?;
    let around = kind_at(folder, &above)?;
    let there = kind_at(folder, at)?;
    match (around, there) {
        (Kind::Dir, Kind::Missing) => Ok(()),
        _ => Err(PutFault::Taken(at.copy()?)),
    }
}

fn kind_at<F: Folder>(folder: &mut F, at: &FPath) -> Result<Kind, PutFault>
    ensures told { F.told folder.new ≡ F.told folder.old }
    ensures kind { IfOk result (λ kind. IfSeen (F.told folder.old) (λ v. kind ≡ kind_found (v at.now))) }
    ensures fault { IfErr result (λ fault. (fault ≡ PutFault.Failed) ⊎ (fault ≡ PutFault.NoMemory)) }
    ensures failed { result ≡ Err PutFault.Failed → CountRose (F.faults folder.old) (F.faults folder.new) }
    ensures grows { F.faults folder.old ≤ F.faults folder.new }
{
    match folder.kind(at) {
        Ok(kind) => Ok(kind),
        Err(FolderFault::Failed) => Err(PutFault::Failed),
        Err(FolderFault::Refused) => Err(PutFault::Failed),
        Err(FolderFault::NoMemory) => Err(PutFault::NoMemory),
    }
}

// Makes a vault of a kind.
fn found<F: Folder, R: Randoms>(
    alloc: Global,
    folder: &mut F,
    kind: VaultKind,
    work: &Work,
    at: &FPath,
    random: &mut R,
) -> Result<(), PutFault>
    requires { MayFound (F.told folder.old) work.now at.now }
    ensures ready { OnOk result (IfSeen (F.told folder.new) (λ v. IsReady v work.now)) }
    ensures stands { OnOk result (FromTo (λ a b. StandsNew kind at.now b.state) (F.told folder.old) (F.told folder.new)) }
    ensures beside { IsBeside (is_apart work.now at.now) (F.told folder.old) (F.told folder.new) }
    ensures failed { result ≡ Err PutFault.Failed → CountRose (F.faults folder.old) (F.faults folder.new) }
    ensures own { IfErr result (λ fault. IsItemFault fault) }
    ensures chance { IfErr result (λ fault. IsPutOfChance fault) }
    ensures random { result ≡ Err PutFault.Random → CountRose (R.faults random.old) (R.faults random.new) }
    ensures drew { Drew (result ≡ Err PutFault.ZeroRandom) (R.left random.old) (R.left random.new) }
    ensures grows { F.faults folder.old ≤ F.faults folder.new }
    ensures counted { R.faults random.old ≤ R.faults random.new }
{
    roots_show_their_own();
    let cost = ScryptCost::new(1_024, 8, 1).unwrap();
    match kind {
        VaultKind::Gocryptfs => init_go(alloc, folder, work, at, PASSPHRASE, &cost, random),
        VaultKind::Cryptomator => init_cm(alloc, folder, work, at, PASSPHRASE, &cost, random),
    }
}

// The vault at a path.
fn load<F: Folder>(alloc: Global, folder: &mut F, name: &str) -> Result<Vault, MakeFault>
    requires { IsTrue (is_path_text name.now) }
    ensures told { F.told folder.new ≡ F.told folder.old }
    ensures root { IfOk result (λ vault. vault.root ≡ parts_of name.now) }
    ensures holds { IfOk result (λ vault. (seed : ℕ) (a : Told) → F.told folder.new ≡ Some a → StandsNew VaultKind.Gocryptfs (parts_of name.now) a.state → HoldsAlone vault seed 0 a.state) }
    ensures kind { IfOk result (λ vault. (a : Told) → F.told folder.new ≡ Some a → StandsNew VaultKind.Gocryptfs (parts_of name.now) a.state → kind_of vault.vault ≡ VaultKind.Gocryptfs) }
    ensures fault { IfErr result (λ fault. IsNotPut fault) }
    ensures chance { IfErr result (λ fault. (a : Told) → F.told folder.new ≡ Some a → StandsNew VaultKind.Gocryptfs (parts_of name.now) a.state → IsOfChance fault) }
    ensures failed { IfErr result (λ fault. IsFailed fault → CountRose (F.faults folder.old) (F.faults folder.new)) }
    ensures grows { F.faults folder.old ≤ F.faults folder.new }
{
    roots_have_one_answer();
    roots_show_their_own();
    let at = place(alloc, name)?;
    Ok(Vault::load(alloc, folder, &at, PASSPHRASE)?)
}

// Makes the items one after the other.
fn place_items<F: Folder, R: Randoms>(
    alloc: Global,
    folder: &mut F,
    work: &Work,
    vault: &Vault,
    seed: u64,
    count: u32,
    random: &mut R,
) -> Result<(), PutFault>
    requires may { MayMake (F.told folder.old) work.now vault.now.root }
    requires count { count ≤ 2000 }
    ensures ready { OnOk result (IfSeen (F.told folder.new) (λ v. IsReady v work.now)) }
    ensures adds { OnOk result (FromTo (λ a b. HoldsAlone vault.now seed 0 a.state → HoldsAlone vault.now seed count b.state) (F.told folder.old) (F.told folder.new)) }
    ensures beside { IsBeside (is_apart work.now vault.now.root) (F.told folder.old) (F.told folder.new) }
    ensures failed { result ≡ Err PutFault.Failed → CountRose (F.faults folder.old) (F.faults folder.new) }
    ensures own { IfErr result (λ fault. IsItemFault fault) }
    ensures chance { IfErr result (λ fault. (a : Told) → F.told folder.old ≡ Some a → kind_of vault.now.vault ≡ VaultKind.Gocryptfs → HoldsAlone vault.now seed 0 a.state → IsOfItem fault) }
    ensures shared { IfErr result (λ fault. IsPutTaken fault → (a : Told) → F.told folder.old ≡ Some a → HoldsAlone vault.now seed 0 a.state → SharesPlace vault.now.root (F.told folder.old) (F.told folder.new) (R.left random.old) (R.left random.new) count) }
    ensures random { result ≡ Err PutFault.Random → CountRose (R.faults random.old) (R.faults random.new) }
    ensures drew { Drew ((F.told folder.old ≢ None) × (result ≡ Err PutFault.ZeroRandom)) (R.left random.old) (R.left random.new) }
    ensures grows { F.faults folder.old ≤ F.faults folder.new }
    ensures counted { R.faults random.old ≤ R.faults random.new }
{
    draws_compose();
    for number in 0..count {
        place_item(alloc, folder, work, vault, seed, number, random)?;
    }
    Ok(())
}

fn place_item<F: Folder, R: Randoms>(
    alloc: Global,
    folder: &mut F,
    work: &Work,
    vault: &Vault,
    seed: u64,
    number: u32,
    random: &mut R,
) -> Result<(), PutFault>
    requires may { MayMake (F.told folder.old) work.now vault.now.root }
    requires number { number < 10000 }
    ensures ready { OnOk result (IfSeen (F.told folder.new) (λ v. IsReady v work.now)) }
    ensures adds { OnOk result (FromTo (λ a b. HoldsAlone vault.now seed number a.state → HoldsAlone vault.now seed (number + 1) b.state) (F.told folder.old) (F.told folder.new)) }
    ensures beside { IsBeside (is_apart work.now vault.now.root) (F.told folder.old) (F.told folder.new) }
    ensures failed { result ≡ Err PutFault.Failed → CountRose (F.faults folder.old) (F.faults folder.new) }
    ensures own { IfErr result (λ fault. IsItemFault fault) }
    ensures chance { IfErr result (λ fault. (a : Told) → F.told folder.old ≡ Some a → kind_of vault.now.vault ≡ VaultKind.Gocryptfs → HoldsAlone vault.now seed number a.state → IsOfItem fault) }
    ensures shared { IfErr result (λ fault. IsPutTaken fault → (a : Told) → F.told folder.old ≡ Some a → HoldsAlone vault.now seed number a.state → SharesPlace vault.now.root (F.told folder.old) (F.told folder.new) (R.left random.old) (R.left random.new) (number + 1)) }
    ensures random { result ≡ Err PutFault.Random → CountRose (R.faults random.old) (R.faults random.new) }
    ensures drew { Drew ((F.told folder.old ≢ None) × (result ≡ Err PutFault.ZeroRandom)) (R.left random.old) (R.left random.new) }
    ensures grows { F.faults folder.old ≤ F.faults folder.new }
    ensures counted { R.faults random.old ≤ R.faults random.new }
{
    draws_compose();
    what_is_found_stands();
    what_stands_is_found_step_by_step();
    files_have_their_contents();
    items_keep_vaults();
    let path = path_of(alloc, number)?;
    if is_directory(number) {
        return place_dir(alloc, folder, work, vault, &path, random);
    }
    let mut content = MadeBytes::of(seed, number);
    place_file(alloc, folder, work, vault, &path, &mut content, random)
}
