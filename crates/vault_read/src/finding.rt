//! Looking for a plain path in a vault.
ghost use Rattle.std.specs.Prelude.{◌≡◌, ◌≢◌, List, ℕ, [], ◌∷◌, ◌++◌, IfOk, IfErr, Ok, Err};
ghost use Rattle.folder_spec.specs.Path.{Path};
ghost use Rattle.folder_spec.specs.Seen.{IfSeen, under};
ghost use Rattle.folder_model.specs.Answers.{OnlyLooks};
ghost use Rattle.vault_spec.specs.Format.{Directory};
ghost use Rattle.vault_spec.specs.Standing as stands;
ghost use Rattle.vault_spec.specs.Standing.{root_of, standing};
ghost use Rattle.vault_spec.specs.Find as spec;
ghost use Rattle.vault_spec.specs.Vault.{format_of};
ghost use Rattle.vault_read.specs.Opened.{FitsKey};
ghost use Rattle.vault_read.specs.Stands.{standing_of, EntersFit};
ghost use Rattle.vault_read.specs.Finding.{Refuses, IsPlace, IsDirPlace, reached_from};

use crate::standing::{Directory, Standing, root_standing, standing_in};
use crate::vault::Vault;
use folder_model::{FPath, Folder};
use plain_tree::{Name, NodeKind, PlainPath};
use std::alloc::{AllocError, Global};
use vault_faults::FindFault;
use vault_spec::Lack;
use vault_values::Bytes;

/// A file or directory of a vault, and its path in the folder: the vault's root for the root, the entry for another directory,
/// and for a file the file of its content.
#[derive(Drop)]
pub struct Place {
    pub at: FPath,
    pub node: NodeKind,
}

/// A directory of a vault: its path in the folder as a `Place` has it, the folder that holds its entries, and the key that
/// their names are stored under.
#[derive(Drop)]
pub struct DirPlace {
    pub at: FPath,
    pub folder: FPath,
    pub key: Bytes,
}

// A directory with its entry. Paths begin at the vault's root.
#[derive(Drop)]
pub(crate) struct Entered {
    pub(crate) at: FPath,
    pub(crate) dir: Directory,
}

/// The file or directory at a plain path. It goes down from the root, and answers for the first part of the path that doesn't
/// serve.
pub fn find<F: Folder>(
    alloc: Global,
    folder: &mut F,
    vault: &Vault,
    path: &PlainPath,
) -> Result<Place, FindFault>
    ensures looks { OnlyLooks (F.told folder.old) (F.told folder.new) (result ≡ Err FindFault.Failed) (F.faults folder.old) (F.faults folder.new) }
    ensures place { IfOk result (λ place. IfSeen (F.told folder.old) (λ v. IsPlace vault.now.root (standing (format_of vault.now.vault) (under vault.now.root v) path.now) place)) }
    ensures fault { IfErr result (λ fault. IfSeen (F.told folder.old) (λ v. Refuses vault.now.root (spec.find (format_of vault.now.vault) (under vault.now.root v) path.now) fault)) }
{
    let here = standing_found(alloc, folder, vault, path)?;
    place_of(vault.root(), path, &here)
}

/// The directory at a plain path, to be entered. It refuses as `find` does, and where a file is at the path, or a directory
/// that has no key or no folder.
pub fn enter<F: Folder>(
    alloc: Global,
    folder: &mut F,
    vault: &Vault,
    path: &PlainPath,
) -> Result<DirPlace, FindFault>
    ensures looks { OnlyLooks (F.told folder.old) (F.told folder.new) (result ≡ Err FindFault.Failed) (F.faults folder.old) (F.faults folder.new) }
    ensures place { IfOk result (λ place. IfSeen (F.told folder.old) (λ v. IsDirPlace vault.now.root (format_of vault.now.vault) (under vault.now.root v) path.now place)) }
    ensures key { IfOk result (λ place. FitsKey vault.now.vault place.key) }
    ensures fault { IfErr result (λ fault. IfSeen (F.told folder.old) (λ v. Refuses vault.now.root (spec.enter (format_of vault.now.vault) (under vault.now.root v) path.now) fault)) }
{
    let entered = enter_at(alloc, folder, vault, path)?;
    Ok(dir_place_of(vault.root(), entered)?)
}

// The directory at a plain path, to be entered. Its paths begin at the vault's root.
pub(crate) fn enter_at<F: Folder>(
    alloc: Global,
    folder: &mut F,
    vault: &Vault,
    path: &PlainPath,
) -> Result<Entered, FindFault>
    ensures looks { OnlyLooks (F.told folder.old) (F.told folder.new) (result ≡ Err FindFault.Failed) (F.faults folder.old) (F.faults folder.new) }
    ensures stands { IfOk result (λ entered. IfSeen (F.told folder.old) (λ v. standing (format_of vault.now.vault) (under vault.now.root v) path.now ≡ stands.Dir entered.at (Ok entered.dir))) }
    ensures key { IfOk result (λ entered. FitsKey vault.now.vault entered.dir.key) }
    ensures fault { IfErr result (λ fault. IfSeen (F.told folder.old) (λ v. Refuses vault.now.root (spec.enter (format_of vault.now.vault) (under vault.now.root v) path.now) fault)) }
{
    let here = standing_found(alloc, folder, vault, path)?;
    enter_here(vault, path, here)
}

// What stands at the path, where all before it is entered.
fn standing_found<F: Folder>(
    alloc: Global,
    folder: &mut F,
    vault: &Vault,
    path: &PlainPath,
) -> Result<Standing, FindFault>
    ensures looks { OnlyLooks (F.told folder.old) (F.told folder.new) (result ≡ Err FindFault.Failed) (F.faults folder.old) (F.faults folder.new) }
    ensures stands { IfOk result (λ here. IfSeen (F.told folder.old) (λ v. reached_from (format_of vault.now.vault) (under vault.now.root v) [] (root_of (format_of vault.now.vault) (under vault.now.root v)) path.now ≡ Ok (standing_of here))) }
    ensures fits { IfOk result (λ here. EntersFit vault.now.vault here) }
    ensures fault { IfErr result (λ fault. IfSeen (F.told folder.old) (λ v. Refuses vault.now.root (reached_from (format_of vault.now.vault) (under vault.now.root v) [] (root_of (format_of vault.now.vault) (under vault.now.root v)) path.now) fault)) }
{
    let mut here = root_standing(alloc, folder, vault)?;
    let mut front = PlainPath::root(alloc);
    for name in path.names() {
        let next = step(alloc, folder, vault, &front, here, name)?;
        here = next;
        front = front.child(name)?;
    }
    Ok(here)
}

// What stands under a name in what stands at the front of a path.
fn step<F: Folder>(
    alloc: Global,
    folder: &mut F,
    vault: &Vault,
    front: &PlainPath,
    here: Standing,
    name: &Name,
) -> Result<Standing, FindFault>
    requires { EntersFit vault.now.vault here }
    ensures looks { OnlyLooks (F.told folder.old) (F.told folder.new) (result ≡ Err FindFault.Failed) (F.faults folder.old) (F.faults folder.new) }
    ensures stands { IfOk result (λ next. IfSeen (F.told folder.old) (λ v. (rest : List (List ℕ)) → reached_from (format_of vault.now.vault) (under vault.now.root v) front.now (standing_of here) (name.now ∷ rest) ≡ reached_from (format_of vault.now.vault) (under vault.now.root v) (front.now ++ name.now ∷ []) (standing_of next) rest)) }
    ensures fits { IfOk result (λ next. EntersFit vault.now.vault next) }
    ensures fault { IfErr result (λ fault. IfSeen (F.told folder.old) (λ v. (rest : List (List ℕ)) → Refuses vault.now.root (reached_from (format_of vault.now.vault) (under vault.now.root v) front.now (standing_of here) (name.now ∷ rest)) fault)) }
{
    let entered = enter_here(vault, front, here)?;
    Ok(standing_in(alloc, folder, vault, &entered.dir, name)?)
}

// The directory that stands at the front of a path, or why it isn't entered.
fn enter_here(vault: &Vault, front: &PlainPath, here: Standing) -> Result<Entered, FindFault>
    requires { EntersFit vault.now.vault here }
    ensures stands { IfOk result (λ entered. standing_of here ≡ stands.Dir entered.at (Ok entered.dir)) }
    ensures key { IfOk result (λ entered. FitsKey vault.now.vault entered.dir.key) }
    ensures fault { IfErr result (λ fault. Refuses vault.now.root (spec.entered front.now (standing_of here)) fault) }
    ensures tried { result ≢ Err FindFault.Failed }
{
    match here {
        Standing::Absent => Err(FindFault::NotFound(front.copy()?)),
        Standing::Strange(_) => Err(FindFault::WrongKind(front.copy()?)),
        Standing::File(_) => Err(FindFault::WrongKind(front.copy()?)),
        Standing::Dir(at, directory) => match directory {
            Ok(dir) => Ok(Entered { at, dir }),
            Err(lack) => Err(locked(vault.root().joined(&at)?, lack)),
        },
    }
}

// That the directory with its entry there has no key or no folder.
fn locked(at: FPath, lack: Lack) -> FindFault
    ensures told { (root rest : Path) → at ≡ root ++ rest → Refuses {T = Directory} root (Err (spec.Locked rest lack)) result }
    ensures tried { result ≢ FindFault.Failed }
{
    match lack {
        Lack::NoDirKey => FindFault::NoDirKey(at),
        Lack::NoFolder => FindFault::NoFolder(at),
    }
}

// The place of what stands at a path.
fn place_of(root: &FPath, path: &PlainPath, here: &Standing) -> Result<Place, FindFault>
    ensures place { IfOk result (λ place. IsPlace root.now (standing_of here.now) place) }
    ensures fault { IfErr result (λ fault. Refuses root.now (spec.item_there path.now (standing_of here.now)) fault) }
    ensures tried { result ≢ Err FindFault.Failed }
{
    match here {
        Standing::Absent => Err(FindFault::NotFound(path.copy()?)),
        Standing::Strange(_) => Err(FindFault::WrongKind(path.copy()?)),
        Standing::File(at) => Ok(Place {
            at: root.joined(at)?,
            node: NodeKind::File,
        }),
        Standing::Dir(at, _) => Ok(Place {
            at: root.joined(at)?,
            node: NodeKind::Dir,
        }),
    }
}

// The place of a directory.
fn dir_place_of(root: &FPath, entered: Entered) -> Result<DirPlace, AllocError>
    ensures at { IfOk result (λ place. place.at ≡ root.now ++ entered.at) }
    ensures folder { IfOk result (λ place. place.folder ≡ root.now ++ entered.dir.folder) }
    ensures key { IfOk result (λ place. place.key ≡ entered.dir.key) }
{
    let Entered { at, dir } = entered;
    Ok(DirPlace {
        at: root.joined(&at)?,
        folder: root.joined(&dir.folder)?,
        key: dir.key,
    })
}
