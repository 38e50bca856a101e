//! Changing a passphrase.
ghost use Rattle.std.specs.Prelude.{◌≡◌, Err};
ghost use Rattle.port_model.specs.Counts.{Blames};
ghost use Rattle.folder_spec.specs.Seen.{IfSeen, ShowsFilePlace, under};
ghost use Rattle.folder_staging.specs.Places.{ArePlacesApart};
ghost use Rattle.work_folder.specs.Setting.{staged_file};
ghost use Rattle.passwd_core.specs.Rekeying.{ChangesPass};
ghost use Rattle.passwd_core.specs.Steps.{OpensAs};

use crate::fault::PassFault;
use crate::reading::{key_files_have_one_answer, key_name, kind_at, read_keys};
use crate::rewriting::rewritten;
use folder_model::{FPath, Folder};
use folder_spec::laws::{images_show_views, roots_show_their_own};
use port_model::Randoms;
use port_model::laws::draws_compose;
use std::alloc::Global;
use vault_read::VaultKind;
use vault_read::laws::roots_have_one_answer;
use work_folder::{Work, set_file};

/// Changes the passphrase of the vault at a root, of either format. Its keys stay, and the file that holds them is replaced at once, at
/// the cost that it has: at every moment a crash leaves the vault with the old passphrase or with the new one.
///
/// The tests, in their order: the root and the old passphrase are a vault; the drawn nonce isn't zeros. It takes the memory of scrypt.
pub fn change_pass<F: Folder, R: Randoms>(
    alloc: Global,
    folder: &mut F,
    work: &Work,
    root: &FPath,
    pass: &[u8],
    new_pass: &[u8],
    random: &mut R,
) -> Result<(), PassFault>
    requires stage { IfSeen (F.told folder.old) (λ v. ShowsFilePlace v (staged_file work.now)) }
    requires apart { ArePlacesApart work.now root.now }
    ensures changes { ChangesPass work.now root.now pass.now new_pass.now (R.left random.old) (R.left random.new) (F.told folder.old) (F.told folder.new) result }
    ensures folder { Blames (result ≡ Err PassFault.Failed) (F.faults folder.old) (F.faults folder.new) }
    ensures random { Blames (result ≡ Err PassFault.Random) (R.faults random.old) (R.faults random.new) }
{
    images_show_views();
    roots_show_their_own();
    draws_compose();
    let kind = kind_at(alloc, folder, root, pass)?;
    change_file(alloc, folder, work, kind, root, pass, new_pass, random)
}

// Changes the passphrase of a vault of this kind that has been opened.
fn change_file<F: Folder, R: Randoms>(
    alloc: Global,
    folder: &mut F,
    work: &Work,
    kind: VaultKind,
    root: &FPath,
    pass: &[u8],
    new_pass: &[u8],
    random: &mut R,
) -> Result<(), PassFault>
    requires stage { IfSeen (F.told folder.old) (λ v. ShowsFilePlace v (staged_file work.now)) }
    requires apart { ArePlacesApart work.now root.now }
    requires opens { IfSeen (F.told folder.old) (λ v. OpensAs kind (under root.now v) pass.now) }
    ensures changes { ChangesPass work.now root.now pass.now new_pass.now (R.left random.old) (R.left random.new) (F.told folder.old) (F.told folder.new) result }
    ensures folder { Blames (result ≡ Err PassFault.Failed) (F.faults folder.old) (F.faults folder.new) }
    ensures random { Blames (result ≡ Err PassFault.Random) (R.faults random.old) (R.faults random.new) }
{
    images_show_views();
    roots_show_their_own();
    roots_have_one_answer();
    key_files_have_one_answer();
    draws_compose();
    let at = root.child(key_name(kind))?;
    let file = read_keys(alloc, folder, kind, &at)?;
    let text = rewritten(alloc, &file, pass, new_pass, random)?;
    Ok(set_file(folder, work, &at, text.as_slice())?)
}
