//! Laws of the definitions. Each function computes nothing, and its clause is the law; the laws that it rests on are called.
ghost use Rattle.std.specs.Prelude.{◌≡◌};
ghost use Rattle.folder_spec.specs.Path.{Path};
ghost use Rattle.folder_spec.specs.Seen.{ShowsFile};
ghost use Rattle.folder_spec.specs.View.{View};
ghost use Rattle.plain_tree.specs.Names as plain;
ghost use Rattle.vault_read.specs.Laws.{HaveOneAnswer, KeepsVaults};
ghost use Rattle.vault_read.specs.OwnFolders.{HasOwnFolders};
ghost use Rattle.vault_spec.specs.Alike.{HasFolders, IsOrderly};
ghost use Rattle.vault_spec.specs.Findings.{IsClean};
ghost use Rattle.vault_spec.specs.Moving.{StraysGoAlone};
ghost use Rattle.vault_spec.specs.Standing.{File, standing};
ghost use Rattle.vault_spec.specs.Vault as spec;
ghost use Rattle.vault_spec.specs.Vault.{format_of};

use cryptomator_conf::laws as cryptomator;
use gocrypt_conf::laws as gocryptfs;
use vault_spec::laws as items;
use vault_spec::laws::{
    clean_vaults_of_cryptomator_are_orderly, clean_vaults_of_gocryptfs_are_orderly,
    strays_of_cryptomator_go_alone, strays_of_gocryptfs_go_alone,
};

/// No root and passphrase have two answers: neither two vaults, nor a vault and a refusal, nor two refusals.
pub fn roots_have_one_answer()
    ensures { HaveOneAnswer }
{
    gocryptfs::bytes_have_one_answer();
    gocryptfs::passphrases_unlock_one_pair();
    cryptomator::bytes_have_one_answer();
    cryptomator::passphrases_unlock_one_pair();
}

/// A clean vault is orderly: its root and each directory in it have their keys and their folders, and one path leads to each. In a
/// Cryptomator vault no two ids are to have one content folder.
pub fn clean_vaults_are_orderly()
    ensures { (vault : spec.Vault) (v : View) → HasFolders v → HasOwnFolders vault v → IsClean (format_of vault) v → IsOrderly (format_of vault) v }
{
    clean_vaults_of_gocryptfs_are_orderly();
    clean_vaults_of_cryptomator_are_orderly();
}

/// While an item is made in a vault, or a content replaced, the laws of its format hold.
pub fn items_keep_vaults()
    ensures { (vault : spec.Vault) → KeepsVaults (format_of vault) }
{
    items::new_items_of_gocryptfs_come_alone();
    items::new_items_of_gocryptfs_keep_vaults_clean();
    items::vaults_of_gocryptfs_stay_tidy();
    items::places_of_gocryptfs_are_free_unless_shared();
    items::new_items_of_gocryptfs_keep_the_vault();
    items::new_items_of_gocryptfs_open_in_any_vault();
    items::new_items_of_cryptomator_come_alone();
    items::new_items_of_cryptomator_keep_vaults_clean();
    items::vaults_of_cryptomator_stay_tidy();
    items::places_of_cryptomator_are_free_unless_shared();
    items::new_items_of_cryptomator_keep_the_vault();
    items::new_items_of_cryptomator_open_in_any_vault();
}

/// The content of a file that stands in a vault is there.
pub fn files_have_their_contents()
    ensures { (vault : spec.Vault) (v : View) (path : plain.Path) (at : Path) → standing (format_of vault) v path ≡ File at → ShowsFile v at }
{}

/// In an opened vault, clean or not, strays are there, none below another, and where some of them are gone with all below them, all opens
/// as it did and nothing is found that wasn't, but for notes.
pub fn strays_go_alone()
    ensures { (vault : spec.Vault) → StraysGoAlone (format_of vault) }
{
    strays_of_gocryptfs_go_alone();
    strays_of_cryptomator_go_alone();
}
