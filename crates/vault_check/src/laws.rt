//! Laws of the definitions. Each function gives nothing, and its clauses are the laws.
ghost use Rattle.std.specs.Prelude.{List};
ghost use Rattle.folder_spec.specs.Event.{Told};
ghost use Rattle.folder_spec.specs.Image.{Image, IsImage};
ghost use Rattle.folder_spec.specs.Path.{Path};
ghost use Rattle.folder_spec.specs.Seen.{seen, under};
ghost use Rattle.folder_spec.specs.State.{HasNothingPending, IsSound, State};
ghost use Rattle.folder_spec.specs.View.{view_of};
ghost use Rattle.vault_spec.specs.Adding.{OpensAs};
ghost use Rattle.vault_spec.specs.Moving.{IsStray};
ghost use Rattle.vault_spec.specs.Vault.{format_of};
ghost use Rattle.vault_read.specs.OwnFolders.{HasOwnFolders};
ghost use Rattle.vault_check.specs.Repairing.{AreMoved, IsRepairing};
ghost use Rattle.folder_spec.specs.Apart.{AreApart};

use vault_read::Vault;
use vault_read::laws::strays_go_alone;
use vault_spec::laws::strays_of_gocryptfs_go_alone;

/// Where nothing was pending as a repair began, each image of each of its states opens at each plain path what opened before.
pub fn repairs_keep_what_opens(vault: &Vault)
    ensures { (root lost : Path) (s0 s : State) (image : Image) → IsSound s0 → HasNothingPending s0 → AreApart root lost → HasOwnFolders vault.now.vault (under root (seen s0))
        → IsRepairing root (format_of vault.now.vault) lost s0 s → IsImage s image
        → OpensAs (format_of vault.now.vault) (under root (seen s0)) (under root (view_of image)) }
{
    strays_go_alone();
    strays_of_gocryptfs_go_alone();
}

/// A repaired vault opens at each plain path what opened before, and has no strays.
pub fn repaired_vaults_have_no_strays(vault: &Vault)
    ensures { (root lost : Path) (moved : List Path) (a b : Told) → IsSound a.state → AreApart root lost → HasOwnFolders vault.now.vault (under root (seen a.state))
        → AreMoved root (format_of vault.now.vault) lost moved a b
        → OpensAs (format_of vault.now.vault) (under root (seen a.state)) (under root (seen b.state)) × ((at : Path) → ¬ IsStray (format_of vault.now.vault) (under root (seen b.state)) at) }
{
    strays_go_alone();
    strays_of_gocryptfs_go_alone();
}
