//! Laws of the definitions. Each function does nothing, and its clauses are the laws.
ghost use Rattle.std.specs.Prelude.{◌≢◌, ℕ, IfErr, List, Result};
ghost use Rattle.folder_spec.specs.Path.{Path};
ghost use Rattle.folder_spec.specs.View.{Special, View};
ghost use Rattle.migration_spec.specs.Guard.{AreOpenedBy, Migration};
ghost use Rattle.vault_spec.specs.Alike.{HasFolders, IsOrderly};
ghost use Rattle.vault_spec.specs.Findings.{IsClean};
ghost use Rattle.vault_spec.specs.Vault.{Vault, format_of};
ghost use Rattle.retire_core.specs.Causes.{IsOfFolder, Retires};
ghost use Rattle.retire_core.specs.Completing.{CanRetire};
ghost use Rattle.retire_core.specs.declared.fault.RetireFault.{RetireFault};
ghost use Rattle.retire_core.specs.declared.retiring.Retired.{Retired};

use move_journal::laws::journals_are_read_back;
use tree_match::laws::{
    mapped_walks_tell_the_mapped_tree, walks_tell_the_tree, what_is_held_opens_the_same,
};
use vault_read::laws::roots_have_one_answer;
use vault_spec::laws::{
    clean_vaults_are_shallow, entries_of_clean_vaults_are_accounted_for, mapped_trees_are_held,
};

/// Below the root of a clean vault that is in good order are only files and directories.
pub fn clean_vaults_have_only_files_and_directories()
    ensures { (vault : Vault) (v : View) → IsClean (format_of vault) v → IsOrderly (format_of vault) v → (p : Path) → v p ≢ Special }
{
    entries_of_clean_vaults_are_accounted_for();
}

/// Where a guarded migration can be retired, and these passphrases open its vaults, no test of `retire` fails: its source is retired, unless
/// the folder fails or memory runs out.
pub fn what_can_be_retired_is_retired()
    ensures { (g : Migration) (from_pass to_pass : List ℕ) (v : View) (answer : Result Retired RetireFault) → HasFolders v → AreOpenedBy g from_pass to_pass v → CanRetire g v
        → Retires g.work from_pass to_pass v answer → IfErr answer IsOfFolder }
{
    clean_vaults_are_shallow();
    clean_vaults_have_only_files_and_directories();
    journals_are_read_back();
    mapped_trees_are_held();
    mapped_walks_tell_the_mapped_tree();
    roots_have_one_answer();
    walks_tell_the_tree();
    what_is_held_opens_the_same();
}
