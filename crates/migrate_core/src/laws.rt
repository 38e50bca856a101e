//! Laws of the definitions. Each function does nothing, and its clauses are the laws.
ghost use Rattle.std.specs.Prelude.{◌≡◌, ◌++◌, ℕ, IfErr, List, Result};
ghost use Rattle.chunk_files.specs.Reading.{Whole};
ghost use Rattle.folder_spec.specs.Path.{Path};
ghost use Rattle.folder_spec.specs.Seen.{under};
ghost use Rattle.folder_spec.specs.View.{View};
ghost use Rattle.plain_tree.specs.Names as plain;
ghost use Rattle.plain_tree.specs.declared.name_map.NameMap.{NameMap};
ghost use Rattle.tree_match.specs.Comparing.{content_at};
ghost use Rattle.migration_spec.specs.Guard.{AreOpenedBy, Migration, tree_at};
ghost use Rattle.migrate_core.specs.Causes.{Begins, Resumes};
ghost use Rattle.migrate_core.specs.Completing.{CanBegin, CanResume, IsOfChance};
ghost use Rattle.migrate_core.specs.Faults.{IsMoveFault};
ghost use Rattle.migrate_core.specs.Limits.{HasSmallContents, IsLonger, PassesLimit};
ghost use Rattle.migrate_core.specs.declared.fault.MoveFault.{MoveFault};
ghost use Rattle.migrate_core.specs.declared.placing.Done.{Done};
ghost use Rattle.vault_read.specs.OwnFolders.{HasOwnFolders};
ghost use Rattle.vault_spec.specs.Opened.{OpenedVault};
ghost use Rattle.vault_spec.specs.Alike.{HasFolders};
ghost use Rattle.vault_spec.specs.Standing.{File, standing};
ghost use Rattle.vault_spec.specs.Vault.{format_of};

use chunk_files::laws::files_are_not_much_longer;
use move_journal::laws::journals_are_read_back;
use tree_match::laws::{
    mapped_walks_tell_the_mapped_tree, walks_tell_the_tree, what_is_held_opens_the_same,
};
use vault_read::laws::{files_have_their_contents, roots_have_one_answer};

/// Where a migration can begin, no test of `begin` fails and no content stops it: it is done, unless chance has it otherwise.
pub fn what_can_begin_is_done()
    ensures { (g : Migration) (from_pass to_pass : List ℕ) (v : View) (answer : Result Done MoveFault) → AreOpenedBy g from_pass to_pass v → CanBegin g v → IfErr answer IsMoveFault
        → Begins g.names g.source.root g.target.root g.work from_pass to_pass v answer → IfErr answer IsOfChance }
{
    roots_have_one_answer();
    mapped_walks_tell_the_mapped_tree();
    walks_tell_the_tree();
}

/// Where a migration can go on, no test of `resume` fails and no content stops it: it is done, unless chance has it otherwise.
pub fn what_can_resume_is_done()
    ensures { (g : Migration) (from_pass to_pass : List ℕ) (v : View) (answer : Result Done MoveFault) → HasFolders v → AreOpenedBy g from_pass to_pass v → CanResume g v → IfErr answer IsMoveFault
        → Resumes g.work from_pass to_pass v answer → IfErr answer IsOfChance }
{
    journals_are_read_back();
    roots_have_one_answer();
    mapped_walks_tell_the_mapped_tree();
    walks_tell_the_tree();
    what_is_held_opens_the_same();
}

/// What comparing names past the limit has more than 2^40 bytes. Where all contents of a vault are small, each is read whole, and where those
/// of the source are, none passes it.
pub fn small_contents_pass_no_limit()
    ensures long { (rule : NameMap) (from to : OpenedVault) (v : View) (at : Path) → PassesLimit rule from to v at → IsLonger v at }
    ensures whole { (a : OpenedVault) (v : View) (path : plain.Path) (at : Path) → HasSmallContents (tree_at a v) → standing (format_of a.vault) (under a.root v) path ≡ File at → (content_at (format_of a.vault).content v (a.root ++ at)).ending ≡ Whole }
    ensures small { (rule : NameMap) (from to : OpenedVault) (v : View) (at : Path) → HasOwnFolders from.vault (under from.root v) → HasSmallContents (tree_at from v) → ¬ PassesLimit rule from to v at }
{
    files_are_not_much_longer();
    files_have_their_contents();
}
