//! Laws of the definitions. Each function does nothing, and its clauses are the law.
ghost use Rattle.std.specs.Prelude.{◌≡◌, ◌≢◌, ◌≤◌, ◌⊎◌, [], ℕ, List, ◌++◌, length, Contains, IsTrue};
ghost use Rattle.chunk_files.specs.Keys.{Keys};
ghost use Rattle.content_writing.specs.Writing.{DrewZeros};
ghost use Rattle.plain_tree.specs.Names.{Path, is_name};
ghost use Rattle.vault_spec.specs.Format.{Format};
ghost use Rattle.vault_spec.specs.Making.{Allows};
ghost use Rattle.vault_spec.specs.Opens.{AreItems, Content, Directory, NoItem, Tree, tree};
ghost use Rattle.vault_spec.specs.Vault.{Vault, format_of};
ghost use Rattle.vault_walk.specs.Surveyed.{IsWithin};
ghost use Rattle.folder_spec.specs.View.{View};
ghost use Rattle.demo_core.specs.Drawing.{HasZeroRun};
ghost use Rattle.demo_core.specs.Tree.{HasItems};

use vault_read::laws::files_have_their_contents;
use vault_spec::laws::what_stands_is_found_step_by_step;

/// Sixteen zeros among some bytes are among those and others, and zeros that a format refuses are sixteen in a row.
pub fn zeros_stay_in_a_row()
    ensures before { (xs ys : List ℕ) → HasZeroRun xs → HasZeroRun (xs ++ ys) }
    ensures behind { (xs ys : List ℕ) → HasZeroRun ys → HasZeroRun (xs ++ ys) }
    ensures refused { (keys : Keys) (drawn : List ℕ) → DrewZeros keys drawn → HasZeroRun drawn }
{}

/// A tree that has some items, and below its root nothing else, has as many.
pub fn trees_have_so_many_items()
    ensures { (seed count : ℕ) (t : Tree) (paths : List Path) → count ≤ 10000 → HasItems seed count t → AreItems t paths → length paths ≡ count }
{}

/// Each name in a tree of items is a name, and allowed in a vault of either format.
pub fn names_of_items_are_allowed()
    ensures named { (seed count : ℕ) (t : Tree) → HasItems seed count t → (path : Path) (name : List ℕ) → t path ≢ NoItem → Contains path name → IsTrue (is_name name) }
    ensures allowed { (f : Format) (seed count : ℕ) (t : Tree) → HasItems seed count t → (path : Path) (name : List ℕ) → t path ≢ NoItem → Contains path name → Allows f name }
{}

/// In a tree of items each is a directory, or a file of at most 70,000 bytes that opens whole.
pub fn items_are_directories_or_short_files()
    ensures { (seed count : ℕ) (t : Tree) → HasItems seed count t → (path : Path) → path ≢ [] → t path ≢ NoItem → (t path ≡ Directory) ⊎ ((content : List ℕ) × (t path ≡ Content content) × (length content ≤ 70000)) }
{}

/// A vault of either format with such a tree has no more items than a walk takes, and none too deep for it.
pub fn trees_of_items_pass_no_limit()
    ensures { (vault : Vault) (v : View) (seed count : ℕ) → count ≤ 2000 → HasItems seed count (tree (format_of vault) v) → IsWithin (format_of vault) v }
{
    what_stands_is_found_step_by_step();
    files_have_their_contents();
}
