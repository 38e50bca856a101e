//! Laws of the definitions. Each function computes nothing, and its clauses are the laws.
ghost use Rattle.std.specs.Prelude.{◌≡◌, ◌≢◌, ◌↔◌, ◌<◌, ◌+◌, ◌++◌, ◌∷◌, [], ℕ, suc, List, false, length, Some, Contains, Result, Ok};
ghost use Rattle.chunk_files.specs.Keys as contents;
ghost use Rattle.cryptomator_conf.specs.declared.conf.CmDraw.{CmDraw};
ghost use Rattle.cryptomator_conf.specs.Text.{keys_of};
ghost use Rattle.folder_spec.specs.Path as folder;
ghost use Rattle.folder_spec.specs.Seen.{under};
ghost use Rattle.folder_spec.specs.View.{View, Folder, NoEntry};
ghost use Rattle.gocrypt_conf.specs.declared.conf.GoDraw.{GoDraw};
ghost use Rattle.vault_values.specs.declared.keys.CmKeys.{CmKeys};
ghost use Rattle.vault_values.specs.declared.keys.GoKeys.{GoKeys};
ghost use Rattle.kdf_suite.specs.ScryptCost.{Cost};
ghost use Rattle.plain_tree.specs.Names.{Path};
ghost use Rattle.vault_spec.specs.Adding.{NewItemsComeAlone, NewItemsStayClean, ContentsAreReplacedAlone, ReplacedContentsStayClean};
ghost use Rattle.vault_spec.specs.Anywhere.{NewItemsComeAtLast, ContentsOpenAnew};
ghost use Rattle.vault_spec.specs.Alike.{LooksAlike, GainsItem, HasFolders, IsOrderly, HaveOwnPlaces, place_of};
ghost use Rattle.vault_spec.specs.Cryptomator.{CmVault, cm_format};
ghost use Rattle.vault_spec.specs.Depth.{IsWithinSteps};
ghost use Rattle.vault_spec.specs.Empty.{IsEmptyVault};
ghost use Rattle.vault_spec.specs.Find.{find, enter};
ghost use Rattle.vault_spec.specs.Findings.{IsClean, Belongs, IsEntryOf};
ghost use Rattle.vault_spec.specs.Format.{Format, Directory};
ghost use Rattle.vault_spec.specs.Gocryptfs.{go_format, directory_key};
ghost use Rattle.vault_spec.specs.Listing.{Listed, AreListed, node_of};
ghost use Rattle.plain_tree.specs.declared.name_map.NameMap.{NameMap};
ghost use Rattle.vault_spec.specs.Mapped.{HasNoBroken, IsHeldIn, IsMapped, IsPartOfMapped, IsWhole, StaysApart};
ghost use Rattle.vault_spec.specs.Moving.{StraysGoAlone};
ghost use Rattle.vault_spec.specs.NewVault.{new_go_vault, new_cm_vault};
ghost use Rattle.vault_spec.specs.Opens.{NoItem, Tree, opened, opened_at, tree, AreItems};
ghost use Rattle.vault_spec.specs.Plan.{Planned, IsPlan, paths_of, StandsBelow, IsReachedFrom};
ghost use Rattle.vault_spec.specs.Reached.{Leads, IsReached, IsReachedIn, HaveOwnFolders};
ghost use Rattle.vault_spec.specs.Standing.{Standing, File, Dir, standing, standing_in};
ghost use Rattle.vault_spec.specs.Staying.{NewItemsStayVaults, ReplacedContentsStayVaults};
ghost use Rattle.vault_spec.specs.StoredNames.{GoTexts, CmTexts};
ghost use Rattle.vault_spec.specs.Tidy.{IsTidy, OwnPlacesAreFree, NewItemsStayTidy, ReplacedContentsStayTidy};
ghost use Rattle.vault_spec.specs.Vault.{Vault, format_of};
ghost use Rattle.vault_spec.specs.declared.Lack.{Lack};

use plain_tree::laws::same_names_stay;
use vault_names::laws::{
    cm_folders_are_plain, cm_long_names_are_plain, cm_text_has_one_name, cm_texts_are_plain,
    long_names_are_plain, text_has_one_name, texts_are_plain,
};

// The laws of stored names that those of gocryptfs's vaults rest on.
fn go_stored_names()
    ensures { GoTexts }
{
    text_has_one_name();
    texts_are_plain();
    long_names_are_plain();
}

// The same of Cryptomator's.
fn cm_stored_names()
    ensures { (keys : CmKeys) → CmTexts keys }
{
    cm_text_has_one_name();
    cm_texts_are_plain();
    cm_long_names_are_plain();
    cm_folders_are_plain();
}

/// Where the same stands in each directory that is reached, all opens alike. Where one item more stands in one of them, that opens,
/// and all else opens as before.
pub fn what_opens_follows_from_what_stands()
    ensures alike { (f : Format) (v w : View) → LooksAlike f v w → (path : Path) → opened f v path ≡ opened f w path }
    ensures others { (f : Format) (v w : View) (front : Path) (name : List ℕ) → GainsItem f v w front name
        → (path : Path) → path ≢ front ++ name ∷ [] → opened f v path ≡ opened f w path }
    ensures there { (f : Format) (v w : View) (front : Path) (name : List ℕ) → (g : GainsItem f v w front name)
        → opened f w (front ++ name ∷ []) ≡ opened_at f w (standing_in f w g.dir name) }
{}

/// What opens, and where, follows from what stands at a vault's root and below it.
pub fn only_the_root_matters()
    ensures tree { (f : Format) (root : folder.Path) (v w : View) → ((rest : folder.Path) → v (root ++ rest) ≡ w (root ++ rest)) → tree f (under root v) ≡ tree f (under root w) }
    ensures places { (f : Format) (root : folder.Path) (v w : View) → ((rest : folder.Path) → v (root ++ rest) ≡ w (root ++ rest))
        → (path : Path) → standing f (under root v) path ≡ standing f (under root w) path }
{}

/// A clean gocryptfs vault is orderly: each directory in it has its key, and one path leads to it. In an orderly vault no two
/// plain paths have their files or directories at one place.
pub fn clean_vaults_of_gocryptfs_are_orderly()
    ensures orderly { (keys : GoKeys) (v : View) → v [] ≡ Folder → HasFolders v → IsClean (go_format keys) v → IsOrderly (go_format keys) v }
    ensures places { (keys : GoKeys) (v : View) → IsOrderly (go_format keys) v → HaveOwnPlaces (go_format keys) v }
{
    go_stored_names();
}

/// A clean Cryptomator vault is orderly, where no two ids have one content folder. In an orderly vault no two plain paths have their
/// files or directories at one place.
pub fn clean_vaults_of_cryptomator_are_orderly()
    ensures orderly { (vault : CmVault) (v : View) → (f : Format) → f ≡ cm_format vault
        → v [] ≡ Folder → HasFolders v → HaveOwnFolders f v → IsClean f v → IsOrderly f v }
    ensures places { (vault : CmVault) (v : View) → (f : Format) → f ≡ cm_format vault
        → IsOrderly f v → HaveOwnPlaces f v }
{
    cm_stored_names();
}

/// The edits that make an item of gocryptfs where no place is taken leave what opens, until the last adds just that item. A content
/// that is replaced changes alone.
pub fn new_items_of_gocryptfs_come_alone()
    ensures new { (keys : GoKeys) → NewItemsComeAlone (go_format keys) }
    ensures replaced { (keys : GoKeys) → ContentsAreReplacedAlone (go_format keys) }
{
    go_stored_names();
}

/// The edits that make an item of Cryptomator where no place is taken leave what opens, until the last adds just that item. A content
/// that is replaced changes alone.
pub fn new_items_of_cryptomator_come_alone()
    ensures replaced { (vault : CmVault) → ContentsAreReplacedAlone (cm_format vault) }
    ensures new { (vault : CmVault) → NewItemsComeAlone (cm_format vault) }
{
    cm_stored_names();
}

/// While an item of gocryptfs is made where no place is taken, a clean vault stays clean at each edit, and so it does where a content
/// is replaced.
pub fn new_items_of_gocryptfs_keep_vaults_clean()
    ensures new { (keys : GoKeys) → NewItemsStayClean (go_format keys) }
    ensures replaced { (keys : GoKeys) → ReplacedContentsStayClean (go_format keys) }
{
    go_stored_names();
}

/// While an item of Cryptomator is made where no place is taken, a clean vault stays clean at each edit, and so it does where a content
/// is replaced.
pub fn new_items_of_cryptomator_keep_vaults_clean()
    ensures replaced { (vault : CmVault) → ReplacedContentsStayClean (cm_format vault) }
    ensures new { (vault : CmVault) → NewItemsStayClean (cm_format vault) }
{
    cm_stored_names();
}

/// While an item of gocryptfs is made where no place is taken, an orderly vault stays orderly at each edit, and each passphrase opens it
/// as it did. So it is where a content is replaced.
pub fn new_items_of_gocryptfs_keep_the_vault()
    ensures new { (keys : GoKeys) → NewItemsStayVaults (go_format keys) }
    ensures replaced { (keys : GoKeys) → ReplacedContentsStayVaults (go_format keys) }
{
    go_stored_names();
}

/// While an item of Cryptomator is made where no place is taken, an orderly vault stays orderly at each edit, and each passphrase opens
/// it as it did. So it is where a content is replaced.
pub fn new_items_of_cryptomator_keep_the_vault()
    ensures replaced { (vault : CmVault) → ReplacedContentsStayVaults (cm_format vault) }
    ensures new { (vault : CmVault) → NewItemsStayVaults (cm_format vault) }
{
    cm_stored_names();
}

/// In any gocryptfs vault, orderly or not, the edits that make an item where no place is taken leave what opens, until the item opens at
/// its path after the last. A content that is replaced opens at each of its paths, and all else as before. After either each directory
/// that was entered at a path is entered there as before.
pub fn new_items_of_gocryptfs_open_in_any_vault()
    ensures new { (keys : GoKeys) → NewItemsComeAtLast (go_format keys) }
    ensures replaced { (keys : GoKeys) → ContentsOpenAnew (go_format keys) }
{
    go_stored_names();
}

/// In any Cryptomator vault, orderly or not, the edits that make an item where no place is taken leave what opens, until the item opens at
/// its path after the last. A content that is replaced opens at each of its paths, and all else as before. After either each directory
/// that was entered at a path is entered there as before.
pub fn new_items_of_cryptomator_open_in_any_vault()
    ensures replaced { (vault : CmVault) → ContentsOpenAnew (cm_format vault) }
    ensures new { (vault : CmVault) → NewItemsComeAtLast (cm_format vault) }
{
    cm_stored_names();
}

/// The contents of a Cryptomator vault refuse no zeros, whichever its ciphers are.
pub fn contents_of_cryptomator_refuse_no_zeros()
    ensures { (vault : CmVault) → (contents.format_of (cm_format vault).content).refuses_zeros ≡ false }
{}

/// A new gocryptfs vault is clean, its root is entered, and nothing opens below that.
pub fn new_vaults_of_gocryptfs_are_empty()
    ensures { (keys : GoKeys) (pass : List ℕ) (cost : Cost) (drawn : GoDraw) (key : List ℕ) → directory_key key ≡ Some key
        → IsEmptyVault (go_format keys) (new_go_vault pass cost drawn key) }
{
    go_stored_names();
}

/// A new Cryptomator vault is clean under its drawn keys, its root is entered, and nothing opens below that.
pub fn new_vaults_of_cryptomator_are_empty()
    ensures { (vault : CmVault) (pass : List ℕ) (cost : Cost) (drawn : CmDraw) → vault.keys ≡ keys_of drawn
        → IsEmptyVault (cm_format vault) (new_cm_vault pass cost vault.combo drawn) }
{
    cm_stored_names();
}

/// A new gocryptfs vault is tidy. Where no place is taken, a tidy one is tidy again once an item is made, and so it is where a content is
/// replaced.
pub fn vaults_of_gocryptfs_stay_tidy()
    ensures made { (keys : GoKeys) (pass : List ℕ) (cost : Cost) (drawn : GoDraw) (key : List ℕ) → directory_key key ≡ Some key
        → IsTidy (go_format keys) (new_go_vault pass cost drawn key) }
    ensures new { (keys : GoKeys) → NewItemsStayTidy (go_format keys) }
    ensures replaced { (keys : GoKeys) → ReplacedContentsStayTidy (go_format keys) }
{
    go_stored_names();
}

/// A new Cryptomator vault is tidy under its drawn keys. Where no place is taken, a tidy one is tidy again once an item is made, and so it
/// is where a content is replaced.
pub fn vaults_of_cryptomator_stay_tidy()
    ensures made { (vault : CmVault) (pass : List ℕ) (cost : Cost) (drawn : CmDraw) → vault.keys ≡ keys_of drawn
        → IsTidy (cm_format vault) (new_cm_vault pass cost vault.combo drawn) }
    ensures replaced { (vault : CmVault) → ReplacedContentsStayTidy (cm_format vault) }
    ensures new { (vault : CmVault) → NewItemsStayTidy (cm_format vault) }
{
    cm_stored_names();
}

/// In a clean and tidy gocryptfs vault no place of a new item is taken, unless another item shares it.
pub fn places_of_gocryptfs_are_free_unless_shared()
    ensures { (keys : GoKeys) → OwnPlacesAreFree (go_format keys) }
{
    go_stored_names();
}

/// In a clean and tidy Cryptomator vault no place of a new item is taken, unless another item shares it.
pub fn places_of_cryptomator_are_free_unless_shared()
    ensures { (vault : CmVault) → OwnPlacesAreFree (cm_format vault) }
{
    cm_stored_names();
}

/// What is found at a path stands there, and an item that stands there is found. A path is entered exactly where it leads to a
/// directory, whose folder stands then.
pub fn what_is_found_stands()
    ensures stands { (f : Format) (v : View) (path : Path) (here : Standing) → find f v path ≡ Ok here → standing f v path ≡ here }
    ensures file { (f : Format) (v : View) (path : Path) (at : folder.Path) → standing f v path ≡ File at → find f v path ≡ Ok (File at) }
    ensures directory { (f : Format) (v : View) (path : Path) (at : folder.Path) (directory : Result Directory Lack)
        → standing f v path ≡ Dir at directory → find f v path ≡ Ok (Dir at directory) }
    ensures enters { (f : Format) (v : View) (path : Path) (dir : Directory) → (enter f v path ≡ Ok dir) ↔ Leads f v path dir }
    ensures folder { (f : Format) (v : View) (path : Path) (dir : Directory) → Leads f v path dir → v dir.folder ≡ Folder }
{}

/// In a clean vault each entry in the folder of a reached directory is accounted for: it belongs there as a file of its name, or it isn't so
/// that no name is stored there.
pub fn entries_of_clean_vaults_are_accounted_for()
    ensures { (vault : Vault) (v : View) (dir : Directory) (entry : folder.Part) → IsClean (format_of vault) v → IsReached (format_of vault) v dir
        → v (folder.child dir.folder entry) ≢ NoEntry → ¬ Belongs (format_of vault) v dir entry → ¬ ((name : List ℕ) → ¬ IsEntryOf (format_of vault) v dir entry name) }
{}

/// In a clean and orderly vault with no item in a directory that is reached in so many steps, nothing stands more than five parts deeper
/// than that.
pub fn clean_vaults_are_shallow()
    ensures { (vault : Vault) (v : View) (steps : ℕ) → IsOrderly (format_of vault) v → IsClean (format_of vault) v → IsWithinSteps (format_of vault) v steps
        → (at : folder.Path) → steps + 5 < length at → v at ≡ NoEntry }
{}

/// A directory has one list of its items.
pub fn directories_have_one_list()
    ensures { (f : Format) (v : View) (dir : Directory) (items other : List Listed) → AreListed f v dir items → AreListed f v dir other → items ≡ other }
{}

/// In a gocryptfs vault, clean or not, strays are there, none below another, and where some of them are gone with all below them, all
/// opens as it did and nothing is found that wasn't, but for notes. No two directories have one folder.
pub fn strays_of_gocryptfs_go_alone()
    ensures strays { (keys : GoKeys) → StraysGoAlone (go_format keys) }
    ensures own { (keys : GoKeys) (v : View) → HaveOwnFolders (go_format keys) v }
{
    go_stored_names();
}

/// In a Cryptomator vault, clean or not, strays are there, none below another, and where some of them are gone with all below them, all
/// opens as it did and nothing is found that wasn't, but for notes.
pub fn strays_of_cryptomator_go_alone()
    ensures { (vault : CmVault) → StraysGoAlone (cm_format vault) }
{
    cm_stored_names();
}

/// The paths of a vault's plan are the items of its tree.
pub fn plans_are_the_tree()
    ensures { (vault : Vault) (v : View) (plan : List Planned) → IsPlan (format_of vault) v plan → AreItems (tree (format_of vault) v) (paths_of plan) }
{}

/// What stands in a directory stands behind the path to it, and its items with it. What has a place and isn't the root stands in a
/// directory. A directory that is reached in one step more than another stands in one.
pub fn what_stands_is_found_step_by_step()
    ensures behind { (f : Format) (v : View) (front : Path) (dir : Directory) (name : List ℕ) → Leads f v front dir → standing f v (front ++ name ∷ []) ≡ standing_in f v dir name }
    ensures listed { (f : Format) (v : View) (front : Path) (dir : Directory) (items : List Listed) → Leads f v front dir → AreListed f v dir items
        → (item : Listed) → Contains items item ↔ (node_of (standing f v (front ++ item.name ∷ [])) ≡ Some item.node) }
    ensures below { (f : Format) (v : View) (path : Path) (at : folder.Path) → path ≢ [] → place_of (standing f v path) ≡ Some at → StandsBelow f v path }
    ensures step { (f : Format) (v : View) (steps : ℕ) (dir : Directory) → IsReachedIn f v (suc steps) dir → IsReachedFrom f v steps dir }
{}

/// By the rule that names stay, the mapped tree of a tree is that tree, and each item of it is at its own path.
pub fn trees_stay_by_same()
    ensures apart { (m : Tree) → StaysApart NameMap.Same m }
    ensures mapped { (m t : Tree) → IsMapped NameMap.Same m t ↔ ((path : Path) → t path ≡ m path) }
    ensures part { (m t : Tree) → IsPartOfMapped NameMap.Same t m ↔ ((path : Path) → path ≢ [] → t path ≢ NoItem → (t path ≡ m path) × IsWhole (t path)) }
    ensures held { (m t : Tree) → IsHeldIn NameMap.Same m t ↔ ((path : Path) → path ≢ [] → m path ≢ NoItem → (t path ≡ m path) × IsWhole (m path)) }
{
    same_names_stay();
}

/// A tree has one mapped tree. A tree without broken files is held in its mapped tree, which is part of it; and a tree that is part of one
/// that it holds, and has its root, is the mapped tree.
pub fn mapped_trees_are_held()
    ensures one { (names : NameMap) (m t u : Tree) → IsMapped names m t → IsMapped names m u → (path : Path) → t path ≡ u path }
    ensures held { (names : NameMap) (m t : Tree) → IsMapped names m t → HasNoBroken m → IsHeldIn names m t }
    ensures part { (names : NameMap) (m t : Tree) → IsMapped names m t → HasNoBroken m → IsPartOfMapped names t m }
    ensures both { (names : NameMap) (m t : Tree) → t [] ≡ m [] → IsHeldIn names m t → IsPartOfMapped names t m → IsMapped names m t }
{}
