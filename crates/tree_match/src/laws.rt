//! Laws of the definitions. Each function does nothing, and its clauses are the laws.
ghost use Rattle.std.specs.Prelude.{◌≡◌, ◌≢◌, [], Contains, List};
ghost use Rattle.chunk_files.specs.Reading.{Whole};
ghost use Rattle.folder_spec.specs.View.{View};
ghost use Rattle.vault_spec.specs.PlanOf.{IsPlanOf};
ghost use Rattle.vault_spec.specs.Mapped.{IsHeldIn, IsMappedItem, IsPartOfMapped, StaysApart};
ghost use Rattle.plain_tree.specs.Mapped.{mapped_path};
ghost use Rattle.plain_tree.specs.Names as plain;
ghost use Rattle.plain_tree.specs.declared.NodeKind.TheVariants.{Dir, File};
ghost use Rattle.plain_tree.specs.declared.name_map.NameMap.{NameMap};
ghost use Rattle.tree_match.specs.Comparing.{Is, content_at};
ghost use Rattle.tree_match.specs.Mapping.{AreFirstToMeet, IsMappedPlan};
ghost use Rattle.tree_match.specs.Matching.{IsMatchable};
ghost use Rattle.tree_match.specs.Trees.{HoldsAllBy, HoldsAllOrTooLong, IsMappedWalkOf, IsSameOrTooLong, IsWalkOf, PlannedVault, match_of, tree_of};
ghost use Rattle.tree_match.specs.declared.answer.Match.TheVariants.{Same};
ghost use Rattle.vault_spec.specs.Opens.{Content, Directory, NoItem};
ghost use Rattle.vault_spec.specs.Plan.{Planned};
ghost use Rattle.vault_spec.specs.Vault.{format_of};
ghost use Rattle.vault_walk.specs.Survey.{IsOrdered};

use chunk_files::laws::whole_files_end;
use plain_tree::laws::same_names_stay;
use vault_read::laws::files_have_their_contents;
use vault_spec::laws::plans_are_the_tree;

/// Plans that walks answer can be compared, also at mapped paths. Where the second vault has all items of the first at their mapped paths,
/// the tree of the first is held in the second's; and where that has no further ones, its tree is part of the first's mapped one. Vaults of
/// which this is so are the same, unless a content passes the limit.
pub fn what_is_held_opens_the_same()
    ensures matchable { (v : View) (a : PlannedVault) → IsWalkOf v a → IsMatchable v a.items }
    ensures mapped { (v : View) (names : NameMap) (a : PlannedVault) → IsMappedWalkOf names v a → IsMatchable v a.items }
    ensures held { (v : View) (names : NameMap) (a b : PlannedVault) → IsMappedWalkOf names v a → IsWalkOf v b → HoldsAllBy (match_of v a b) → IsHeldIn names (tree_of v a) (tree_of v b) }
    ensures same { (v : View) (names : NameMap) (a b : PlannedVault) → IsMappedWalkOf names v a → IsWalkOf v b → match_of v a b ≡ Is Same → IsPartOfMapped names (tree_of v b) (tree_of v a) }
    ensures part { (v : View) (names : NameMap) (a b : PlannedVault) → IsWalkOf v a → IsMappedWalkOf names v b → HoldsAllBy (match_of v a b) → IsPartOfMapped names (tree_of v a) (tree_of v b) }
    ensures alike { (v : View) (names : NameMap) (a b : PlannedVault) → IsMappedWalkOf names v a → IsWalkOf v b → IsHeldIn names (tree_of v a) (tree_of v b) → IsPartOfMapped names (tree_of v b) (tree_of v a)
        → IsSameOrTooLong (match_of v a b) }
    ensures holds { (v : View) (names : NameMap) (a b : PlannedVault) → IsMappedWalkOf names v a → IsWalkOf v b → IsHeldIn names (tree_of v a) (tree_of v b) → HoldsAllOrTooLong (match_of v a b) }
    ensures is_part { (v : View) (names : NameMap) (a b : PlannedVault) → IsWalkOf v a → IsMappedWalkOf names v b → IsPartOfMapped names (tree_of v a) (tree_of v b) → HoldsAllOrTooLong (match_of v a b) }
{
    files_have_their_contents();
    plans_are_the_tree();
    whole_files_end();
}

/// A walk tells the tree: it has each item with its kind; a directory opens, and so does a file whose content comes whole, with that.
pub fn walks_tell_the_tree()
    ensures plan { (v : View) (a : PlannedVault) → IsWalkOf v a → IsPlanOf (tree_of v a) a.items }
    ensures directory { (v : View) (a : PlannedVault) (item : Planned) → IsWalkOf v a → Contains a.items item → item.node ≡ Dir → tree_of v a item.path ≡ Directory }
    ensures file { (v : View) (a : PlannedVault) (item : Planned) → IsWalkOf v a → Contains a.items item → item.node ≡ File → (content_at (format_of a.vault).content v item.at).ending ≡ Whole
        → tree_of v a item.path ≡ Content (content_at (format_of a.vault).content v item.at).bytes }
{
    files_have_their_contents();
    plans_are_the_tree();
    whole_files_end();
}

/// A walk at mapped paths tells the mapped tree: it has each item at its mapped path; there a directory is one, and a file whose content
/// comes whole has that; and no two items come to one path. Items of a tree of which this is so don't meet.
pub fn mapped_walks_tell_the_mapped_tree()
    ensures apart { (v : View) (names : NameMap) (a : PlannedVault) → IsMappedWalkOf names v a → StaysApart names (tree_of v a) }
    ensures each { (v : View) (names : NameMap) (a : PlannedVault) (path : plain.Path) → IsMappedWalkOf names v a → path ≢ [] → tree_of v a path ≢ NoItem
        → (item : Planned) × Contains a.items item × (item.path ≡ mapped_path names path) }
    ensures directory { (v : View) (names : NameMap) (a : PlannedVault) (item : Planned) → IsMappedWalkOf names v a → Contains a.items item → item.node ≡ Dir → IsMappedItem names (tree_of v a) item.path Directory }
    ensures file { (v : View) (names : NameMap) (a : PlannedVault) (item : Planned) → IsMappedWalkOf names v a → Contains a.items item → item.node ≡ File → (content_at (format_of a.vault).content v item.at).ending ≡ Whole
        → IsMappedItem names (tree_of v a) item.path (Content (content_at (format_of a.vault).content v item.at).bytes) }
    ensures meet { (v : View) (names : NameMap) (a : PlannedVault) (one other : plain.Path) → IsWalkOf v a → StaysApart names (tree_of v a) → ¬ AreFirstToMeet names a.items one other }
{
    files_have_their_contents();
    plans_are_the_tree();
    whole_files_end();
}

/// A plan whose names came to another form can be compared where the plan can: it is in order, and its places are those of the plan.
pub fn mapped_plans_can_be_compared()
    ensures { (v : View) (names : NameMap) (items mapped : List Planned) → IsMatchable v items → IsMappedPlan names items mapped → IsMatchable v mapped }
{}

/// By the rule that names stay, the mapped plan of a plan in order is that plan.
pub fn plans_stay_by_same()
    ensures { (items mapped : List Planned) → IsOrdered items → IsMappedPlan NameMap.Same items mapped → mapped ≡ items }
{
    same_names_stay();
}
