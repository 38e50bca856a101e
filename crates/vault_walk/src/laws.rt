//! Laws of the definitions. Each function gives nothing, and its clauses are the laws.
ghost use Rattle.std.specs.Prelude.{◌≡◌, ◌<◌, ◌≤◌, ◌⊎◌, ◌↔◌, ◌++◌, ◌∷◌, [], ℕ, suc, List, length, Ok, Err, Contains};
ghost use Rattle.folder_spec.specs.Path.{Path};
ghost use Rattle.folder_spec.specs.View.{View};
ghost use Rattle.vault_spec.specs.Alike.{IsOrderly};
ghost use Rattle.vault_spec.specs.Findings.{IsFinding};
ghost use Rattle.vault_spec.specs.Format.{Format, Directory};
ghost use Rattle.vault_spec.specs.Plan.{Planned, IsPlan};
ghost use Rattle.vault_spec.specs.Reached.{IsReached, IsReachedIn, Leads};
ghost use Rattle.vault_spec.specs.Standing.{Dir, root_of, standing_in};
ghost use Rattle.vault_spec.specs.declared.Finding.{Finding};
ghost use Rattle.vault_spec.specs.declared.Lack.{Lack};
ghost use Rattle.vault_walk.specs.Here.{IsFoundIn, IsFindingApart};
ghost use Rattle.vault_walk.specs.Survey.{HasEachOnce, HasTooMany, IsOrdered, IsTooDeep, depth_limit, item_limit};
ghost use Rattle.vault_walk.specs.Walking.{Way, IsAmong, AreApart, AreGathered, AreItemsOf, HasGrown, HoldsItem, IsFoundAmong, IsLeast, IsWalked};

use vault_spec::laws::what_stands_is_found_step_by_step;

/// The findings of a vault are those of each directory that is reached, those of its root, of directories that are one, and of places
/// outside of the folders of entries.
pub fn findings_are_of_directories()
    ensures { (f : Format) (v : View) (finding : Finding) (at : Path) → IsFinding f v finding at ↔ (IsFoundIn f v finding at ⊎ IsFindingApart f v finding at) }
{}

/// In an orderly vault each item of the reached directories once, in order of their paths, is its plan.
pub fn each_item_once_is_the_plan()
    ensures { (f : Format) (v : View) (plan : List Planned) → IsOrderly f v → HasEachOnce f v plan → IsOrdered plan → IsPlan f v plan }
{
    what_stands_is_found_step_by_step();
}

/// A walk by levels begins at the root, goes on to the next level where all of one were visited, and ends where nobody waits: then each
/// directory that is reached was visited, once and by a shortest way.
pub fn walks_go_by_levels()
    ensures begins { (f : Format) (v : View) (top : Directory) → root_of f v ≡ Dir [] (Ok top) → IsWalked f v 0 [] (record { path = []; dir = top } ∷ []) }
    ensures never { (f : Format) (v : View) (lack : Lack) → root_of f v ≡ Dir [] (Err lack) → IsWalked f v 0 [] [] }
    ensures goes_on { (f : Format) (v : View) (steps : ℕ) (visits waiting next : List Way) → IsWalked f v steps visits waiting
        → HasGrown f v steps (visits ++ waiting) waiting next → IsWalked f v (suc steps) (visits ++ waiting) next }
    ensures ends { (f : Format) (v : View) (steps : ℕ) (visits : List Way) → IsWalked f v steps visits [] → (dir : Directory) → IsReached f v dir ↔ IsAmong visits dir }
    ensures least { (f : Format) (v : View) (steps : ℕ) (visits waiting : List Way) → IsWalked f v steps visits waiting
        → (way : Way) → Contains (visits ++ waiting) way → IsReachedIn f v (length way.path) way.dir }
{
    what_stands_is_found_step_by_step();
}

/// The next level is found one directory after the other: one that is new is gained, and one is visited where all that it leads to are
/// there.
pub fn levels_grow_one_by_one()
    ensures begins { (f : Format) (v : View) (steps : ℕ) (seen : List Way) → AreApart seen → HasGrown f v steps seen [] [] }
    ensures gains { (f : Format) (v : View) (steps : ℕ) (seen visited next : List Way) (way : Way) → HasGrown f v steps seen visited next → Leads f v way.path way.dir
        → length way.path ≡ suc steps → ¬ IsAmong (seen ++ next) way.dir → HasGrown f v steps seen visited (next ++ way ∷ []) }
    ensures visits { (f : Format) (v : View) (steps : ℕ) (seen visited next : List Way) (way : Way) → HasGrown f v steps seen visited next
        → ((name : List ℕ) (at : Path) (dir : Directory) → standing_in f v way.dir name ≡ Dir at (Ok dir) → IsAmong (seen ++ next) dir)
        → HasGrown f v steps seen (visited ++ way ∷ []) next }
{}

/// Once nobody waits, the items of what was visited are each item of the reached directories once, and what is found is found there or
/// apart from directories. A vault is too deep where one that waits at the limit holds an item.
pub fn visits_tell_of_the_vault()
    ensures items { (f : Format) (v : View) (steps : ℕ) (visits : List Way) (plan : List Planned) → IsWalked f v steps visits [] → AreGathered f v visits plan → HasEachOnce f v plan }
    ensures findings { (f : Format) (v : View) (steps : ℕ) (visits : List Way) → IsWalked f v steps visits [] → (finding : Finding) (at : Path)
        → IsFinding f v finding at ↔ (IsFoundAmong f v visits finding at ⊎ IsFindingApart f v finding at) }
    ensures depth { (f : Format) (v : View) (visits waiting : List Way) → IsWalked f v depth_limit visits waiting
        → IsTooDeep f v ↔ ((way : Way) × Contains waiting way × HoldsItem f v way) }
{
    what_stands_is_found_step_by_step();
}

/// A vault has more items than it may where more were gathered of directories reached in fewer steps than the limit on depth, and it
/// hasn't where no more were gathered of all of these.
pub fn limits_are_told_by_visits()
    ensures past { (f : Format) (v : View) (ways : List Way) (items : List Planned) → AreItemsOf f v ways items
        → ((way : Way) → Contains ways way → IsLeast f v way × (length way.path < depth_limit)) → item_limit < length items → HasTooMany f v }
    ensures within { (f : Format) (v : View) (visits waiting : List Way) (plan : List Planned) → IsWalked f v depth_limit visits waiting
        → AreGathered f v visits plan → length plan ≤ item_limit → ¬ HasTooMany f v }
{}
