//! Laws of the order of plain paths, and of rules for names, for callers to cite. They do nothing.
ghost use Rattle.std.specs.Prelude.{◌≡◌, ◌↔◌, ℕ, List, ◌∷◌, [], ◌++◌, AllPairs};
ghost use Rattle.std.specs.Cmp.{IsTotalOrder};
ghost use Rattle.std.specs.Ordering.{ordering_then};
ghost use Rattle.std.specs.Str.{IsUtf8};
ghost use Rattle.plain_tree.specs.Names.{IsNfc, Path};
ghost use Rattle.plain_tree.specs.Mapped.{AreMapped, StayApart, mapped_name, mapped_path};
ghost use Rattle.plain_tree.specs.Order.{name_cmp, path_cmp};

use crate::name_map::NameMap;
use std::cmp::Ordering;

/// The order is total, and only equal paths are equal in it.
pub fn order_is_total()
    ensures total { IsTotalOrder path_cmp }
    ensures strict { (p q : Path) → path_cmp p q ≡ Ordering.Equal → p ≡ q }
{}

/// A path comes before every path below it, and so before each of its children.
pub fn prefix_comes_first()
    ensures below { (p : Path) (name : List ℕ) (rest : Path) → path_cmp p (p ++ name ∷ rest) ≡ Ordering.Less }
    ensures child { (p : Path) (name : List ℕ) → path_cmp p (p ++ name ∷ []) ≡ Ordering.Less }
{}

/// Below one directory the names decide first, and then what is below them.
pub fn children_are_ordered_by_name()
    ensures { (p : Path) (m n : List ℕ) (q r : Path) → path_cmp (p ++ m ∷ q) (p ++ n ∷ r) ≡ ordering_then (name_cmp m n) (path_cmp q r) }
{}

/// By the rule `Same` each name and each path stays as it is.
pub fn same_names_stay()
    ensures name { (name : List ℕ) → mapped_name NameMap.Same name ≡ name }
    ensures path { (path : Path) → mapped_path NameMap.Same path ≡ path }
{}

/// What a rule has made of names it makes of them again.
pub fn mapped_names_stay()
    ensures name { (names : NameMap) (name : List ℕ) → mapped_name names (mapped_name names name) ≡ mapped_name names name }
    ensures path { (names : NameMap) (path : Path) → mapped_path names (mapped_path names path) ≡ mapped_path names path }
{}

/// By the rule `Nfc` a name comes to form C exactly where it is UTF-8. One that is in that form stays as it is, and so does one that isn't
/// UTF-8.
pub fn names_come_to_nfc()
    ensures comes { (name : List ℕ) → IsNfc (mapped_name NameMap.Nfc name) ↔ IsUtf8 name }
    ensures nfc { (name : List ℕ) → IsNfc name → mapped_name NameMap.Nfc name ≡ name }
    ensures other { (name : List ℕ) → ¬ IsUtf8 name → mapped_name NameMap.Nfc name ≡ name }
{}

/// Where no two of some paths come to one, the mapped ones are in strict order.
pub fn mapped_paths_are_in_order()
    ensures { (names : NameMap) (paths mapped : List Path) → StayApart names paths → AreMapped names paths mapped → AllPairs (λ (p q : Path). path_cmp p q ≡ Ordering.Less) mapped }
{}
