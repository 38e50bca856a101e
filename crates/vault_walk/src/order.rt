//! Putting what was gathered in order.
ghost use Rattle.std.specs.Prelude.{◌≡◌, ◌↔◌, true, Contains};
ghost use Rattle.std.specs.List.Sorted.{IsStrictlySortedBy};

// The same elements in order, each once. Elements that compare as equal are one.
pub(crate) fn in_order<T: Ord + Drop>(mut items: Vec<T>) -> Vec<T>
    requires exact { (x y : T) → T.eq x y ≡ true → x ≡ y }
    ensures ordered { IsStrictlySortedBy T.cmp result.items }
    ensures same { (x : T) → Contains result.items x ↔ Contains items.items x }
{
    items.sort_unstable();
    items.dedup();
    items
}
