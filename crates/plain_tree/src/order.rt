//! The order of plain paths.
ghost use Rattle.std.specs.Prelude.{Some, refl};
ghost use Rattle.std.specs.Cmp.{partial_equiv_from_equiv, partial_order_from_total, partial_order_from_own_ties};
ghost use Rattle.std.specs.Cmp.Lexicographic.{nat_list_eq_equiv, nat_list_cmp_total, lists_equiv, lists_total, lists_ties, texts_ties};
ghost use Rattle.plain_tree.specs.Order.{name_cmp, path_cmp, path_eq};

use crate::path::PlainPath;
use std::cmp::Ordering;

impl PartialEq for PlainPath {
    ghost eq = { path_eq };

    ghost laws = { partial_equiv_from_equiv (lists_equiv nat_list_eq_equiv) };

    fn eq(&self, other: &PlainPath) -> bool {
        self.names() == other.names()
    }
}

impl Eq for PlainPath {
    ghost laws = { lists_equiv nat_list_eq_equiv };
}

impl PartialOrd for PlainPath {
    ghost partial_cmp = { λ x y. Some (path_cmp x y) };

    ghost laws = { partial_order_from_own_ties (partial_order_from_total (lists_total nat_list_cmp_total)) (lists_ties name_cmp texts_ties) };

    fn partial_cmp(&self, other: &PlainPath) -> Option<Ordering> {
        Some(self.cmp(other))
    }
}

impl Ord for PlainPath {
    ghost cmp = { path_cmp };

    ghost total = { lists_total nat_list_cmp_total };

    ghost matches_partial_cmp = { λ x y. refl };

    ghost matches_eq = { lists_ties name_cmp texts_ties };

    fn cmp(&self, other: &PlainPath) -> Ordering {
        self.names().cmp(other.names())
    }
}
