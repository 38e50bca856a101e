//! The order of folder paths: part by part, parts by their bytes, a prefix first.
ghost use Rattle.std.specs.Prelude.{Some, refl};
ghost use Rattle.std.specs.Cmp.{partial_equiv_from_equiv, partial_order_from_total, partial_order_from_own_ties};
ghost use Rattle.std.specs.Cmp.Lexicographic.{nat_list_eq_equiv, nat_list_cmp_total, lists_equiv, lists_total, lists_ties, texts_ties};
ghost use Rattle.folder_spec.specs.Path.{path_eq};
ghost use Rattle.folder_model.specs.Order.{part_cmp, path_cmp};

use crate::path::FPath;
use std::cmp::Ordering;

impl PartialEq for FPath {
    ghost eq = { path_eq };

    ghost laws = { partial_equiv_from_equiv (lists_equiv nat_list_eq_equiv) };

    fn eq(&self, other: &FPath) -> bool {
        self.is(other)
    }
}

impl Eq for FPath {
    ghost laws = { lists_equiv nat_list_eq_equiv };
}

impl PartialOrd for FPath {
    ghost partial_cmp = { λ x y. Some (path_cmp x y) };

    ghost laws = { partial_order_from_own_ties (partial_order_from_total (lists_total nat_list_cmp_total)) (lists_ties part_cmp texts_ties) };

    fn partial_cmp(&self, other: &FPath) -> Option<Ordering> {
        Some(self.cmp(other))
    }
}

impl Ord for FPath {
    ghost cmp = { path_cmp };

    ghost total = { lists_total nat_list_cmp_total };

    ghost matches_partial_cmp = { λ x y. refl };

    ghost matches_eq = { lists_ties part_cmp texts_ties };

    fn cmp(&self, other: &FPath) -> Ordering {
        self.compared(other)
    }
}
