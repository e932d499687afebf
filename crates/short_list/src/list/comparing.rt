ghost use Rattle.std.specs.Cmp.{on_equiv, on_per};
ghost use Rattle.std.specs.Cmp.Lexicographic.{pointwise, lists_per, lists_equiv};
ghost use Rattle.short_list.specs.Lists.{items};

use super::ShortList;
use std::fmt;

impl<T: Copy + PartialEq, const N: usize> PartialEq for ShortList<T, N> {
    ghost eq = { λ list other. pointwise T.eq (items list) (items other) };

    ghost laws = { on_per (λ list. items list) (lists_per T.laws) };

    fn eq(&self, other: &Self) -> bool {
        self.as_slice() == other.as_slice()
    }
}

impl<T: Copy + Eq, const N: usize> Eq for ShortList<T, N> {
    ghost laws = { on_equiv (λ list. items list) (lists_equiv T.Eq.laws) };
}

impl<T: Copy + fmt::Debug, const N: usize> fmt::Debug for ShortList<T, N> {
    fn fmt<W: fmt::Write>(&self, f: &mut fmt::Formatter<W>) -> fmt::Result {
        f.debug_list().entries(self.as_slice()).finish()
    }
}
