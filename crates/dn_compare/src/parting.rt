// Where two graphs, maps or lists first differ.
ghost use Rattle.std.specs.Prelude.{◌≡◌, ◌↔◌, ℕ, IsTrue, MatchOption, length};
ghost use Rattle.std.specs.List.Sorted.{IsStrictlySortedBy};
ghost use Rattle.std.specs.Map.{keys_of};
ghost use Rattle.dn_compare.specs.Observed.{item_at};
ghost use Rattle.dn_compare.specs.State.Partings.{IsParting, ItemsPartAt};

use crate::peeked::{Peeked, lesser};
use crate::side::Side;

// Returns the least key at which two sides differ, and how they differ. Walks both sides once.
pub(crate) fn first_parting<S: Side>(left: S, right: S) -> Option<(S::Key, S::How)>
    requires left { IsStrictlySortedBy S.Key.cmp (keys_of (S.entries left)) }
    requires right { IsStrictlySortedBy S.Key.cmp (keys_of (S.entries right)) }
    ensures { IsParting S.Key.cmp S.by (S.entries left) (S.entries right) result }
{
    let mut lefts = Peeked::new(left);
    let mut rights = Peeked::new(right);
    while let Some(key) = lesser(lefts.key(), rights.key()) {
        if let Some(how) = S::how(lefts.take(&key), rights.take(&key)) {
            return Some((key, how));
        }
    }
    None
}

// A type whose values can be compared exactly.
pub(crate) trait Listed: Copy {
    // Whether both are equal.
    fn same(&self, other: &Self) -> bool
        ensures { IsTrue result ↔ self.now ≡ other.now };
}

impl Listed for i64 {
    fn same(&self, other: &i64) -> bool {
        self == other
    }
}

impl Listed for (i64, i64) {
    fn same(&self, other: &(i64, i64)) -> bool {
        self == other
    }
}

// Returns the least index, counted from 1, at which two lists of the same length differ.
pub(crate) fn first_item<T: Listed>(left: &[T], right: &[T]) -> Option<u64>
    requires { length left.now ≡ length right.now }
    ensures { MatchOption result ((j : ℕ) → item_at left.now j ≡ item_at right.now j)
        (λ i. ItemsPartAt left.now right.now i) }
{
    for i in 0..left.len() {
        if !left[i].same(&right[i]) {
            return Some(i as u64 + 1);
        }
    }
    None
}
