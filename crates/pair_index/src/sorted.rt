// Entries whose pairs are sorted.
ghost use Rattle.std.specs.Prelude.{◌≡◌, ◌↔◌, [], ◌∷◌, ◌++◌, IsTrue, false};
ghost use Rattle.std.specs.List.{list_any};
ghost use Rattle.std.specs.List.Sorted.{IsStrictlySortedBy};
ghost use Rattle.std.specs.Map.{keys_of};
ghost use Rattle.dn_arc_theory.specs.Pairs.{pair_cmp, same_pair};
ghost use Rattle.pair_index.specs.State.Positions.{IsPosition};
ghost use Rattle.pair_index.specs.State.Sorted.{AreSorted};

use std::cmp::Ordering;

// Whether appending `pair` keeps the keys sorted. If so, no entry has this pair.
#[inline(always)]
pub(crate) fn is_past<X>(entries: &[((i64, i64), X)], pair: &(i64, i64)) -> bool
    requires { AreSorted (keys_of entries.now) }
    ensures none { IsTrue result → list_any (same_pair pair.now) (keys_of entries.now) ≡ false }
    ensures sorted { IsTrue result ↔ AreSorted (keys_of entries.now ++ pair.now ∷ []) }
{
    let Some((last, _)) = entries.last() else {
        return true;
    };
    match last.cmp(pair) {
        Ordering::Less => true,
        _ => false,
    }
}

/// Returns the position of a pair among entries that are sorted by ascending pair, if it is there. This does not
/// allocate.
pub fn position_among<X>(entries: &[((i64, i64), X)], pair: &(i64, i64)) -> Option<usize>
    requires { IsStrictlySortedBy pair_cmp (keys_of entries.now) }
    ensures { IsPosition (keys_of entries.now) pair.now result }
{
    match entries.binary_search_by(|entry| entry.0.cmp(pair)) {
        Ok(i) => Some(i),
        Err(_) => None,
    }
}
