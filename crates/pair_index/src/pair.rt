// Ordered pairs.
ghost use Rattle.std.specs.Prelude.{◌≡◌, ◌≤ℤ◌, IsTrue, ◌↔◌};

/// Whether both are the same ordered pair, with the same tail and the same head.
pub fn is_pair(left: &(i64, i64), right: &(i64, i64)) -> bool
    ensures { IsTrue result ↔ (left.now ≡ right.now) }
{
    left.0 == right.0 && left.1 == right.1
}

// Whether both have the same tail.
#[inline(always)]
pub(crate) fn is_tail(left: &(i64, i64), right: &(i64, i64)) -> bool
    ensures { IsTrue result ↔ (left.now.0 ≡ right.now.0) }
{
    left.0 == right.0
}

// Whether the head of `left` is at most that of `right`.
pub(crate) fn is_head_upto(left: &(i64, i64), right: &(i64, i64)) -> bool
    ensures { IsTrue result ↔ (left.now.1 ≤ℤ right.now.1) }
{
    left.1 <= right.1
}
