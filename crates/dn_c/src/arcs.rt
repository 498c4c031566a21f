// An arc as C has it.
ghost use Rattle.std.specs.Prelude.{◌≡◌};
ghost use Rattle.dn_c.specs.State.Rows.{number_at, row_of};

use dn_arc_theory::Parts;

/// An arc as C has it: its nodes, and its numbers in the order of its line, which are the length (`sp`), the capacity
/// (`max`), or the lower bound, the capacity and the cost (`min`). Missing numbers are 0.
#[repr(C)]
#[derive(Clone, Copy, Drop)]
pub struct Arc {
    pub tail: i64,
    pub head: i64,
    pub a: i64,
    pub b: i64,
    pub c: i64,
}

// Returns the number at `i` of an arc, or 0.
pub(crate) fn number<A: Parts>(arc: &A, i: usize) -> i64
    ensures { result ≡ number_at (A.numbers arc.now) i }
{
    if i < arc.len() { arc.part(i) } else { 0 }
}

// Returns an arc as C has it.
pub(crate) fn row<A: Parts>(pair: &(i64, i64), arc: &A) -> Arc
    ensures { result ≡ row_of pair.now (A.numbers arc.now) }
{
    Arc {
        tail: pair.0,
        head: pair.1,
        a: number(arc, 0),
        b: number(arc, 1),
        c: number(arc, 2),
    }
}
