// Cursors of a walk over canonical arcs or over items, from which the walk goes on.
ghost use Rattle.std.specs.Prelude.{◌≡◌, ℕ, refl};
ghost use Rattle.dn_c.specs.declared.cursor.Cursor.{Cursor};
ghost use Rattle.dn_c.specs.State.Cursors.{behind, cursor_after, cursor_with, last_before, cap_at, cost_at, length_at};

use crate::arcs::number;
use dn_arc_theory::{CapArc, CostArc, LengthArc, Parts};
use dn_bundle::{Bundle, Curve, Least, Total};

/// A cursor between two canonical arcs of a graph: so many pairs with all their arcs are before it, and of the next
/// pair the arcs up to the one with these numbers, if `within` is not 0. A cursor between two items has so many items
/// before it, and `a` is the ID of the last of them, if `within` is not 0. All zeros is the cursor before the first.
#[repr(C)]
#[derive(Clone, Copy, Drop)]
pub struct Cursor {
    pub pairs: usize,
    pub within: u64,
    pub a: i64,
    pub b: i64,
    pub c: i64,
}

impl Cursor {
    // Returns the cursor between items behind one more, which has this ID.
    pub(crate) fn behind(&self, id: &i64) -> Cursor
        ensures { result ≡ behind self.now id.now }
    {
        Cursor {
            pairs: self.pairs.saturating_add(1),
            within: 1,
            a: *id,
            b: 0,
            c: 0,
        }
    }
}

// A bundle whose arcs a cursor can keep: each arc is made again of its numbers.
pub(crate) trait Kept: Bundle {
    // The arc that a cursor keeps.
    ghost arc_at: { Cursor → Self.Arc };

    // Returns the arc that the cursor keeps.
    fn arc(cursor: &Cursor) -> Self::Arc
        ensures { result ≡ arc_at cursor.now };

    // The cursor after an arc keeps that arc.
    ghost keeps: { (index : ℕ) (arc : Self.Arc) → arc_at (cursor_with index (Self.bundle.kind.numbers arc)) ≡ arc };
}

impl Kept for Least {
    ghost arc_at = { length_at };

    ghost keeps = { λ index arc. refl };

    fn arc(cursor: &Cursor) -> LengthArc {
        LengthArc { length: cursor.a }
    }
}

impl Kept for Total {
    ghost arc_at = { cap_at };

    ghost keeps = { λ index arc. refl };

    fn arc(cursor: &Cursor) -> CapArc {
        CapArc { cap: cursor.a }
    }
}

impl Kept for Curve {
    ghost arc_at = { cost_at };

    ghost keeps = { λ index arc. refl };

    fn arc(cursor: &Cursor) -> CostArc {
        CostArc {
            low: cursor.a,
            cap: cursor.b,
            cost: cursor.c,
        }
    }
}

// Returns the last arc before the cursor of the pair that it is within, if it is within one.
pub(crate) fn last_before<B: Kept>(cursor: &Cursor) -> Option<B::Arc>
    ensures { result ≡ last_before B.arc_at cursor.now }
{
    if cursor.within == 0 {
        None
    } else {
        Some(B::arc(cursor))
    }
}

// Returns the cursor after this arc of the pair at `index`, or before all arcs of that pair.
pub(crate) fn cursor_after<A: Parts>(index: usize, last: &Option<A>) -> Cursor
    ensures { result ≡ cursor_after A.numbers index last.now }
{
    match last {
        Some(arc) => Cursor {
            pairs: index,
            within: 1,
            a: number(arc, 0),
            b: number(arc, 1),
            c: number(arc, 2),
        },
        None => Cursor {
            pairs: index,
            within: 0,
            a: 0,
            b: 0,
            c: 0,
        },
    }
}
