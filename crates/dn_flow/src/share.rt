// What the lines of a pair have left to share.
ghost use Rattle.std.specs.Prelude.{◌∷◌, IfSome, IsSome, List, pos, ◌≤ℤ◌};
ghost use Rattle.std.specs.List.{AllByRecursion};
ghost use Rattle.dn_arc_theory.specs.Canonical.{IsCostArc};
ghost use Rattle.dn_arc_theory.specs.declared.arc.CostArc.{CostArc};
ghost use Rattle.dn_flow.specs.State.Givings.{HasPart, IsBalanced, Takes};

use dn_arc_theory::CostArc;

/// What the lines of a pair have left to share.
#[repr(C)]
#[derive(Clone, Copy, Drop)]
pub struct PairShare {
    /// Lines of a lower cost are full, and those of a higher one have their lower bounds.
    pub cost: i64,
    /// So many units remain for the lines of this cost, beyond their lower bounds.
    pub rest: i64,
    /// So many units of the pair remain for all of its lines.
    pub left: i64,
}

// Takes the units of the next line of the pair, and returns them, or `None` if the line has no room for its part, or
// the pair too few units for it.
pub(crate) fn take(share: &mut PairShare, line: &CostArc) -> Option<i64>
    ensures takes { IfSome result (λ u. Takes share.old line.now u share.new) }
    ensures balanced { (lines : List CostArc) → IsCostArc line.now → AllByRecursion IsCostArc lines
        → IsBalanced share.old (line.now ∷ lines) → IsSome result × IsBalanced share.new lines }
{
    if line.low < 0 || line.cap < line.low {
        return None;
    }
    let (units, rest) = part(share, line);
    if share.left < units {
        return None;
    }
    share.rest = rest;
    share.left -= units;
    Some(units)
}

// Returns the units of a line, and what remains then of the rest. A cheaper line is full, a dearer one has its lower
// bound, and one of the same cost has as much of the rest as it has room for.
fn part(share: &PairShare, line: &CostArc) -> (i64, i64)
    requires some { pos 0 ≤ℤ line.now.low }
    requires room { line.now.low ≤ℤ line.now.cap }
    ensures { HasPart share.now line.now result.0 result.1 }
{
    if line.cost < share.cost {
        return (line.cap, share.rest);
    }
    if share.cost < line.cost || share.rest <= 0 {
        return (line.low, share.rest);
    }
    let room = line.cap - line.low;
    if room < share.rest {
        (line.cap, share.rest - room)
    } else {
        (line.low + share.rest, 0)
    }
}
