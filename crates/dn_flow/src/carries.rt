// What the arcs of each kind can carry, and what the lines of a pair share.
ghost use Rattle.std.specs.Prelude.{◌≡◌, ◌≤ℤ◌, ◌+ℤ◌, [], ℤ, List, map, filter, pos, IfSome, MatchOption};
ghost use Rattle.std.specs.List.{AllByRecursion};
ghost use Rattle.dn_arc_theory.specs.Canonical.{IsCostArc};
ghost use Rattle.dn_arc_theory.specs.Fillings.{forced_units};
ghost use Rattle.dn_arc_theory.specs.Splits.{IsSplit};
ghost use Rattle.dn_arc_theory.specs.State.Bundles.{meant};
ghost use Rattle.dn_arc_theory.specs.State.CurveListed.{is_free};
ghost use Rattle.dn_arc_theory.specs.State.FillCosts.{free_room};
ghost use Rattle.dn_arc_theory.specs.declared.arc.CostArc.{CostArc};
ghost use Rattle.dn_arc_lines.specs.declared.arc_line.ArcLine.{ArcLine};
ghost use Rattle.dn_bundle.specs.State.Listings.{form_one_arcs};
ghost use Rattle.dn_flow.specs.State.Spreads.{cap_carried, cap_line, cost_carried, cost_line, length_carried, length_line};
ghost use Rattle.dn_flow.specs.State.Givings.{IsAtStep, SharesOut};
ghost use Rattle.dn_flow.specs.State.CarryLaws.{caps_carry, caps_nothing, costs_carry, costs_nothing, lengths_carry, lengths_nothing};

use crate::share::PairShare;
use dn_arc_lines::ArcLine;
use dn_arc_theory::CostArc;
use dn_bundle::{Bundle, Curve, Least, Total};

// A bundle whose arcs carry a flow.
pub(crate) trait Carries: Bundle {
    // The arc of a line.
    ghost line_arc: { ArcLine → Self.Arc };

    // The lower bound, the capacity and the cost of a unit of an arc.
    ghost carried: { Self.Arc → CostArc };

    // Returns the lower bound, the capacity and the cost of a unit of a line.
    fn bounds(line: &ArcLine) -> CostArc
        ensures { result ≡ carried (line_arc line.now) };

    // Returns what the lines of the pair share, if so many units fit them. If the units can be split among arcs that
    // mean the same as the bundle, these share them.
    fn share(&self, units: &i64) -> Option<PairShare>
        ensures left { IfSome result (λ s. s.left ≡ units.now) }
        ensures shares { (arcs : List Self.Arc) → AllByRecursion Self.bundle.kind.IsArc arcs
            → Self.bundle.kind.Same arcs (meant Self.bundle self.now) → (xs : List ℤ)
            → IsSplit (map carried arcs) units.now xs
            → SharesOut (map carried arcs) result };

    // The bounds of an arc are those of an arc of a `min` problem.
    ghost carries: { (a : Self.Arc) → Self.bundle.kind.IsArc a → IsCostArc (carried a) };

    // Arcs that mean the same as no arcs have no room.
    ghost nothing: { (arcs : List Self.Arc) → AllByRecursion Self.bundle.kind.IsArc arcs → Self.bundle.kind.Same arcs []
        → AllByRecursion (λ a. ((carried a).low ≡ pos 0) × ((carried a).cap ≡ pos 0)) arcs };
}

impl Carries for Least {
    ghost line_arc = { length_line };

    ghost carried = { length_carried };

    ghost carries = { lengths_carry };

    ghost nothing = { lengths_nothing };

    fn bounds(line: &ArcLine) -> CostArc {
        CostArc {
            low: 0,
            cap: i64::MAX,
            cost: line.a,
        }
    }

    fn share(&self, units: &i64) -> Option<PairShare> {
        Some(PairShare {
            cost: self.get(),
            rest: *units,
            left: *units,
        })
    }
}

impl Carries for Total {
    ghost line_arc = { cap_line };

    ghost carried = { cap_carried };

    ghost carries = { caps_carry };

    ghost nothing = { caps_nothing };

    fn bounds(line: &ArcLine) -> CostArc {
        CostArc {
            low: 0,
            cap: line.a,
            cost: 0,
        }
    }

    fn share(&self, units: &i64) -> Option<PairShare> {
        if self.get() < *units {
            return None;
        }
        Some(PairShare {
            cost: 0,
            rest: *units,
            left: *units,
        })
    }
}

impl Carries for Curve {
    ghost line_arc = { cost_line };

    ghost carried = { cost_carried };

    ghost carries = { costs_carry };

    ghost nothing = { costs_nothing };

    fn bounds(line: &ArcLine) -> CostArc {
        CostArc {
            low: line.a,
            cap: line.b,
            cost: line.c,
        }
    }

    fn share(&self, units: &i64) -> Option<PairShare> {
        curve_share(self, units)
    }
}

// Returns what the lines of a `min` pair share: its free capacity is filled by ascending cost.
fn curve_share(curve: &Curve, units: &i64) -> Option<PairShare>
    ensures left { IfSome result (λ s. s.left ≡ units.now) }
    ensures step { forced_units (form_one_arcs curve.now) ≤ℤ units.now
        → units.now ≤ℤ (forced_units (form_one_arcs curve.now) +ℤ free_room (filter is_free (form_one_arcs curve.now)))
        → MatchOption result ⊥
        (IsAtStep (forced_units (form_one_arcs curve.now)) (filter is_free (form_one_arcs curve.now)) units.now) }
{
    let forced = curve.forced().0;
    if *units < forced {
        return None;
    }
    let mut rest = *units - forced;
    for i in 0..curve.free_len() {
        let (cost, room) = curve.free(i)?;
        if rest <= room {
            return Some(PairShare {
                cost,
                rest,
                left: *units,
            });
        }
        rest -= room;
    }
    if rest != 0 {
        return None;
    }
    Some(PairShare {
        cost: i64::MIN,
        rest,
        left: *units,
    })
}
