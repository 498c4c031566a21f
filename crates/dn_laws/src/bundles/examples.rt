// Worked bundles.
ghost use Rattle.std.specs.Prelude.{ℤ, pos};
ghost use Rattle.dn_arc_theory.specs.Splits.{LeastCost};
ghost use Rattle.dn_arc_theory.specs.Meanings.{SameCurve};
ghost use Rattle.dn_arc_theory.specs.Canonical.{AreCanonCosts};
ghost use Rattle.dn_laws.specs.State.BundleExamples.{worked, worked_one, worked_two, canon_in_two_alone, apart};

use dn_bundle::Form;

/// The worked bundle has two forced units, then free capacity for two units at cost 0, four at 1 and one at 3.
pub fn worked_costs()
    ensures none_below { (k : ℤ) → LeastCost worked (pos 1) k → ⊥ }
    ensures at_two { LeastCost worked (pos 2) (pos 3) }
    ensures at_five { LeastCost worked (pos 5) (pos 4) }
    ensures none_above { (k : ℤ) → LeastCost worked (pos 10) k → ⊥ }
{}

/// The canonical arcs of the worked bundle in each form.
pub fn worked_forms()
    ensures one { AreCanonCosts Form.One worked_one }
    ensures two { AreCanonCosts Form.Two worked_two }
    ensures same_one { SameCurve worked_one worked }
    ensures same_two { SameCurve worked_two worked }
{}

/// Arcs that are canonical in form 2 only, and arcs that are canonical in neither form.
pub fn other_lists()
    ensures mixed_two { AreCanonCosts Form.Two canon_in_two_alone }
    ensures mixed_one { AreCanonCosts Form.One canon_in_two_alone → ⊥ }
    ensures apart_one { AreCanonCosts Form.One apart → ⊥ }
    ensures apart_two { AreCanonCosts Form.Two apart → ⊥ }
{}
