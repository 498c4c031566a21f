// Laws of the meaning of arcs and of canonical arcs.
ghost use Rattle.std.specs.Prelude.{◌≡◌, ◌⊎◌, ◌↔◌, ℤ, pos, List, [], ◌∷◌, ◌++◌, length};
ghost use Rattle.std.specs.List.{AllByRecursion};
ghost use Rattle.std.specs.List.Sorted.{IsPermutation};
ghost use Rattle.dn_arc_theory.specs.Splits.{IsSplit, LeastCost};
ghost use Rattle.dn_arc_theory.specs.Meanings.{SameLength, SameTotal, SameCurve};
ghost use Rattle.dn_arc_theory.specs.State.Equivalences.{IsMeaning};
ghost use Rattle.dn_arc_theory.specs.Canonical.{IsCostArc, AreCanonLengths, AreCanonCaps, AreCanonCosts};
ghost use Rattle.dn_arc_theory.specs.Fillings.{forced_units, forced_cost};
ghost use Rattle.dn_arc_theory.specs.State.FillCosts.{IsFilling};
ghost use Rattle.dn_arc_theory.specs.Entries.{free_costs};
ghost use Rattle.dn_arc_theory.specs.Differences.{LengthsDiffer, TotalsDiffer, CurvesDiffer};
ghost use Rattle.dn_arc_theory.specs.State.Bundles.{IsDetermined};
ghost use Rattle.dn_arc_theory.proofs.LengthKindLaws.{length_determined};
ghost use Rattle.dn_arc_theory.proofs.TotalKindLaws.{total_determined};
ghost use Rattle.dn_arc_theory.proofs.CostKindLaws.{cost_determined};
ghost use Rattle.dn_arc_theory.specs.declared.arc.LengthArc.{LengthArc};
ghost use Rattle.dn_arc_theory.specs.declared.arc.CapArc.{CapArc};
ghost use Rattle.dn_arc_theory.specs.declared.arc.CostArc.{CostArc};
ghost use Rattle.dn_arc_theory.specs.declared.arc.Form.{Form};
ghost use Rattle.dn_arc_theory.specs.declared.difference.How.{How};

use dn_bundle::{Bundle, Curve, Form, Least, Total};

/// An amount has at most one least cost.
pub fn one_least_cost()
    ensures { (arcs : List CostArc) (x j k : ℤ) → LeastCost arcs x j → LeastCost arcs x k → j ≡ k }
{}

/// An amount that can be split among arcs has a least cost.
pub fn some_least_cost()
    ensures { (arcs : List CostArc) (x : ℤ) (xs : List ℤ) → IsSplit arcs x xs → (k : ℤ) × LeastCost arcs x k }
{}

/// No arcs carry the amount 0 at cost 0, and carry no other amount.
pub fn no_arcs()
    ensures nothing { LeastCost [] (pos 0) (pos 0) }
    ensures only { (x k : ℤ) → LeastCost [] x k → (x ≡ pos 0) × (k ≡ pos 0) }
{}

/// Meaning the same is an equivalence of lists of arcs. It does not depend on the order of arcs, and still holds after
/// one arc is added to both lists.
pub fn meanings()
    ensures lengths { IsMeaning SameLength }
    ensures capacities { IsMeaning SameTotal }
    ensures costs { IsMeaning SameCurve }
{}

/// The order of arcs does not matter.
pub fn any_order()
    ensures lengths { (xs ys : List LengthArc) → IsPermutation xs ys → SameLength xs ys }
    ensures capacities { (xs ys : List CapArc) → IsPermutation xs ys → SameTotal xs ys }
    ensures costs { (xs ys : List CostArc) → IsPermutation xs ys → SameCurve xs ys }
{}

/// Two lists of arcs that mean the same still do when one arc is appended to both.
pub fn one_more()
    ensures lengths { (xs ys : List LengthArc) (a : LengthArc) → SameLength xs ys
        → SameLength (xs ++ a ∷ []) (ys ++ a ∷ []) }
    ensures capacities { (xs ys : List CapArc) (a : CapArc) → SameTotal xs ys
        → SameTotal (xs ++ a ∷ []) (ys ++ a ∷ []) }
    ensures costs { (xs ys : List CostArc) (a : CostArc) → SameCurve xs ys → SameCurve (xs ++ a ∷ []) (ys ++ a ∷ []) }
{}

/// Lists of arcs that mean the same, joined with lists that mean the same, mean the same.
pub fn put_together()
    ensures lengths { (xs xs' ys ys' : List LengthArc) → SameLength xs xs' → SameLength ys ys'
        → SameLength (xs ++ ys) (xs' ++ ys') }
    ensures capacities { (xs xs' ys ys' : List CapArc) → SameTotal xs xs' → SameTotal ys ys'
        → SameTotal (xs ++ ys) (xs' ++ ys') }
    ensures costs { (xs xs' ys ys' : List CostArc) → SameCurve xs xs' → SameCurve ys ys'
        → SameCurve (xs ++ ys) (xs' ++ ys') }
{}

/// The least cost of x among canonical arcs of a `min` pair is the forced cost plus the cost of the units beyond the
/// forced ones, which fill the free capacities by ascending cost.
pub fn exchange()
    ensures { (form : Form) (arcs : List CostArc) → AreCanonCosts form arcs → (x k : ℤ)
        → LeastCost arcs x k ↔ IsFilling arcs x k }
{}

/// Canonical arcs of a `min` pair in the same form that mean the same are equal.
pub fn determination(form: Form)
    ensures { (xs ys : List CostArc) → AreCanonCosts form xs → AreCanonCosts form ys → SameCurve xs ys → xs ≡ ys }
{}

/// Canonical arcs of an `sp` or a `max` pair that mean the same are equal.
pub fn determination_of_sums()
    ensures lengths { (xs ys : List LengthArc) → AreCanonLengths xs → AreCanonLengths ys → SameLength xs ys → xs ≡ ys }
    ensures capacities { (xs ys : List CapArc) → AreCanonCaps xs → AreCanonCaps ys → SameTotal xs ys → xs ≡ ys }
{}

/// The number of forced units, their cost, and the number of costs with free capacity follow from the meaning.
pub fn parts_of_meaning()
    ensures units { (xs ys : List CostArc) → AllByRecursion IsCostArc xs → AllByRecursion IsCostArc ys → SameCurve xs ys
        → forced_units xs ≡ forced_units ys }
    ensures cost { (xs ys : List CostArc) → AllByRecursion IsCostArc xs → AllByRecursion IsCostArc ys → SameCurve xs ys
        → forced_cost xs ≡ forced_cost ys }
    ensures costs { (xs ys : List CostArc) → AllByRecursion IsCostArc xs → AllByRecursion IsCostArc ys → SameCurve xs ys
        → length (free_costs xs) ≡ length (free_costs ys) }
{}

/// Arcs that mean the same do not differ.
pub fn differences()
    ensures lengths { (xs ys : List LengthArc) (how : How) → LengthsDiffer xs ys how → SameLength xs ys → ⊥ }
    ensures capacities { (xs ys : List CapArc) (how : How) → TotalsDiffer xs ys how → SameTotal xs ys → ⊥ }
    ensures costs { (xs ys : List CostArc) (how : How) → CurvesDiffer xs ys how → SameCurve xs ys → ⊥ }
{}

/// Arcs mean the same, or differ in some way.
pub fn some_difference()
    ensures lengths { (xs ys : List LengthArc) → SameLength xs ys ⊎ ((how : How) × LengthsDiffer xs ys how) }
    ensures capacities { (xs ys : List CapArc) → SameTotal xs ys ⊎ ((how : How) × TotalsDiffer xs ys how) }
    ensures costs { (xs ys : List CostArc) → AllByRecursion IsCostArc xs → AllByRecursion IsCostArc ys
        → SameCurve xs ys ⊎ ((how : How) × CurvesDiffer xs ys how) }
{}

/// The order of arcs does not matter, for any kind of bundle.
pub fn any_order_of<B: Bundle>()
    ensures { (xs ys : List B.Arc) → IsPermutation xs ys → B.bundle.kind.Same xs ys }
{}

/// A bundle whose canonical arcs, in each form, are equal if they mean the same.
pub trait Determined: Bundle {
    ghost determined: { IsDetermined Self.bundle.kind };
}

impl Determined for Least {
    ghost determined = { length_determined };
}

impl Determined for Total {
    ghost determined = { total_determined };
}

impl Determined for Curve {
    ghost determined = { cost_determined };
}
