// Parallel arcs alone: what they mean is the answer to the problem that they pose.
ghost use Rattle.std.specs.Prelude.{◌≡◌, ◌≢◌, ◌↔◌, ℤ, List};
ghost use Rattle.std.specs.List.{AllByRecursion};
ghost use Rattle.dn_arc_theory.specs.declared.arc.LengthArc.{LengthArc};
ghost use Rattle.dn_arc_theory.specs.declared.arc.CapArc.{CapArc};
ghost use Rattle.dn_arc_theory.specs.declared.arc.CostArc.{CostArc};
ghost use Rattle.dn_arc_theory.specs.declared.difference.How.{How};
ghost use Rattle.dn_arc_theory.specs.Lengths.{LeastLength};
ghost use Rattle.dn_arc_theory.specs.Capacities.{total_cap};
ghost use Rattle.dn_arc_theory.specs.Splits.{LeastCost};
ghost use Rattle.dn_arc_theory.specs.Meanings.{SameLength, SameTotal, SameCurve};
ghost use Rattle.dn_arc_theory.specs.Canonical.{IsCapArc};
ghost use Rattle.dn_instance.specs.Instances.{Instance};
ghost use Rattle.dn_instance.specs.Validity.{IsNode, IsValid};
ghost use Rattle.dn_instance.specs.declared.verdict.Verdict.{Verdict};
ghost use Rattle.dn_compare.specs.FirstDifference.{IsFirstDifference};
ghost use Rattle.dn_answers.specs.Walks.{IsDistance};
ghost use Rattle.dn_answers.specs.MaxFlows.{IsGreatestValue};
ghost use Rattle.dn_answers.specs.MinCostFlows.{IsLeastCost};
ghost use Rattle.dn_answers.specs.Parallel.{parallel, supplies_for, HaveAnswers};

/// If all arcs of a graph lead from one node to another, then the distance between these is the least length of the
/// arcs, the greatest value is their total capacity, and the least cost of sending x units is the least cost of
/// splitting x among the arcs.
pub fn alone()
    ensures lengths { (nodes : ℤ) (p : ℤ × ℤ) (arcs : List LengthArc) → IsNode nodes p.0 → p.0 ≢ p.1 → (d : ℤ)
        → IsDistance (parallel nodes p arcs) p.0 p.1 d ↔ LeastLength arcs d }
    ensures capacities { (nodes : ℤ) (p : ℤ × ℤ) (arcs : List CapArc) → p.0 ≢ p.1 → AllByRecursion IsCapArc arcs
        → (x : ℤ) → IsGreatestValue p.0 p.1 (parallel nodes p arcs) x ↔ (total_cap arcs ≡ x) }
    ensures costs { (nodes : ℤ) (p : ℤ × ℤ) (arcs : List CostArc) → p.0 ≢ p.1 → (x k : ℤ)
        → IsLeastCost (supplies_for p x) (parallel nodes p arcs) k ↔ LeastCost arcs x k }
{}

/// Arcs from one node to another mean the same exactly if the problems that they pose alone have the same answers.
pub fn told_apart()
    ensures lengths { (nodes : ℤ) (p : ℤ × ℤ) (xs ys : List LengthArc) → IsNode nodes p.0 → p.0 ≢ p.1
        → SameLength xs ys ↔ ((d : ℤ)
        → IsDistance (parallel nodes p xs) p.0 p.1 d ↔ IsDistance (parallel nodes p ys) p.0 p.1 d) }
    ensures capacities { (nodes : ℤ) (p : ℤ × ℤ) (xs ys : List CapArc) → p.0 ≢ p.1
        → AllByRecursion IsCapArc xs → AllByRecursion IsCapArc ys
        → SameTotal xs ys ↔ ((x : ℤ)
        → IsGreatestValue p.0 p.1 (parallel nodes p xs) x ↔ IsGreatestValue p.0 p.1 (parallel nodes p ys) x) }
    ensures costs { (nodes : ℤ) (p : ℤ × ℤ) (xs ys : List CostArc) → p.0 ≢ p.1
        → SameCurve xs ys ↔ ((x k : ℤ)
        → IsLeastCost (supplies_for p x) (parallel nodes p xs) k
        ↔ IsLeastCost (supplies_for p x) (parallel nodes p ys) k) }
{}

/// If the first difference of two valid instances is at a pair of two different nodes, then the arcs of this pair alone
/// pose two problems whose answers are the two values reported: distances, greatest values, or least costs of sending
/// the amount reported, which is the least amount whose costs differ.
pub fn reported()
    ensures { (I J : Instance) (src dst : ℤ) (how : How) → IsValid I → IsValid J → src ≢ dst
        → IsFirstDifference I J (Verdict.Pair src dst how) → HaveAnswers I J (src, dst) how }
{}
