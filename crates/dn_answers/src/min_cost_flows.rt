// Feasible flows in `min` graphs that mean the same.
ghost use Rattle.std.specs.Prelude.{◌↔◌, ℤ, List};
ghost use Rattle.dn_arc_theory.specs.declared.arc.CostArc.{CostArc};
ghost use Rattle.dn_arc_theory.specs.Meanings.{SameCurve};
ghost use Rattle.dn_instance.specs.Instances.{Graph};
ghost use Rattle.dn_instance.specs.Sameness.{SameGraph};
ghost use Rattle.dn_answers.specs.MinCostFlows.{IsFeasible, HasMatchingFeasible, HasFlowWithin, IsLeastCost};

/// If two graphs mean the same, then for each feasible flow of G, H has a feasible flow with the same units on each
/// ordered pair, which costs no more.
pub fn same_flows()
    ensures { (supplies : List (ℤ × ℤ)) (G H : Graph CostArc) → SameGraph SameCurve G H → (flow : List ℤ)
        → IsFeasible supplies G flow → HasMatchingFeasible supplies G H flow }
{}

/// If two graphs mean the same, then the feasible flows for any supplies keep within the same bounds on their cost, and
/// have the same least cost. So some flow is feasible in both graphs or in neither.
pub fn same_costs()
    ensures bounds { (supplies : List (ℤ × ℤ)) (G H : Graph CostArc) → SameGraph SameCurve G H → (bound : ℤ)
        → HasFlowWithin supplies G bound ↔ HasFlowWithin supplies H bound }
    ensures least { (supplies : List (ℤ × ℤ)) (G H : Graph CostArc) → SameGraph SameCurve G H → (cost : ℤ)
        → IsLeastCost supplies G cost ↔ IsLeastCost supplies H cost }
{}
