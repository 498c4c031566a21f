// What self-loops change.
ghost use Rattle.std.specs.Prelude.{◌↔◌, ℤ, List};
ghost use Rattle.std.specs.List.{AllByRecursion};
ghost use Rattle.dn_arc_theory.specs.declared.arc.LengthArc.{LengthArc};
ghost use Rattle.dn_arc_theory.specs.declared.arc.CapArc.{CapArc};
ghost use Rattle.dn_arc_theory.specs.declared.arc.CostArc.{CostArc};
ghost use Rattle.dn_arc_theory.specs.Canonical.{IsCapArc};
ghost use Rattle.dn_instance.specs.Instances.{Graph};
ghost use Rattle.dn_answers.specs.Walks.{HasWalkWithin, IsDistance};
ghost use Rattle.dn_answers.specs.MaxFlows.{HasValue};
ghost use Rattle.dn_answers.specs.MinCostFlows.{HasFlowWithin, IsLeastCost};
ghost use Rattle.dn_answers.specs.Loops.{loopless, HasNoNegativeLoop, SameButForLoops};

/// Self-loops of no negative length do not change distances, and no self-loops change the values of flows. So graphs
/// that differ only in such self-loops have the same answers, even if they do not mean the same.
pub fn no_loops()
    ensures bounds { (G : Graph LengthArc) → HasNoNegativeLoop G → (u v bound : ℤ)
        → HasWalkWithin G u v bound ↔ HasWalkWithin (loopless G) u v bound }
    ensures distances { (G : Graph LengthArc) → HasNoNegativeLoop G → (u v d : ℤ)
        → IsDistance G u v d ↔ IsDistance (loopless G) u v d }
    ensures values { (source sink : ℤ) (G : Graph CapArc) → AllByRecursion (λ a. IsCapArc a.1) G.arcs → (x : ℤ)
        → HasValue source sink G x ↔ HasValue source sink (loopless G) x }
{}

/// Of the self-loops of a node in a `min` graph, only the least cost over all amounts matters: if two graphs mean the
/// same but for self-loops, and those of each node have the same least cost over all amounts in both, then the feasible
/// flows for any supplies keep within the same bounds on their cost, and have the same least cost.
pub fn loop_costs()
    ensures bounds { (supplies : List (ℤ × ℤ)) (G H : Graph CostArc) → SameButForLoops G H → (bound : ℤ)
        → HasFlowWithin supplies G bound ↔ HasFlowWithin supplies H bound }
    ensures least { (supplies : List (ℤ × ℤ)) (G H : Graph CostArc) → SameButForLoops G H → (cost : ℤ)
        → IsLeastCost supplies G cost ↔ IsLeastCost supplies H cost }
{}
