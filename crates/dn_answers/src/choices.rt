// Graphs with some arcs deleted: sameness is exactly what no solver can tell apart.
ghost use Rattle.std.specs.Prelude.{◌≡◌, ◌↔◌, ℤ, List, Bool};
ghost use Rattle.dn_arc_theory.specs.declared.arc.LengthArc.{LengthArc};
ghost use Rattle.dn_arc_theory.specs.declared.arc.CapArc.{CapArc};
ghost use Rattle.dn_arc_theory.specs.declared.arc.CostArc.{CostArc};
ghost use Rattle.dn_arc_theory.specs.Kinds.{lengths, capacities};
ghost use Rattle.dn_arc_theory.specs.Meanings.{SameLength, SameTotal, SameCurve};
ghost use Rattle.dn_instance.specs.Instances.{Graph};
ghost use Rattle.dn_instance.specs.Validity.{IsValidGraph};
ghost use Rattle.dn_instance.specs.Sameness.{SameGraph};
ghost use Rattle.dn_answers.specs.Walks.{IsDistance};
ghost use Rattle.dn_answers.specs.MaxFlows.{IsGreatestValue};
ghost use Rattle.dn_answers.specs.MinCostFlows.{IsLeastCost};
ghost use Rattle.dn_answers.specs.Choices.{only, HasNoLoop};

/// Valid graphs with the same nodes and no self-loops mean the same exactly if they have the same answers whichever
/// ordered pairs are chosen and the arcs of all others deleted: the same distances, the same greatest values between
/// any source and sink, the same least costs for any supplies.
pub fn exactly()
    ensures lengths { (G H : Graph LengthArc) → IsValidGraph lengths G → IsValidGraph lengths H → G.nodes ≡ H.nodes
        → HasNoLoop G → HasNoLoop H
        → SameGraph SameLength G H ↔ ((chosen : ℤ × ℤ → Bool) (u v d : ℤ)
        → IsDistance (only chosen G) u v d ↔ IsDistance (only chosen H) u v d) }
    ensures capacities { (G H : Graph CapArc) → IsValidGraph capacities G → IsValidGraph capacities H
        → G.nodes ≡ H.nodes → HasNoLoop G → HasNoLoop H
        → SameGraph SameTotal G H ↔ ((chosen : ℤ × ℤ → Bool) (source sink x : ℤ)
        → IsGreatestValue source sink (only chosen G) x ↔ IsGreatestValue source sink (only chosen H) x) }
    ensures costs { (G H : Graph CostArc) → G.nodes ≡ H.nodes → HasNoLoop G → HasNoLoop H
        → SameGraph SameCurve G H ↔ ((chosen : ℤ × ℤ → Bool) (supplies : List (ℤ × ℤ)) (k : ℤ)
        → IsLeastCost supplies (only chosen G) k ↔ IsLeastCost supplies (only chosen H) k) }
{}
