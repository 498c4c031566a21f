// Worked first differences. A verdict has the value of the left side first.
ghost use Rattle.std.specs.Prelude.{pos, negsuc, [], ◌∷◌, Some, None};
ghost use Rattle.dn_line.specs.declared.kind.Kind.{Kind};
ghost use Rattle.dn_arc_theory.specs.declared.difference.How.{How};
ghost use Rattle.dn_instance.specs.Instances.{ShortestPaths, Sources, Queries, Coordinates};
ghost use Rattle.dn_instance.specs.declared.verdict.Verdict.{Verdict};
ghost use Rattle.dn_compare.specs.FirstDifference.{IsFirstDifference};
ghost use Rattle.dn_laws.specs.State.DifferenceExamples.{with_lengths, flow_from, supplied, with_costs, lengths_at, costs_of};
ghost use Rattle.dn_laws.specs.State.DifferenceExamples.{length_arc_at, cap_arc_at, cost_arc_at, worked_lengths, without_loop, worked_capacities};

/// Kinds come before all else, NODES before arcs, the lesser ID of two supplies, and the source before the sink.
pub fn heads()
    ensures kinds { IsFirstDifference (with_lengths worked_lengths) (flow_from (pos 1) (pos 3) worked_capacities)
        (Verdict.Kind Kind.Sp Kind.Max) }
    ensures nodes { IsFirstDifference (ShortestPaths (record { nodes = pos 3; arcs = [] }))
        (ShortestPaths (record { nodes = pos 4; arcs = [] })) (Verdict.Nodes (pos 3) (pos 4)) }
    ensures missing_supply { IsFirstDifference (supplied ((pos 2, pos 5) ∷ [])) (supplied [])
        (Verdict.Supply (pos 2) (pos 5) (pos 0)) }
    ensures two_supplies { IsFirstDifference (supplied ((pos 2, pos 1) ∷ (pos 3, pos 5) ∷ []))
        (supplied ((pos 2, negsuc 0) ∷ (pos 3, pos 6) ∷ [])) (Verdict.Supply (pos 2) (pos 1) (negsuc 0)) }
    ensures source { IsFirstDifference (flow_from (pos 1) (pos 3) []) (flow_from (pos 2) (pos 1) [])
        (Verdict.Source (pos 1) (pos 2)) }
    ensures sink { IsFirstDifference (flow_from (pos 1) (pos 3) []) (flow_from (pos 1) (pos 2) [])
        (Verdict.Sink (pos 3) (pos 2)) }
{}

/// Pairs: a self-loop on the left side alone, the lesser SRC, the lesser DST, and capacities, which add up.
pub fn pairs()
    ensures missing { IsFirstDifference (with_lengths worked_lengths) (with_lengths without_loop)
        (lengths_at (pos 2) (pos 2) (Some (pos 0)) None) }
    ensures by_src { IsFirstDifference
        (with_lengths (length_arc_at (pos 2) (pos 1) (pos 1) ∷ length_arc_at (pos 1) (pos 3) (pos 1) ∷ []))
        (with_lengths (length_arc_at (pos 2) (pos 1) (pos 2) ∷ length_arc_at (pos 1) (pos 3) (pos 2) ∷ []))
        (lengths_at (pos 1) (pos 3) (Some (pos 1)) (Some (pos 2))) }
    ensures by_dst { IsFirstDifference
        (with_lengths (length_arc_at (pos 1) (pos 3) (pos 1) ∷ length_arc_at (pos 1) (pos 2) (pos 1) ∷ []))
        (with_lengths (length_arc_at (pos 1) (pos 3) (pos 2) ∷ length_arc_at (pos 1) (pos 2) (pos 2) ∷ []))
        (lengths_at (pos 1) (pos 2) (Some (pos 1)) (Some (pos 2))) }
    ensures capacities { IsFirstDifference (flow_from (pos 1) (pos 3) worked_capacities)
        (flow_from (pos 1) (pos 3) (cap_arc_at (pos 1) (pos 3) (pos 2) ∷ cap_arc_at (pos 1) (pos 1) (pos 4) ∷ []))
        (Verdict.Pair (pos 1) (pos 1) (How.Totals (pos 0) (pos 4))) }
{}

/// Costs: the least amount that differs, a forced unit on the left side, forced costs, an amount above the capacity of
/// the left side, the greatest amount, and an arc that carries nothing.
pub fn amounts()
    ensures least { IsFirstDifference
        (with_costs (cost_arc_at (pos 0) (pos 2) (pos 1) ∷ cost_arc_at (pos 0) (pos 2) (pos 4) ∷ []))
        (with_costs (cost_arc_at (pos 0) (pos 3) (pos 1) ∷ cost_arc_at (pos 0) (pos 1) (pos 4) ∷ []))
        (costs_of (pos 3) (Some (pos 6)) (Some (pos 3))) }
    ensures forced_unit { IsFirstDifference (with_costs (cost_arc_at (pos 1) (pos 2) (pos 1) ∷ []))
        (with_costs (cost_arc_at (pos 0) (pos 2) (pos 1) ∷ [])) (costs_of (pos 0) None (Some (pos 0))) }
    ensures forced_costs { IsFirstDifference (with_costs (cost_arc_at (pos 1) (pos 1) (pos 4) ∷ []))
        (with_costs (cost_arc_at (pos 1) (pos 1) (pos 5) ∷ [])) (costs_of (pos 1) (Some (pos 4)) (Some (pos 5))) }
    ensures past_capacity { IsFirstDifference (with_costs (cost_arc_at (pos 0) (pos 2) (pos 4) ∷ []))
        (with_costs (cost_arc_at (pos 0) (pos 3) (pos 4) ∷ [])) (costs_of (pos 3) None (Some (pos 12))) }
    ensures greatest { IsFirstDifference (with_costs (cost_arc_at (pos 0) (pos 9223372036854775807) (pos 1) ∷ []))
        (with_costs (cost_arc_at (pos 0) (pos 9223372036854775806) (pos 1) ∷ []))
        (costs_of (pos 9223372036854775807) (Some (pos 9223372036854775807)) None) }
    ensures same { IsFirstDifference (with_costs (cost_arc_at (pos 0) (pos 0) (pos 5) ∷ [])) (with_costs [])
        Verdict.Same }
{}

/// Companions: the numbers of items come before the items, the first item that differs, and the lesser ID.
pub fn items()
    ensures length { IsFirstDifference (Sources (pos 5 ∷ pos 2 ∷ pos 5 ∷ [])) (Sources (pos 5 ∷ pos 3 ∷ []))
        (Verdict.Length 3 2) }
    ensures item { IsFirstDifference (Sources (pos 5 ∷ pos 2 ∷ pos 5 ∷ [])) (Sources (pos 5 ∷ pos 3 ∷ pos 5 ∷ []))
        (Verdict.Item 2) }
    ensures query_length { IsFirstDifference (Queries ((pos 1, pos 9) ∷ []))
        (Queries ((pos 1, pos 9) ∷ (pos 1, pos 9) ∷ [])) (Verdict.Length 1 2) }
    ensures query { IsFirstDifference (Queries ((pos 9, pos 1) ∷ (pos 1, pos 9) ∷ []))
        (Queries ((pos 1, pos 9) ∷ (pos 9, pos 1) ∷ [])) (Verdict.Item 1) }
    ensures missing_point { IsFirstDifference (Coordinates ((pos 2, (pos 0, pos 0)) ∷ []))
        (Coordinates ((pos 1, (pos 0, pos 0)) ∷ (pos 2, (pos 0, pos 0)) ∷ [])) (Verdict.Point (pos 1)) }
    ensures two_points { IsFirstDifference (Coordinates ((pos 3, (pos 4, pos 5)) ∷ (pos 7, (pos 1, pos 2)) ∷ []))
        (Coordinates ((pos 3, (pos 5, pos 4)) ∷ (pos 7, (pos 2, pos 1)) ∷ [])) (Verdict.Point (pos 3)) }
{}
