// Worked examples of answers.
ghost use Rattle.std.specs.Prelude.{ℤ, pos, List};
ghost use Rattle.dn_instance.specs.Instances.{MinCostFlow, MaxFlow, ShortestPaths};
ghost use Rattle.dn_answers.specs.Walks.{HasWalkWithin, IsDistance};
ghost use Rattle.dn_answers.specs.MaxFlows.{IsGreatestValue};
ghost use Rattle.dn_answers.specs.MinCostFlows.{IsFeasible, IsLeastCost};
ghost use Rattle.dn_answers.specs.Answers.{HaveSameAnswers};
ghost use Rattle.dn_answers.specs.Examples.{three_lengths, three_caps, three_costs, three_units, there_and_back, negative_cycle, returning_caps, forced_costs, two_units, five_units, unbalanced};

/// Graphs of the nodes 1, 2 and 3. The distance from 1 to 3 is 4 + 1, through 2. A flow from 1 to 3 has 2 units through
/// 2, and 1 unit on the arc from 1 to 3. Of three units, the two through 2 cost 3 each, and the third costs 4.
pub fn three_nodes()
    ensures lengths { IsDistance three_lengths (pos 1) (pos 3) (pos 5) }
    ensures capacities { IsGreatestValue (pos 1) (pos 3) three_caps (pos 3) }
    ensures costs { IsLeastCost three_units three_costs (pos 10) }
{}

/// Graphs whose answers a plausible wrong definition would change. An arc does not lead backwards, or the distance
/// would be 1. Units that return to the source do not count, or the greatest value would be 3. An arc carries at least
/// its LOW, or the least cost would be 2.
pub fn easily_mistaken()
    ensures lengths { IsDistance there_and_back (pos 1) (pos 2) (pos 5) }
    ensures capacities { IsGreatestValue (pos 1) (pos 3) returning_caps (pos 1) }
    ensures costs { IsLeastCost two_units forced_costs (pos 6) }
{}

/// Problems without an answer. There is no distance to a node that is not reached, and none if walks pass a cycle of
/// negative length. No flow is feasible if more units are supplied than the capacities allow, or if the supplies do not
/// sum to 0.
pub fn no_answers()
    ensures unreached { (bound : ℤ) → HasWalkWithin three_lengths (pos 3) (pos 1) bound → ⊥ }
    ensures cycle { (d : ℤ) → IsDistance negative_cycle (pos 1) (pos 2) d → ⊥ }
    ensures capacity { (flow : List ℤ) → IsFeasible five_units forced_costs flow → ⊥ }
    ensures balance { (flow : List ℤ) → IsFeasible unbalanced forced_costs flow → ⊥ }
{}

/// Problems whose answers differ: only one of two graphs has a distance from 1 to 2, two greatest values are 3 and 1,
/// two units can be sent and five cannot, and two problems are of different kinds.
pub fn different_answers()
    ensures lengths { HaveSameAnswers (ShortestPaths there_and_back) (ShortestPaths negative_cycle) → ⊥ }
    ensures capacities { HaveSameAnswers (MaxFlow (pos 1) (pos 3) three_caps) (MaxFlow (pos 1) (pos 3) returning_caps)
        → ⊥ }
    ensures costs { HaveSameAnswers (MinCostFlow two_units forced_costs) (MinCostFlow five_units forced_costs) → ⊥ }
    ensures kinds { HaveSameAnswers (ShortestPaths three_lengths) (MaxFlow (pos 1) (pos 3) three_caps) → ⊥ }
{}
