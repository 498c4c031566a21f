// Sums and quotients of costs of 128 bits.
ghost use Rattle.std.specs.Prelude.{◌≡◌, pos, ◌+ℤ◌, ◌*ℤ◌, ◌<ℤ◌, FitsSigned};
ghost use Rattle.std.specs.Int.{w128};
ghost use Rattle.dn_arc_theory.specs.State.Means.{IsMean, IsFloor};

/// Returns `all` plus the cost of `units` more units at `cost` each.
pub(crate) fn more_cost(all: &i128, units: &i64, cost: &i64) -> i128
    requires { FitsSigned w128 (all.now +ℤ (units.now *ℤ cost.now)) }
    ensures { result ≡ all.now +ℤ (units.now *ℤ cost.now) }
{
    *all + *units as i128 * *cost as i128
}

/// Returns the cost of these units at `cost` each.
pub(crate) fn cost_of(units: &i64, cost: &i64) -> i128
    ensures { result ≡ units.now *ℤ cost.now }
{
    *units as i128 * *cost as i128
}

/// Returns the mean cost of these units, rounded down, and how many of them cost one more.
pub(crate) fn floor(cost: &i128, units: &i64) -> (i64, i64)
    requires unit { pos 0 <ℤ units.now }
    requires mean { IsMean cost.now units.now }
    ensures { IsFloor cost.now units.now result.0 result.1 }
{
    // Division of 64 bits is faster.
    if let Ok(cost) = i64::try_from(*cost) {
        return (cost.div_euclid(*units), cost.rem_euclid(*units));
    }
    let each = cost.div_euclid(*units as i128) as i64;
    let rest = cost.rem_euclid(*units as i128) as i64;
    (each, rest)
}
