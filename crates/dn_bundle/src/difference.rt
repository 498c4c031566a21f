// Finds the first gap between the breakpoints of two curves.
ghost use Rattle.std.specs.Prelude.{◌≡◌, ◌-◌, ◌^◌, pos, negsuc, ◌+ℤ◌, ◌*ℤ◌, ◌≤ℤ◌, ◌<ℤ◌};
ghost use Rattle.dn_arc_theory.specs.State.Means.{IsMean};
ghost use Rattle.dn_bundle.specs.State.Gaps.{unit_cost, gap_next, parted, first_gap, ArePart, AreWalks};

use crate::cost128::more_cost;
use crate::steps::StepsIter;
use dn_arc_theory::Gap;

// Returns the first gap above `amount`, given the remaining breakpoints of two curves on which `amount` has this cost.
pub(crate) fn first_gap(
    amount: i64,
    cost: i128,
    left: StepsIter<'_>,
    right: StepsIter<'_>,
) -> Option<Gap>
    requires { AreWalks amount cost left right }
    ensures { result ≡ first_gap amount cost left.entry right.entry }
{
    let mut amount = amount;
    let mut cost = cost;
    let mut left = left;
    let mut right = right;
    while let Some(l) = left.next() {
        let Some(r) = right.next() else {
            return Some(further(&amount, &cost, Some(l), None));
        };
        if l != r {
            return Some(parted(&amount, &cost, l, r, left.next(), right.next()));
        }
        cost = more_cost(&cost, &l.1, &l.0);
        amount += l.1;
    }
    match right.next() {
        Some(r) => Some(further(&amount, &cost, None, Some(r))),
        None => None,
    }
}

// Returns the cost plus that of one unit at a breakpoint, if there is one.
fn with_unit(cost: &i128, step: Option<(i64, i64)>) -> Option<i128>
    requires low { negsuc (2 ^ 126 - 1) ≤ℤ cost.now }
    requires high { cost.now ≤ℤ pos (2 ^ 126) }
    ensures { result ≡ unit_cost cost.now step }
{
    match step {
        Some(step) => Some(*cost + step.0 as i128),
        None => None,
    }
}

// Returns the gap at the next amount, given the next breakpoint on each side.
fn further(amount: &i64, cost: &i128, left: Option<(i64, i64)>, right: Option<(i64, i64)>) -> Gap
    requires some { pos 0 ≤ℤ amount.now }
    requires most { amount.now <ℤ pos (2 ^ 63 - 1) }
    requires mean { IsMean cost.now amount.now }
    ensures { result ≡ gap_next amount.now cost.now left right }
{
    Gap {
        amount: *amount + 1,
        left: with_unit(cost, left),
        right: with_unit(cost, right),
    }
}

// Returns the gap at the first amount beyond the capacity of a breakpoint, given the next breakpoint on each side.
fn past_step(
    amount: &i64,
    cost: &i128,
    step: &(i64, i64),
    left: Option<(i64, i64)>,
    right: Option<(i64, i64)>,
) -> Gap
    requires some { pos 0 ≤ℤ amount.now }
    requires room { pos 1 ≤ℤ step.now.1 }
    requires most { (amount.now +ℤ step.now.1) <ℤ pos (2 ^ 63 - 1) }
    requires mean { IsMean cost.now amount.now }
    ensures { result ≡ gap_next (amount.now +ℤ step.now.1) (cost.now +ℤ (step.now.1 *ℤ step.now.0)) left right }
{
    further(
        &(*amount + step.1),
        &more_cost(cost, &step.1, &step.0),
        left,
        right,
    )
}

// Returns the gap at two breakpoints that differ, given the breakpoints after them.
fn parted(
    amount: &i64,
    cost: &i128,
    l: (i64, i64),
    r: (i64, i64),
    left: Option<(i64, i64)>,
    right: Option<(i64, i64)>,
) -> Gap
    requires { ArePart amount.now cost.now l r }
    ensures { result ≡ parted amount.now cost.now l r left right }
{
    if l.0 != r.0 {
        further(amount, cost, Some(l), Some(r))
    } else if l.1 < r.1 {
        past_step(amount, cost, &l, left, Some(r))
    } else {
        past_step(amount, cost, &r, Some(l), right)
    }
}
