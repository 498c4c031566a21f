// Reads the numbers of a curve from its shape.
ghost use Rattle.std.specs.Prelude.{◌≡◌, ◌≤◌, ◌+◌, ◌^◌, length, slice_get};
ghost use Rattle.dn_arc_theory.specs.State.Steps.{step_past, has_step};
ghost use Rattle.dn_bundle.specs.State.Shapes.{two_steps};

use crate::cost128::cost_of;
use crate::curve::Curve;
use crate::curve::shape::{Shape, first_of, second_of, step_at};
use crate::steps::StepsIter;

// Returns the breakpoint at `i`, counted from 0, of two.
fn step_of_two(gap: &u16, cost: &i32, free: &(i64, i64), i: u64) -> Option<(i64, i64)>
    ensures { result ≡ slice_get (two_steps gap.now cost.now free.now) i }
{
    if i == 0 {
        Some(first_of(cost, free))
    } else if i == 1 {
        Some(second_of(gap, cost, free))
    } else {
        None
    }
}

// Returns the first of two breakpoints whose cost is above `past`.
#[inline(always)]
fn past_of_two(gap: &u16, cost: &i32, free: &(i64, i64), past: &i64) -> Option<(i64, i64)>
    ensures { result ≡ step_past (two_steps gap.now cost.now free.now) past.now }
{
    let first = first_of(cost, free);
    if *past < first.0 {
        return Some(first);
    }
    let second = second_of(gap, cost, free);
    if *past < second.0 { Some(second) } else { None }
}

impl Curve {
    // Returns the forced units.
    pub(super) fn units(&self) -> i64
        ensures { result ≡ self.now.units }
    {
        match &self.shape {
            Shape::Plain { low, .. } => i64::from(*low),
            Shape::Two { .. } => 0,
            Shape::Full(numbers) => numbers.units,
        }
    }

    // Returns the cost of the forced units.
    pub(super) fn cost(&self) -> i128
        ensures { result ≡ self.now.cost }
    {
        match &self.shape {
            Shape::Plain { low, cost, .. } => cost_of(&i64::from(*low), cost),
            Shape::Two { .. } => 0,
            Shape::Full(numbers) => numbers.cost,
        }
    }

    // Returns the total capacity.
    pub(super) fn total(&self) -> i64
        ensures { result ≡ self.now.total }
    {
        match &self.shape {
            Shape::Plain { low, free, .. } => i64::from(*low) + *free,
            Shape::Two { free, .. } => free.0 + free.1,
            Shape::Full(numbers) => numbers.total,
        }
    }

    // Returns how many different costs have free capacity.
    pub(super) fn steps_len(&self) -> u64
        ensures len { result ≡ length self.now.steps }
        ensures small { result ≤ 2 ^ 63 + 3 }
    {
        match &self.shape {
            Shape::Plain { free, .. } => { if 0 < *free { 1 } else { 0 } }
            Shape::Two { .. } => 2,
            Shape::Full(numbers) => numbers.steps.len(),
        }
    }

    // Returns the least cost that has free capacity, and the capacity at it.
    pub(super) fn first_step(&self) -> Option<(i64, i64)>
        ensures { result ≡ slice_get self.now.steps 0 }
    {
        match &self.shape {
            Shape::Plain { cost, free, .. } => step_at(cost, free),
            Shape::Two { cost, free, .. } => Some(first_of(cost, free)),
            Shape::Full(numbers) => numbers.steps.first(),
        }
    }

    // Returns the breakpoint at `i`, counted from 0 by ascending cost.
    pub(super) fn step(&self, i: u64) -> Option<(i64, i64)>
        ensures { result ≡ slice_get self.now.steps i }
    {
        match &self.shape {
            Shape::Plain { cost, free, .. } => { if i == 0 { step_at(cost, free) } else { None } }
            Shape::Two { gap, cost, free } => step_of_two(gap, cost, free, i),
            Shape::Full(numbers) => numbers.steps.get(i),
        }
    }

    // Returns the first breakpoint whose cost is above `past`.
    #[inline(always)]
    pub(super) fn step_past(&self, past: &i64) -> Option<(i64, i64)>
        ensures { result ≡ step_past self.now.steps past.now }
    {
        match &self.shape {
            Shape::Plain { cost, free, .. } => {
                if *past < *cost {
                    step_at(cost, free)
                } else {
                    None
                }
            }
            Shape::Two { gap, cost, free } => past_of_two(gap, cost, free, past),
            Shape::Full(numbers) => numbers.steps.past(past),
        }
    }

    // Whether there is free capacity at this cost.
    pub(super) fn has_step(&self, at: &i64) -> bool
        ensures { result ≡ has_step self.now.steps at.now }
    {
        match &self.shape {
            Shape::Plain { cost, free, .. } => *at == *cost && 0 < *free,
            Shape::Two { gap, cost, free } => *at == first_of(cost, free).0
                || *at == second_of(gap, cost, free).0,
            Shape::Full(numbers) => numbers.steps.has(at),
        }
    }

    // Iterates over the breakpoints by ascending cost.
    pub(super) fn steps(&self) -> StepsIter<'_>
        ensures { result ≡ self.now.steps }
    {
        match &self.shape {
            Shape::Plain { cost, free, .. } => StepsIter::of(step_at(cost, free)),
            Shape::Two { gap, cost, free } => StepsIter::of_two(
                first_of(cost, free),
                second_of(gap, cost, free),
            ),
            Shape::Full(numbers) => numbers.steps.iter(),
        }
    }
}
