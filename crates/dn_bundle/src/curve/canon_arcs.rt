// The canonical arcs that a curve lists, in both forms.
ghost use Rattle.std.specs.Prelude.{◌≡◌, ◌+◌, ◌+ℤ◌, length, slice_get, Some, IfSome, Contains, find, cond, int_lt, FitsSigned};
ghost use Rattle.std.specs.Option.{option_map, ForSome};
ghost use Rattle.std.specs.Int.{w64};
ghost use Rattle.dn_arc_theory.specs.State.Bundles.{IsAfter};
ghost use Rattle.dn_arc_theory.specs.State.Steps.{has_step};
ghost use Rattle.dn_bundle.specs.State.Listings.{curve_arcs, form_one_arcs};
ghost use Rattle.dn_arc_theory.specs.State.CurveListed.{fixed_arc, fixed_arcs, step_arc, joined_head};
ghost use Rattle.dn_arc_theory.specs.declared.arc.Form.{Form};

use crate::curve::Curve;
use dn_arc_theory::{CostArc, Fixed, Form};

fn fixed_at(units: i64, cost: i64) -> CostArc
    ensures { result ≡ fixed_arc units cost }
{
    CostArc {
        low: units,
        cap: units,
        cost,
    }
}

fn free_at(step: (i64, i64)) -> CostArc
    ensures { result ≡ step_arc step }
{
    CostArc {
        low: 0,
        cap: step.1,
        cost: step.0,
    }
}

fn free_of(step: Option<(i64, i64)>) -> Option<CostArc>
    ensures { result ≡ option_map step_arc step }
{
    match step {
        Some(step) => Some(free_at(step)),
        None => None,
    }
}

// Returns the first of a fixed arc and the free capacity, by cost. If both have the same cost, they make one arc.
fn join(fixed: CostArc, step: Option<(i64, i64)>) -> CostArc
    requires { ForSome step (λ step. fixed.cost ≡ step.0 → FitsSigned w64 (fixed.cap +ℤ step.1)) }
    ensures { result ≡ joined_head fixed (option_map step_arc step) }
{
    match step {
        None => fixed,
        Some(step) => {
            if step.0 < fixed.cost {
                free_at(step)
            } else if step.0 == fixed.cost {
                CostArc {
                    low: fixed.low,
                    cap: fixed.cap + step.1,
                    cost: step.0,
                }
            } else {
                fixed
            }
        }
    }
}

impl Curve {
    // Returns the first canonical arc.
    #[inline(always)]
    pub(super) fn first_arc(&self, form: Form) -> Option<CostArc>
        ensures { result ≡ slice_get (curve_arcs form self.now) 0 }
    {
        let step = self.first_step();
        let Some(fixed) = self.first_fixed() else {
            return free_of(step);
        };
        match form {
            Form::One => Some(fixed),
            Form::Two => Some(join(fixed, step)),
        }
    }

    // Returns the first fixed arc.
    fn first_fixed(&self) -> Option<CostArc>
        ensures { result ≡ slice_get (fixed_arcs self.now.units self.now.cost) 0 }
    {
        match self.spread() {
            Fixed::Zero => None,
            Fixed::One { units, cost } => Some(fixed_at(units, cost)),
            Fixed::Two { units, cost, .. } => Some(fixed_at(units, cost)),
        }
    }

    // Returns the first fixed arc whose cost is above `past`.
    fn fixed_past(&self, past: &i64) -> Option<CostArc>
        ensures { result ≡ find (λ b. int_lt past.now b.cost) (fixed_arcs self.now.units self.now.cost) }
    {
        match self.spread() {
            Fixed::Zero => None,
            Fixed::One { units, cost } => {
                if *past < cost {
                    Some(fixed_at(units, cost))
                } else {
                    None
                }
            }
            Fixed::Two { units, cost, above } => {
                if *past < cost {
                    Some(fixed_at(units, cost))
                } else if *past == cost {
                    Some(fixed_at(above, cost + 1))
                } else {
                    None
                }
            }
        }
    }

    // Returns how many canonical arcs form 1 has.
    #[inline(always)]
    pub(super) fn len_one(&self) -> u64
        ensures { result ≡ length (form_one_arcs self.now) }
    {
        match self.spread() {
            Fixed::Zero => self.steps_len(),
            Fixed::One { .. } => self.steps_len() + 1,
            Fixed::Two { .. } => self.steps_len() + 2,
        }
    }

    // Returns how many canonical arcs form 2 has.
    pub(super) fn len_two(&self) -> u64
        ensures { result ≡ length (curve_arcs Form.Two self.now) }
    {
        match self.spread() {
            Fixed::Zero => self.steps_len(),
            Fixed::One { cost, .. } => self.steps_len() + self.missing(&cost),
            Fixed::Two { cost, .. } => self.steps_len()
                + self.missing(&cost)
                + self.missing(&(cost + 1)),
        }
    }

    // Returns 1 if there is no free capacity at this cost, and 0 otherwise.
    fn missing(&self, cost: &i64) -> u64
        ensures { result ≡ cond (has_step self.now.steps cost.now) 0 1 }
    {
        if self.has_step(cost) { 0 } else { 1 }
    }

    // Returns the canonical arc of form 1 after this arc, and some canonical arc or `None` if this arc is none.
    #[inline(always)]
    pub(super) fn after_one(&self, arc: &CostArc) -> Option<CostArc>
        ensures after { IsAfter (form_one_arcs self.now) arc.now result }
        ensures listed { IfSome result (Contains (form_one_arcs self.now)) }
    {
        if arc.low == 0 {
            return free_of(self.step_past(&arc.cost));
        }
        match self.fixed_past(&arc.cost) {
            Some(fixed) => Some(fixed),
            None => free_of(self.first_step()),
        }
    }

    // Returns the first canonical arc of form 2 whose cost is above `past`.
    pub(super) fn past_two(&self, past: &i64) -> Option<CostArc>
        ensures { result ≡ find (λ b. int_lt past.now b.cost) (curve_arcs Form.Two self.now) }
    {
        let step = self.step_past(past);
        match self.fixed_past(past) {
            Some(fixed) => Some(join(fixed, step)),
            None => free_of(step),
        }
    }
}
