// Cost curves: the least cost of each amount.
ghost use Rattle.std.specs.Prelude.{◌≡◌, ◌+ℤ◌, [], ◌∷◌, ◌++◌, length, filter, slice_get, OnOk, OnErr, refl, true};
ghost use Rattle.std.specs.Option.{option_map};
ghost use Rattle.dn_arc_theory.specs.Kinds.{costs};
ghost use Rattle.dn_arc_theory.specs.Meanings.{SameCurve};
ghost use Rattle.dn_arc_theory.specs.Canonical.{IsCostArc, has_low};
ghost use Rattle.dn_arc_theory.specs.Fillings.{forced_units, forced_cost};
ghost use Rattle.dn_arc_theory.specs.Entries.{free_costs};
ghost use Rattle.dn_arc_theory.specs.Differences.{IsCostOf};
ghost use Rattle.dn_arc_theory.specs.State.CurveListed.{listed, fixed_arcs, step_arc, fixed_list, HasNext, is_free};
ghost use Rattle.dn_bundle.specs.State.Gaps.{IsGapOf};
ghost use Rattle.dn_bundle.specs.State.Shapes.{shape_numbers, AreSound, NeedsRoom};
ghost use Rattle.dn_arc_theory.specs.Differences.{CurvesDiffer};
ghost use Rattle.dn_arc_theory.specs.State.Sizes.{cost_sizes};
ghost use Rattle.dn_arc_theory.proofs.SoundLaws.{IsSound-prop, sound_canonical, sound_same, sound_fit};
ghost use Rattle.dn_arc_theory.proofs.CostKindLaws.{cost_kind, cost_sized, cost_differs};
ghost use Rattle.dn_arc_theory.specs.declared.arc.Form.{Form};
ghost use Rattle.dn_arc_theory.specs.declared.difference.How.TheVariants.{Costs};
ghost use Rattle.dn_bundle.specs.State.Listings.{curve_arcs, form_one_arcs};

use crate::cost128::{floor, more_cost};
use crate::curve::shape::Shape;
use crate::difference::first_gap;
use dn_arc_theory::{CostArc, Fixed, Form, Gap, How};
use dn_bundle_trait::{Bundle, BundleFault};
use std::alloc::{AllocError, Global};
use std::marker::Model;

mod canon_arcs;
mod numbers;
mod shape;

/// The cost curve of the arcs of a `min` pair: the least cost of each amount that can be split among them.
#[derive(Drop)]
pub struct Curve {
    // Allocates the numbers once the shape needs them.
    alloc: Global,
    shape: Shape,
    ghost sound: { AreSound (shape_numbers shape) } by { IsSound-prop _ _ _ _ },
}

impl Model for Curve {
    ghost use Rattle.dn_arc_theory.specs.State.Curves.{CurveNumbers};
    ghost use Rattle.dn_arc_theory.proofs.StoredLaws.{curve_code};

    ghost Value = { CurveNumbers };

    ghost coded = { curve_code };

    ghost use Rattle.dn_bundle.specs.State.Shapes.{curve_of};

    ghost view = { λ a. curve_of a.shape a.sound };
}

impl Curve {
    /// Returns the forced units L and their cost F.
    pub fn forced(&self) -> (i64, i128)
        ensures units { result.0 ≡ forced_units (form_one_arcs self.now) }
        ensures cost { result.1 ≡ forced_cost (form_one_arcs self.now) }
    {
        (self.units(), self.cost())
    }

    /// Returns the fixed arcs of form 1.
    pub fn fixed(&self) -> Fixed
        ensures { fixed_list result ≡ filter has_low (form_one_arcs self.now) }
    {
        self.spread()
    }

    /// Returns how many different costs have free capacity.
    pub fn free_len(&self) -> u64
        ensures arcs { result ≡ length (filter is_free (form_one_arcs self.now)) }
        ensures costs { result ≡ length (free_costs (form_one_arcs self.now)) }
    {
        self.steps_len()
    }

    /// Returns the cost and the capacity of the free arc at `i`, counted from 0 by ascending cost.
    pub fn free(&self, i: u64) -> Option<(i64, i64)>
        ensures { option_map step_arc result ≡ slice_get (filter is_free (form_one_arcs self.now)) i }
    {
        self.step(i)
    }

    /// Returns the least cost of the amount `x`, or `None` if it cannot be split.
    pub fn least(&self, x: i64) -> Option<i128>
        ensures { IsCostOf (form_one_arcs self.now) x result }
    {
        let units = self.units();
        if x < units {
            return None;
        }
        let mut taken = units;
        let mut cost = self.cost();
        for step in self.steps() {
            let left = x - taken;
            if left <= step.1 {
                return Some(more_cost(&cost, &left, &step.0));
            }
            cost = more_cost(&cost, &step.1, &step.0);
            taken += step.1;
        }
        if x == taken { Some(cost) } else { None }
    }

    /// Returns the least amount at which the curves differ and its least cost on each side, or `None` if the curves are
    /// the same.
    pub fn gap(&self, other: &Curve) -> Option<Gap>
        ensures { IsGapOf (form_one_arcs self.now) (form_one_arcs other.now) result }
    {
        let left = self.units();
        let right = other.units();
        let left_cost = self.cost();
        let right_cost = other.cost();
        if left < right {
            Some(Gap {
                amount: left,
                left: Some(left_cost),
                right: None,
            })
        } else if right < left {
            Some(Gap {
                amount: right,
                left: None,
                right: Some(right_cost),
            })
        } else if left_cost != right_cost {
            Some(Gap {
                amount: left,
                left: Some(left_cost),
                right: Some(right_cost),
            })
        } else {
            first_gap(left, left_cost, self.steps(), other.steps())
        }
    }

    // Returns the gap between this curve and the curve of no arcs, on the right. This is separate from `gap` because an
    // empty curve needs an allocator.
    fn gap_to_none(&self) -> Option<Gap>
        ensures { IsGapOf (listed Form.One self.now.units self.now.cost self.now.steps) [] result }
    {
        if self.units() != 0 {
            return Some(Gap {
                amount: 0,
                left: None,
                right: Some(0),
            });
        }
        let step = self.first_step()?;
        Some(Gap {
            amount: 1,
            left: Some(step.0 as i128),
            right: None,
        })
    }

    // Returns the gap between the curve of no arcs, on the left, and this curve.
    fn gap_from_none(&self) -> Option<Gap>
        ensures { IsGapOf [] (listed Form.One self.now.units self.now.cost self.now.steps) result }
    {
        let gap = self.gap_to_none()?;
        Some(Gap {
            amount: gap.amount,
            left: gap.right,
            right: gap.left,
        })
    }

    // Returns the fixed arcs.
    #[inline(always)]
    fn spread(&self) -> Fixed
        ensures value { fixed_list result ≡ fixed_arcs self.now.units self.now.cost }
        ensures next { HasNext result }
    {
        let units = self.units();
        if units == 0 {
            return Fixed::Zero;
        }
        let cost = self.cost();
        let (each, rest) = floor(&cost, &units);
        if rest == 0 {
            Fixed::One { units, cost: each }
        } else {
            Fixed::Two {
                units: units - rest,
                cost: each,
                above: rest,
            }
        }
    }

    // Adds an arc, with which the total capacity is `total`.
    fn grow(&mut self, arc: CostArc, total: i64) -> Result<(), AllocError>
        requires arc { IsCostArc arc }
        requires total { total ≡ self.old.total +ℤ arc.cap }
        ensures ok { OnOk result (SameCurve (curve_arcs Form.One self.new) (curve_arcs Form.One self.old ++ arc ∷ [])) }
        ensures err { OnErr result (self.new ≡ self.old) }
        ensures memory { OnErr result (NeedsRoom self.old.units self.old.cost self.old.steps arc) }
    {
        if let Err(fault) = self.shape.add(self.alloc, arc, total) {
            return Err(fault);
        }
        Ok(())
    }
}

// Makes a difference of a gap.
fn by_costs(gap: Option<Gap>) -> Option<How>
    ensures { result ≡ option_map Costs gap }
{
    match gap {
        Some(gap) => Some(How::Costs(gap)),
        None => None,
    }
}

impl Bundle for Curve {
    type Arc = CostArc;

    ghost bundle = { record {
      kind = costs;
      sizes = cost_sizes;
      Differ = CurvesDiffer;
      listed = curve_arcs;
      wants_memory = true;
    } };

    ghost laws = { cost_kind };

    ghost sized = { cost_sized };

    ghost differs = { cost_differs };

    ghost canonical = { λ form b. sound_canonical b.units b.cost b.total b.steps b.sound form };

    ghost same_forms = { λ b. sound_same b.units b.cost b.total b.steps b.sound };

    ghost fit = { λ form b. sound_fit b.units b.cost b.total b.steps b.sound form };

    ghost same_numbers = { λ a. refl };

    fn of(alloc: Global, arc: CostArc) -> Result<Option<Curve>, AllocError> {
        let mut curve = Curve {
            alloc,
            shape: Shape::Plain {
                low: 0,
                cost: 0,
                free: 0,
            },
        };
        curve.grow(arc, arc.cap)?;
        if curve.total() == 0 {
            return Ok(None);
        }
        Ok(Some(curve))
    }

    fn is_arc(arc: &CostArc) -> bool {
        0 <= arc.low && arc.low <= arc.cap
    }

    #[inline(always)]
    fn add(&mut self, arc: CostArc) -> Result<(), BundleFault> {
        let Some(total) = self.total().checked_add(arc.cap) else {
            return Err(BundleFault::Sum);
        };
        match self.grow(arc, total) {
            Ok(()) => Ok(()),
            Err(_) => Err(BundleFault::Memory),
        }
    }

    fn how(left: Option<&Curve>, right: Option<&Curve>) -> Option<How> {
        match (left, right) {
            (None, None) => None,
            (Some(left), None) => by_costs(left.gap_to_none()),
            (None, Some(right)) => by_costs(right.gap_from_none()),
            (Some(left), Some(right)) => by_costs(left.gap(right)),
        }
    }

    fn touch(&self) -> i64 {
        self.shape.touch()
    }

    fn entries(&self) -> u64 {
        let forced: u64 = if self.units() == 0 { 0 } else { 1 };
        forced + self.steps_len()
    }

    #[inline(always)]
    fn canon_len(&self, form: Form) -> u64 {
        match form {
            Form::One => self.len_one(),
            Form::Two => self.len_two(),
        }
    }

    #[inline(always)]
    fn canon_arc(&self, i: u64, form: Form) -> Option<CostArc> {
        let mut arc = self.first_arc(form)?;
        for _k in 0..i {
            arc = self.canon_after(&arc, form)?;
        }
        Some(arc)
    }

    #[inline(always)]
    fn canon_after(&self, arc: &CostArc, form: Form) -> Option<CostArc> {
        match form {
            Form::One => self.after_one(arc),
            Form::Two => self.past_two(&arc.cost),
        }
    }
}
