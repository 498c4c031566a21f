// How a curve stores its numbers, and how it adds an arc to them.
ghost use Rattle.std.specs.Prelude.{◌≡◌, ℕ, ℤ, pos, ◌+ℤ◌, ◌<ℤ◌, [], ◌∷◌, None, FitsSigned, OnOk, OnErr, IfOk, IsTrue, false};
ghost use Rattle.std.specs.Int.{w64};
ghost use Rattle.std.specs.Option.{ForSome};
ghost use Rattle.dn_arc_theory.specs.Canonical.{IsCostArc};
ghost use Rattle.dn_bundle.specs.State.Shapes.{one_step, plain, two, free_numbers, shape_numbers, AreSound, IsGrown, LeavesPlain, NeedRoom, StaysPlain};

use crate::cost128::{cost_of, more_cost};
use crate::steps::Steps;
use dn_arc_theory::CostArc;
use std::alloc::{AllocError, Global};

/// The numbers of a curve.
#[derive(Drop)]
pub(crate) struct Numbers {
    /// The forced units.
    pub(crate) units: i64,
    /// The cost of the forced units.
    pub(crate) cost: i128,
    /// The total capacity.
    pub(crate) total: i64,
    /// The free capacity by ascending cost.
    pub(crate) steps: Steps,
}

/// The numbers of a curve with one cost. A shape has them as fields of its own, since its tag then lies where the
/// alignment leaves room, which makes an entry 8 bytes shorter.
#[derive(Clone, Copy)]
pub(crate) struct OneCost {
    /// The forced units.
    pub(crate) low: u32,
    /// The cost of each forced unit, and the only cost with free capacity.
    pub(crate) cost: i64,
    /// The free capacity.
    pub(crate) free: i64,
}

/// The numbers of a curve without forced units and with free capacity at two costs.
#[derive(Clone, Copy)]
pub(crate) struct TwoCosts {
    /// How much higher the second cost is.
    pub(crate) gap: u16,
    /// The first cost.
    pub(crate) cost: i32,
    /// The free capacity at each cost.
    pub(crate) free: (i64, i64),
}

/// How a curve stores its numbers. A curve with one cost and few forced units, as most pairs have, needs no allocation,
/// nor does one with two costs and no forced units. Each holds more capacity at the costs that it has, since an arc
/// needs memory only if it makes an entry or spreads the forced units.
#[derive(Drop)]
pub(crate) enum Shape {
    Plain {
        low: u32,
        cost: i64,
        free: i64,
    },
    Two {
        gap: u16,
        cost: i32,
        free: (i64, i64),
    },
    Full(Box<Numbers>),
}

/// Returns the breakpoint of free capacity at one cost, if there is any.
#[inline(always)]
pub(crate) fn step_at(cost: &i64, free: &i64) -> Option<(i64, i64)>
    ensures { result ≡ one_step cost.now free.now }
{
    if 0 < *free {
        Some((*cost, *free))
    } else {
        None
    }
}

/// Returns the first breakpoint of two.
#[inline(always)]
pub(crate) fn first_of(cost: &i32, free: &(i64, i64)) -> (i64, i64)
    ensures { result ≡ (cost.now, free.now.0) }
{
    (i64::from(*cost), free.0)
}

/// Returns the second breakpoint of two.
#[inline(always)]
pub(crate) fn second_of(gap: &u16, cost: &i32, free: &(i64, i64)) -> (i64, i64)
    ensures { result ≡ (cost.now +ℤ pos gap.now, free.now.1) }
{
    (i64::from(*cost) + i64::from(*gap), free.1)
}

// Returns the shape of two breakpoints without forced units, if their costs fit.
fn two_of(least: &(i64, i64), other: &(i64, i64)) -> Option<Shape>
    requires { least.now.0 <ℤ other.now.0 }
    ensures { ForSome result (λ shape. shape_numbers shape ≡ free_numbers (least.now ∷ other.now ∷ [])) }
{
    let gap = u16::try_from(other.0.checked_sub(least.0)?).ok()?;
    let cost = i32::try_from(least.0).ok()?;
    Some(Shape::Two {
        gap,
        cost,
        free: (least.1, other.1),
    })
}

impl OneCost {
    // Returns a shape with these numbers.
    #[inline(always)]
    fn shape(&self) -> Shape
        ensures { result ≡ plain self.now }
    {
        Shape::Plain {
            low: self.low,
            cost: self.cost,
            free: self.free,
        }
    }

    // Whether the numbers with this arc are of this kind too. A false result affects only the speed and the memory.
    fn takes(&self, arc: &CostArc) -> bool
        ensures stays { IsTrue result → StaysPlain self.now arc.now }
        ensures leaves { result ≡ false → LeavesPlain self.now arc.now }
    {
        if i64::from(u32::MAX - self.low) < arc.low {
            return false;
        }
        arc.cost == self.cost || (self.low == 0 && self.free == 0)
    }

    // Returns the numbers with an arc that they take.
    fn with(&self, arc: &CostArc) -> OneCost
        requires sound { AreSound (shape_numbers (plain self.now)) }
        requires arc { IsCostArc arc.now }
        requires fits { FitsSigned w64 ((shape_numbers (plain self.now)).total +ℤ arc.now.cap) }
        requires stays { StaysPlain self.now arc.now }
        ensures { IsGrown (shape_numbers (plain self.now)) arc.now (shape_numbers (plain result)) }
    {
        OneCost {
            low: self.low + arc.low as u32,
            cost: arc.cost,
            free: self.free + (arc.cap - arc.low),
        }
    }

    // Returns the shape of two costs that these numbers have with an arc, if there is one. `None` affects only the
    // speed and the memory.
    fn two_with(&self, arc: &CostArc) -> Option<Shape>
        requires sound { AreSound (shape_numbers (plain self.now)) }
        requires arc { IsCostArc arc.now }
        ensures { ForSome result (λ shape. IsGrown (shape_numbers (plain self.now)) arc.now (shape_numbers shape)) }
    {
        if self.low != 0 || arc.low != 0 || self.free < 1 || arc.cap < 1 {
            return None;
        }
        if arc.cost < self.cost {
            two_of(&(arc.cost, arc.cap), &(self.cost, self.free))
        } else if self.cost < arc.cost {
            two_of(&(self.cost, self.free), &(arc.cost, arc.cap))
        } else {
            None
        }
    }
}

impl TwoCosts {
    // Returns a shape with these numbers.
    #[inline(always)]
    fn shape(&self) -> Shape
        ensures { result ≡ two self.now }
    {
        Shape::Two {
            gap: self.gap,
            cost: self.cost,
            free: self.free,
        }
    }

    // Returns the numbers with an arc, if it adds only to the free capacity at these costs.
    fn with(&self, arc: &CostArc) -> Option<TwoCosts>
        requires sound { AreSound (shape_numbers (two self.now)) }
        requires arc { IsCostArc arc.now }
        requires some { pos 0 <ℤ arc.now.cap }
        requires fits { FitsSigned w64 ((shape_numbers (two self.now)).total +ℤ arc.now.cap) }
        ensures grown { ForSome result (λ n. IsGrown (shape_numbers (two self.now)) arc.now (shape_numbers (two n))) }
        ensures leaves { result ≡ None → NeedRoom (shape_numbers (two self.now)) arc.now }
    {
        if arc.low != 0 {
            return None;
        }
        let first = first_of(&self.cost, &self.free);
        if arc.cost == first.0 {
            let free = (self.free.0 + arc.cap, self.free.1);
            return Some(TwoCosts { free, ..*self });
        }
        let second = second_of(&self.gap, &self.cost, &self.free);
        if arc.cost == second.0 {
            let free = (self.free.0, self.free.1 + arc.cap);
            return Some(TwoCosts { free, ..*self });
        }
        None
    }
}

impl Numbers {
    // Adds an arc, with which the total capacity is `total`. After an error, nothing has changed.
    fn add(&mut self, arc: CostArc, total: i64) -> Result<(), AllocError>
        requires sound { AreSound self.old }
        requires arc { IsCostArc arc }
        requires total { total ≡ self.old.total +ℤ arc.cap }
        ensures ok { OnOk result (IsGrown self.old arc self.new) }
        ensures err { OnErr result (self.new ≡ self.old) }
        ensures memory { OnErr result (NeedRoom self.old arc) }
    {
        self.steps.add((arc.cost, arc.cap - arc.low))?;
        self.cost = more_cost(&self.cost, &arc.low, &arc.cost);
        self.units += arc.low;
        self.total = total;
        Ok(())
    }
}

// Makes the numbers of forced units and free capacity at one cost, and adds an arc, with which the total capacity is
// `total`.
fn full_with(
    alloc: Global,
    one: OneCost,
    arc: CostArc,
    total: i64,
) -> Result<Box<Numbers>, AllocError>
    requires sound { AreSound (shape_numbers (plain one)) }
    requires arc { IsCostArc arc }
    requires total { total ≡ (shape_numbers (plain one)).total +ℤ arc.cap }
    ensures { IfOk result (λ numbers. IsGrown (shape_numbers (plain one)) arc numbers.value) }
{
    let units = i64::from(one.low);
    let mut numbers = Numbers {
        units,
        cost: cost_of(&units, &one.cost),
        total: units + one.free,
        steps: Steps::of(alloc, step_at(&one.cost, &one.free)),
    };
    numbers.add(arc, total)?;
    Ok(Box::new(alloc, numbers)?)
}

// Makes the numbers of free capacity at two costs, and adds an arc, with which the total capacity is `total`.
fn full_with_two(
    alloc: Global,
    held: TwoCosts,
    arc: CostArc,
    total: i64,
) -> Result<Box<Numbers>, AllocError>
    requires sound { AreSound (shape_numbers (two held)) }
    requires arc { IsCostArc arc }
    requires total { total ≡ (shape_numbers (two held)).total +ℤ arc.cap }
    ensures { IfOk result (λ numbers. IsGrown (shape_numbers (two held)) arc numbers.value) }
{
    let first = first_of(&held.cost, &held.free);
    let second = second_of(&held.gap, &held.cost, &held.free);
    let mut numbers = Numbers {
        units: 0,
        cost: 0,
        total: held.free.0 + held.free.1,
        steps: Steps::of_two(alloc, first, second),
    };
    numbers.add(arc, total)?;
    Ok(Box::new(alloc, numbers)?)
}

// Returns the shape of numbers of one cost with an arc that they cannot take, with which the total capacity is `total`.
#[inline(never)]
fn past_one(alloc: Global, one: OneCost, arc: CostArc, total: i64) -> Result<Shape, AllocError>
    requires sound { AreSound (shape_numbers (plain one)) }
    requires arc { IsCostArc arc }
    requires total { total ≡ (shape_numbers (plain one)).total +ℤ arc.cap }
    requires some { arc.cap ≡ pos 0 → ⊥ }
    requires leaves { LeavesPlain one arc }
    ensures ok { IfOk result (λ shape. IsGrown (shape_numbers (plain one)) arc (shape_numbers shape)) }
    ensures memory { OnErr result (NeedRoom (shape_numbers (plain one)) arc) }
{
    if let Some(shape) = one.two_with(&arc) {
        return Ok(shape);
    }
    Ok(Shape::Full(full_with(alloc, one, arc, total)?))
}

// Returns the shape of numbers of two costs with an arc, with which the total capacity is `total`.
fn add_to_two(alloc: Global, held: TwoCosts, arc: CostArc, total: i64) -> Result<Shape, AllocError>
    requires sound { AreSound (shape_numbers (two held)) }
    requires arc { IsCostArc arc }
    requires total { total ≡ (shape_numbers (two held)).total +ℤ arc.cap }
    ensures ok { IfOk result (λ shape. IsGrown (shape_numbers (two held)) arc (shape_numbers shape)) }
    ensures memory { OnErr result (NeedRoom (shape_numbers (two held)) arc) }
{
    if arc.cap == 0 {
        return Ok(held.shape());
    }
    if let Some(more) = held.with(&arc) {
        return Ok(more.shape());
    }
    Ok(Shape::Full(full_with_two(alloc, held, arc, total)?))
}

impl Shape {
    /// Reads numbers that lie in memory of their own, or returns 0 if there are none. Hint.
    #[inline(always)]
    pub(crate) fn touch(&self) -> i64 {
        match self {
            Shape::Plain { .. } | Shape::Two { .. } => 0,
            Shape::Full(numbers) => numbers.total ^ numbers.steps.touch(),
        }
    }

    // Returns the numbers of a plain shape, and of another shape any numbers.
    #[inline(always)]
    fn one(&self) -> OneCost
        ensures { (low : ℕ) (cost free : ℤ) → self.now ≡ Shape.Plain low cost free → self.now ≡ plain result }
    {
        match self {
            Shape::Plain { low, cost, free } => OneCost {
                low: *low,
                cost: *cost,
                free: *free,
            },
            _ => OneCost {
                low: 0,
                cost: 0,
                free: 0,
            },
        }
    }

    // Returns the numbers of a shape of two costs, and of another shape any numbers.
    #[inline(always)]
    fn two(&self) -> TwoCosts
        ensures { (gap : ℕ) (cost : ℤ) (free : ℤ × ℤ) → self.now ≡ Shape.Two gap cost free → self.now ≡ two result }
    {
        match self {
            Shape::Two { gap, cost, free } => TwoCosts {
                gap: *gap,
                cost: *cost,
                free: *free,
            },
            _ => TwoCosts {
                gap: 0,
                cost: 0,
                free: (0, 0),
            },
        }
    }

    /// Adds an arc, with which the total capacity is `total`. After an error, nothing has changed.
    pub(crate) fn add(&mut self, alloc: Global, arc: CostArc, total: i64) -> Result<(), AllocError>
        requires sound { AreSound (shape_numbers self.old) }
        requires arc { IsCostArc arc }
        requires total { total ≡ (shape_numbers self.old).total +ℤ arc.cap }
        ensures ok { OnOk result (IsGrown (shape_numbers self.old) arc (shape_numbers self.new)) }
        ensures err { OnErr result (shape_numbers self.new ≡ shape_numbers self.old) }
        ensures memory { OnErr result (NeedRoom (shape_numbers self.old) arc) }
    {
        match self {
            Shape::Full(numbers) => numbers.add(arc, total),
            Shape::Plain { .. } => {
                if arc.cap == 0 {
                    return Ok(());
                }
                let one = self.one();
                if one.takes(&arc) {
                    *self = one.with(&arc).shape();
                    return Ok(());
                }
                *self = past_one(alloc, one, arc, total)?;
                Ok(())
            }
            Shape::Two { .. } => {
                let held = self.two();
                *self = add_to_two(alloc, held, arc, total)?;
                Ok(())
            }
        }
    }
}
