// The breakpoints of a cost curve: its free capacity by ascending cost.
ghost use Rattle.std.specs.Prelude.{◌≡◌, ◌-◌, ◌^◌, ℤ, pos, ◌+ℤ◌, ◌≤ℤ◌, ◌<ℤ◌, ◌+◌, List, [], ◌∷◌, length, slice_get, false, OnOk, OnErr, ◌<◌, ◌≤◌};
ghost use Rattle.std.specs.List.{insert};
ghost use Rattle.std.specs.Iterator.{YieldsFirst, item_count};
ghost use Rattle.std.specs.Option.{option_to_list};
ghost use Rattle.dn_arc_theory.specs.State.Steps.{put_step, add_step, step_past, has_step, AreSteps, steps_room};
ghost use Rattle.dn_bundle.specs.State.Spots.{spot};

use arrayvec::ArrayVec;
use std::alloc::{AllocError, Global};
use std::collections::BTreeMap;
use std::collections::btree_map::Iter;
use std::marker::Model;
use std::ops::Bound;

// How many breakpoints are stored without an allocation.
const FEW: usize = 4;

/// Free capacity by ascending cost. The breakpoints of the least costs are stored outside the map, so that a few
/// breakpoints need no allocation. The map is empty unless there are more.
#[derive(Drop)]
pub(crate) struct Steps {
    few: ArrayVec<(i64, i64), FEW>,
    rest: BTreeMap<i64, i64>,
}

impl Model for Steps {
    ghost use Rattle.std.specs.Prelude.{ℤ, List, ◌++◌};

    ghost Value = { List (ℤ × ℤ) };

    ghost use Rattle.dn_bundle.specs.State.Spots.{HoldsFew};

    ghost view = { λ a. a.few.items ++ a.rest.entries };

    ghost invariant = { λ a. HoldsFew a.few.items a.rest.entries };
}

// Adds capacity at a cost to a map.
fn put_in(map: &mut BTreeMap<i64, i64>, step: (i64, i64)) -> Result<(), AllocError>
    requires some { pos 0 ≤ℤ step.1 }
    requires steps { AreSteps map.old.entries }
    requires fits { (steps_room map.old.entries +ℤ step.1) ≤ℤ pos (2 ^ 63 - 1) }
    ensures ok { OnOk result (map.new.entries ≡ put_step map.old.entries step) }
    ensures err { OnErr result (map.new.entries ≡ map.old.entries) }
    ensures memory { OnErr result (has_step map.old.entries step.0 ≡ false) }
{
    let held = map.get(&step.0).copied().unwrap_or(0);
    map.insert(step.0, held + step.1)?;
    Ok(())
}

// Returns the first breakpoint of a map whose cost is above `cost`.
fn past_in(map: &BTreeMap<i64, i64>, cost: &i64) -> Option<(i64, i64)>
    ensures { result ≡ step_past map.now.entries cost.now }
{
    let mut past = map.range((Bound::Excluded(*cost), Bound::Unbounded));
    let (each, room) = past.next()?;
    Some((*each, *room))
}

// Whether a map has capacity at this cost.
fn has_in(map: &BTreeMap<i64, i64>, cost: &i64) -> bool
    ensures { result ≡ has_step map.now.entries cost.now }
{
    map.contains_key(cost)
}

// Returns the position of the first of a few breakpoints whose cost is not below `cost`, or how many there are.
fn place_in(few: &[(i64, i64)], cost: &i64) -> usize
    ensures place { result ≡ spot few.now cost.now }
    ensures within { result ≤ length few.now }
{
    let mut left = few;
    let mut place = 0;
    while let [step, more @ ..] = left {
        if *cost <= step.0 {
            break;
        }
        left = more;
        place += 1;
    }
    place
}

// Returns the breakpoint at a place among a few, if there is one.
fn held_in(few: &[(i64, i64)], place: usize) -> Option<(i64, i64)>
    ensures { result ≡ slice_get few.now place }
{
    few.get(place).copied()
}

// Returns the first of a few breakpoints whose cost is above `cost`.
fn past_few(few: &[(i64, i64)], cost: &i64) -> Option<(i64, i64)>
    ensures { result ≡ step_past few.now cost.now }
{
    let mut left = few;
    while let [step, more @ ..] = left {
        if *cost < step.0 {
            return Some(*step);
        }
        left = more;
    }
    None
}

// Whether a few breakpoints have capacity at this cost.
fn has_few(few: &[(i64, i64)], cost: &i64) -> bool
    ensures { result ≡ has_step few.now cost.now }
{
    let mut left = few;
    while let [step, more @ ..] = left {
        if *cost == step.0 {
            return true;
        }
        left = more;
    }
    false
}

impl Steps {
    /// Makes a list of at most one breakpoint.
    pub(crate) fn of(alloc: Global, first: Option<(i64, i64)>) -> Steps
        ensures { result ≡ option_to_list first }
    {
        let mut few = ArrayVec::new();
        if let Some(step) = first {
            few.push(step);
        }
        Steps {
            few,
            rest: BTreeMap::new(alloc),
        }
    }

    /// Makes a list of two breakpoints.
    pub(crate) fn of_two(alloc: Global, first: (i64, i64), second: (i64, i64)) -> Steps
        ensures { result ≡ first ∷ second ∷ [] }
    {
        let mut few = ArrayVec::new();
        few.push(first);
        few.push(second);
        Steps {
            few,
            rest: BTreeMap::new(alloc),
        }
    }

    /// Returns how many costs have free capacity.
    pub(crate) fn len(&self) -> u64
        ensures len { result ≡ length self.now }
        ensures small { result ≤ 2 ^ 63 + 3 }
    {
        // A map has fewer than 2^63 entries, so the sum does not saturate.
        (self.rest.len() as u64).saturating_add(self.few.len() as u64)
    }

    /// Reads a number of the first breakpoint, and one behind the last of the few. Hint.
    #[inline(always)]
    pub(crate) fn touch(&self) -> i64 {
        let len = self.few.len() as i64;
        match self.few.first() {
            Some(step) => step.1 ^ len,
            None => len,
        }
    }

    /// Returns the least cost, and the capacity at it.
    pub(crate) fn first(&self) -> Option<(i64, i64)>
        ensures { result ≡ slice_get self.now 0 }
    {
        self.few.first().copied()
    }

    /// Returns the breakpoint at `i`, counted from 0 by ascending cost.
    pub(crate) fn get(&self, i: u64) -> Option<(i64, i64)>
        ensures { result ≡ slice_get self.now i }
    {
        let mut left = i;
        for step in self.iter() {
            if left == 0 {
                return Some(step);
            }
            left -= 1;
        }
        None
    }

    /// Returns the first breakpoint whose cost is above `cost`.
    pub(crate) fn past(&self, cost: &i64) -> Option<(i64, i64)>
        ensures { result ≡ step_past self.now cost.now }
    {
        match past_few(&self.few, cost) {
            Some(step) => Some(step),
            None => past_in(&self.rest, cost),
        }
    }

    /// Whether there is capacity at a cost.
    pub(crate) fn has(&self, cost: &i64) -> bool
        ensures { result ≡ has_step self.now cost.now }
    {
        has_few(&self.few, cost) || has_in(&self.rest, cost)
    }

    // Inserts a breakpoint among the few ones at this position. If they are full, the last one moves to the map. After
    // an error, nothing has changed.
    fn insert_few(&mut self, at: usize, step: (i64, i64)) -> Result<(), AllocError>
        requires within { at < length self.old }
        requires few { at < FEW }
        requires steps { AreSteps self.old }
        ensures ok { OnOk result (self.new ≡ insert self.old at step) }
        ensures err { OnErr result (self.new ≡ self.old) }
    {
        if self.few.is_full() {
            let last = self.few[FEW - 1];
            self.rest.insert(last.0, last.1)?;
            self.few.pop();
        }
        self.few.insert(at, step);
        Ok(())
    }

    // Adds capacity at a cost. After an error, nothing has changed.
    fn insert(&mut self, step: (i64, i64)) -> Result<(), AllocError>
        requires some { pos 1 ≤ℤ step.1 }
        requires steps { AreSteps self.old }
        requires fits { (steps_room self.old +ℤ step.1) ≤ℤ pos (2 ^ 63 - 1) }
        ensures ok { OnOk result (self.new ≡ put_step self.old step) }
        ensures err { OnErr result (self.new ≡ self.old) }
        ensures memory { OnErr result (has_step self.old step.0 ≡ false) }
    {
        let at = place_in(&self.few, &step.0);
        match held_in(&self.few, at) {
            Some(held) => {
                if step.0 < held.0 {
                    self.insert_few(at, step)
                } else {
                    self.few[at] = (held.0, held.1 + step.1);
                    Ok(())
                }
            }
            None => {
                if self.few.is_full() {
                    put_in(&mut self.rest, step)
                } else {
                    self.few.push(step);
                    Ok(())
                }
            }
        }
    }

    /// Adds capacity at a cost, if the capacity is above 0. After an error, nothing has changed.
    pub(crate) fn add(&mut self, step: (i64, i64)) -> Result<(), AllocError>
        requires some { pos 0 ≤ℤ step.1 }
        requires steps { AreSteps self.old }
        requires fits { (steps_room self.old +ℤ step.1) ≤ℤ pos (2 ^ 63 - 1) }
        ensures ok { OnOk result (self.new ≡ add_step self.old step) }
        ensures err { OnErr result (self.new ≡ self.old) }
        ensures memory { OnErr result ((pos 0 <ℤ step.1) × (has_step self.old step.0 ≡ false)) }
    {
        if 0 < step.1 {
            self.insert(step)
        } else {
            Ok(())
        }
    }

    /// Iterates over the breakpoints by ascending cost.
    pub(crate) fn iter(&self) -> StepsIter<'_>
        ensures { result ≡ self.now }
    {
        StepsIter {
            first: None,
            second: None,
            few: &self.few,
            rest: Some(self.rest.iter()),
        }
    }
}

/// The remaining breakpoints, by ascending cost.
#[derive(Drop)]
pub(crate) struct StepsIter<'a> {
    first: Option<(i64, i64)>,
    second: Option<(i64, i64)>,
    few: &'a [(i64, i64)],
    rest: Option<Iter<'a, i64, i64>>,
}

impl<'a> Model for StepsIter<'a> {
    ghost use Rattle.std.specs.Prelude.{ℤ, List, [], ◌++◌};
    ghost use Rattle.std.specs.Option.{option_to_list, unwrap_or};

    ghost Value = { List (ℤ × ℤ) };

    ghost view = { λ a. option_to_list a.first ++ option_to_list a.second ++ a.few.now ++ unwrap_or a.rest [] };
}

impl<'a> StepsIter<'a> {
    /// Iterates over at most one breakpoint.
    pub(crate) fn of(first: Option<(i64, i64)>) -> StepsIter<'a>
        ensures { result ≡ option_to_list first }
    {
        StepsIter {
            first,
            second: None,
            few: &[],
            rest: None,
        }
    }

    /// Iterates over two breakpoints.
    pub(crate) fn of_two(first: (i64, i64), second: (i64, i64)) -> StepsIter<'a>
        ensures { result ≡ first ∷ second ∷ [] }
    {
        StepsIter {
            first: Some(first),
            second: Some(second),
            few: &[],
            rest: None,
        }
    }
}

impl<'a> Iterator for StepsIter<'a> {
    type Item = (i64, i64);

    ghost next_gives = { YieldsFirst (λ s. s) };

    ghost remaining = { item_count (λ s. s) };

    fn next(&mut self) -> Option<(i64, i64)> {
        if let Some(step) = self.first {
            self.first = None;
            return Some(step);
        }
        if let Some(step) = self.second {
            self.second = None;
            return Some(step);
        }
        if let [step, few @ ..] = self.few {
            self.few = few;
            return Some(*step);
        }
        match &mut self.rest {
            Some(rest) => next_in(rest),
            None => None,
        }
    }
}

// Returns the next breakpoint of what is left of a map.
fn next_in(rest: &mut Iter<'_, i64, i64>) -> Option<(i64, i64)>
    ensures { YieldsFirst (λ s. s) rest.old result rest.new }
{
    let (cost, room) = rest.next()?;
    Some((*cost, *room))
}
