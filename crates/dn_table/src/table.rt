// Bundles by their ordered pairs.
ghost use Rattle.std.specs.Prelude.{◌≡◌, ◌<◌, ◌≤◌, ℤ, List, ◌^◌, drop, length, MatchOption};
ghost use Rattle.std.specs.Option.{option_copied};
ghost use Rattle.std.specs.Iterator.{YieldsFirstBy, item_count};
ghost use Rattle.std.specs.List.Sorted.{IsStrictlySortedBy};
ghost use Rattle.std.specs.Map.{keys_of, lookup};
ghost use Rattle.dn_arc_theory.specs.declared.arc.Form.{Form};
ghost use Rattle.dn_arc_theory.specs.Pairs.{pair_cmp, same_pair};
ghost use Rattle.pair_index.specs.State.Positions.{IsPosition};
ghost use Rattle.dn_table.specs.State.ListedEntries.{entries_listed};
ghost use Rattle.dn_table.specs.State.Tables.{CountsBelow, CountsEntries, entry_of};

use crate::entry_sum::{bundle_entries, count_arcs};
use dn_bundle_trait::{Bundle, Form};
use pair_index::{is_pair, position_among};
use std::marker::Model;

/// The bundles of a graph by ordered pair. A pair whose arcs mean the same as no arcs has no bundle.
#[derive(Drop)]
pub struct Table<B: Bundle> {
    entries: Vec<((i64, i64), B)>,
}

/// Where a walk over the bundles of a table is, and how far they are touched.
#[derive(Clone, Copy)]
pub struct Prefetch {
    at: usize,
    due: usize,
}

impl Prefetch {
    /// Returns the beginning of a walk.
    pub fn new() -> Prefetch {
        Prefetch { at: 0, due: 0 }
    }
}

// How many bundles are touched at once.
const PLACES: usize = 16;

impl<B: Bundle> Model for Table<B> {
    ghost use Rattle.std.specs.Prelude.{ℤ, List};
    ghost use Rattle.std.specs.List.Sorted.{IsStrictlySortedBy};
    ghost use Rattle.std.specs.Map.{keys_of};
    ghost use Rattle.dn_arc_theory.specs.Pairs.{pair_cmp};

    ghost Value = { List ((ℤ × ℤ) × B) };

    ghost view = { λ t. t.entries.items };

    ghost invariant = { λ t. IsStrictlySortedBy pair_cmp (keys_of t.entries.items) };
}

impl<B: Bundle> Table<B> {
    // Returns the table of these entries, which are sorted by ascending pair.
    pub(crate) fn of(entries: Vec<((i64, i64), B)>) -> Table<B>
        requires { IsStrictlySortedBy pair_cmp (keys_of entries.items) }
        ensures { result ≡ entries.items }
    {
        Table { entries }
    }

    /// Returns the bundle of the arcs from `src` to `dst`, if they mean anything.
    pub fn get(&self, src: i64, dst: i64) -> Option<&B>
        ensures { option_copied result ≡ lookup (same_pair (src, dst)) self.now }
    {
        match position_among(&self.entries, &(src, dst)) {
            Some(position) => Some(&self.entries[position].1),
            None => None,
        }
    }

    /// Returns the index of a pair among those that have a bundle, counted from 0 by ascending (src, dst), or `None` if
    /// it has none. The search begins at the pair at `near`, and ends there if it is this one.
    pub fn position(&self, pair: &(i64, i64), near: usize) -> Option<usize>
        ensures { IsPosition (keys_of self.now) pair.now result }
    {
        if let Some(entry) = self.entries.get(near) {
            if is_pair(&entry.0, pair) {
                return Some(near);
            }
        }
        position_among(&self.entries, pair)
    }

    /// Iterates over the pairs that have a bundle, by ascending (src, dst). This does not allocate.
    pub fn pairs(&self) -> Pairs<'_, B>
        ensures value { result ≡ self.now }
        ensures ascending { IsStrictlySortedBy pair_cmp (keys_of self.now) }
    {
        Pairs {
            rest: &self.entries,
        }
    }

    /// Iterates over the pairs that have a bundle, by ascending (src, dst), from the one at `index`, counted from 0.
    /// There is none from `len` on. This does not allocate.
    pub fn pairs_from(&self, index: usize) -> Pairs<'_, B>
        ensures value { result ≡ drop index self.now }
    {
        Pairs {
            rest: &self.entries[index.min(self.len())..],
        }
    }

    /// Touches the bundles after the one at `walk.at`, if those touched before were passed. Hint.
    #[inline(always)]
    pub fn touch(&self, walk: Prefetch) -> Prefetch {
        let at = walk.at.saturating_add(1);
        if at < walk.due {
            return Prefetch { at, due: walk.due };
        }
        Prefetch {
            at,
            due: self.touch_from(at),
        }
    }

    // Touches the bundles from this place on, as many as `PLACES`, and returns the place after them. The result depends
    // on what was read, so that it is read.
    #[inline(never)]
    fn touch_from(&self, from: usize) -> usize {
        let mut due = from;
        for _ in 0..PLACES {
            let Some(entry) = self.entries.get(due) else {
                return usize::MAX;
            };
            if entry.1.touch() == i64::MIN {
                return due;
            }
            due = due.saturating_add(1);
        }
        due
    }

    /// Returns how many entries the bundles make, if this is below 2^64.
    pub fn entries(&self) -> u64
        ensures { CountsEntries B.bundle self.now result }
    {
        bundle_entries(&self.entries)
    }

    /// Returns how many arcs the bundles list in a form, if this is below 2^64.
    pub fn arc_count(&self, form: Form) -> Option<u64>
        ensures count { CountsBelow (2 ^ 64) (entries_listed (λ b. length (B.bundle.listed form b)) self.now) result }
        ensures ascending { IsStrictlySortedBy pair_cmp (keys_of self.now) }
    {
        count_arcs(&self.entries, form)
    }

    /// Returns how many pairs have a bundle.
    pub fn len(&self) -> usize
        ensures { result ≡ length self.now }
    {
        self.entries.len()
    }
}

/// Iterates over the bundles of a table with their pairs, by ascending (src, dst).
#[derive(Drop)]
pub struct Pairs<'a, B: Bundle> {
    rest: &'a [((i64, i64), B)],
}

impl<'a, B: Bundle> Model for Pairs<'a, B> {
    ghost use Rattle.std.specs.Prelude.{ℤ, List};

    ghost Value = { List ((ℤ × ℤ) × B) };

    ghost view = { λ p. p.rest.now };
}

impl<'a, B: Bundle> Iterator for Pairs<'a, B> {
    type Item = ((i64, i64), &'a B);

    ghost next_gives = { YieldsFirstBy entry_of (λ s. s) };

    ghost remaining = { item_count (λ s. s) };

    fn next(&mut self) -> Option<((i64, i64), &'a B)> {
        let (entry, rest) = self.rest.split_first()?;
        self.rest = rest;
        Some((entry.0, &entry.1))
    }
}
