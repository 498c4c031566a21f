// Entries whose tails never fall. Only those of the last tail, the group, may come in any order.
ghost use Rattle.std.specs.Prelude.{◌≡◌, ◌≢◌, ◌<◌, ◌≤◌, ◌-◌, ℕ, ℤ, List, [], ◌∷◌, ◌++◌, length, false, true, IsTrue, Ok};
ghost use Rattle.std.specs.List.{list_any, IsDistinct};
ghost use Rattle.std.specs.List.Sorted.{IsPermutation};
ghost use Rattle.std.specs.Map.{keys_of};
ghost use Rattle.dn_arc_theory.specs.Pairs.{same_pair};
ghost use Rattle.pair_index.specs.State.Positions.{key_at, IsPosition, IsPositionFrom};
ghost use Rattle.pair_index.specs.State.Runs.{IsGroup, ShowsRuns};
ghost use Rattle.pair_index.specs.State.Sorted.{AreSorted};

use crate::chains::Chains;
use crate::pair::{is_pair, is_tail};
use crate::sort::sort_by_pair;
use crate::sorted::{is_past, position_among};
use std::alloc::{AllocError, Global};
use std::cmp::Ordering;

// A group of up to this many entries is scanned.
const FEW: usize = 24;

// How the entries of the group are found.
#[derive(Drop)]
enum Group {
    // By binary search among all entries, which are sorted.
    Sorted,
    // By a scan.
    Few,
    // By chains.
    Linked(Chains),
}

// How entries are found while tails never fall. The entries before the group are sorted. The group is sorted once an
// entry of another tail comes.
#[derive(Drop)]
pub(crate) struct Runs {
    // The position of the first entry of the group, unless all entries are sorted.
    begin: usize,
    group: Group,
    // How many pairs came again after another tail.
    repeats: usize,
}

// Returns the position from which on all entries have the tail of this pair.
fn begin_of<X>(entries: &[((i64, i64), X)], pair: &(i64, i64)) -> usize
    ensures within { result ≤ length entries.now }
    ensures from { (i : ℕ) → result ≤ i → i < length entries.now → (key_at (keys_of entries.now) i).0 ≡ pair.now.0 }
    ensures before { 0 < result → (key_at (keys_of entries.now) (result - 1)).0 ≢ pair.now.0 }
{
    let mut begin = entries.len();
    while 0 < begin {
        if !is_tail(&entries[begin - 1].0, pair) {
            return begin;
        }
        begin -= 1;
    }
    0
}

// Returns the position of a pair from this position on.
fn position_by_scan<X>(
    entries: &[((i64, i64), X)],
    begin: usize,
    pair: &(i64, i64),
) -> Option<usize>
    ensures { IsPositionFrom (keys_of entries.now) begin pair.now result }
{
    for i in begin..entries.len() {
        if is_pair(&entries[i].0, pair) {
            return Some(i);
        }
    }
    None
}

impl Runs {
    // Returns the runs of no entries.
    pub(crate) fn new() -> Runs
        ensures { ShowsRuns result [] }
    {
        Runs {
            begin: 0,
            group: Group::Sorted,
            repeats: 0,
        }
    }

    // Whether all entries are sorted, and with a pair at the end, too. If so, no entry has this pair.
    #[inline(always)]
    pub(crate) fn is_next<X>(&self, entries: &[((i64, i64), X)], pair: &(i64, i64)) -> bool
        requires { ShowsRuns self.now (keys_of entries.now) }
        ensures fresh { IsTrue result → list_any (same_pair pair.now) (keys_of entries.now) ≡ false }
        ensures stays { IsTrue result → ShowsRuns self.now (keys_of entries.now ++ pair.now ∷ []) }
    {
        match self.group {
            Group::Sorted => is_past(entries, pair),
            _ => false,
        }
    }

    // Whether so many pairs came again that an index finds them sooner. Hint.
    pub(crate) fn are_slow(&self, entries: usize) -> bool {
        entries / 16 < self.repeats
    }

    // Counts the pairs that come again from 0. Hint.
    pub(crate) fn count_anew(&mut self)
        ensures { (keys : List (ℤ × ℤ)) → ShowsRuns self.old keys → ShowsRuns self.new keys }
    {
        self.repeats = 0;
    }

    // Returns the position of the pair's entry.
    pub(crate) fn find<X>(
        &mut self,
        entries: &[((i64, i64), X)],
        pair: &(i64, i64),
    ) -> Option<usize>
        requires { ShowsRuns self.old (keys_of entries.now) }
        ensures position { IsPosition (keys_of entries.now) pair.now result }
        ensures shows { ShowsRuns self.new (keys_of entries.now) }
    {
        let (last, _) = entries.last()?;
        match &self.group {
            Group::Sorted => self.search(entries, pair),
            _ => {
                if is_tail(last, pair) {
                    self.find_in_group(entries, pair)
                } else {
                    self.search(&entries[..self.begin], pair)
                }
            }
        }
    }

    // Returns the position of a pair in the group.
    fn find_in_group<X>(&self, entries: &[((i64, i64), X)], pair: &(i64, i64)) -> Option<usize>
        requires shows { ShowsRuns self.now (keys_of entries.now) }
        requires group { IsGroup (keys_of entries.now) self.now.begin }
        ensures { IsPositionFrom (keys_of entries.now) self.now.begin pair.now result }
    {
        match &self.group {
            Group::Linked(chains) => {
                let position = chains.find(&entries[self.begin..], pair)?;
                Some(self.begin + position)
            }
            _ => position_by_scan(entries, self.begin, pair),
        }
    }

    // Returns the position of a pair among sorted entries. Counts the pair if it is there and not the last one.
    fn search<X>(&mut self, entries: &[((i64, i64), X)], pair: &(i64, i64)) -> Option<usize>
        requires { AreSorted (keys_of entries.now) }
        ensures position { IsPosition (keys_of entries.now) pair.now result }
        ensures stays { (keys : List (ℤ × ℤ)) → ShowsRuns self.old keys → ShowsRuns self.new keys }
    {
        if is_past(entries, pair) {
            return None;
        }
        let position = position_among(entries, pair)?;
        if position + 1 < entries.len() {
            self.repeats = self.repeats.saturating_add(1);
        }
        Some(position)
    }

    // Sorts the group, and so the entries.
    pub(crate) fn close<X>(&mut self, entries: &mut [((i64, i64), X)])
        requires apart { IsDistinct same_pair (keys_of entries.old) }
        requires shows { ShowsRuns self.old (keys_of entries.old) }
        ensures sorted { AreSorted (keys_of entries.new) }
        ensures group { self.new.group ≡ Group.Sorted }
        ensures moved { IsPermutation entries.old entries.new }
    {
        match self.group {
            Group::Sorted => {}
            _ => {
                sort_by_pair(&mut entries[self.begin..]);
                self.group = Group::Sorted;
            }
        }
    }

    // Adds a pair that comes next, and may sort the entries. Returns false and changes nothing if its tail is below the
    // last one, or if the chain of the pair is long. Which it returns affects only the speed. If an allocation fails,
    // nothing changes.
    pub(crate) fn take<X>(
        &mut self,
        alloc: Global,
        entries: &mut [((i64, i64), X)],
        pair: &(i64, i64),
    ) -> Result<bool, AllocError>
        requires apart { IsDistinct same_pair (keys_of entries.old) }
        requires shows { ShowsRuns self.old (keys_of entries.old) }
        ensures taken { result ≡ Ok true → ShowsRuns self.new (keys_of entries.new ++ pair.now ∷ []) }
        ensures moved { IsPermutation entries.old entries.new }
        ensures same { result ≢ Ok true → entries.new ≡ entries.old }
        ensures not { result ≢ Ok true → ShowsRuns self.new (keys_of entries.old) }
    {
        let Some((last, _)) = entries.last() else {
            return Ok(true);
        };
        let last = *last;
        if is_tail(&last, pair) {
            return self.take_in_group(alloc, entries, pair);
        }
        if let Ordering::Less = last.cmp(pair) {
            self.close(entries);
            return Ok(true);
        }
        Ok(false)
    }

    // Adds a pair that comes next and has the tail of the last entry. Returns false and changes nothing if its chain is
    // long. If an allocation fails, nothing changes.
    fn take_in_group<X>(
        &mut self,
        alloc: Global,
        entries: &[((i64, i64), X)],
        pair: &(i64, i64),
    ) -> Result<bool, AllocError>
        requires shows { ShowsRuns self.old (keys_of entries.now) }
        requires some { 0 < length entries.now }
        requires tail { (key_at (keys_of entries.now) (length entries.now - 1)).0 ≡ pair.now.0 }
        ensures taken { result ≡ Ok true → ShowsRuns self.new (keys_of entries.now ++ pair.now ∷ []) }
        ensures not { result ≢ Ok true → ShowsRuns self.new (keys_of entries.now) }
    {
        match &mut self.group {
            Group::Sorted => {
                if is_past(entries, pair) {
                    return Ok(true);
                }
                self.begin = begin_of(entries, pair);
                self.group = Group::Few;
                Ok(true)
            }
            Group::Few => {
                if entries.len() - self.begin < FEW {
                    return Ok(true);
                }
                self.link_group(alloc, entries, pair)
            }
            Group::Linked(chains) => chains.take(&entries[self.begin..], pair),
        }
    }

    // Links the entries of the group and a pair that comes next. Returns false and changes nothing if a chain would be
    // long. If an allocation fails, nothing changes.
    fn link_group<X>(
        &mut self,
        alloc: Global,
        entries: &[((i64, i64), X)],
        pair: &(i64, i64),
    ) -> Result<bool, AllocError>
        requires group { IsGroup (keys_of entries.now) self.old.begin }
        requires tail { (key_at (keys_of entries.now) self.old.begin).0 ≡ pair.now.0 }
        ensures taken { result ≡ Ok true → ShowsRuns self.new (keys_of entries.now ++ pair.now ∷ []) }
        ensures not { result ≢ Ok true → self.new ≡ self.old }
    {
        let group = &entries[self.begin..];
        match Chains::of(alloc, group)? {
            Some(mut chains) => {
                if chains.take(group, pair)? {
                    self.group = Group::Linked(chains);
                    return Ok(true);
                }
                drop(chains);
                Ok(false)
            }
            None => Ok(false),
        }
    }
}
