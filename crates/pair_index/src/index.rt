// Finds the entries of a list by their ordered pairs.
ghost use Rattle.std.specs.Prelude.{◌≡◌, ◌≢◌, [], ◌∷◌, ◌++◌, OnOk, OnErr, IfOk, IfSome, IsTrue, Ok, false, true};
ghost use Rattle.std.specs.List.{list_any, IsDistinct};
ghost use Rattle.std.specs.List.Sorted.{IsPermutation, IsStrictlySortedBy};
ghost use Rattle.std.specs.Map.{keys_of};
ghost use Rattle.pair_index.specs.State.Indexed.{Indexes};
ghost use Rattle.dn_arc_theory.specs.Pairs.{pair_cmp, same_pair};
ghost use Rattle.pair_index.specs.State.Positions.{IsPosition};
ghost use Rattle.pair_index.specs.State.Shown.{HasPositions, ShowsIndex};
ghost use Rattle.pair_index.specs.State.Chained.{IsChained};
ghost use Rattle.pair_index.specs.State.Tailed.{IsTailed};

use crate::chains::Chains;
use crate::runs::Runs;
use crate::sort::sort_by_pair;
use crate::tails::{Tails, are_near, are_near_pairs};
use std::alloc::{AllocError, Global};
use std::collections::BTreeMap;

/// How many pairs are looked up together.
pub const AHEAD: usize = 16;

// How entries are found. An index changes from a way only to a later one, or to `Tails` when its chains are rebuilt.
#[derive(Drop)]
enum Way {
    // By binary search, since tails never fall. The entries of the last tail may come in any order.
    Runs(Runs),
    // By chains of tails, for pairs that come nearly in order.
    Tails(Tails),
    // By chains of buckets.
    Chained(Chains),
    // By an ordered map, if a chain would be long.
    Ordered(BTreeMap<(i64, i64), usize>),
}

/// Finds the entries of a list by their ordered pairs. The index does not own the entries; each call takes the list.
#[derive(Drop)]
pub struct PairIndex {
    way: Way,
}

// Returns the position of each entry and of a pair that comes next.
fn positions_with<X>(
    alloc: Global,
    entries: &[((i64, i64), X)],
    pair: &(i64, i64),
) -> Result<BTreeMap<(i64, i64), usize>, AllocError>
    requires { IsDistinct same_pair (keys_of entries.now) }
    ensures { IfOk result (λ positions. HasPositions positions (keys_of entries.now ++ pair.now ∷ [])) }
{
    let mut positions = BTreeMap::new(alloc);
    for i in 0..entries.len() {
        positions.insert(entries[i].0, i)?;
    }
    positions.insert(*pair, entries.len())?;
    Ok(positions)
}

// Returns a way to find the entries by links, or `None` if chains would be long or the links do not suffice. Whether it
// returns a way affects only the speed.
fn linked<X>(alloc: Global, entries: &[((i64, i64), X)]) -> Result<Option<Way>, AllocError>
    requires { IsDistinct same_pair (keys_of entries.now) }
    ensures { IfOk result (λ o. IfSome o (λ way. ShowsIndex way (keys_of entries.now))) }
{
    if let Some(tails) = Tails::of(alloc, entries)? {
        return Ok(Some(Way::Tails(tails)));
    }
    match Chains::of(alloc, entries)? {
        Some(chains) => Ok(Some(Way::Chained(chains))),
        None => Ok(None),
    }
}

// Returns a way to find the entries and a pair that comes next: by tails, or by buckets, or by the ordered map. Which
// way it returns affects only the speed.
fn way_with<X>(
    alloc: Global,
    entries: &[((i64, i64), X)],
    pair: &(i64, i64),
) -> Result<Way, AllocError>
    requires apart { IsDistinct same_pair (keys_of entries.now) }
    requires fresh { list_any (same_pair pair.now) (keys_of entries.now) ≡ false }
    ensures { IfOk result (λ way. ShowsIndex way (keys_of entries.now ++ pair.now ∷ [])) }
{
    if let Some(tails) = tails_with(alloc, entries, pair)? {
        return Ok(Way::Tails(tails));
    }
    if let Some(chains) = chains_with(alloc, entries, pair)? {
        return Ok(Way::Chained(chains));
    }
    Ok(Way::Ordered(positions_with(alloc, entries, pair)?))
}

// Links the positions of the entries and of one more pair by tail, if the tails allow it.
fn tails_with<X>(
    alloc: Global,
    entries: &[((i64, i64), X)],
    pair: &(i64, i64),
) -> Result<Option<Tails>, AllocError>
    requires apart { IsDistinct same_pair (keys_of entries.now) }
    requires fresh { list_any (same_pair pair.now) (keys_of entries.now) ≡ false }
    ensures { IfOk result (λ o. IfSome o (λ tails. IsTailed tails (keys_of entries.now ++ pair.now ∷ []))) }
{
    let Some(mut tails) = Tails::of(alloc, entries)? else {
        return Ok(None);
    };
    if tails.take(entries, pair)? {
        return Ok(Some(tails));
    }
    Ok(None)
}

// Links the positions of the entries and of one more pair by bucket, if the chains allow it.
fn chains_with<X>(
    alloc: Global,
    entries: &[((i64, i64), X)],
    pair: &(i64, i64),
) -> Result<Option<Chains>, AllocError>
    ensures { IfOk result (λ o. IfSome o (λ chains. IsChained chains (keys_of entries.now ++ pair.now ∷ []))) }
{
    let Some(mut chains) = Chains::of(alloc, entries)? else {
        return Ok(None);
    };
    if chains.take(entries, pair)? {
        return Ok(Some(chains));
    }
    Ok(None)
}

impl PairIndex {
    /// Returns the index of no entries.
    pub fn new() -> PairIndex
        ensures { Indexes result [] }
    {
        PairIndex {
            way: Way::Runs(Runs::new()),
        }
    }

    /// Returns the position of a pair's entry, if there is one. This does not allocate. What it counts affects only the
    /// speed.
    pub fn find<X>(&mut self, entries: &[((i64, i64), X)], pair: &(i64, i64)) -> Option<usize>
        requires { Indexes self.old (keys_of entries.now) }
        ensures position { IsPosition (keys_of entries.now) pair.now result }
        ensures stays { Indexes self.new (keys_of entries.now) }
    {
        match &mut self.way {
            Way::Runs(runs) => runs.find(entries, pair),
            Way::Tails(tails) => tails.find(entries, pair),
            Way::Chained(chains) => chains.find(entries, pair),
            Way::Ordered(positions) => positions.get(pair).copied(),
        }
    }

    /// Whether the entries are sorted by pair, and the index needs no change if an entry of this pair is appended. If
    /// so, no entry has the pair.
    #[inline(always)]
    pub fn is_next<X>(&self, entries: &[((i64, i64), X)], pair: &(i64, i64)) -> bool
        requires { Indexes self.now (keys_of entries.now) }
        ensures fresh { IsTrue result → list_any (same_pair pair.now) (keys_of entries.now) ≡ false }
        ensures stays { IsTrue result → Indexes self.now (keys_of entries.now ++ pair.now ∷ []) }
    {
        match &self.way {
            Way::Runs(runs) => runs.is_next(entries, pair),
            _ => false,
        }
    }

    /// Whether looking up pairs together may save time, because each look-up waits for memory of its own, or because
    /// another way to find them would save time. Hint.
    pub fn is_scattered(&self, entries: usize) -> bool {
        match &self.way {
            Way::Runs(runs) => runs.are_slow(entries),
            Way::Tails(_) | Way::Chained(_) => true,
            Way::Ordered(_) => false,
        }
    }

    /// Returns a hint of the position of each of these pairs, or `None` if looking them up together would save no time.
    /// The caller checks whether the entry at a hint is the pair's. First changes the way of finding, if another one
    /// saves time and no allocation fails.
    pub fn hints<X>(
        &mut self,
        alloc: Global,
        entries: &[((i64, i64), X)],
        pairs: &[(i64, i64); AHEAD],
    ) -> Option<[u32; AHEAD]>
        requires { Indexes self.old (keys_of entries.now) }
        ensures { Indexes self.new (keys_of entries.now) }
    {
        if let Way::Runs(runs) = &mut self.way {
            runs.count_anew();
            if let Ok(Some(way)) = linked(alloc, entries) {
                self.way = way;
            }
        }
        match &self.way {
            Way::Tails(tails) if !are_near_pairs(pairs, entries.len()) => {
                Some(tails.hints(entries, pairs))
            }
            Way::Chained(chains) => Some(chains.hints(entries, pairs)),
            Way::Runs(_) | Way::Tails(_) | Way::Ordered(_) => None,
        }
    }

    /// Sorts the entries by ascending pair, in place. This does not allocate.
    pub fn sort<X>(self, entries: &mut [((i64, i64), X)])
        requires { Indexes self (keys_of entries.old) }
        ensures sorted { IsStrictlySortedBy pair_cmp (keys_of entries.new) }
        ensures moved { IsPermutation entries.old entries.new }
    {
        match self.way {
            Way::Runs(mut runs) => runs.close(entries),
            Way::Tails(_) | Way::Chained(_) | Way::Ordered(_) => sort_by_pair(entries),
        }
    }

    // Adds a pair in the present way. Returns false and changes nothing if this way does not serve. Which it returns
    // affects only the speed. If an allocation fails, nothing changes.
    fn take<X>(
        &mut self,
        alloc: Global,
        entries: &mut [((i64, i64), X)],
        pair: &(i64, i64),
    ) -> Result<bool, AllocError>
        requires indexed { Indexes self.old (keys_of entries.old) }
        requires fresh { list_any (same_pair pair.now) (keys_of entries.old) ≡ false }
        ensures taken { result ≡ Ok true → Indexes self.new (keys_of entries.new ++ pair.now ∷ []) }
        ensures moved { IsPermutation entries.old entries.new }
        ensures same { result ≢ Ok true → entries.new ≡ entries.old }
        ensures not { result ≢ Ok true → Indexes self.new (keys_of entries.old) }
    {
        match &mut self.way {
            Way::Runs(runs) => runs.take(alloc, entries, pair),
            Way::Tails(tails) => {
                if !tails.stays(entries) {
                    return Ok(false);
                }
                tails.take(entries, pair)
            }
            Way::Chained(chains) => {
                if chains.is_full() && are_near(entries) {
                    return Ok(false);
                }
                chains.take(entries, pair)
            }
            Way::Ordered(positions) => {
                positions.insert(*pair, entries.len())?;
                Ok(true)
            }
        }
    }

    /// Adds a pair that has no entry, and whose entry comes next in the list. May change the order of the entries. The
    /// only error is that an allocation fails. Then the index still finds the entries without the pair, and their order
    /// is the same.
    pub fn note<X>(
        &mut self,
        alloc: Global,
        entries: &mut [((i64, i64), X)],
        pair: &(i64, i64),
    ) -> Result<(), AllocError>
        requires indexed { Indexes self.old (keys_of entries.old) }
        requires fresh { list_any (same_pair pair.now) (keys_of entries.old) ≡ false }
        ensures ok { OnOk result (Indexes self.new (keys_of entries.new ++ pair.now ∷ [])) }
        ensures moved { IsPermutation entries.old entries.new }
        ensures err { OnErr result (Indexes self.new (keys_of entries.new)) }
        ensures same { OnErr result (entries.new ≡ entries.old) }
    {
        if self.take(alloc, entries, pair)? {
            return Ok(());
        }
        self.way = way_with(alloc, entries, pair)?;
        Ok(())
    }
}
