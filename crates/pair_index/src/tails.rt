// Positions linked in chains, by tail and then by ascending head.
ghost use Rattle.std.specs.Prelude.{◌≡◌, ◌<◌, ℕ, ℤ, false, IsTrue, slice_set, pos, ◌<ℤ◌, List, [], ◌∷◌, ◌++◌, MatchOption, length, Ok, true, ◌≢◌, IfOk, IfSome};
ghost use Rattle.std.specs.List.{list_any, IsDistinct};
ghost use Rattle.std.specs.Map.{keys_of};
ghost use Rattle.pair_index.specs.State.Tailed.{HasRoomFor, IsTailed, LeadsTo, IsSpot};
ghost use Rattle.pair_index.specs.State.Positions.{IsPosition};
ghost use Rattle.dn_arc_theory.specs.Pairs.{same_pair};

use crate::index::AHEAD;
use crate::links::{LONG, MOST_LINKED, is_long};
use crate::pair::{is_head_upto, is_pair};
use std::alloc::{AllocError, Global};

// The greatest count of tails for each entry that there is capacity for.
const DENSE: usize = 4;

// Two tails are near if they differ by at most one for each `SPAN` entries.
const SPAN: usize = 64;

// For each tail a link to the position of its least head, and for each position a link to the one of its tail with the
// next greater head. A link is the position plus one, and 0 ends the chain.
#[derive(Drop)]
pub(crate) struct Tails {
    heads: Vec<u32>,
    next: Vec<u32>,
}

// Where a pair belongs in the chain of its tail: the link to the last position with a lesser head, and the link to the
// position after that.
#[derive(Clone, Copy)]
pub(crate) struct Spot {
    before: u32,
    after: u32,
}

// Returns the tail of a pair, if it is not below 0.
fn tail_of(pair: &(i64, i64)) -> Option<usize>
    ensures { MatchOption result (pair.now.0 <ℤ pos 0) (λ tail. pair.now.0 ≡ pos tail) }
{
    usize::try_from(pair.0).ok()
}

// Returns how much two tails that are near may differ, among this many entries.
fn span(entries: usize) -> u64 {
    (entries / SPAN) as u64
}

// Whether at most half of the entries have a tail that is not near that of the entry before. Hint.
pub(crate) fn are_near<X>(entries: &[((i64, i64), X)]) -> bool {
    let near = span(entries.len());
    let mut far = 0usize;
    for i in 1..entries.len() {
        if near < entries[i].0.0.abs_diff(entries[i - 1].0.0) {
            // `far` is below the number of entries, so the sum does not saturate.
            far = far.saturating_add(1);
        }
    }
    far <= entries.len() / 2
}

// Whether at most half of these pairs have a tail that is not near that of the pair before, among this many entries.
// Hint.
pub(crate) fn are_near_pairs(pairs: &[(i64, i64); AHEAD], entries: usize) -> bool {
    let near = span(entries);
    let mut far = 0usize;
    for i in 1..AHEAD {
        if near < pairs[i].0.abs_diff(pairs[i - 1].0) {
            // `far` is below the number of pairs, so the sum does not saturate.
            far = far.saturating_add(1);
        }
    }
    far <= AHEAD / 2
}

impl Tails {
    // Returns chains without tails. This does not allocate.
    pub(crate) fn none(alloc: Global) -> Tails
        ensures heads { result.heads.items ≡ [] }
        ensures next { result.next.items ≡ [] }
    {
        Tails {
            heads: Vec::new(alloc),
            next: Vec::new(alloc),
        }
    }

    // Returns the link to the first position of a pair's tail.
    fn first_of(&self, pair: &(i64, i64)) -> u32
        ensures { (keys : List (ℤ × ℤ)) → IsTailed self.now keys → LeadsTo keys (λ p. p.0 ≡ pair.now.0) result }
    {
        match tail_of(pair) {
            Some(tail) => {
                if tail < self.heads.len() {
                    self.heads[tail]
                } else {
                    0
                }
            }
            None => 0,
        }
    }

    // Returns where a pair belongs in the chain of its tail.
    fn spot<X>(&self, entries: &[((i64, i64), X)], pair: &(i64, i64)) -> Spot
        requires { IsTailed self.now (keys_of entries.now) }
        ensures { IsSpot (keys_of entries.now) pair.now result }
    {
        let mut before = 0;
        let mut after = self.first_of(pair);
        while after != 0 {
            let at = (after - 1) as usize;
            if is_head_upto(pair, &entries[at].0) {
                break;
            }
            before = after;
            after = self.next[at];
        }
        Spot { before, after }
    }

    // Returns the chains of the entries. Returns `None` if pairs do not come nearly in order, if a chain would be long,
    // or if a tail is below 0 or too great. Whether it returns chains affects only the speed.
    pub(crate) fn of<X>(
        alloc: Global,
        entries: &[((i64, i64), X)],
    ) -> Result<Option<Tails>, AllocError>
        requires { IsDistinct same_pair (keys_of entries.now) }
        ensures { IfOk result (λ o. IfSome o (λ tails. IsTailed tails (keys_of entries.now))) }
    {
        if !are_near(entries) {
            return Ok(None);
        }
        let mut tails = Tails::none(alloc);
        // A slice has fewer entries than a `usize` counts, so the sum does not saturate.
        tails.next.reserve(entries.len().saturating_add(1))?;
        if tails.take_all(entries)? {
            Ok(Some(tails))
        } else {
            drop(tails);
            Ok(None)
        }
    }

    // Adds the entries. Stops and returns false at the first one that cannot be added.
    fn take_all<X>(&mut self, entries: &[((i64, i64), X)]) -> Result<bool, AllocError>
        requires linked { IsTailed self.old [] }
        requires apart { IsDistinct same_pair (keys_of entries.now) }
        ensures { IfOk result (λ is. IsTrue is → IsTailed self.new (keys_of entries.now)) }
    {
        for i in 0..entries.len() {
            if !self.take(&entries[..i], &entries[i].0)? {
                return Ok(false);
            }
        }
        Ok(true)
    }

    // Whether the chains of tails remain the way. This is checked only when the links have no spare capacity, and then
    // by whether pairs still come nearly in order. Hint.
    pub(crate) fn stays<X>(&self, entries: &[((i64, i64), X)]) -> bool {
        self.next.len() < self.next.capacity() || are_near(entries)
    }

    // Adds a pair that comes next. Returns false if its chain is long, or if its tail is below 0 or too great. A false
    // result affects only the speed.
    #[inline(always)]
    pub(crate) fn take<X>(
        &mut self,
        entries: &[((i64, i64), X)],
        pair: &(i64, i64),
    ) -> Result<bool, AllocError>
        requires linked { IsTailed self.old (keys_of entries.now) }
        requires fresh { list_any (same_pair pair.now) (keys_of entries.now) ≡ false }
        ensures taken { IfOk result (λ is. IsTrue is → IsTailed self.new (keys_of entries.now ++ pair.now ∷ [])) }
        ensures not { result ≢ Ok true → IsTailed self.new (keys_of entries.now) }
    {
        if is_long(self.first_of(pair), &self.next) {
            return Ok(false);
        }
        if !self.make_room(pair)? {
            return Ok(false);
        }
        self.link(entries, pair);
        Ok(true)
    }

    // Reserves capacity for the link of a pair. Returns false if its tail is below 0 or too great, or if the links do
    // not suffice. A false result affects only the speed.
    fn make_room(&mut self, pair: &(i64, i64)) -> Result<bool, AllocError>
        ensures kept { (keys : List (ℤ × ℤ)) → IsTailed self.old keys → IsTailed self.new keys }
        ensures room { IfOk result (λ is. IsTrue is → HasRoomFor self.new pair.now) }
    {
        let Some(tail) = tail_of(pair) else {
            return Ok(false);
        };
        if MOST_LINKED <= self.next.len() {
            return Ok(false);
        }
        self.next.reserve(1)?;
        if self.heads.len() <= tail {
            // A product that saturates is above every tail.
            if self.next.capacity().saturating_mul(DENSE) <= tail {
                return Ok(false);
            }
            self.heads.resize(tail + 1, 0)?;
        }
        Ok(true)
    }

    // Returns a hint for each of these pairs. The chains are walked in parallel, so that the load for one pair does not
    // wait for the load for another. Hint.
    pub(crate) fn hints<X>(
        &self,
        entries: &[((i64, i64), X)],
        pairs: &[(i64, i64); AHEAD],
    ) -> [u32; AHEAD] {
        let mut positions = [0; AHEAD];
        for i in 0..AHEAD {
            // A link of 0 means that there is no entry. The hint is then position 0, which affects only the speed.
            positions[i] = self.first_of(&pairs[i]).saturating_sub(1);
        }
        for _ in 0..LONG {
            let mut goes_on = false;
            for i in 0..AHEAD {
                if let Some(next) = self.past(entries, positions[i], &pairs[i]) {
                    positions[i] = next;
                    goes_on = true;
                }
            }
            if !goes_on {
                break;
            }
        }
        positions
    }

    // Returns the position after `position` in its chain, if the head at `position` is below that of `pair`. Hint.
    fn past<X>(
        &self,
        entries: &[((i64, i64), X)],
        position: u32,
        pair: &(i64, i64),
    ) -> Option<u32> {
        let entry = entries.get(position as usize)?;
        if is_head_upto(pair, &entry.0) {
            return None;
        }
        let link = *self.next.get(position as usize)?;
        if link == 0 { None } else { Some(link - 1) }
    }

    // Links the next position, which is that of the pair. This does not allocate, since there is spare capacity.
    pub(crate) fn link<X>(&mut self, entries: &[((i64, i64), X)], pair: &(i64, i64))
        requires linked { IsTailed self.old (keys_of entries.now) }
        requires fresh { list_any (same_pair pair.now) (keys_of entries.now) ≡ false }
        requires room { HasRoomFor self.old pair.now }
        ensures { IsTailed self.new (keys_of entries.now ++ pair.now ∷ []) }
    {
        let spot = self.spot(entries, pair);
        let link = self.next.len() as u32 + 1;
        self.next.push_reserved(spot.after);
        if spot.before == 0 {
            self.set_first(pair, link);
        } else {
            self.next[(spot.before - 1) as usize] = link;
        }
    }

    // Makes `link` the first link of the chain of a pair's tail.
    fn set_first(&mut self, pair: &(i64, i64), link: u32)
        ensures next { self.new.next ≡ self.old.next }
        ensures heads { (tail : ℕ) → pair.now.0 ≡ pos tail → tail < length self.old.heads.items
            → self.new.heads.items ≡ slice_set self.old.heads.items tail link }
    {
        if let Some(tail) = tail_of(pair) {
            if tail < self.heads.len() {
                self.heads[tail] = link;
            }
        }
    }

    // Returns the position of the pair's entry.
    pub(crate) fn find<X>(&self, entries: &[((i64, i64), X)], pair: &(i64, i64)) -> Option<usize>
        requires { IsTailed self.now (keys_of entries.now) }
        ensures { IsPosition (keys_of entries.now) pair.now result }
    {
        let link = self.spot(entries, pair).after;
        if link == 0 {
            return None;
        }
        let at = (link - 1) as usize;
        if is_pair(&entries[at].0, pair) {
            Some(at)
        } else {
            None
        }
    }
}
