// Bundles by their ordered pairs, while arcs arrive.
ghost use Rattle.std.specs.Prelude.{◌≡◌, ◌<◌, ℤ, List, [], None, OnOk, OnErr, Some, Err, ◌↔◌, ◌-◌, ◌^◌, ◌++◌, ◌∷◌, false, true, vec_capacity, vec_len};
ghost use Rattle.std.specs.List.{list_any};
ghost use Rattle.std.specs.List.Sorted.{IsPermutation, IsStrictlySortedBy};
ghost use Rattle.std.specs.Map.{keys_of, lookup};
ghost use Rattle.pair_index.specs.State.Indexed.{Indexes};
ghost use Rattle.pair_index.specs.State.Positions.{IsPosition};
ghost use Rattle.dn_arc_theory.specs.declared.arc.Form.{Form};
ghost use Rattle.dn_arc_theory.specs.Pairs.{pair_cmp, same_pair};
ghost use Rattle.dn_table.specs.State.Tables.{Adds, CountsEntries, IsSameElsewhere, IsTooMuch, WidensAt};

use crate::entry_sum::bundle_entries;
use crate::table::Table;
use dn_bundle_trait::{Bundle, BundleFault, Form};
use pair_index::{AHEAD, PairIndex, is_pair};
use std::alloc::{AllocError, Global};
use std::marker::Model;

/// The bundles of the arcs so far, one for each pair, in any order.
#[derive(Drop)]
pub struct TableSoFar<B: Bundle> {
    entries: Vec<((i64, i64), B)>,
    index: PairIndex,
    // Hints of the positions of the next pairs, and how many of the hints are used.
    hints: [u32; AHEAD],
    used: usize,
}

// Touches the bundles at these hints, whose loads do not wait for each other, and returns the hints. The result depends
// on what was read, so that it is read; but a number of a bundle is never the least of its type. Hint.
fn touched<B: Bundle>(entries: &[((i64, i64), B)], hints: &[u32; AHEAD]) -> [u32; AHEAD] {
    let mut positions = *hints;
    for i in 0..AHEAD {
        if let Some(entry) = entries.get(positions[i] as usize) {
            if entry.1.touch() == i64::MIN {
                positions[i] = 0;
            }
        }
    }
    positions
}

impl<B: Bundle> Model for TableSoFar<B> {
    ghost use Rattle.std.specs.Prelude.{ℤ, List};
    ghost use Rattle.std.specs.Map.{keys_of};
    ghost use Rattle.pair_index.specs.State.Indexed.{Indexes};

    ghost Value = { List ((ℤ × ℤ) × B) };

    ghost view = { λ t. t.entries.items };

    ghost invariant = { λ t. Indexes t.index (keys_of t.entries.items) };
}

impl<B: Bundle> TableSoFar<B> {
    /// Returns a table without bundles.
    pub fn new(alloc: Global) -> TableSoFar<B>
        ensures { result ≡ [] }
    {
        TableSoFar {
            entries: Vec::new(alloc),
            index: PairIndex::new(),
            hints: [0; AHEAD],
            used: AHEAD,
        }
    }

    /// Whether hints of the positions of the next pairs may save time, and all earlier hints are used. Hint.
    pub fn wants_hints(&self) -> bool {
        AHEAD <= self.used && self.index.is_scattered(self.entries.len())
    }

    /// Looks up these pairs together, if that saves time. They are likely the pairs of the next arcs, and the positions
    /// found become hints. Hint.
    pub fn find_hints(&mut self, alloc: Global, pairs: &[(i64, i64); AHEAD])
        ensures { self.new ≡ self.old }
    {
        if let Some(hints) = self.index.hints(alloc, &self.entries, pairs) {
            self.hints = touched(&self.entries, &hints);
            self.used = 0;
        }
    }

    // Returns the position of the next pair, if it has an entry. Tries the next hint first.
    fn position(&mut self, pair: &(i64, i64)) -> Option<usize>
        ensures position { IsPosition (keys_of self.old) pair.now result }
        ensures same { self.new ≡ self.old }
    {
        let hint = self.next_hint();
        self.position_from(hint, pair)
    }

    // Returns the next hint, and marks it as used.
    #[inline]
    fn next_hint(&mut self) -> Option<usize>
        ensures { self.new ≡ self.old }
    {
        let hint = *self.hints.get(self.used)? as usize;
        self.used += 1;
        Some(hint)
    }

    // Returns the position of a pair, if it has an entry. Tries the hint first.
    #[inline]
    fn position_from(&mut self, hint: Option<usize>, pair: &(i64, i64)) -> Option<usize>
        ensures position { IsPosition (keys_of self.old) pair.now result }
        ensures same { self.new ≡ self.old }
    {
        match hint {
            Some(at) if self.stands_at(at, pair) => Some(at),
            _ => self.index.find(&self.entries, pair),
        }
    }

    // Whether the entry at this position is that of the pair.
    #[inline]
    fn stands_at(&self, at: usize, pair: &(i64, i64)) -> bool
        ensures { result ≡ true → IsPosition (keys_of self.now) pair.now (Some at) }
    {
        match self.entries.get(at) {
            Some(entry) => is_pair(&entry.0, pair),
            None => false,
        }
    }

    // Adds a bundle for a pair that has none. If an allocation fails, nothing changes.
    fn insert(&mut self, alloc: Global, pair: (i64, i64), bundle: B) -> Result<(), BundleFault>
        requires { lookup (same_pair pair) self.old ≡ None }
        ensures there { OnOk result (lookup (same_pair pair) self.new ≡ Some bundle) }
        ensures others { OnOk result (IsSameElsewhere pair self.old self.new) }
        ensures err { OnErr result (self.new ≡ self.old) }
        ensures memory { OnErr result (result ≡ Err BundleFault.Memory) }
    {
        match note_next(alloc, &mut self.entries, &mut self.index, &pair) {
            Ok(()) => {
                self.entries.push_reserved((pair, bundle));
                Ok(())
            }
            Err(_) => Err(BundleFault::Memory),
        }
    }

    /// Adds an arc to the bundle of a pair.
    ///
    /// # Errors
    ///
    /// Returns `Sum` exactly if the capacities of the pair's arcs sum to more than 2^63 - 1, and otherwise `Memory` if
    /// an allocation fails, which only an arc needs that makes another entry of its pair, or spreads the forced units.
    /// After an error, nothing has changed.
    #[inline(always)]
    pub fn add(&mut self, alloc: Global, pair: (i64, i64), arc: B::Arc) -> Result<(), BundleFault>
        requires { B.bundle.kind.IsArc arc }
        ensures ok { OnOk result (Adds B.bundle self.old self.new pair arc) }
        ensures err { OnErr result (self.new ≡ self.old) }
        ensures sum { (result ≡ Err BundleFault.Sum)
            ↔ IsTooMuch B.bundle self.old pair arc }
        ensures memory { (result ≡ Err BundleFault.Memory) → WidensAt B.bundle self.old pair arc }
    {
        if !self.index.is_next(&self.entries, &pair) {
            return self.add_anywhere(alloc, pair, arc);
        }
        let Ok(one) = B::of(alloc, arc) else {
            return Err(BundleFault::Memory);
        };
        let Some(bundle) = one else {
            return Ok(());
        };
        match self.entries.reserve(1) {
            Ok(()) => {
                self.entries.push_reserved((pair, bundle));
                Ok(())
            }
            Err(_) => Err(BundleFault::Memory),
        }
    }

    // Adds an arc to the bundle of a pair, wherever the pair belongs.
    #[inline(never)]
    fn add_anywhere(
        &mut self,
        alloc: Global,
        pair: (i64, i64),
        arc: B::Arc,
    ) -> Result<(), BundleFault>
        requires { B.bundle.kind.IsArc arc }
        ensures ok { OnOk result (Adds B.bundle self.old self.new pair arc) }
        ensures err { OnErr result (self.new ≡ self.old) }
        ensures sum { (result ≡ Err BundleFault.Sum)
            ↔ IsTooMuch B.bundle self.old pair arc }
        ensures memory { (result ≡ Err BundleFault.Memory) → WidensAt B.bundle self.old pair arc }
    {
        match self.position(&pair) {
            Some(i) => self.entries[i].1.add(arc),
            None => self.add_fresh(alloc, pair, arc),
        }
    }

    // Adds an arc at a pair that has no bundle.
    fn add_fresh(&mut self, alloc: Global, pair: (i64, i64), arc: B::Arc) -> Result<(), BundleFault>
        requires is_arc { B.bundle.kind.IsArc arc }
        requires none { lookup (same_pair pair) self.old ≡ None }
        ensures ok { OnOk result (Adds B.bundle self.old self.new pair arc) }
        ensures err { OnErr result (self.new ≡ self.old) }
        ensures sum { (result ≡ Err BundleFault.Sum)
            ↔ IsTooMuch B.bundle self.old pair arc }
        ensures memory { (result ≡ Err BundleFault.Memory) → WidensAt B.bundle self.old pair arc }
    {
        let Ok(one) = B::of(alloc, arc) else {
            return Err(BundleFault::Memory);
        };
        match one {
            Some(bundle) => self.insert(alloc, pair, bundle),
            None => Ok(()),
        }
    }

    /// Returns how many entries the bundles make, if this is below 2^64.
    pub fn entries(&self) -> u64
        ensures { CountsEntries B.bundle self.now result }
    {
        bundle_entries(&self.entries)
    }

    /// Returns the table of these bundles. This does not allocate.
    pub fn end(self) -> Table<B>
        ensures ascending { IsStrictlySortedBy pair_cmp (keys_of result) }
        ensures kept { (pair : ℤ × ℤ) → lookup (same_pair pair) result ≡ lookup (same_pair pair) self }
    {
        let TableSoFar {
            mut entries,
            index,
            ..
        } = self;
        index.sort(&mut entries);
        Table::of(entries)
    }
}

// Reserves capacity for one more entry, and adds its pair to the index.
fn note_next<X>(
    alloc: Global,
    entries: &mut Vec<((i64, i64), X)>,
    index: &mut PairIndex,
    pair: &(i64, i64),
) -> Result<(), AllocError>
    requires indexed { Indexes index.old (keys_of entries.old.items) }
    requires fresh { list_any (same_pair pair.now) (keys_of entries.old.items) ≡ false }
    ensures moved { IsPermutation entries.old.items entries.new.items }
    ensures room { OnOk result (vec_len entries.new < vec_capacity entries.new) }
    ensures ok { OnOk result (Indexes index.new (keys_of entries.new.items ++ pair.now ∷ [])) }
    ensures err { OnErr result (Indexes index.new (keys_of entries.old.items)) }
    ensures same { OnErr result (entries.new.items ≡ entries.old.items) }
{
    entries.reserve(1)?;
    index.note(alloc, entries, pair)
}
