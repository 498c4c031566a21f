// What one side of a comparison is: the entries of a table or a map.
ghost use Rattle.std.specs.Prelude.{◌≡◌, List, [], Some, None};
ghost use Rattle.std.proofs.Common.{refl, sym, ◌∙◌};
ghost use Rattle.std.specs.Option.{option_copied, option_map};
ghost use Rattle.std.specs.Ordering.{int_cmp};
ghost use Rattle.std.specs.declared.cmp.Ordering.TheVariants.{Equal};
ghost use Rattle.std.proofs.lemmas.Map.Lookups.{exact_pairs, exact_signed};
ghost use Rattle.dn_arc_theory.specs.declared.arc.Form.TheVariants.{One};
ghost use Rattle.dn_compare.specs.State.Partings.{Compares, Comparison, by_flow, by_meaning, by_point};
ghost use Rattle.dn_compare.specs.State.Peeked.{peeked_entries};

use dn_bundle::{Bundle, How};
use dn_instance::Pairs;
use dn_nodes::Nodes;

// Entries by ascending key, each handed out once, whose values can be compared.
pub(crate) trait Side: Drop {
    type Key: Ord + Copy;

    type Value;

    // A value as it is handed out.
    type Lent: Copy;

    type How;

    // The entries that are not handed out yet.
    ghost entries: { Self → List (Self.Key × Self.Value) };

    // The value that is handed out.
    ghost value: { Self.Lent → Self.Value };

    // How two values at a key are compared.
    ghost by: { Comparison Self.Value Self.How };

    // Hands out the next entry.
    fn next_entry(&mut self) -> Option<(Self::Key, Self::Lent)>
        ensures { peeked_entries value result (entries self.new) ≡ entries self.old };

    // Returns how two values at a key, each of which may be missing, differ, or `None` if they count as the same.
    fn how(left: Option<Self::Lent>, right: Option<Self::Lent>) -> Option<Self::How>
        ensures { Compares by (option_map value left) (option_map value right) result };

    // Keys that compare as equal are equal.
    ghost exact: { (k l : Self.Key) → Self.Key.cmp k l ≡ Equal → k ≡ l };

    // Two missing values count as the same.
    ghost none_alike: { by.Alike None None };

    // Two missing values do not differ.
    ghost none_differ: { (how : Self.How) → by.Differ None None how → ⊥ };
}

// The bundles of a table, by what they mean.
impl<'a, B: Bundle> Side for Pairs<'a, B> {
    type Key = (i64, i64);

    type Value = B;

    type Lent = &'a B;

    type How = How;

    ghost entries = { λ s. s };

    ghost value = { λ b. b.now };

    ghost by = { by_meaning B.bundle.kind B.bundle.Differ (B.bundle.listed One) };

    fn next_entry(&mut self) -> Option<((i64, i64), &'a B)> {
        self.next()
    }

    fn how(left: Option<&'a B>, right: Option<&'a B>) -> Option<How>
        ensures { Compares (by_meaning B.bundle.kind B.bundle.Differ (B.bundle.listed One))
            (option_copied left.entry) (option_copied right.entry) result }
    {
        B::how(left, right)
    }

    ghost exact = { exact_pairs int_cmp int_cmp exact_signed exact_signed };

    ghost none_alike = { B.laws.meaning.same_refl [] };

    ghost none_differ = { λ how d. B.differs.none_differ [] [] how d (B.laws.meaning.same_refl []) };
}

// Flows by node. The flow of a node without an entry is 0.
impl<'a> Side for Nodes<'a, i64> {
    type Key = i64;

    type Value = i64;

    type Lent = i64;

    type How = (i64, i64);

    ghost entries = { λ s. s };

    ghost value = { λ flow. flow };

    ghost by = { by_flow };

    fn next_entry(&mut self) -> Option<(i64, i64)> {
        let (id, flow) = self.next()?;
        Some((id, *flow))
    }

    fn how(left: Option<i64>, right: Option<i64>) -> Option<(i64, i64)>
        ensures { Compares by_flow (option_map (λ flow. flow) left) (option_map (λ flow. flow) right) result }
    {
        let left = left.unwrap_or(0);
        let right = right.unwrap_or(0);
        if left == right {
            None
        } else {
            Some((left, right))
        }
    }

    ghost exact = { exact_signed };

    ghost none_alike = { refl };

    ghost none_differ = { λ how d. d.2 (sym d.0 ∙ d.1) };
}

// Points by ID.
impl<'a> Side for Nodes<'a, (i64, i64)> {
    type Key = i64;

    type Value = (i64, i64);

    type Lent = (i64, i64);

    type How = ();

    ghost entries = { λ s. s };

    ghost value = { λ point. point };

    ghost by = { by_point };

    fn next_entry(&mut self) -> Option<(i64, (i64, i64))> {
        let (id, point) = self.next()?;
        Some((id, *point))
    }

    fn how(left: Option<(i64, i64)>, right: Option<(i64, i64)>) -> Option<()>
        ensures { Compares by_point (option_map (λ point. point) left) (option_map (λ point. point) right) result }
    {
        if left == right { None } else { Some(()) }
    }

    ghost exact = { exact_signed };

    ghost none_alike = { refl };

    ghost none_differ = { λ how d. d refl };
}
