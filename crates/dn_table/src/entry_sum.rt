// Counts the entries that bundles make.
ghost use Rattle.std.specs.Prelude.{◌≡◌, ◌<◌, ◌≤◌, ◌^◌, length, MatchOption};
ghost use Rattle.std.specs.List.{IsDistinct};
ghost use Rattle.std.specs.Map.{keys_of};
ghost use Rattle.dn_arc_theory.specs.declared.arc.Form.{Form};
ghost use Rattle.dn_arc_theory.specs.Pairs.{same_pair};
ghost use Rattle.dn_table.specs.State.ListedEntries.{entries_listed};
ghost use Rattle.dn_table.specs.State.Tables.{CountsBelow, CountsEntries, entries_in};

use dn_bundle_trait::{Bundle, Form};

// Returns how many entries the bundles of different pairs make, or `u64::MAX` if this does not fit 64 bits.
pub(crate) fn bundle_entries<B: Bundle>(entries: &[((i64, i64), B)]) -> u64
    ensures { IsDistinct same_pair (keys_of entries.now) → CountsEntries B.bundle entries.now result }
{
    match count_entries(entries) {
        Some(count) => count,
        None => u64::MAX,
    }
}

// Returns how many entries the bundles make, if this fits 64 bits.
fn count_entries<B: Bundle>(entries: &[((i64, i64), B)]) -> Option<u64>
    ensures { CountsBelow (2 ^ 64) (entries_listed (entries_in B.bundle) entries.now) result }
{
    let mut all = 0u64;
    for (_, bundle) in entries {
        all = all.checked_add(bundle.entries())?;
    }
    Some(all)
}

// Returns how many arcs the bundles list in a form, if this fits 64 bits.
pub(crate) fn count_arcs<B: Bundle>(entries: &[((i64, i64), B)], form: Form) -> Option<u64>
    ensures { CountsBelow (2 ^ 64) (entries_listed (λ b. length (B.bundle.listed form b)) entries.now) result }
{
    let mut all = 0u64;
    for (_, bundle) in entries {
        all = all.checked_add(bundle.canon_len(form))?;
    }
    Some(all)
}
