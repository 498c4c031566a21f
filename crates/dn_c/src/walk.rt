// The canonical arcs of a table, one after the other, from any arc on.
ghost use Rattle.std.specs.Prelude.{IfSome, Contains};
ghost use Rattle.dn_canon.specs.State.ListedArcs.{listed_arcs};
ghost use Rattle.dn_c.specs.State.Walks.{IsNextArc, StepsArc};

use dn_bundle::{Bundle, Form};
use dn_table::Table;

// Returns the canonical arc of a bundle after the last one that was taken, or its first if none was. If the last one is
// no canonical arc, it returns some canonical arc or `None`.
fn next_arc<B: Bundle>(bundle: &B, last: &Option<B::Arc>, form: Form) -> Option<B::Arc>
    ensures next { IsNextArc (B.bundle.listed form bundle.now) last.now result }
    ensures listed { IfSome result (Contains (B.bundle.listed form bundle.now)) }
{
    match last {
        Some(arc) => bundle.canon_after(arc, form),
        None => bundle.canon_arc(0, form),
    }
}

// Returns the canonical arc of a table after the last one that was taken, with its pair and the index of that, or
// `None` after the last of all. The last one is of the pair at `index`; if none of that pair was taken, there is none.
// From any other arc or index on, it returns some canonical arc of the table or `None`.
pub(crate) fn step<B: Bundle>(
    table: &Table<B>,
    form: Form,
    index: usize,
    last: Option<B::Arc>,
) -> Option<(usize, ((i64, i64), B::Arc))>
    ensures steps { StepsArc (B.bundle.listed form) table.now index last result }
    ensures listed { IfSome result (λ s. Contains (listed_arcs (B.bundle.listed form) table.now) s.1) }
{
    let mut at = index;
    let mut taken = last;
    if table.len() <= index {
        return None;
    }
    for (pair, bundle) in table.pairs_from(index) {
        if let Some(arc) = next_arc(bundle, &taken, form) {
            return Some((at, (pair, arc)));
        }
        at += 1;
        taken = None;
    }
    None
}
