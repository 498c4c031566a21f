// Looks up the pairs of the arcs of the next rows before the rows are taken.
ghost use Rattle.std.specs.Prelude.{◌≡◌};

use dn_bundle::Bundle;
use dn_line::{BLOCK, RowLine};
use dn_table::TableSoFar;
use pair_index::AHEAD;
use std::alloc::Global;

// The pairs of a whole block are looked up together.
const _: () = prove!(BLOCK == AHEAD);

// Looks up the pairs of the arcs of these rows together in a table, if there are several rows and that may save time.
// Hint.
pub(crate) fn look_ahead<B: Bundle>(table: &mut TableSoFar<B>, alloc: Global, rows: &[RowLine])
    ensures { table.new ≡ table.old }
{
    if 1 < rows.len() && table.wants_hints() {
        table.find_hints(alloc, &pairs_of(rows));
    }
}

// Returns the ordered pairs of the first `AHEAD` rows. If there are fewer rows, the other elements are (0, 0), which is
// the pair of no valid arc. Hint.
fn pairs_of(rows: &[RowLine]) -> [(i64, i64); AHEAD] {
    let mut pairs = [(0, 0); AHEAD];
    for (pair, next) in pairs.iter_mut().zip(rows) {
        *pair = (next.row.first, next.row.second);
    }
    pairs
}
