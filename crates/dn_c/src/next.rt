// Copies canonical arcs, one after the other.
ghost use Rattle.std.specs.Prelude.{◌≤◌, length};
ghost use Rattle.dn_c.specs.State.Walks.{CopiesFrom, CopiesListed, Fills};

use crate::arcs::{Arc, row};
use crate::cursor::{Cursor, Kept, cursor_after, last_before};
use crate::status::{Count, fine_count};
use crate::walk::step;
use dn_bundle::{Bundle, Form};
use dn_table::Table;

// Copies the canonical arcs of a table after the last one that was taken, as far as there is room. Returns how many it
// copied, and the last one that is taken then with the index of its pair.
fn put_rows<B: Bundle>(
    table: &Table<B>,
    form: Form,
    index: usize,
    last: Option<B::Arc>,
    out: &mut [Arc],
) -> (usize, (usize, Option<B::Arc>))
    ensures fills { Fills B.Arc.numbers (B.bundle.listed form) table.now index last (length out.old) out.new
        result.0 result.1.0 result.1.1 }
    ensures listed { CopiesListed B.Arc.numbers (B.bundle.listed form) table.now out.new result.0 }
    ensures fits { result.0 ≤ length out.new }
{
    let room = out.len();
    let mut spot = index;
    let mut taken = last;
    for at in 0..room {
        match step(table, form, spot, taken) {
            Some(found) => {
                out[at] = row(&found.1.0, &found.1.1);
                spot = found.0;
                taken = Some(found.1.1);
            }
            None => return (at, (spot, taken)),
        }
    }
    (room, (spot, taken))
}

/// Copies the canonical arcs of a table after the cursor, as far as there is room, and moves the cursor behind them.
/// Returns how many it copied.
pub(crate) fn put_next<B: Kept>(
    table: &Table<B>,
    form: Form,
    cursor: &mut Cursor,
    out: &mut [Arc],
) -> Count
    ensures copies { CopiesFrom B.Arc.numbers (B.bundle.listed form) B.arc_at table.now cursor.old cursor.new
        (length out.old) out.new result }
    ensures fits { result.count ≤ length out.new }
{
    let put = put_rows(table, form, cursor.pairs, last_before::<B>(cursor), out);
    *cursor = cursor_after(put.1.0, &put.1.1);
    fine_count(put.0)
}
