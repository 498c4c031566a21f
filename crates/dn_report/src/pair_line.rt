// The line of an ordered pair, made from the arcs that its bundle lists.
ghost use Rattle.std.specs.Prelude.{◌≡◌, ◌≤◌, ◌++◌, ◌∷◌, List, codes, length};
ghost use Rattle.std.specs.Fmt.{signed_decimal};
ghost use Rattle.dn_arc_theory.specs.State.Bundles.{meant};
ghost use Rattle.dn_sink.specs.Rows.{Cells, line_text};
ghost use Rattle.dn_report.specs.Shows.{cost_words, forced_words, pair_row, total_words};
ghost use Rattle.dn_report.specs.State.ListedRows.{length_words};

use dn_bundle::{Bundle, Curve, Least, Total};
use dn_sink::LineBuffer;

// A bundle that `show` prints on one line.
pub(crate) trait PairLine: Bundle {
    // The words of the line after the pair, given the arcs that the bundle lists.
    ghost words: { List Self.Arc → Cells };

    // Replaces `line` by the line of this bundle and its pair.
    fn make_line(&self, line: &mut LineBuffer, pair: &(i64, i64))
        ensures { line.new ≡ line_text (pair_row pair.now (words (meant Self.bundle self.now))) };
}

impl PairLine for Least {
    ghost words = { length_words };

    fn make_line(&self, line: &mut LineBuffer, pair: &(i64, i64)) {
        begin_line(line, pair);
        line.word(b"length");
        line.number(&self.get());
        line.newline();
    }
}

impl PairLine for Total {
    ghost words = { total_words };

    fn make_line(&self, line: &mut LineBuffer, pair: &(i64, i64)) {
        begin_line(line, pair);
        line.word(b"total");
        line.number(&self.get());
        line.newline();
    }
}

impl PairLine for Curve {
    ghost words = { cost_words };

    fn make_line(&self, line: &mut LineBuffer, pair: &(i64, i64)) {
        let (units, cost) = self.forced();
        forced_line(line, pair, &units, &cost, self.free_len());
    }
}

// Makes the line of a pair of a `min` problem.
fn forced_line(line: &mut LineBuffer, pair: &(i64, i64), units: &i64, cost: &i128, steps: u64)
    ensures { line.new ≡ line_text (pair_row pair.now (forced_words units.now cost.now steps)) }
{
    begin_line(line, pair);
    line.word(b"forced");
    line.number(units);
    line.word(b"cost");
    line.wide_number(cost);
    line.word(b"steps");
    line.count(steps);
    line.newline();
}

// Clears the line, and begins it with the word `pair` and the pair.
fn begin_line(line: &mut LineBuffer, pair: &(i64, i64))
    ensures text { line.new
        ≡ (codes "pair" ++ 32 ∷ signed_decimal pair.now.0) ++ 32 ∷ signed_decimal pair.now.1 }
    ensures within { length line.new ≤ 46 }
{
    line.begin(b"pair");
    line.number(&pair.0);
    line.number(&pair.1);
}
