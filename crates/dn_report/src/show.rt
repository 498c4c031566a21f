// The lines that `show` prints for a parsed instance.
ghost use Rattle.std.specs.Prelude.{◌++◌, ℕ, List, IsTrue, OnOk};
ghost use Rattle.std.specs.List.{concat};
ghost use Rattle.dn_arc_theory.specs.declared.arc.Form.{Form};
ghost use Rattle.dn_sink.specs.Rows.{text_of};
ghost use Rattle.dn_sink.specs.Puts.{Puts};
ghost use Rattle.dn_report.specs.State.ListedRows.{ShowsHeld, held_rows, table_rows, listed_rows};

use crate::lines::{count_line, number_line, put_lines, word_line};
use crate::pair_line::PairLine;
use dn_instance::{Held, Table, View};
use dn_sink::{LineBuffer, Sink, SinkFault};

/// Puts the lines of `show`: the kind, the number of nodes and of counted lines, what else the kind has, and, for a
/// graph, the ordered pairs whose arcs mean something, by ascending pair. Each pair has its least length, its total
/// capacity, or its forced units, their cost and the number of costs with free capacity. Puts one line at a time, and
/// then flushes the sink. Allocates nothing.
///
/// # Errors
///
/// The sink failed. It has taken a prefix of the text.
pub fn put_shown<K: Sink>(sink: &mut K, held: &Held) -> Result<(), SinkFault>
    ensures text { (t : List ℕ) × Puts K.sink sink.old sink.new t result × ShowsHeld held.now t }
    ensures flushed { OnOk result (IsTrue (K.sink.is_flushed sink.new)) }
{
    put_held(sink, held)?;
    sink.flush()
}

// Puts the lines of a parsed instance.
fn put_held<K: Sink>(sink: &mut K, held: &Held) -> Result<(), SinkFault>
    ensures { Puts K.sink sink.old sink.new (text_of (held_rows held.now)) result }
{
    let kind = word_line(b"kind", held.kind().name().as_bytes());
    let nodes = number_line(b"nodes", &held.nodes());
    let lines = number_line(b"lines", &held.lines());
    match held.view() {
        View::Min { supplies, table } => {
            let supplies = count_line(b"supplies", supplies.len() as u64);
            put_graph(sink, &[kind, nodes, lines, supplies], table)
        }
        View::Max {
            source,
            sink: target,
            table,
        } => {
            let source = number_line(b"source", &source);
            let target = number_line(b"sink", &target);
            put_graph(sink, &[kind, nodes, lines, source, target], table)
        }
        View::Sp { table } => put_graph(sink, &[kind, nodes, lines], table),
        View::Ss { .. } | View::P2p { .. } | View::Co { .. } => put_lines(sink, &[kind, lines]),
    }
}

// Puts the first lines of a graph, the number of its pairs, and the line of each pair.
fn put_graph<B: PairLine, K: Sink>(
    sink: &mut K,
    head: &[LineBuffer],
    table: &Table<B>,
) -> Result<(), SinkFault>
    ensures { Puts K.sink sink.old sink.new
        (concat head.now ++ text_of (table_rows B.words (B.bundle.listed Form.One) table.now)) result }
{
    put_lines(sink, head)?;
    count_line(b"pairs", table.len() as u64).put(sink)?;
    put_pairs(sink, table)
}

// Puts the line of each pair.
fn put_pairs<B: PairLine, K: Sink>(sink: &mut K, table: &Table<B>) -> Result<(), SinkFault>
    ensures { Puts K.sink sink.old sink.new
        (text_of (listed_rows B.words (B.bundle.listed Form.One) table.now)) result }
{
    let mut line = LineBuffer::new(b"");
    for (pair, bundle) in table.pairs() {
        bundle.make_line(&mut line, &pair);
        line.put(sink)?;
    }
    Ok(())
}
