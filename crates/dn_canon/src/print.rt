// The lines of a canonical text but those of arcs, each appended to a block. All but the problem lines first put the
// block into a sink if the line might not fit.
ghost use Rattle.std.specs.Prelude.{◌≡◌, ◌+◌, ◌<◌, ◌≤◌, ◌^◌, [], ◌∷◌, ◌++◌, length, map};
ghost use Rattle.std.specs.Fmt.{signed_decimal};
ghost use Rattle.dn_line.specs.declared.word.Keyword.TheVariants.{S, T};
ghost use Rattle.dn_sink.specs.Rows.{line_text};
ghost use Rattle.dn_canon.specs.State.Blocks.{HasRoom, Adds};
ghost use Rattle.dn_canon.specs.Prints.{graph_row, companion_row, supply_row, terminal_row, source_row, query_row, point_row};

use crate::block::Block;
use dn_line::Kind;
use dn_sink::{Sink, SinkFault};

// Appends the problem line of a graph.
pub(crate) fn graph_line(block: &mut Block, kind: Kind, nodes: &i64, arcs: u64)
    requires few { arcs < 2 ^ 63 }
    requires room { HasRoom block.old }
    ensures { block.new ≡ block.old ++ line_text (graph_row kind nodes.now arcs) }
{
    let count = arcs as i64;
    block.push(b"p ");
    block.push(kind.name().as_bytes());
    block.number(nodes);
    block.number(&count);
    block.byte(b'\n');
}

// Appends the problem line of a companion.
pub(crate) fn companion_line(block: &mut Block, kind: Kind, items: u64)
    requires few { items < 2 ^ 63 }
    requires room { HasRoom block.old }
    ensures { block.new ≡ block.old ++ line_text (companion_row kind items) }
{
    let count = items as i64;
    block.push(b"p aux sp ");
    block.push(kind.name().as_bytes());
    block.number(&count);
    block.byte(b'\n');
}

// Appends the node line of a supply.
pub(crate) fn supply_line<K: Sink>(
    block: &mut Block,
    sink: &mut K,
    id: &i64,
    flow: &i64,
) -> Result<(), SinkFault>
    ensures { Adds K.sink sink.old sink.new block.old block.new (line_text (supply_row (id.now, flow.now))) result }
{
    row_line(block, sink, b'n', &[*id, *flow])
}

// Appends the line of the source of a `max` problem.
pub(crate) fn max_source_line<K: Sink>(
    block: &mut Block,
    sink: &mut K,
    id: &i64,
) -> Result<(), SinkFault>
    ensures { Adds K.sink sink.old sink.new block.old block.new (line_text (terminal_row id.now S)) result }
{
    block.make_room(sink)?;
    block.byte(b'n');
    block.number(id);
    block.push(b" s\n");
    Ok(())
}

// Appends the line of the sink of a `max` problem.
pub(crate) fn max_sink_line<K: Sink>(
    block: &mut Block,
    sink: &mut K,
    id: &i64,
) -> Result<(), SinkFault>
    ensures { Adds K.sink sink.old sink.new block.old block.new (line_text (terminal_row id.now T)) result }
{
    block.make_room(sink)?;
    block.byte(b'n');
    block.number(id);
    block.push(b" t\n");
    Ok(())
}

// Appends the line of an `ss` source.
pub(crate) fn source_line<K: Sink>(
    block: &mut Block,
    sink: &mut K,
    id: &i64,
) -> Result<(), SinkFault>
    ensures { Adds K.sink sink.old sink.new block.old block.new (line_text (source_row id.now)) result }
{
    row_line(block, sink, b's', &[*id])
}

// Appends the line of a `p2p` query.
pub(crate) fn query_line<K: Sink>(
    block: &mut Block,
    sink: &mut K,
    query: &(i64, i64),
) -> Result<(), SinkFault>
    ensures { Adds K.sink sink.old sink.new block.old block.new (line_text (query_row query.now)) result }
{
    row_line(block, sink, b'q', &[query.0, query.1])
}

// Appends the line of a node's coordinates.
pub(crate) fn point_line<K: Sink>(
    block: &mut Block,
    sink: &mut K,
    id: &i64,
    place: &(i64, i64),
) -> Result<(), SinkFault>
    ensures { Adds K.sink sink.old sink.new block.old block.new (line_text (point_row (id.now, place.now))) result }
{
    row_line(block, sink, b'v', &[*id, place.0, place.1])
}

// Appends the line of a letter and numbers.
#[inline(always)]
fn row_line<K: Sink>(
    block: &mut Block,
    sink: &mut K,
    letter: u8,
    numbers: &[i64],
) -> Result<(), SinkFault>
    requires { length numbers.now ≤ 5 }
    ensures { let words = (letter ∷ []) ∷ map signed_decimal numbers.now in
        Adds K.sink sink.old sink.new block.old block.new (line_text words) result }
{
    block.make_room(sink)?;
    block.line(letter, numbers);
    Ok(())
}
