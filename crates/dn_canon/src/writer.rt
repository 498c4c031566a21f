// Writes the canonical text of what tables, lists and maps list, one block of lines at a time, and allocates nothing.
ghost use Rattle.std.specs.Prelude.{◌≡◌, ◌<◌, ◌≤◌, ◌^◌, ◌++◌, length, map, IsTrue, OnOk, MatchOption};
ghost use Rattle.std.specs.List.Sorted.{IsStrictlySortedBy};
ghost use Rattle.std.specs.Map.{keys_of};
ghost use Rattle.dn_instance.specs.Instances.{Graph, Sources, Queries, Coordinates};
ghost use Rattle.dn_arc_theory.specs.Pairs.{pair_cmp};
ghost use Rattle.dn_table.specs.State.Tables.{Lists};
ghost use Rattle.dn_instance.specs.Validity.{IsValidGraph};
ghost use Rattle.dn_canon.specs.State.Blocks.{Adds};
ghost use Rattle.dn_canon.specs.State.Lines.{AreShort};
ghost use Rattle.dn_canon.specs.Prints.{arc_row, supply_row, print};
ghost use Rattle.dn_sink.specs.Rows.{text_of};
ghost use Rattle.dn_sink.specs.Puts.{Puts};
ghost use Rattle.dn_canon.specs.State.CanonGraphs.{IsCanonGraphOf};
ghost use Rattle.dn_canon.specs.State.ListedArcs.{placed, listed_arcs, listed_graph};
ghost use Rattle.dn_canon.specs.State.Writes.{Writes, graph_text, node_rows};

use crate::block::Block;
use crate::print::{
    companion_line, graph_line, max_sink_line, max_source_line, point_line, query_line,
    source_line, supply_line,
};
use dn_bundle::{Bundle, Form};
use dn_instance::{Refusal, Table};
use dn_line::Kind;
use dn_nodes::NodeMap;
use dn_sink::{Sink, SinkFault, put_and_flush};
use dn_table::Prefetch;

// The lines between the problem line and the arcs of a graph.
#[derive(Clone, Copy)]
pub(crate) enum NodeLines<'a> {
    // The node line of each node whose flow is not 0 (`min`).
    Supplies(&'a NodeMap<i64>),
    // The lines of the source and the sink (`max`).
    Terminals(&'a i64, &'a i64),
    // No lines (`sp`).
    NoNodes,
}

// Writes a graph, after the arcs are counted.
pub(crate) fn write_graph<B: Bundle, K: Sink>(
    sink: &mut K,
    kind: Kind,
    nodes: &i64,
    lines: &NodeLines<'_>,
    table: &Table<B>,
    form: Form,
) -> Result<(), Refusal>
    requires { AreShort B.bundle.kind }
    ensures text { let text = graph_text B.bundle form kind nodes.now lines.now table.now in
        let arcs = listed_arcs (B.bundle.listed form) table.now in
        Writes K.sink sink.old sink.new text (length arcs) result }
    ensures flushed { OnOk result (IsTrue (K.sink.is_flushed sink.new)) }
    ensures canon { (G : Graph B.Arc) → G.nodes ≡ nodes.now → Lists B.bundle table.now G.arcs
        → IsValidGraph B.bundle.kind G
        → IsCanonGraphOf B.bundle.kind form (listed_graph (B.bundle.listed form) nodes.now table.now) G }
{
    match arc_count(table, form) {
        Some(count) => match put_graph(sink, kind, nodes, count, lines, table, form) {
            Ok(()) => Ok(()),
            Err(_) => Err(Refusal::Write),
        },
        None => Err(Refusal::CountTooLarge),
    }
}

// Writes an `ss` text.
pub(crate) fn write_sources<K: Sink>(sink: &mut K, ids: &[i64]) -> Result<(), SinkFault>
    ensures few { length ids.now < 2 ^ 63 }
    ensures text { Puts K.sink sink.old sink.new (print (Sources ids.now)) result }
    ensures flushed { OnOk result (IsTrue (K.sink.is_flushed sink.new)) }
{
    let mut block = Block::new();
    companion_line(&mut block, Kind::Ss, ids.len() as u64);
    for id in ids {
        source_line(&mut block, sink, id)?;
    }
    put_and_flush(sink, block.bytes())
}

// Writes a `p2p` text.
pub(crate) fn write_queries<K: Sink>(sink: &mut K, queries: &[(i64, i64)]) -> Result<(), SinkFault>
    ensures few { length queries.now < 2 ^ 63 }
    ensures text { Puts K.sink sink.old sink.new (print (Queries queries.now)) result }
    ensures flushed { OnOk result (IsTrue (K.sink.is_flushed sink.new)) }
{
    let mut block = Block::new();
    companion_line(&mut block, Kind::P2p, queries.len() as u64);
    for query in queries {
        query_line(&mut block, sink, query)?;
    }
    put_and_flush(sink, block.bytes())
}

// Writes a `co` text, by ascending ID.
pub(crate) fn write_points<K: Sink>(
    sink: &mut K,
    points: &NodeMap<(i64, i64)>,
) -> Result<(), SinkFault>
    ensures few { length points.now.entries < 2 ^ 63 }
    ensures text { Puts K.sink sink.old sink.new (print (Coordinates points.now.entries)) result }
    ensures flushed { OnOk result (IsTrue (K.sink.is_flushed sink.new)) }
{
    let mut block = Block::new();
    companion_line(&mut block, Kind::Co, points.len() as u64);
    for (id, place) in points.iter() {
        point_line(&mut block, sink, &id, place)?;
    }
    put_and_flush(sink, block.bytes())
}

// Returns the number of arcs that a table lists, if it is below 2^63.
fn arc_count<B: Bundle>(table: &Table<B>, form: Form) -> Option<u64>
    ensures count { let all = length (listed_arcs (B.bundle.listed form) table.now) in
        MatchOption result (2 ^ 63 ≤ all) (λ n. (n ≡ all) × n < 2 ^ 63) }
    ensures ascending { IsStrictlySortedBy pair_cmp (keys_of table.now) }
{
    match table.arc_count(form) {
        Some(all) => { if all < 1 << 63 { Some(all) } else { None } }
        None => None,
    }
}

// Appends the arcs of one pair.
fn put_bundle<B: Bundle, K: Sink>(
    block: &mut Block,
    sink: &mut K,
    pair: &(i64, i64),
    bundle: &B,
    form: Form,
) -> Result<(), SinkFault>
    requires { AreShort B.bundle.kind }
    ensures { Adds K.sink sink.old sink.new block.old block.new (text_of (map (arc_row B.bundle.kind)
        (placed pair.now (B.bundle.listed form bundle.now)))) result }
{
    let mut next = bundle.canon_arc(0, form);
    for _ in 0..bundle.canon_len(form) {
        if let Some(arc) = next {
            block.make_room(sink)?;
            block.arc(pair, &arc);
            next = bundle.canon_after(&arc, form);
        }
    }
    Ok(())
}

// Appends the arcs of a graph.
fn put_table<B: Bundle, K: Sink>(
    block: &mut Block,
    sink: &mut K,
    table: &Table<B>,
    form: Form,
) -> Result<(), SinkFault>
    requires { AreShort B.bundle.kind }
    ensures { let rows = map (arc_row B.bundle.kind) (listed_arcs (B.bundle.listed form) table.now) in
        Adds K.sink sink.old sink.new block.old block.new (text_of rows) result }
{
    let mut walk = Prefetch::new();
    for (pair, bundle) in table.pairs() {
        walk = table.touch(walk);
        put_bundle(block, sink, &pair, bundle, form)?;
    }
    Ok(())
}

// Appends the node lines of a `min` problem.
fn put_supplies<K: Sink>(
    block: &mut Block,
    sink: &mut K,
    supplies: &NodeMap<i64>,
) -> Result<(), SinkFault>
    ensures { Adds K.sink sink.old sink.new block.old block.new (text_of (map supply_row supplies.now.entries)) result }
{
    for (id, flow) in supplies.iter() {
        supply_line(block, sink, &id, flow)?;
    }
    Ok(())
}

// Appends the lines between the problem line and the arcs.
fn put_nodes<K: Sink>(
    block: &mut Block,
    sink: &mut K,
    nodes: &NodeLines<'_>,
) -> Result<(), SinkFault>
    ensures { Adds K.sink sink.old sink.new block.old block.new (text_of (node_rows nodes.now)) result }
{
    match nodes {
        NodeLines::Supplies(supplies) => put_supplies(block, sink, supplies),
        NodeLines::Terminals(source, target) => {
            max_source_line(block, sink, source)?;
            max_sink_line(block, sink, target)
        }
        NodeLines::NoNodes => Ok(()),
    }
}

// Writes a graph: the problem line, the lines before the arcs, and the arcs. Then flushes the sink.
fn put_graph<B: Bundle, K: Sink>(
    sink: &mut K,
    kind: Kind,
    nodes: &i64,
    count: u64,
    lines: &NodeLines<'_>,
    table: &Table<B>,
    form: Form,
) -> Result<(), SinkFault>
    requires short { AreShort B.bundle.kind }
    requires few { count < 2 ^ 63 }
    requires count { count ≡ length (listed_arcs (B.bundle.listed form) table.now) }
    ensures text { Puts K.sink sink.old sink.new (graph_text B.bundle form kind nodes.now lines.now table.now) result }
    ensures flushed { OnOk result (IsTrue (K.sink.is_flushed sink.new)) }
{
    let mut block = Block::new();
    graph_line(&mut block, kind, nodes, count);
    put_nodes(&mut block, sink, lines)?;
    put_table(&mut block, sink, table, form)?;
    put_and_flush(sink, block.bytes())
}
