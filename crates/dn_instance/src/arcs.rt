// Merges arcs into the bundles of their pairs as they arrive.
ghost use Rattle.std.specs.Prelude.{◌≡◌, ◌&&◌, OnErr};
ghost use Rattle.dn_instance.specs.State.ArcTakes.{AnswersArc, GainsArc, NeedsForArc};
ghost use Rattle.dn_instance.specs.State.ItemFaults.{in_graph, item_fault};

use crate::refusal::ItemFault;
use dn_bundle::{Bundle, BundleFault};
use dn_line::Code;
use dn_table::TableSoFar;
use std::alloc::Global;

// Whether a graph with this many nodes has the node.
pub(crate) fn in_graph(nodes: &i64, id: &i64) -> bool
    ensures { result ≡ in_graph nodes.now id.now }
{
    0 < *id && *id <= *nodes
}

// Takes an arc between the nodes of a pair. On a fault, nothing changes.
#[inline(always)]
pub(crate) fn take_arc<B: Bundle>(
    table: &mut TableSoFar<B>,
    alloc: Global,
    nodes: &i64,
    pair: (i64, i64),
    arc: B::Arc,
) -> Result<(), ItemFault>
    ensures answer { AnswersArc B.bundle nodes.now table.old (pair, arc) result }
    ensures stands { GainsArc B.bundle table.old table.new (pair, arc) result }
    ensures err { OnErr result (table.new ≡ table.old) }
    ensures memory { NeedsForArc B.bundle table.old (pair, arc) result }
{
    if !joins_nodes(nodes, &pair) {
        return Err(ItemFault::Text(Code::NodeOutOfRange));
    }
    if !B::is_arc(&arc) {
        return Err(ItemFault::Text(Code::LowAboveCap));
    }
    match table.add(alloc, pair, arc) {
        Ok(()) => Ok(()),
        Err(fault) => Err(item_fault(fault)),
    }
}

// Returns the fault of an item whose arc a bundle does not take. Within its caller, it would be worked out for each
// arc.
#[cold]
#[inline(never)]
fn item_fault(fault: BundleFault) -> ItemFault
    ensures { result ≡ item_fault fault }
{
    match fault {
        BundleFault::Sum => ItemFault::Text(Code::SumTooLarge),
        BundleFault::Memory => ItemFault::Memory,
    }
}

// Whether a graph with this many nodes has both nodes of a pair.
fn joins_nodes(nodes: &i64, pair: &(i64, i64)) -> bool
    ensures { result ≡ (in_graph nodes.now pair.now.0 && in_graph nodes.now pair.now.1) }
{
    in_graph(nodes, &pair.0) && in_graph(nodes, &pair.1)
}
