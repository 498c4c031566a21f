// Takes items other than arcs as they arrive.
ghost use Rattle.std.specs.Prelude.{◌≡◌, ◌≤◌, ◌≤ℤ◌, pos, vec_capacity, vec_len, [], ◌∷◌, ◌++◌, OnOk, OnErr, Some, None, cond, Err};
ghost use Rattle.std.specs.Ordering.{int_eq};
ghost use Rattle.dn_line.specs.declared.code.Code.TheVariants.{RepeatedNode};
ghost use Rattle.dn_nodes.specs.State.Nodes.{Gains, is_known};
ghost use Rattle.dn_instance.specs.State.ItemFaults.{AnswersFault, supply_fault, terminal_fault, id_fault, pair_fault, point_fault};

use crate::arcs::in_graph;
use crate::refusal::ItemFault;
use dn_line::Code;
use dn_nodes::NodeMap;

// Takes the node of a `max` node line. `own` is the terminal of the letter of this line, and `other` is the other
// terminal. On a fault, nothing changes.
pub(crate) fn set_terminal(
    own: &mut Option<i64>,
    other: &Option<i64>,
    nodes: &i64,
    id: &i64,
) -> Result<(), ItemFault>
    ensures answer { AnswersFault result (terminal_fault nodes.now own.old other.now id.now) }
    ensures ok { OnOk result (own.new ≡ Some id.now) }
    ensures err { OnErr result (own.new ≡ own.old) }
    ensures memory { result ≡ Err ItemFault.Memory → ⊥ }
{
    if !in_graph(nodes, id) {
        return Err(ItemFault::Text(Code::NodeOutOfRange));
    }
    if own.is_some() {
        return Err(ItemFault::Text(Code::RepeatedNode));
    }
    if let Some(node) = other {
        if *node == *id {
            return Err(ItemFault::Text(Code::SameTerminal));
        }
    }
    *own = Some(*id);
    Ok(())
}

// Takes the ID of an `s` line of an `ss` text. On a fault, nothing changes.
#[inline(always)]
pub(crate) fn push_source(ids: &mut Vec<i64>, id: &i64) -> Result<(), ItemFault>
    ensures answer { AnswersFault result (id_fault id.now) }
    ensures ok { OnOk result (ids.new.items ≡ ids.old.items ++ id.now ∷ []) }
    ensures err { OnErr result (ids.new.items ≡ ids.old.items) }
    ensures memory { result ≡ Err ItemFault.Memory → vec_capacity ids.old ≤ vec_len ids.old }
{
    if *id <= 0 {
        return Err(ItemFault::Text(Code::NodeOutOfRange));
    }
    match ids.push(*id) {
        Ok(()) => Ok(()),
        Err(_) => Err(ItemFault::Memory),
    }
}

// Takes the two IDs of a `q` line of a `p2p` text. On a fault, nothing changes.
#[inline(always)]
pub(crate) fn push_query(pairs: &mut Vec<(i64, i64)>, pair: (i64, i64)) -> Result<(), ItemFault>
    ensures answer { AnswersFault result (pair_fault pair) }
    ensures ok { OnOk result (pairs.new.items ≡ pairs.old.items ++ pair ∷ []) }
    ensures err { OnErr result (pairs.new.items ≡ pairs.old.items) }
    ensures memory { result ≡ Err ItemFault.Memory → vec_capacity pairs.old ≤ vec_len pairs.old }
{
    if pair.0 <= 0 || pair.1 <= 0 {
        return Err(ItemFault::Text(Code::NodeOutOfRange));
    }
    match pairs.push(pair) {
        Ok(()) => Ok(()),
        Err(_) => Err(ItemFault::Memory),
    }
}

// Takes a node with an `n` or a `v` line, and its value if it has one. On a fault, nothing changes.
#[inline(always)]
fn insert_node<V: Drop>(map: &mut NodeMap<V>, id: &i64, value: Option<V>) -> Result<(), ItemFault>
    requires { pos 0 ≤ℤ id.now }
    ensures answer { AnswersFault result (cond (is_known map.old id.now) (Some RepeatedNode) None) }
    ensures ok { OnOk result (Gains map.old id.now value map.new) }
    ensures err { OnErr result (map.new ≡ map.old) }
{
    if map.is_known(id) {
        return Err(ItemFault::Text(Code::RepeatedNode));
    }
    match map.insert(id, value) {
        Ok(()) => Ok(()),
        Err(_) => Err(ItemFault::Memory),
    }
}

// Takes the point of a `v` line of a `co` text. On a fault, nothing changes.
#[inline(always)]
pub(crate) fn insert_point(
    points: &mut NodeMap<(i64, i64)>,
    id: &i64,
    at: (i64, i64),
) -> Result<(), ItemFault>
    ensures answer { AnswersFault result (point_fault (is_known points.old id.now) id.now) }
    ensures ok { OnOk result (Gains points.old id.now (Some at) points.new) }
    ensures err { OnErr result (points.new ≡ points.old) }
{
    if *id <= 0 {
        return Err(ItemFault::Text(Code::NodeOutOfRange));
    }
    insert_node(points, id, Some(at))
}

// Takes the flow of a `min` node line. A node whose flow is 0 has no value. On a fault, nothing changes.
pub(crate) fn insert_supply(
    supplies: &mut NodeMap<i64>,
    nodes: &i64,
    id: &i64,
    flow: &i64,
) -> Result<(), ItemFault>
    ensures answer { AnswersFault result (supply_fault nodes.now (is_known supplies.old id.now) id.now) }
    ensures ok { OnOk result (Gains supplies.old id.now (cond (int_eq flow.now (pos 0)) None (Some flow.now))
        supplies.new) }
    ensures err { OnErr result (supplies.new ≡ supplies.old) }
{
    if !in_graph(nodes, id) {
        return Err(ItemFault::Text(Code::NodeOutOfRange));
    }
    if *flow == 0 {
        return insert_node(supplies, id, None);
    }
    insert_node(supplies, id, Some(*flow))
}
