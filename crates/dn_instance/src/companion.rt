// Judges whether a companion fits a graph.
ghost use Rattle.std.specs.Prelude.{◌≡◌, ◌∷◌, []};
ghost use Rattle.std.specs.List.{flat_map};
ghost use Rattle.std.specs.Map.{keys_of};
ghost use Rattle.dn_instance.specs.Companions.{both_nodes, companion_fit, fault_name, fault_number, within};
ghost use Rattle.dn_instance.specs.State.Helds.{OfBoth};

use crate::held::Held;
use crate::view::View;
use dn_nodes::NodeMap;
use thiserror::Error;

/// Why a companion does not fit a graph. The numbers and names are this project's profile.
#[derive(Clone, Copy, Debug, PartialEq, Eq, Error)]
pub enum CompanionFault {
    /// 36: the first text is not `sp`, or the second is not a companion.
    #[error("not a graph and a companion")]
    NotKinds,
    /// 35: the companion names a node above NODES.
    #[error("node not in the graph")]
    NotInGraph {
        /// The first such node: in the order of the file for `ss` and `p2p`, and by ascending ID for `co`.
        id: i64,
    },
}

impl CompanionFault {
    /// Returns the number of the fault: 35 or 36.
    pub fn number(self) -> u8
        ensures { result ≡ fault_number self }
    {
        match self {
            CompanionFault::NotInGraph { .. } => 35,
            CompanionFault::NotKinds => 36,
        }
    }

    /// Returns the name of the fault as it is printed, which is the name of the variant.
    pub fn name(self) -> &'static str
        ensures { result.now ≡ fault_name self }
    {
        match self {
            CompanionFault::NotInGraph { .. } => "NotInGraph",
            CompanionFault::NotKinds => "NotKinds",
        }
    }
}

/// Checks that the nodes that a companion names are nodes of the graph. Allocates nothing.
///
/// # Errors
///
/// `NotKinds` unless `graph` is `sp` and `companion` is `ss`, `p2p` or `co`. Otherwise `NotInGraph` with the first node
/// above NODES, if there is one.
pub fn check_companion(graph: &Held, companion: &Held) -> Result<(), CompanionFault>
    ensures { OfBoth graph.now companion.now (λ I J. result ≡ companion_fit I J) }
{
    let View::Sp { .. } = graph.view() else {
        return Err(CompanionFault::NotKinds);
    };
    let nodes = graph.nodes();
    match companion.view() {
        View::Ss { items } => check_ids(&nodes, items),
        View::P2p { items } => check_pairs(&nodes, items),
        View::Co { points } => check_points(&nodes, points),
        _ => Err(CompanionFault::NotKinds),
    }
}

// Checks that a node is at most NODES.
fn check_id(nodes: &i64, id: &i64) -> Result<(), CompanionFault>
    ensures { result ≡ within nodes.now (id.now ∷ []) }
{
    if *nodes < *id {
        Err(CompanionFault::NotInGraph { id: *id })
    } else {
        Ok(())
    }
}

// Checks that each node of a list is at most NODES.
fn check_ids(nodes: &i64, ids: &[i64]) -> Result<(), CompanionFault>
    ensures { result ≡ within nodes.now ids.now }
{
    for id in ids {
        if let Err(fault) = check_id(nodes, id) {
            return Err(fault);
        }
    }
    Ok(())
}

// Checks that both nodes of each pair are at most NODES, the first node before the second.
fn check_pairs(nodes: &i64, pairs: &[(i64, i64)]) -> Result<(), CompanionFault>
    ensures { result ≡ within nodes.now (flat_map both_nodes pairs.now) }
{
    for pair in pairs {
        if let Err(fault) = check_id(nodes, &pair.0) {
            return Err(fault);
        }
        if let Err(fault) = check_id(nodes, &pair.1) {
            return Err(fault);
        }
    }
    Ok(())
}

// Checks that the ID of each point is at most NODES, by ascending ID.
fn check_points(nodes: &i64, points: &NodeMap<(i64, i64)>) -> Result<(), CompanionFault>
    ensures { result ≡ within nodes.now (keys_of points.now.entries) }
{
    for (id, _) in points.iter() {
        if let Err(fault) = check_id(nodes, &id) {
            return Err(fault);
        }
    }
    Ok(())
}
