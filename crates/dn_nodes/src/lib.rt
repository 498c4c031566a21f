//! Values by node: `NodeMap` has a value for each of some nodes, by ascending node.
#![tactic(auto)]

mod links;
pub mod node_map;
mod walk;

pub use node_map::{NodeMap, Nodes};
