//! Arcs without their nodes, and what the parallel arcs of one ordered pair mean. The modules have plain types,
//! `specs/` has the definitions over them, and `proofs/` has the laws of these definitions. The bundles of `dn_bundle`
//! rest on these laws.
#![tactic(auto)]

pub mod arc;
pub mod difference;
pub mod fixed;

pub use arc::{CapArc, CostArc, Form, LengthArc, Parts};
pub use difference::{Gap, How};
pub use fixed::Fixed;
