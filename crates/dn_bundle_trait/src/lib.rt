//! What bundles promise: the trait of what the parallel arcs of one ordered pair mean, for each kind of arc. `bundle`
//! has the trait, and makes a bundle from a list of arcs. The crates above need only the trait to merge arcs by pair.
#![tactic(auto)]

pub mod bundle;

pub use bundle::{Bundle, BundleFault, bundle_of};
pub use dn_arc_theory::{CapArc, CostArc, Fixed, Form, Gap, How, LengthArc, Parts};
