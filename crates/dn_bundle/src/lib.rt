//! What the parallel arcs of one ordered pair of nodes mean: the least length, the total capacity, or the cost curve. A
//! bundle merges arcs as they arrive. It lists canonical arcs that mean the same, in form 1 and in form 2. It refuses
//! an arc with which the capacities would sum to more than 2^63-1, and it finds the first difference from another
//! bundle.
//!
//! `dn_bundle_trait` has the trait, and makes a bundle from a list of arcs. `least`, `total` and `curve` have the three
//! kinds of bundles. A curve stores its breakpoints in `steps`, and computes costs of 128 bits by `cost128`.
//! `curve::shape` stores the numbers of a curve, `curve::numbers` reads them, and `curve::canon_arcs` lists its
//! canonical arcs. `difference` finds the first gap between the breakpoints of two curves.
#![tactic(auto)]

mod cost128;
pub mod curve;
mod difference;
pub mod least;
mod steps;
pub mod total;

pub use curve::Curve;
pub use dn_arc_theory::{CapArc, CostArc, Fixed, Form, Gap, How, LengthArc, Parts};
pub use dn_bundle_trait::{Bundle, BundleFault, bundle_of};
pub use least::Least;
pub use total::Total;
