//! Puts a flow on canonical arcs back on the arc lines of their text. Parallel lines share the units of their pair:
//! each has its lower bound, and the rest goes to the cheapest, and among equal ones to the first. The time is linear
//! but for a search for the pair of each line, and nothing is allocated.
//!
//! `carries` says what a line of each kind can carry, `share` is what a pair has left for its lines, and `flow` fills
//! the shares from the flow and gives them to the lines, whose pairs `ahead` looks for.
#![tactic(auto)]

mod ahead;
pub mod carries;
pub mod flow;
pub mod share;

pub use flow::{SpreadFault, spread};
pub use share::PairShare;
