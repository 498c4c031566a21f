//! Laws on what solvers compute: problems that are the same have the same distances, values of flows, and costs, and so
//! do a text and its canonical text. Sameness is exact: at a pair of two nodes, it is what no solver can tell apart.
//!
//! A function here does nothing; its clauses are what is proved. The program does not depend on this crate.
#![tactic(auto)]

pub mod choices;
pub mod distances;
pub mod examples;
pub mod loops;
pub mod max_flows;
pub mod min_cost_flows;
pub mod parallel;
pub mod runs;
pub mod texts;
