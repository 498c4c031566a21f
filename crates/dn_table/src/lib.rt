//! Bundles by ordered pair. `TableSoFar` takes arcs as they arrive, and merges each into the bundle of its pair.
//! `Table` has the bundles by ascending pair.
#![tactic(auto)]

mod entry_sum;
pub mod table;
pub mod table_so_far;

pub use table::{Pairs, Prefetch, Table};
pub use table_so_far::TableSoFar;
