// What a parsed instance shows.

use dn_bundle::{Curve, Least, Total};
use dn_nodes::NodeMap;
use dn_table::Table;

/// What a parsed instance holds, by kind.
#[derive(Clone, Copy)]
pub enum View<'a> {
    /// A `min` problem: the flow of each node whose flow is not 0, and a cost curve for each pair that has a bundle.
    Min {
        /// The flow of each node whose flow is not 0, by ID.
        supplies: &'a NodeMap<i64>,
        /// The cost curves by ordered pair.
        table: &'a Table<Curve>,
    },
    /// A `max` problem: its source and sink, and a total capacity for each pair that has a bundle.
    Max {
        /// The ID of the source.
        source: i64,
        /// The ID of the sink.
        sink: i64,
        /// The total capacities by ordered pair.
        table: &'a Table<Total>,
    },
    /// An `sp` graph: a least length for each pair that has a bundle.
    Sp {
        /// The least lengths by ordered pair.
        table: &'a Table<Least>,
    },
    /// An `ss` companion.
    Ss {
        /// The IDs in the order of the file.
        items: &'a [i64],
    },
    /// A `p2p` companion.
    P2p {
        /// The pairs of IDs in the order of the file.
        items: &'a [(i64, i64)],
    },
    /// A `co` companion.
    Co {
        /// X and Y by ID.
        points: &'a NodeMap<(i64, i64)>,
    },
}
