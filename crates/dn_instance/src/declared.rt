// What the problem line of a text declares.

use dn_line::Kind;

/// What the problem line of a text declares.
#[derive(Clone, Copy)]
pub struct Declared {
    /// The kind of the text.
    pub kind: Kind,
    /// NODES, or 0 for a companion.
    pub nodes: i64,
    /// The number of counted lines: ARCS or K.
    pub lines: i64,
}
