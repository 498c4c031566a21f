// The fixed arcs of a cost curve.

/// The fixed arcs of a cost curve: none, one arc, or two arcs. Of two arcs, the second carries `above` units at `cost`
/// + 1.
#[derive(Clone, Copy, PartialEq, Eq)]
pub enum Fixed {
    Zero,
    One { units: i64, cost: i64 },
    Two { units: i64, cost: i64, above: i64 },
}
