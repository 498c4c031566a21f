// How the arcs of one ordered pair differ in meaning.

/// The least amount at which two cost curves differ, and the least cost of this amount on each side. A cost is `None`
/// if the amount cannot be split.
#[derive(Clone, Copy, PartialEq, Eq)]
pub struct Gap {
    pub amount: i64,
    pub left: Option<i128>,
    pub right: Option<i128>,
}

/// How the arcs of one ordered pair differ in meaning.
#[derive(Clone, Copy, PartialEq, Eq)]
pub enum How {
    /// The least lengths. A length is `None` if there is no arc.
    Lengths {
        left: Option<i64>,
        right: Option<i64>,
    },
    /// The total capacities.
    Totals {
        left: i64,
        right: i64,
    },
    /// The least amount at which the cost curves differ, with both costs.
    Costs(Gap),
}
