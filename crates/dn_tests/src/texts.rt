// Texts, and their canonical texts.

// Parallel arcs, arcs in both directions, a self-loop and a negative length.
pub(crate) const ROADS: &str =
    "p sp 3 7\na 1 2 7\na 1 2 3\na 2 1 4\na 1 2 3\na 2 2 0\na 3 1 -5\na 2 3 9\n";

// The canonical text of `ROADS`.
pub(crate) const ROADS_CANON: &str = "p sp 3 5\na 1 2 3\na 2 1 4\na 2 2 0\na 2 3 9\na 3 1 -5\n";
