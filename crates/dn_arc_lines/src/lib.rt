//! The arc lines of a text in their order, each with the number of its line. A text is read in pieces of any size, in a
//! state of fixed size. A line is checked by itself: only the kind of the problem line is known of the lines before it.
//! Nothing here allocates.
//!
//! `arc_lines` reads, and `arc_line` makes the arc line of an item or of a row.
#![tactic(auto)]

pub mod arc_line;
pub mod arc_lines;
pub mod laws;

pub use arc_line::ArcLine;
pub use arc_lines::{ArcLines, Given};
