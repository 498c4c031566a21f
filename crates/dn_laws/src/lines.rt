// Lines: their heads and fields, and the pieces in which they come.
pub mod examples;
pub mod laws;
