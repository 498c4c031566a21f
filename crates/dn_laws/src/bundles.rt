// What parallel arcs mean, and their canonical arcs.
pub mod examples;
pub mod laws;
