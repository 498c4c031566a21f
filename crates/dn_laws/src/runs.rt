// Runs of the program.
pub mod examples;
pub mod laws;
