// First differences.
pub mod examples;
pub mod laws;
