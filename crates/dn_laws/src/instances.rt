// Whole texts, and the instances that they read as.
pub mod examples;
pub mod laws;
