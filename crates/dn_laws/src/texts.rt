// Canonical texts.
pub mod examples;
pub mod laws;
