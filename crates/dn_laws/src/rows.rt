// Rows of a text.
pub mod examples;
