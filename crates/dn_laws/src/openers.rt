// Openers of texts.
pub mod examples;
