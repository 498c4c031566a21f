// Sources of texts.
pub mod examples;
