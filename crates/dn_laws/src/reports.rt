// The lines that commands print.
pub mod examples;
