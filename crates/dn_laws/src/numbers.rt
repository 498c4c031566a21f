// Words of digits, and the numbers that they spell.
pub mod examples;
pub mod laws;
