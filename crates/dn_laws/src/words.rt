// What command lines ask for.
pub mod examples;
pub mod laws;
