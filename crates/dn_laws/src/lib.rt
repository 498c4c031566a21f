//! Laws of the definitions, and worked examples of them: of numbers, lines, sources, bundles, whole texts, rows,
//! canonical texts, differences, reports, command lines, openers and runs, in the order of the data.
//!
//! A function here does nothing; its clauses are what is proved. The program does not depend on this crate.
#![tactic(auto)]

pub mod bundles;
pub mod differences;
pub mod instances;
pub mod lines;
pub mod numbers;
pub mod openers;
pub mod reports;
pub mod rows;
pub mod runs;
pub mod sources;
pub mod texts;
pub mod words;
