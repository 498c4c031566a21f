//! The lines that the commands `show`, `check` and `compare` print: what a parsed instance contains and means, what was
//! found of accepted texts, and where two texts first differ. Each line is put at once, nothing is allocated, and the
//! sink is flushed after the last line. The crate also has the lines that say why a text is refused, or why a companion
//! does not fit.
//!
//! `show`, `check` and `verdict` have the lines of one command each. They use `lines`, which makes and puts single
//! lines, and `pair_line`, which makes the line of an ordered pair. `fault_line` has the lines of refusals.
#![tactic(auto)]

pub mod check;
pub mod fault_line;
mod lines;
mod pair_line;
pub mod show;
pub mod verdict;

pub use check::{Forms, put_checked};
pub use fault_line::{put_fault_line, put_unfit_line};
pub use show::put_shown;
pub use verdict::put_verdict;
