//! The first difference between two parsed instances. `compare` returns `Same` if and only if they are the same
//! problem. Otherwise it returns the first variant of `Verdict` that is true of them, at its least ID, pair, amount or
//! index, with the values of both sides. For any two instances exactly one verdict is right, and it depends only on
//! what they mean.
//!
//! In the order of the data: `side` says how the entries of a table or a map are compared, `peeked` walks over them,
//! `parting` finds where two sides first differ, and `difference` makes a `Verdict` of it, a type of `dn_instance`.
#![tactic(auto)]

mod difference;
mod parting;
mod peeked;
mod side;

pub use difference::compare;
pub use dn_instance::Verdict;
