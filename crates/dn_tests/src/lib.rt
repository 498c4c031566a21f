//! Tests of what no clause says of the libraries: that calls succeed where memory may run out, that plain numbers and
//! lines are found, in which way pairs are found, that streams which failed are not tried again, and what is printed.
//! The tests have a crate of their own, so that a library is proved once, and not a second time with its tests.
#![tactic(auto)]

#[cfg(test)]
mod commands;
#[cfg(test)]
mod indexes;
#[cfg(test)]
mod lines;
#[cfg(test)]
mod memory;
#[cfg(test)]
mod numbers;
#[cfg(test)]
mod streams;
#[cfg(test)]
mod texts;
