//! A run of the program, over any files and any streams: the words of the command line, the texts that it asks for by
//! name, the line that says why it was refused, and the exit status.
//!
//! In the order of the data: `texts` reads texts by name, `commands` performs the commands, `findings` puts what
//! `check` and `compare` find in texts that were read, `stop` has the reasons why a command stops before it is done,
//! `runs` does what the words ask for, and `host_runs` does it over the texts that the host opens.
#![tactic(auto)]

mod commands;
mod findings;
pub mod host_runs;
pub mod runs;
mod stop;
mod texts;

pub use host_runs::run_on;
pub use runs::run;
