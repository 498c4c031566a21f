//! The command line: which command a line of words asks for.
//!
//! In the order of the data: `command` has the commands, and recognises their plain forms; `request` returns what to do
//! for any line, and reads lines other than plain forms with `clap`, which gets the `options`; `help` has the help
//! texts.
#![tactic(auto)]

pub mod command;
mod help;
mod options;
pub mod request;

pub use command::Command;
pub use request::{Request, request_of};
