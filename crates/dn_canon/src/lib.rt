//! Canonical texts: which instances are canonical in each form, how an instance is printed, and which text is the
//! canonical text of an instance. Writing a canonical text into a sink allocates nothing.
//!
//! In the order of the data: `canon` has the public functions, from a parsed instance, a text or a source to a sink;
//! `writer` walks the lines; `print` appends each line to a `block`.
#![tactic(auto)]

mod block;
pub mod canon;
mod print;
mod writer;

pub use canon::{canon_run, canon_text, is_canon, is_canon_of, write_canon};
pub use dn_sink::{Bytes, Room, Sink, SinkFault, ToWrite};
