//! Where the bytes of a text go. A `Sink` takes bytes from the beginning of a piece. Its ghost member says which bytes
//! it has taken, whether it has failed, and whether it has passed on all that it took. `put_all` puts a whole piece.
//!
//! `bytes` keeps the bytes in memory, `room` fills a slice, `matcher` compares the bytes with a text, and `to_write`
//! passes them to a writer. `line_buffer` builds a line on the stack and puts it into a sink as one piece.
#![tactic(auto)]

pub mod bytes;
pub mod line_buffer;
pub mod matcher;
pub mod room;
pub mod sink;
pub mod to_write;

pub use bytes::Bytes;
pub use line_buffer::LineBuffer;
pub use matcher::Matcher;
pub use room::Room;
pub use sink::{Sink, SinkFault, put_all, put_and_flush};
pub use to_write::ToWrite;
