// What a handle holds.

use dn_arc_lines::ArcLines;
use dn_instance::{Held, Reader, Refusal};
use std::alloc::Global;

/// What a handle holds.
#[derive(Drop)]
pub enum Work {
    /// A reader that is fed a text.
    Reading(Reader),
    /// A reader of arc lines that is fed a text.
    Lines(ArcLines),
    /// The parsed instance of a text, and what a canonical text is allocated with.
    Read(Held, Global),
    /// Why a text was refused at its end.
    Refused(Refusal),
    /// A canonical text.
    Text(Vec<u8>),
}
