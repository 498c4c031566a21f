// Why an item is not taken, a text is not read, or a canonical text is not written.
ghost use Rattle.std.specs.Prelude.{◌≡◌};
ghost use Rattle.dn_instance.specs.Refusals.{refusal_name, refusal_number};

use dn_line::Code;
use std::error::Error;
use std::fmt;

// Why an item is not taken: it has a fault, or an allocation fails.
#[derive(Clone, Copy)]
pub(crate) enum ItemFault {
    Text(Code),
    Memory,
}

/// Where a text is refused.
#[derive(Clone, Copy, Debug, PartialEq, Eq)]
pub enum Place {
    /// At this line. Lines are counted from 1, including comments and blank lines.
    Line(u64),
    /// At the end, if no line has a fault.
    End,
}

/// Why a text was not read, or its canonical text was not written. The numbers and names are this project's profile.
#[derive(Clone, Copy, Debug, PartialEq, Eq)]
pub enum Refusal {
    /// 1 to 21: the first fault of the text, and where it is.
    Text {
        /// Where the fault is.
        place: Place,
        /// Which fault it is.
        code: Code,
    },
    /// 30: an allocation failed.
    Memory,
    /// 31: the source of bytes failed.
    Read,
    /// 32: 2^40 pulls gave bytes, and the source did not end.
    Endless,
    /// 33: the sink of bytes failed.
    Write,
    /// 34: the canonical text has more than 2^63-1 counted lines.
    CountTooLarge,
}

impl fmt::Display for Refusal {
    fn fmt<W: fmt::Write>(&self, f: &mut fmt::Formatter<W>) -> fmt::Result {
        f.write_str(match self {
            Refusal::Text { .. } => "faulty text",
            Refusal::Memory => "out of memory",
            Refusal::Read => "the source of bytes failed",
            Refusal::Endless => "the source of bytes has no end",
            Refusal::Write => "the sink of bytes failed",
            Refusal::CountTooLarge => "too many canonical lines",
        })
    }
}

impl Error for Refusal {}

impl Refusal {
    /// Returns the number of the refusal: 1 to 21, or 30 to 34.
    pub fn number(self) -> u8
        ensures { result ≡ refusal_number self }
    {
        match self {
            Refusal::Text { code, .. } => code.number(),
            Refusal::Memory => 30,
            Refusal::Read => 31,
            Refusal::Endless => 32,
            Refusal::Write => 33,
            Refusal::CountTooLarge => 34,
        }
    }

    /// Returns the name of the refusal as it is printed: the name of the fault for `Text`, and the name of the variant
    /// otherwise.
    pub fn name(self) -> &'static str
        ensures { result.now ≡ refusal_name self }
    {
        match self {
            Refusal::Text { code, .. } => code.name(),
            Refusal::Memory => "Memory",
            Refusal::Read => "Read",
            Refusal::Endless => "Endless",
            Refusal::Write => "Write",
            Refusal::CountTooLarge => "CountTooLarge",
        }
    }
}
