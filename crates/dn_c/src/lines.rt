// Hands out the arc lines of a text that is fed in pieces.
ghost use Rattle.std.specs.Prelude.{◌≡◌, ◌≤◌, length};
ghost use Rattle.dn_c.specs.State.Lines.{TakesLines, no_lines, told};

use crate::work::Work;
use dn_arc_lines::{ArcLine, Given};
use dn_line::Code;

/// What a call that reads arc lines took and gave.
#[repr(C)]
#[derive(Clone, Copy, Drop)]
pub struct Lines {
    /// The count of bytes of the piece that it took.
    pub used: usize,
    /// The count of arc lines that it wrote.
    pub count: usize,
    /// 0, the number of the fault that a line has by itself, or 40 for a call that the handle is not for.
    pub code: u8,
    /// The line that has the fault, counted from 1, or 0.
    pub line: u64,
}

/// Returns what a call took and gave that the handle is not for.
pub fn no_lines() -> Lines
    ensures { result ≡ no_lines }
{
    Lines {
        used: 0,
        count: 0,
        code: 40,
        line: 0,
    }
}

/// Feeds the next bytes of a text, and writes the arc lines among the lines that these end, as far as there is room.
pub fn lines_of(work: &mut Work, piece: &[u8], out: &mut [ArcLine]) -> Lines
    ensures takes { TakesLines work.old piece.now work.new out.old out.new result }
    ensures bound { result.used ≤ length piece.now }
    ensures fits { result.count ≤ length out.new }
{
    match work {
        Work::Lines(reader) => {
            let given = reader.feed(piece, out);
            told(given, reader.stop())
        }
        _ => no_lines(),
    }
}

// Returns what a call took and gave, and at which line the reader stopped, if it did.
fn told(given: Given, stop: Option<(u64, Code)>) -> Lines
    ensures { result ≡ told given.used given.count stop }
{
    let Given { used, count } = given;
    match stop {
        Some((line, code)) => Lines {
            used,
            count,
            code: code.number(),
            line,
        },
        None => Lines {
            used,
            count,
            code: 0,
            line: 0,
        },
    }
}
