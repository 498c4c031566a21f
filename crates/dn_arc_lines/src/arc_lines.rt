// Reads the arc lines of a text that arrives in any pieces.
ghost use Rattle.std.specs.Prelude.{◌≡◌, ◌⊎◌, ◌≤◌, ◌<◌, ◌+◌, ℕ, List, [], ◌∷◌, ◌++◌, length, take, drop, IfSome, None, Some};
ghost use Rattle.dn_line.specs.declared.code.Code.{Code};
ghost use Rattle.dn_line.specs.State.LineStates.{LineSoFar, LineReaderAt};
ghost use Rattle.dn_arc_lines.specs.State.ArcLines.{arc_lines, own_fault};
ghost use Rattle.dn_arc_lines.specs.State.Reading.{ArcLinesAt, Adds, Hands, HasLines, TakesLines, fault_of};

use crate::arc_line::{ArcLine, arc_line_in, kind_then, put_rows};
use dn_line::{BLOCK, Code, Kind, LineReader, RowBlock, left_behind};

// The greatest number of lines that a text may have.
const LAST: u64 = (1 << 63) - 2;

/// How much a call took and gave.
#[derive(Clone, Copy, Drop)]
pub struct Given {
    /// The count of bytes of the piece that it took.
    pub used: usize,
    /// The count of arc lines that it wrote.
    pub count: usize,
}

/// Reads the arc lines of a text that arrives in any pieces, up to the first line that has a fault by itself.
/// Represents the bytes that it took.
#[derive(Drop)]
pub struct ArcLines {
    line: LineReader,
    // The kind of the problem line, once it was read.
    known: Option<Kind>,
    // The number of complete lines without a fault.
    number: u64,
    // The fault of the line after them, if it has one.
    fault: Option<Code>,
}

impl ArcLines {
    /// Returns a reader that took no bytes.
    pub fn new() -> ArcLines
        ensures stands { ArcLinesAt result [] }
        ensures fine { fault_of result ≡ None }
    {
        ArcLines {
            line: LineReader::new(),
            known: None,
            number: 0,
            fault: None,
        }
    }

    /// Returns the number and the fault of the line at which the reader stopped, if it did.
    pub fn stop(&self) -> Option<(u64, Code)>
        ensures first { (t : List ℕ) → ArcLinesAt self.now t → result ≡ own_fault t }
        ensures none { result ≡ None → fault_of self.now ≡ None }
    {
        match self.fault {
            // A text has fewer than 2^63 lines (`TooLong`), so nothing saturates.
            Some(code) => Some((self.number.saturating_add(1), code)),
            None => None,
        }
    }

    // Takes the line that the line reader represents, and writes its arc line behind the first `at`, if it is one.
    // Returns how many there are then.
    fn close(&mut self, out: &mut [ArcLine], at: usize) -> usize
        requires room { at < length out.old }
        requires fine { fault_of self.old ≡ None }
        ensures taken { (ls : List (List ℕ)) (l : LineSoFar) → HasLines self.old ls → LineReaderAt self.old.line l
            → Adds self.new ls (l.bytes ∷ []) (take at out.old) (take result out.new) }
        ensures rest { drop result out.new ≡ drop result out.old }
        ensures line { self.new.line ≡ self.old.line }
        ensures more { at ≤ result }
        ensures fits { result ≤ length out.new }
    {
        if LAST <= self.number {
            self.fault = Some(Code::TooLong);
            return at;
        }
        match self.line.fields(self.known) {
            Ok(item) => {
                self.number += 1;
                self.known = kind_then(self.known, &item);
                match arc_line_in(self.number, &item) {
                    Some(arc) => {
                        out[at] = arc;
                        at + 1
                    }
                    None => at,
                }
            }
            Err(code) => {
                self.fault = Some(code);
                at
            }
        }
    }

    // Takes a piece up to and including its first LF, or all of it if there is no LF.
    fn step(&mut self, piece: &[u8], out: &mut [ArcLine], at: usize) -> Given
        requires some { 0 < length piece.now }
        requires room { at < length out.old }
        requires fine { fault_of self.old ≡ None }
        ensures hands { (t : List ℕ) → ArcLinesAt self.old t → Hands self.new t (t ++ take result.used piece.now)
            (take at out.old) (take result.count out.new) }
        ensures rest { drop result.count out.new ≡ drop result.count out.old }
        ensures some { 0 < result.used }
        ensures bound { result.used ≤ length piece.now }
        ensures more { at ≤ result.count }
        ensures fits { result.count ≤ length out.new }
    {
        match self.line.step(piece) {
            Ok(step) if step.ended => Given {
                used: step.used,
                count: self.close(out, at),
            },
            Ok(step) => Given {
                used: step.used,
                count: at,
            },
            // Never: a line reader has a fixed size.
            Err(_) => Given {
                used: piece.len(),
                count: at,
            },
        }
    }

    // Takes plain arc lines at the beginning of a piece, at most as many as there is room for behind the first `at`. No
    // line is open. Returns none if there are none. The block is memory to read into.
    fn take_rows(
        &mut self,
        block: &mut RowBlock,
        piece: &[u8],
        out: &mut [ArcLine],
        at: usize,
    ) -> Option<Given>
        requires room { at < length out.old }
        requires fine { fault_of self.old ≡ None }
        ensures taken { IfSome result (λ g. (ls : List (List ℕ)) → HasLines self.old ls → TakesLines self.new ls
            (take g.used piece.now) (take at out.old) (take g.count out.new)) }
        ensures rest { IfSome result (λ g. drop g.count out.new ≡ drop g.count out.old) }
        ensures bound { IfSome result (λ g. g.used ≤ length piece.now) }
        ensures some { IfSome result (λ g. 0 < g.used) }
        ensures more { IfSome result (λ g. at ≤ g.count) }
        ensures fits { IfSome result (λ g. g.count ≤ length out.new) }
        ensures none { result ≡ None → (self.new ≡ self.old) × (out.new ≡ out.old) }
        ensures line { self.new.line ≡ self.old.line }
    {
        let kind = self.known?;
        let [letter, ..] = piece else {
            return None;
        };
        if *letter != b'a' || LAST - BLOCK as u64 <= self.number {
            return None;
        }
        block.read(kind, out.len() - at, piece);
        let rows = block.rows();
        if rows.is_empty() {
            return None;
        }
        put_rows(rows, self.number, out, at);
        self.number += rows.len() as u64;
        Some(Given {
            // No more bytes are left than there were, so nothing saturates.
            used: piece.len().saturating_sub(left_behind(rows, piece.len())),
            count: at + rows.len(),
        })
    }

    // If no line is open, takes plain arc lines at the beginning of a piece. If there are none, takes what `step`
    // takes.
    fn advance(
        &mut self,
        block: &mut RowBlock,
        piece: &[u8],
        out: &mut [ArcLine],
        at: usize,
    ) -> Given
        requires some { 0 < length piece.now }
        requires room { at < length out.old }
        requires fine { fault_of self.old ≡ None }
        ensures hands { (t : List ℕ) → ArcLinesAt self.old t → Hands self.new t (t ++ take result.used piece.now)
            (take at out.old) (take result.count out.new) }
        ensures rest { drop result.count out.new ≡ drop result.count out.old }
        ensures some { 0 < result.used }
        ensures bound { result.used ≤ length piece.now }
        ensures more { at ≤ result.count }
        ensures fits { result.count ≤ length out.new }
    {
        if !self.line.pending() {
            if let Some(given) = self.take_rows(block, piece, out, at) {
                return given;
            }
        }
        self.step(piece, out, at)
    }

    /// Takes the next bytes of the text, and writes the arc lines among the lines that these end. Takes all bytes,
    /// unless it fills `out` before, or a line has a fault by itself: then it takes the bytes up to the end of the last
    /// line that it took. Once a line had a fault, it takes no more bytes. What follows the arc lines in `out` stays.
    pub fn feed(&mut self, piece: &[u8], out: &mut [ArcLine]) -> Given
        ensures stands { (t : List ℕ) → ArcLinesAt self.old t → ArcLinesAt self.new (t ++ take result.used piece.now) }
        ensures rows { (t : List ℕ) → ArcLinesAt self.old t
            → arc_lines (t ++ take result.used piece.now) ≡ arc_lines t ++ take result.count out.new }
        ensures rest { drop result.count out.new ≡ drop result.count out.old }
        ensures again { (code : Code) → fault_of self.old ≡ Some code
            → (result.used ≡ 0) × (result.count ≡ 0) × (self.new ≡ self.old) }
        ensures all { fault_of self.new ≡ None → (result.used ≡ length piece.now) ⊎ (result.count ≡ length out.new) }
        ensures bound { result.used ≤ length piece.now }
        ensures fits { result.count ≤ length out.new }
    {
        let mut block = RowBlock::new();
        let mut used = 0;
        let mut count = 0;
        while used < piece.len() && count < out.len() && self.fault.is_none() {
            let given = self.advance(&mut block, &piece[used..], out, count);
            used += given.used;
            count = given.count;
        }
        Given { used, count }
    }
}
