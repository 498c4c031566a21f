// Reads a text in any pieces.
ghost use Rattle.std.specs.Prelude.{◌≡◌, ◌≤◌, ℕ, ◌+◌, ◌-◌, ◌^◌, List, [], ◌++◌, length, take, Some, None, Err, ◌<◌, IfOk};
ghost use Rattle.dn_line.specs.State.LineStates.{used_of};
ghost use Rattle.dn_instance.specs.State.ReaderResults.{Fed, Outcome, refusal_of, fed_answer};
ghost use Rattle.dn_instance.specs.State.ReaderStates.{Advances, CountsBefore, CountsRead, DeclaresBefore, DeclaresRead, KeepsRefusal, ReaderAt, ClosesLine, TakesAll, TakesBlock, WantsAtEnd, WantsInPiece, WhileReading, first_line};
ghost use Rattle.dn_instance.specs.State.LineRefusals.{refused_at};
ghost use Rattle.dn_instance.specs.State.TextsSoFar.{AfterLines, LeftOf, TextAt};

use crate::declared::Declared;
use crate::held::Held;
use crate::refusal::{ItemFault, Place, Refusal};
use crate::text_so_far::TextSoFar;
use dn_line::{Head, LineReader, RowBlock, RowLine, left_behind};
use std::alloc::Global;

/// Reads a text that arrives in any pieces. Represents the bytes that it was fed.
#[derive(Drop)]
pub struct Reader {
    alloc: Global,
    line: LineReader,
    text: TextSoFar,
    refusal: Option<Refusal>,
}

impl Reader {
    /// Makes a reader that was fed no bytes. It allocates with `alloc`.
    pub fn new(alloc: Global) -> Reader
        ensures stands { ReaderAt result [] }
        ensures fine { refusal_of result ≡ None }
    {
        Reader {
            alloc,
            line: LineReader::new(),
            text: TextSoFar::new(alloc),
            refusal: None,
        }
    }

    // Takes the line that the line reader represents, or keeps and returns its refusal.
    fn close(&mut self) -> Result<(), Refusal>
        ensures taken { AfterLines self.old.text self.old.line (λ ls l. ClosesLine self.new ls l result) }
        ensures line { self.new.line ≡ self.old.line }
        ensures refusal { KeepsRefusal self.old self.new result }
    {
        match self.text.take_line(self.alloc, &self.line) {
            Ok(()) => Ok(()),
            Err(fault) => Err(self.refuse(fault)),
        }
    }

    // Takes a last line without an LF, if there is one, or keeps and returns its refusal.
    fn close_last(&mut self) -> Result<(), Refusal>
        ensures { WhileReading self.old (λ t. TakesAll self.new t result) }
    {
        if self.line.pending() {
            return self.close();
        }
        Ok(())
    }

    // Keeps and returns the refusal of the next line, which has this fault.
    fn refuse(&mut self, fault: ItemFault) -> Refusal
        ensures said { (ls : List (List ℕ)) → TextAt self.old.text ls
            → result ≡ refused_at (length ls + 1) fault }
        ensures refusal { refusal_of self.new ≡ Some result }
        ensures text { self.new.text ≡ self.old.text }
        ensures line { self.new.line ≡ self.old.line }
    {
        let refusal = refused_at(self.text.next_number(), fault);
        self.refusal = Some(refusal);
        refusal
    }

    // Takes a piece up to and including its first LF, or all of it if there is no LF. Returns how many bytes it takes.
    fn step(&mut self, piece: &[u8]) -> Result<usize, Refusal>
        requires { 0 < length piece.now }
        ensures used { IfOk result (λ n. n ≡ used_of piece.now) }
        ensures bound { IfOk result (λ n. n ≤ length piece.now) }
        ensures advances { WhileReading self.old (λ t. Advances self.new t (t ++ first_line piece.now) result) }
        ensures refusal { KeepsRefusal self.old self.new result }
    {
        match self.line.step(piece) {
            Ok(step) if step.ended => match self.close() {
                Ok(()) => Ok(step.used),
                Err(refusal) => Err(refusal),
            },
            Ok(step) => Ok(step.used),
            // Never: a line reader has a fixed size.
            Err(_) => Err(Refusal::Memory),
        }
    }

    // Takes rows of lines with this head one after another, or keeps and returns the refusal of the first that has a
    // fault.
    fn take_block(&mut self, head: Head, rows: &[RowLine]) -> Result<(), Refusal>
        requires room { self.now.text.closed + length rows.now < 2 ^ 63 - 2 }
        ensures taken { (ls : List (List ℕ)) (bytes end : List ℕ) → LeftOf self.old.text ls bytes end head rows.now
            → TakesBlock self.new ls bytes end result }
        ensures line { self.new.line ≡ self.old.line }
        ensures refusal { KeepsRefusal self.old self.new result }
    {
        for line in rows {
            if let Err(fault) = self.text.take(self.alloc, head, &line.row) {
                return Err(self.refuse(fault));
            }
        }
        Ok(())
    }

    // If no line is open, takes rows of plain lines at the beginning of a piece, up to the first that has a fault. If
    // there is none, takes what `step` takes. Returns how many bytes it takes.
    fn advance(&mut self, block: &mut RowBlock, piece: &[u8]) -> Result<usize, Refusal>
        requires { 0 < length piece.now }
        ensures some { IfOk result (λ n. 0 < n) }
        ensures bound { IfOk result (λ n. n ≤ length piece.now) }
        ensures advances { WhileReading self.old (λ t. (n : ℕ) × IfOk result (λ used. used ≡ n)
            × Advances self.new t (t ++ take n piece.now) result) }
        ensures refusal { KeepsRefusal self.old self.new result }
    {
        if !self.line.pending() {
            if let Some(head) = self.text.read_block(self.alloc, block, piece) {
                let rows = block.rows();
                if let Err(refusal) = self.take_block(head, rows) {
                    return Err(refusal);
                }
                let left = left_behind(rows, piece.len());
                if left < piece.len() {
                    return Ok(piece.len() - left);
                }
            }
        }
        self.step(piece)
    }

    /// Takes the next piece of the text.
    ///
    /// # Errors
    ///
    /// `Text` with the first fault of the text, as soon as the LF of its line has arrived, and not before. `Memory`
    /// only at a line that spells an item that needs memory and has no fault. Once a call has returned a refusal, every
    /// later call returns it.
    pub fn feed(&mut self, piece: &[u8]) -> Result<(), Refusal>
        ensures stands { (t : List ℕ) → ReaderAt self.old t → ReaderAt self.new (t ++ piece.now) }
        ensures fed { (t : List ℕ) → ReaderAt self.old t → Fed (t ++ piece.now) result }
        ensures memory { WantsInPiece self.old self.new piece.now result }
        ensures answer { result ≡ fed_answer (refusal_of self.new) }
        ensures again { (e : Refusal) → refusal_of self.old ≡ Some e → self.new ≡ self.old }
    {
        if let Some(refusal) = self.refusal {
            return Err(refusal);
        }
        let mut block = RowBlock::new();
        let mut at = 0;
        while at < piece.len() {
            match self.advance(&mut block, &piece[at..]) {
                Ok(used) => at += used,
                Err(refusal) => return Err(refusal),
            }
        }
        Ok(())
    }

    /// Returns the refusal of the text so far, if it is refused.
    pub fn refusal(&self) -> Option<Refusal>
        ensures { result ≡ refusal_of self.now }
    {
        self.refusal
    }

    /// Returns what the problem line declares, if it is among the complete lines so far. After a refusal, that is among
    /// the lines before the refused line.
    pub fn declared(&self) -> Option<Declared>
        ensures fine { DeclaresRead self.now result }
        ensures refused { DeclaresBefore self.now result }
    {
        self.text.declared()
    }

    /// Returns how many entries the complete lines so far make, as `Held::entries` counts them, or 0 before the problem
    /// line. After a refusal, counts those of the lines before the refused line.
    pub fn entries(&self) -> u64
        ensures fine { CountsRead self.now result }
        ensures refused { CountsBefore self.now result }
    {
        self.text.entries()
    }

    /// Takes a last line without an LF, then the end of the text, and returns the parsed instance of the whole text.
    ///
    /// # Errors
    ///
    /// The refusal that `feed` has returned. Otherwise, `Text` with the first fault of the text, which can be at its
    /// end, or `Memory` only at a last line without an LF and without a fault.
    pub fn finish(mut self) -> Result<Held, Refusal>
        ensures outcome { (t : List ℕ) → ReaderAt self t → Outcome t result }
        ensures memory { WantsAtEnd self result }
        ensures again { (e : Refusal) → refusal_of self ≡ Some e → result ≡ Err e }
    {
        if let Some(refusal) = self.refusal {
            drop(self);
            return Err(refusal);
        }
        match self.close_last() {
            Ok(()) => {}
            Err(refusal) => {
                drop(self);
                return Err(refusal);
            }
        }
        match self.text.end() {
            Ok(held) => Ok(held),
            Err(code) => Err(Refusal::Text {
                place: Place::End,
                code,
            }),
        }
    }
}

// Returns the refusal for this fault of the line with this number.
fn refused_at(number: u64, fault: ItemFault) -> Refusal
    ensures { result ≡ refused_at number fault }
{
    match fault {
        ItemFault::Text(code) => Refusal::Text {
            place: Place::Line(number),
            code,
        },
        ItemFault::Memory => Refusal::Memory,
    }
}
