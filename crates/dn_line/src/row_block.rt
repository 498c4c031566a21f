// Reads several lines of a letter and numbers at once, if they are in plain spelling.
ghost use Rattle.std.specs.Prelude.{◌≡◌, ◌≤◌, ℕ, List, [], length, take, true};
ghost use Rattle.dn_line.specs.State.LineStates.{is_clear};
ghost use Rattle.dn_line.specs.State.RowBlocks.{AreRowsOf, BeginWithRows, last_left};
ghost use Rattle.dn_line.specs.State.Rows.{AreNumeric, HasFields};

use crate::kind::Kind;
use crate::line_table::number_fields;
use crate::row::{Five, NO_ROW, One, Row, Three, Two, Width, any_row, short_row};
use crate::word::Field;
use std::marker::Model;

/// The greatest count of rows that one block reads.
pub const BLOCK: usize = 16;

/// A row of a block.
#[derive(Clone, Copy)]
pub struct RowLine {
    /// The row.
    pub row: Row,
    /// The count of bytes that follow the LF of its line.
    pub left: usize,
}

// Fills the unused places of a block.
const NO_LINE: RowLine = RowLine {
    row: NO_ROW,
    left: 0,
};

/// The rows of consecutive plain lines at the beginning of some bytes.
#[derive(Drop)]
pub struct RowBlock {
    rows: [RowLine; BLOCK],
    len: usize,
}

impl Model for RowBlock {
    ghost use Rattle.std.specs.Prelude.{◌≤◌, List, take};
    ghost use Rattle.dn_line.specs.declared.row_block.RowLine.{RowLine};
    ghost use Rattle.dn_line.specs.declared.row_block.TheConstants.{BLOCK};

    ghost Value = { List RowLine };

    ghost view = { λ b. take b.len b.rows };

    ghost invariant = { λ b. b.len ≤ BLOCK };
}

impl RowBlock {
    /// Returns a block without rows.
    pub fn new() -> RowBlock
        ensures { result ≡ [] }
    {
        RowBlock {
            rows: [NO_LINE; BLOCK],
            len: 0,
        }
    }

    /// Replaces the block by the rows of the lines at the beginning of these bytes, in a text of this kind. All of
    /// these lines begin with the same letter. It stops before the first line that is not such a line in plain
    /// spelling, after `most` rows, and when the block is full.
    pub fn read(&mut self, kind: Kind, most: usize, bytes: &[u8])
        ensures rows { BeginWithRows kind bytes.now self.new }
        ensures few { length self.new ≤ most }
    {
        self.len = 0;
        let [letter, ..] = bytes else {
            return;
        };
        let Some(fields) = number_fields(kind, *letter) else {
            return;
        };
        self.len = match fields.len() {
            1 => fill::<One>(&mut self.rows, *letter, fields, most, bytes),
            2 => fill::<Two>(&mut self.rows, *letter, fields, most, bytes),
            3 => fill::<Three>(&mut self.rows, *letter, fields, most, bytes),
            5 => fill::<Five>(&mut self.rows, *letter, fields, most, bytes),
            _ => 0,
        };
    }

    /// Returns the rows of the block, at most `BLOCK`.
    pub fn rows(&self) -> &[RowLine]
        ensures rows { result.now ≡ self.now }
        ensures few { length result.now ≤ BLOCK }
    {
        &self.rows[..self.len]
    }
}

// Writes the rows of the lines at the beginning of these bytes that have this letter and numbers that fit these fields,
// at most this many, and returns how many there are. By itself it needs fewer registers than within its caller.
#[inline(never)]
fn fill<N: Width>(
    rows: &mut [RowLine; BLOCK],
    letter: u8,
    fields: &[Field],
    most: usize,
    bytes: &[u8],
) -> usize
    requires clear { is_clear letter ≡ true }
    requires count { length fields.now ≡ N.count }
    requires numeric { AreNumeric fields.now }
    ensures rows { AreRowsOf letter fields.now bytes.now (take result rows.new) }
    ensures few { result ≤ most }
    ensures within { result ≤ BLOCK }
{
    let mut rest = bytes;
    let end = most.min(BLOCK);
    for i in 0..end {
        let next = match short_row::<N>(letter, fields, rest) {
            Some(next) => next,
            None => match any_row::<N>(letter, fields, rest) {
                Some(next) => next,
                None => return i,
            },
        };
        rest = next.rest;
        rows[i] = RowLine {
            row: next.row,
            left: rest.len(),
        };
    }
    end
}

/// Returns how many bytes follow the last of these lines, which begin a piece of `all` bytes. If there are no lines,
/// this is `all`.
pub fn left_behind(rows: &[RowLine], all: usize) -> usize
    ensures { result ≡ last_left all rows.now }
{
    if rows.is_empty() {
        all
    } else {
        rows[rows.len() - 1].left
    }
}
